//! Messages, numbers and exports of contexts. Sealed texts are of an independent model, in hex.

ghost use Rattle.std.specs.Prelude.{◌≡◌, ◌<◌, ◌^◌, IfOk};

use super::{ConstantDraw, digits};
use hpke::laws::{mask_decapsulates, opens_what_was_sealed, seal_then_open, set_up_both};
use hpke::{
    Aead, AeadCtxR, AeadCtxS, AeadTag, AesGcm256, Deserializable, ExportOnlyAead, HkdfSha256,
    HpkeError, Kdf, MaskKem, MaskKey, OpModeR, OpModeS, setup_receiver, setup_sender,
};
use std::alloc::Global;
use std::test::Fail;

type Sender<A, D> = AeadCtxS<A, D, MaskKem>;

type Recipient<A, D> = AeadCtxR<A, D, MaskKem>;

// The contexts of both sides, for one secret and no info.
fn both_sides<A: Aead, D: Kdf>(alloc: Global) -> Result<(Sender<A, D>, Recipient<A, D>), Fail>
    ensures { IfOk result (λ sides. sides.0 ≡ sides.1) }
{
    let secret = "250268e4f061962cf6e07f3b18dbd86314b0fe8a577d62f25ea78eb3fa6e5e0e";
    let key = MaskKey::from_bytes(alloc, hex::decode(alloc, secret)?.as_slice())?;
    mask_decapsulates();
    Ok(set_up_both(
        alloc,
        &OpModeS::Base,
        &OpModeR::Base,
        &key,
        &key,
        &[],
        &mut ConstantDraw::new(0),
    )?)
}

// The same, of which nothing is known.
fn sides<A: Aead, D: Kdf>(alloc: Global) -> Result<(Sender<A, D>, Recipient<A, D>), Fail> {
    both_sides(alloc)
}

// What a text is sealed to, in hex.
fn sealed<A: Aead, D: Kdf>(
    alloc: Global,
    sender: &mut Sender<A, D>,
    text: &[u8],
    aad: &[u8],
) -> Result<String, Fail> {
    let sealed = sender.seal(alloc, text, aad)?;
    Ok(hex::encode(alloc, sealed.as_slice())?)
}

// Whether a sealed text, in hex, opens to this text.
fn opens<A: Aead, D: Kdf>(
    alloc: Global,
    recipient: &mut Recipient<A, D>,
    sealed: &str,
    aad: &[u8],
    want: &[u8],
) -> Result<bool, Fail> {
    let sealed = hex::decode(alloc, sealed)?;
    let text = recipient.open(alloc, sealed.as_slice(), aad)?;
    Ok(text.as_slice() == want)
}

// What a text is refused with.
fn open_refusal<A: Aead, D: Kdf>(
    alloc: Global,
    recipient: &mut Recipient<A, D>,
    sealed: &[u8],
    aad: &[u8],
) -> Option<HpkeError> {
    recipient.open(alloc, sealed, aad).err()
}

// The first texts of a sender, with their associated data and what they are sealed to.
const MESSAGES: [(&[u8], &[u8], &str); 2] = [
    (b"hello", b"", "e1f8f8e087b462beb787fdce4e37cbc1747d17593e"),
    (
        b"again",
        b"aad",
        "f9a5941d1ecf71ec9dc0f2a1d34f0c12e53e840138",
    ),
];

// Whether the first texts are sealed as they should be and opened, and use two numbers.
fn are_in_order<A: Aead, D: Kdf>(alloc: Global) -> Result<bool, Fail> {
    opens_what_was_sealed::<A>();
    let (mut sender, mut recipient) = sides::<A, D>(alloc)?;
    for (text, aad, want) in MESSAGES {
        let made = sealed(alloc, &mut sender, text, aad)?;
        if made.as_str() != want || !opens(alloc, &mut recipient, want, aad, text)? {
            return Ok(false);
        }
    }
    Ok(sender.number() == Some(2))
}

#[test]
fn messages_in_order(rt: HostRuntime) -> Result<(), Fail> {
    assert!(rt; are_in_order::<AesGcm256, HkdfSha256>(rt.alloc())?);
    Ok(())
}

// Whether a text under other associated data, and one that was opened, are refused.
fn refuses_forged<A: Aead, D: Kdf>(alloc: Global) -> Result<bool, Fail> {
    let (mut sender, mut recipient) = sides::<A, D>(alloc)?;
    let refused = Some(HpkeError::OpenError);
    let first = sender.seal(alloc, b"hello", b"")?;
    let forged = open_refusal(alloc, &mut recipient, first.as_slice(), b"aad");
    let unused = recipient.number();
    let opened = recipient.open(alloc, first.as_slice(), b"").is_ok();
    let again = open_refusal(alloc, &mut recipient, first.as_slice(), b"");
    Ok(forged == refused && unused == Some(0) && opened && again == refused)
}

// A text that was opened, and one under other associated data, open to nothing, and use no number.
#[test]
fn forged_messages_are_refused(rt: HostRuntime) -> Result<(), Fail> {
    assert!(rt; refuses_forged::<AesGcm256, HkdfSha256>(rt.alloc())?);
    Ok(())
}

// A text that is sealed and opened.
fn text_of_both<A: Aead, D: Kdf>(alloc: Global) -> Result<Vec<u8>, Fail> {
    let (mut sender, mut recipient) = both_sides::<A, D>(alloc)?;
    Ok(seal_then_open(alloc, &mut sender, &mut recipient, b"hello", b"aad")?)
}

#[test]
fn sealed_then_opened(rt: HostRuntime) -> Result<(), Fail> {
    let text = text_of_both::<AesGcm256, HkdfSha256>(rt.alloc())?;
    assert!(rt; text.as_slice() == b"hello".as_slice());
    Ok(())
}

// Both sides at the last number.
fn last_sides<A: Aead, D: Kdf>(alloc: Global) -> Result<(Sender<A, D>, Recipient<A, D>), Fail> {
    let (sender, recipient) = sides::<A, D>(alloc)?;
    Ok((
        sender.with_number(u64::MAX),
        recipient.with_number(u64::MAX),
    ))
}

// Whether a sender seals its last text to these digits, and nothing afterwards.
fn seals_the_last<A: Aead, D: Kdf>(
    alloc: Global,
    sender: &mut Sender<A, D>,
    want: &str,
) -> Result<bool, Fail> {
    let made = sealed(alloc, sender, b"last", b"")?;
    let number = sender.number();
    let spent = sender.seal(alloc, b"", b"").err();
    let refused = Some(HpkeError::MessageLimitReached);
    Ok(made.as_str() == want && number.is_none() && spent == refused)
}

// Whether a recipient opens the last text, and nothing afterwards: a text that is shorter than a tag
// is refused as ever.
fn opens_the_last<A: Aead, D: Kdf>(
    alloc: Global,
    recipient: &mut Recipient<A, D>,
    sealed: &str,
) -> Result<bool, Fail> {
    let opened = opens(alloc, recipient, sealed, b"", b"last")?;
    let short = open_refusal(alloc, recipient, b"fifteen bytes..", b"");
    let long = open_refusal(alloc, recipient, b"sixteen bytes...", b"");
    let refused = Some(HpkeError::MessageLimitReached);
    Ok(opened && short == Some(HpkeError::OpenError) && long == refused)
}

// Whether both sides use the last number, and none afterwards.
fn ends_at_the_last_number<A: Aead, D: Kdf>(alloc: Global) -> Result<bool, Fail> {
    let (mut sender, mut recipient) = last_sides::<A, D>(alloc)?;
    let want = "1c91253cb895c46fd1bc8787e975a080196cafc9";
    let seals = seals_the_last(alloc, &mut sender, want)?;
    Ok(seals && opens_the_last(alloc, &mut recipient, want)?)
}

#[test]
fn the_last_number(rt: HostRuntime) -> Result<(), Fail> {
    assert!(rt; ends_at_the_last_number::<AesGcm256, HkdfSha256>(rt.alloc())?);
    Ok(())
}

// What the detached calls refuse a text of two bytes with.
fn detached_refusals<A: Aead, D: Kdf>(
    sender: &mut Sender<A, D>,
    recipient: &mut Recipient<A, D>,
) -> [Option<HpkeError>; 2] {
    let sent = sender.seal_in_place_detached(&mut [1, 2], b"").err();
    let tag = AeadTag::default();
    [
        sent,
        recipient
            .open_in_place_detached(&mut [1, 2], b"", &tag)
            .err(),
    ]
}

// Whether the detached calls are refused behind the last number, and the sender still exports.
fn detached_ends<A: Aead, D: Kdf>(alloc: Global) -> Result<bool, Fail> {
    let (mut sender, mut recipient) = last_sides::<A, D>(alloc)?;
    let sealed = sender.seal(alloc, b"last", b"")?;
    let opened = recipient.open(alloc, sealed.as_slice(), b"").is_ok();
    let refused = detached_refusals(&mut sender, &mut recipient);
    let exported = sender.export(b"", &mut [0; 32]).is_ok();
    Ok(opened && refused == [Some(HpkeError::MessageLimitReached); 2] && exported)
}

#[test]
fn detached_messages_behind_the_last_number(rt: HostRuntime) -> Result<(), Fail> {
    assert!(rt; detached_ends::<AesGcm256, HkdfSha256>(rt.alloc())?);
    Ok(())
}

// Whether a tag opens a text in place, and what the text is then.
fn opened_in_place<A: Aead, D: Kdf>(
    recipient: &mut Recipient<A, D>,
    text: [u8; 5],
    tag: &AeadTag<A>,
) -> (bool, [u8; 5]) {
    let mut text = text;
    let opened = recipient
        .open_in_place_detached(&mut text, b"", tag)
        .is_ok();
    (opened, text)
}

// Whether a text is sealed to these bytes and this tag, which opens it; a tag of zeros changes nothing.
fn seals_and_opens_detached<A: Aead, D: Kdf>(alloc: Global) -> Result<bool, Fail> {
    let (mut sender, mut recipient) = sides::<A, D>(alloc)?;
    let mut text = *b"hello";
    let tag = sender.seal_in_place_detached(&mut text, b"")?;
    let tag_digits = digits(alloc, &tag)?;
    let forged = opened_in_place(&mut recipient, text, &AeadTag::default());
    let opened = opened_in_place(&mut recipient, text, &tag);
    let is_sealed = text == [0xe1, 0xf8, 0xf8, 0xe0, 0x87]
        && tag_digits.as_str() == "b462beb787fdce4e37cbc1747d17593e";
    Ok(is_sealed && forged == (false, text) && opened == (true, *b"hello"))
}

// The tag apart from the text, and a refused opening that changes nothing.
#[test]
fn detached_messages(rt: HostRuntime) -> Result<(), Fail> {
    assert!(rt; seals_and_opens_detached::<AesGcm256, HkdfSha256>(rt.alloc())?);
    Ok(())
}

// Whether both sides export this many bytes, and the same ones.
fn exports<A: Aead, D: Kdf>(alloc: Global, len: usize) -> Result<bool, Fail>
    requires { len < 2 ^ 16 }
{
    let (sender, recipient) = sides::<A, D>(alloc)?;
    let mut sent = vec![in alloc; 7; len]?;
    let mut received = vec![in alloc; 8; len]?;
    sender.export(b"context", sent.as_mut_slice())?;
    recipient.export(b"context", received.as_mut_slice())?;
    Ok(sent.as_slice() == received.as_slice())
}

// What both sides refuse an output of this many bytes with.
fn export_refusals<A: Aead, D: Kdf>(
    alloc: Global,
    len: usize,
) -> Result<[Option<HpkeError>; 2], Fail>
    requires { len < 2 ^ 16 }
{
    let (sender, recipient) = sides::<A, D>(alloc)?;
    let mut out = vec![in alloc; 7; len]?;
    let sent = sender.export(b"context", out.as_mut_slice()).err();
    Ok([sent, recipient.export(b"context", out.as_mut_slice()).err()])
}

// 255 digests, and one byte more.
#[test]
fn the_longest_export(rt: HostRuntime) -> Result<(), Fail> {
    assert!(rt; exports::<AesGcm256, HkdfSha256>(rt.alloc(), 8160)?);
    let refused = export_refusals::<AesGcm256, HkdfSha256>(rt.alloc(), 8161)?;
    assert!(rt; refused == [Some(HpkeError::KdfOutputTooLong); 2]);
    Ok(())
}

// Contexts of both sides, by the calls that set up one.
fn set_up<A: Aead, D: Kdf>(alloc: Global) -> Result<(Sender<A, D>, Recipient<A, D>), Fail> {
    let key = MaskKey::from_bytes(alloc, &[1; 32])?;
    let (encapped_key, sender) = setup_sender(
        alloc,
        &OpModeS::Base,
        &key,
        &[],
        &mut ConstantDraw::new(7),
    )?;
    let recipient = setup_receiver(alloc, &OpModeR::Base, &key, &encapped_key, &[])?;
    Ok((sender, recipient))
}

// Whether contexts refuse to seal and to open, and export.
fn only_exports<A: Aead, D: Kdf>(alloc: Global) -> Result<bool, Fail> {
    let (mut sender, mut recipient) = set_up::<A, D>(alloc)?;
    let sent = sender.seal(alloc, b"text", b"").err();
    let detached = sender.seal_in_place_detached(&mut [1, 2], b"").err();
    let opened = recipient.open(alloc, b"text", b"").err();
    let unsealed = Some(HpkeError::SealError);
    let is_refused = sent == unsealed
        && detached == unsealed
        && opened == Some(HpkeError::OpenError);
    let exported = sender.export(b"", &mut [0; 32]).is_ok();
    Ok(is_refused && exported && recipient.export(b"", &mut [0; 32]).is_ok())
}

#[test]
fn contexts_that_only_export(rt: HostRuntime) -> Result<(), Fail> {
    assert!(rt; only_exports::<ExportOnlyAead, HkdfSha256>(rt.alloc())?);
    Ok(())
}
