//! Single shots over the test KEM, in each mode.

use super::{ConstantDraw, key};
use hpke::{
    Aead, AeadTag, AesGcm128, AesGcm256, ExportOnlyAead, HkdfSha256, HkdfSha384, HkdfSha512,
    HpkeError, Kdf, MaskKem, MaskKey, OpModeR, OpModeS, PskBundle, setup_receiver, setup_sender,
    single_shot_open, single_shot_open_in_place_detached, single_shot_seal,
    single_shot_seal_in_place_detached,
};
use std::alloc::Global;
use std::test::Fail;

/// A pre-shared key.
const PSK: &[u8] = b"thirty-two bytes of a shared key";

/// The identity of the pre-shared key.
const PSK_ID: &[u8] = b"its name";

// How a sender sets up the mode of this number.
fn sender<'a>(
    alloc: Global,
    mode: u8,
    bundle: PskBundle<'a>,
) -> Result<OpModeS<'a, MaskKem>, HpkeError> {
    let mode = match mode {
        0 => OpModeS::Base,
        1 => OpModeS::Psk(bundle),
        2 => OpModeS::Auth(key(alloc, &[2; 32])?, key(alloc, &[2; 32])?),
        _ => OpModeS::AuthPsk(key(alloc, &[2; 32])?, key(alloc, &[2; 32])?, bundle),
    };
    Ok(mode)
}

// How a recipient sets up the mode of this number.
fn recipient<'a>(
    alloc: Global,
    mode: u8,
    bundle: PskBundle<'a>,
) -> Result<OpModeR<'a, MaskKem>, HpkeError> {
    let mode = match mode {
        0 => OpModeR::Base,
        1 => OpModeR::Psk(bundle),
        2 => OpModeR::Auth(key(alloc, &[2; 32])?),
        _ => OpModeR::AuthPsk(key(alloc, &[2; 32])?, bundle),
    };
    Ok(mode)
}

// What a single shot seals in the first mode, opened in the second under this info.
fn sealed_and_opened<A: Aead, D: Kdf>(
    alloc: Global,
    modes: [u8; 2],
    info: &[u8],
) -> Result<Vec<u8>, HpkeError> {
    let psk = PSK;
    let psk_id = PSK_ID;
    let bundle = PskBundle { psk, psk_id };
    let recip = key(alloc, &[1; 32])?;
    let (encapped_key, sealed) = single_shot_seal::<A, D, MaskKem, ConstantDraw>(
        alloc,
        &sender(alloc, modes[0], bundle)?,
        &recip,
        b"info",
        b"text",
        b"aad",
        &mut ConstantDraw::new(7),
    )?;
    single_shot_open::<A, D, MaskKem>(
        alloc,
        &recipient(alloc, modes[1], bundle)?,
        &recip,
        &encapped_key,
        info,
        sealed.as_slice(),
        b"aad",
    )
}

// The modes of both sides, the receiver's info, and what is refused.
fn modes_and_infos() -> &'static [([u8; 2], &'static str, Option<HpkeError>)] {
    &[
        ([0, 0], "info", None),
        ([1, 1], "info", None),
        ([0, 0], "information", Some(HpkeError::OpenError)),
        ([1, 1], "information", Some(HpkeError::OpenError)),
        ([0, 1], "info", Some(HpkeError::OpenError)),
        ([1, 0], "info", Some(HpkeError::OpenError)),
        ([2, 0], "info", Some(HpkeError::EncapError)),
        ([3, 1], "info", Some(HpkeError::EncapError)),
        ([0, 2], "info", Some(HpkeError::DecapError)),
        ([1, 3], "info", Some(HpkeError::DecapError)),
    ]
}

// Whether what the first mode seals is opened in the second, or else what refuses it.
fn is_opened_or<A: Aead, D: Kdf>(
    alloc: Global,
    modes: [u8; 2],
    info: &[u8],
    refusal: Option<HpkeError>,
) -> bool {
    match sealed_and_opened::<A, D>(alloc, modes, info) {
        Ok(text) => refusal.is_none() && text.as_slice() == b"text".as_slice(),
        Err(e) => Some(e) == refusal,
    }
}

// The test KEM takes no sender's identity.
#[test]
fn single_shots_in_each_mode(rt: HostRuntime) -> Result<(), Fail> {
    for &(modes, info, refusal) in modes_and_infos() {
        let info = info.as_bytes();
        assert!(rt; is_opened_or::<AesGcm128, HkdfSha512>(rt.alloc(), modes, info, refusal));
    }
    Ok(())
}

// What a sender's calls in this mode are refused with, where the text is as it was.
fn sending_refusals<A: Aead, D: Kdf>(
    alloc: Global,
    mode: u8,
) -> Result<Option<[Option<HpkeError>; 2]>, HpkeError> {
    let psk = PSK;
    let psk_id = PSK_ID;
    let mode_s = sender(alloc, mode, PskBundle { psk, psk_id })?;
    let recip = key(alloc, &[1; 32])?;
    let mut text = *b"text";
    let context = setup_sender::<A, D, MaskKem, ConstantDraw>(
        alloc,
        &mode_s,
        &recip,
        b"",
        &mut ConstantDraw::new(7),
    ).err();
    let shot = single_shot_seal_in_place_detached::<A, D, MaskKem, ConstantDraw>(
        alloc,
        &mode_s,
        &recip,
        b"",
        &mut text,
        b"",
        &mut ConstantDraw::new(7),
    )
    .err();
    Ok(if text == *b"text" {
        Some([context, shot])
    } else {
        None
    })
}

// What a recipient's calls in this mode are refused with, where the text is as it was.
fn receiving_refusals<A: Aead, D: Kdf>(
    alloc: Global,
    mode: u8,
) -> Result<Option<[Option<HpkeError>; 2]>, HpkeError> {
    let psk = PSK;
    let psk_id = PSK_ID;
    let mode_r = recipient(alloc, mode, PskBundle { psk, psk_id })?;
    let recip = key(alloc, &[1; 32])?;
    let mut text = *b"text";
    let context = setup_receiver::<A, D, MaskKem>(alloc, &mode_r, &recip, &recip, b"").err();
    let shot = single_shot_open_in_place_detached::<A, D, MaskKem>(
        alloc,
        &mode_r,
        &recip,
        &recip,
        b"",
        &mut text,
        b"",
        &AeadTag::default(),
    )
    .err();
    Ok(if text == *b"text" {
        Some([context, shot])
    } else {
        None
    })
}

// Whether the calls of both sides refuse a sender's identity in this mode.
fn are_refused<A: Aead, D: Kdf>(alloc: Global, mode: u8) -> Result<bool, HpkeError> {
    let sending = sending_refusals::<A, D>(alloc, mode)?;
    let receiving = receiving_refusals::<A, D>(alloc, mode)?;
    Ok(
        sending == Some([Some(HpkeError::EncapError); 2])
            && receiving == Some([Some(HpkeError::DecapError); 2]),
    )
}

// Each other call that sets up a context refuses a sender's identity too.
#[test]
fn senders_are_refused(rt: HostRuntime) -> Result<(), Fail> {
    for mode in [2, 3] {
        assert!(rt; are_refused::<AesGcm128, HkdfSha256>(rt.alloc(), mode)?);
    }
    Ok(())
}

// A text of four bytes that is sealed in place.
#[derive(Drop)]
struct Detached<A: Aead> {
    encapped_key: MaskKey,
    text: [u8; 4],
    tag: AeadTag<A>,
}

// The text sealed in place to the key.
fn sealed_in_place<A: Aead, D: Kdf>(
    alloc: Global,
    recip: &MaskKey,
) -> Result<Detached<A>, HpkeError> {
    let mut text = *b"text";
    let (encapped_key, tag) = single_shot_seal_in_place_detached::<A, D, MaskKem, ConstantDraw>(
        alloc,
        &OpModeS::Base,
        recip,
        b"info",
        &mut text,
        b"aad",
        &mut ConstantDraw::new(7),
    )?;
    Ok(Detached {
        encapped_key,
        text,
        tag,
    })
}

// What a tag answers a sealed text with, and what the text is then.
fn opened_by<A: Aead, D: Kdf>(
    alloc: Global,
    recip: &MaskKey,
    sealed: &Detached<A>,
    tag: &AeadTag<A>,
) -> (Result<(), HpkeError>, [u8; 4]) {
    let mut text = sealed.text;
    let opened = single_shot_open_in_place_detached::<A, D, MaskKem>(
        alloc,
        &OpModeR::Base,
        recip,
        &sealed.encapped_key,
        b"info",
        &mut text,
        b"aad",
        tag,
    );
    (opened, text)
}

// Whether a tag of zeros opens nothing and changes nothing, and the tag that was made opens the text.
fn opens_by_its_tag<A: Aead, D: Kdf>(alloc: Global) -> Result<bool, HpkeError> {
    let recip = key(alloc, &[1; 32])?;
    let sealed = sealed_in_place::<A, D>(alloc, &recip)?;
    let forged = opened_by::<A, D>(alloc, &recip, &sealed, &AeadTag::default());
    let opened = opened_by::<A, D>(alloc, &recip, &sealed, &sealed.tag);
    Ok(
        sealed.text != *b"text"
            && forged == (Err(HpkeError::OpenError), sealed.text)
            && opened == (Ok(()), *b"text"),
    )
}

// A tag of zeros opens nothing and changes nothing; the tag that was made opens the text.
#[test]
fn detached_single_shots(rt: HostRuntime) -> Result<(), Fail> {
    assert!(rt; opens_by_its_tag::<AesGcm256, HkdfSha384>(rt.alloc())?);
    Ok(())
}

// What both calls that seal are refused with, where the text is as it was.
fn sealing_refusals<A: Aead, D: Kdf>(
    alloc: Global,
) -> Result<Option<[Option<HpkeError>; 2]>, HpkeError> {
    let recip = key(alloc, &[1; 32])?;
    let mut text = *b"text";
    let attached = single_shot_seal::<A, D, MaskKem, ConstantDraw>(
        alloc,
        &OpModeS::Base,
        &recip,
        b"info",
        &text,
        b"",
        &mut ConstantDraw::new(7),
    )
    .err();
    let detached = single_shot_seal_in_place_detached::<A, D, MaskKem, ConstantDraw>(
        alloc,
        &OpModeS::Base,
        &recip,
        b"info",
        &mut text,
        b"",
        &mut ConstantDraw::new(7),
    )
    .err();
    Ok(if text == *b"text" {
        Some([attached, detached])
    } else {
        None
    })
}

#[test]
fn a_text_that_cannot_be_sealed(rt: HostRuntime) -> Result<(), Fail> {
    let refused = sealing_refusals::<ExportOnlyAead, HkdfSha256>(rt.alloc())?;
    assert!(rt; refused == Some([Some(HpkeError::SealError); 2]));
    Ok(())
}
