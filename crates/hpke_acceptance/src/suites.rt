//! Each suite of HPKE in each mode, by the calls of both sides' contexts, against the key schedules of
//! an independent model.

use crate::key_kem::KeyKem;
use crate::rows::{AeadName, KdfName, Row, row_with_a_sender, rows};
use hpke::{
    Aead, AeadCtxR, AeadCtxS, AesGcm128, AesGcm256, BaseAead, Deserializable, ExportOnlyAead,
    HkdfSha256, HkdfSha384, HkdfSha512, HpkeError, Kdf, MaskKey, OpModeR, OpModeS, PskBundle,
    setup_receiver, setup_sender,
};
use rand_chacha::ChaCha20Rng;
use rand_core::SeedableRng;
use std::alloc::Global;
use std::test::Fail;

/// The bytes of the key that no secret is: the recipient's, where a sender's key is the secret.
const OTHER: [u8; 32] = [3; 32];

/// The digits of a sender's key that no row has.
const OTHER_SENDER: &str = "0404040404040404040404040404040404040404040404040404040404040404";

/// A text and its associated data.
const TEXT: &[u8] = b"text";

const AAD: &[u8] = b"associated";

/// The contexts of both sides.
type Sides<A, D, const ID: u16> = (AeadCtxS<A, D, KeyKem<ID>>, AeadCtxR<A, D, KeyKem<ID>>);

// The key of these digits.
fn key(alloc: Global, digits: &str) -> Result<MaskKey, Fail> {
    let bytes = hex::decode(alloc, digits)?;
    Ok(MaskKey::from_bytes(alloc, bytes.as_slice())?)
}

// How the sender sets up a row's mode: the secret is its key, where the mode has one.
fn sender_mode<'a, const ID: u16>(
    alloc: Global,
    row: &Row,
    bundle: PskBundle<'a>,
) -> Result<OpModeS<'a, KeyKem<ID>>, Fail> {
    let mode = match row.mode {
        0 => OpModeS::Base,
        1 => OpModeS::Psk(bundle),
        2 => OpModeS::Auth(key(alloc, row.secret)?, key(alloc, row.secret)?),
        _ => OpModeS::AuthPsk(key(alloc, row.secret)?, key(alloc, row.secret)?, bundle),
    };
    Ok(mode)
}

// How the recipient sets up a row's mode.
fn recipient_mode<'a, const ID: u16>(
    alloc: Global,
    row: &Row,
    bundle: PskBundle<'a>,
) -> Result<OpModeR<'a, KeyKem<ID>>, Fail> {
    let mode = match row.mode {
        0 => OpModeR::Base,
        1 => OpModeR::Psk(bundle),
        2 => OpModeR::Auth(key(alloc, row.secret)?),
        _ => OpModeR::AuthPsk(key(alloc, row.secret)?, bundle),
    };
    Ok(mode)
}

// The contexts of both sides for a row.
fn set_up<A: Aead, D: Kdf, const ID: u16>(
    alloc: Global,
    row: &Row,
) -> Result<Sides<A, D, ID>, Fail> {
    let psk = hex::decode(alloc, row.psk)?;
    let psk_id = hex::decode(alloc, row.psk_id)?;
    let info = hex::decode(alloc, row.info)?;
    let bundle = PskBundle {
        psk: psk.as_slice(),
        psk_id: psk_id.as_slice(),
    };
    let recip = if row.mode < 2 {
        key(alloc, row.secret)?
    } else {
        MaskKey::from_bytes(alloc, &OTHER)?
    };
    let mode_s = sender_mode(alloc, row, bundle)?;
    let (encapped_key, sender) = setup_sender(
        alloc,
        &mode_s,
        &recip,
        info.as_slice(),
        &mut ChaCha20Rng::from_seed([7; 32]),
    )?;
    let mode_r = recipient_mode(alloc, row, bundle)?;
    let recipient = setup_receiver(alloc, &mode_r, &recip, &encapped_key, info.as_slice())?;
    Ok((sender, recipient))
}

// What the AEAD alone seals the text to under a row's key and base nonce.
fn sealed_by_row<A: Aead>(alloc: Global, row: &Row) -> Result<Vec<u8>, Fail> {
    let key = hex::decode(alloc, row.key)?;
    let nonce = hex::decode(alloc, row.base_nonce)?;
    let mut text = Vec::from_slice(alloc, TEXT)?;
    let mut tag = vec![in alloc; 0; A::AeadImpl::TAG_SIZE]?;
    if key.len() == A::AeadImpl::KEY_SIZE && nonce.len() == A::AeadImpl::NONCE_SIZE {
        let aead = A::AeadImpl::new(key.as_slice());
        aead.seal_in_place(
            nonce.as_slice(),
            AAD,
            text.as_mut_slice(),
            tag.as_mut_slice(),
        )?;
    }
    text.extend_from_slice(tag.as_slice())?;
    Ok(text)
}

// Whether both sides export what a row says.
fn export_row<A: Aead, D: Kdf, const ID: u16>(
    alloc: Global,
    sender: &AeadCtxS<A, D, KeyKem<ID>>,
    recipient: &AeadCtxR<A, D, KeyKem<ID>>,
    row: &Row,
) -> Result<bool, Fail> {
    let context = hex::decode(alloc, row.exporter_context)?;
    let want = hex::decode(alloc, row.exported)?;
    let mut sent = vec![in alloc; 0; want.len()]?;
    sender.export(context.as_slice(), sent.as_mut_slice())?;
    let mut received = vec![in alloc; 1; want.len()]?;
    recipient.export(context.as_slice(), received.as_mut_slice())?;
    Ok(sent.as_slice() == want.as_slice() && received.as_slice() == want.as_slice())
}

// Whether the sender seals what the AEAD alone seals under a row's key and base nonce, and the
// recipient opens it. A context that only exports seals nothing.
fn seal_row<A: Aead, D: Kdf, const ID: u16>(
    alloc: Global,
    sender: &mut AeadCtxS<A, D, KeyKem<ID>>,
    recipient: &mut AeadCtxR<A, D, KeyKem<ID>>,
    row: &Row,
) -> Result<bool, Fail> {
    if row.key.is_empty() {
        let refused = sender.seal(alloc, TEXT, AAD).err();
        return Ok(refused == Some(HpkeError::SealError));
    }
    let sealed = sender.seal(alloc, TEXT, AAD)?;
    let opened = recipient.open(alloc, sealed.as_slice(), AAD)?;
    let want = sealed_by_row::<A>(alloc, row)?;
    Ok(sealed.as_slice() == want.as_slice() && opened.as_slice() == TEXT)
}

// Whether both sides of a row's suite export and seal what the row says.
fn holds<A: Aead, D: Kdf, const ID: u16>(alloc: Global, row: &Row) -> Result<bool, Fail> {
    let (mut sender, mut recipient): Sides<A, D, ID> = set_up(alloc, row)?;
    let exports = export_row(alloc, &sender, &recipient, row)?;
    let seals = seal_row(alloc, &mut sender, &mut recipient, row)?;
    Ok(exports && seals)
}

fn holds_by_kem<A: Aead, D: Kdf>(alloc: Global, row: &Row) -> Result<bool, Fail> {
    match row.kem_id {
        0x0040 => holds::<A, D, 0x0040>(alloc, row),
        0x0041 => holds::<A, D, 0x0041>(alloc, row),
        0x0042 => holds::<A, D, 0x0042>(alloc, row),
        _ => holds::<A, D, 0xFF00>(alloc, row),
    }
}

fn holds_by_kdf<A: Aead>(alloc: Global, row: &Row) -> Result<bool, Fail> {
    match row.kdf {
        KdfName::Sha256 => holds_by_kem::<A, HkdfSha256>(alloc, row),
        KdfName::Sha384 => holds_by_kem::<A, HkdfSha384>(alloc, row),
        KdfName::Sha512 => holds_by_kem::<A, HkdfSha512>(alloc, row),
    }
}

// Whether a row holds by its AEAD.
fn holds_by_aead(alloc: Global, row: &Row) -> Result<bool, Fail> {
    match row.aead {
        AeadName::Aes128 => holds_by_kdf::<AesGcm128>(alloc, row),
        AeadName::Aes256 => holds_by_kdf::<AesGcm256>(alloc, row),
        AeadName::ExportOnly => holds_by_kdf::<ExportOnlyAead>(alloc, row),
    }
}

#[test]
fn suites_in_each_mode(rt: HostRuntime) -> Result<(), Fail> {
    for row in rows() {
        assert!(rt; holds_by_aead(rt.alloc(), row)?);
    }
    Ok(())
}

// What the recipient of another sender refuses a row's first text with.
fn other_sender_refusal<A: Aead, D: Kdf, const ID: u16>(
    alloc: Global,
    row: &Row,
) -> Result<Option<HpkeError>, Fail> {
    let (mut sender, _recipient): Sides<A, D, ID> = set_up(alloc, row)?;
    let sealed = sender.seal(alloc, TEXT, AAD)?;
    let other = Row {
        secret: OTHER_SENDER,
        ..*row
    };
    let (_sender, mut recipient): Sides<A, D, ID> = set_up(alloc, &other)?;
    Ok(recipient.open(alloc, sealed.as_slice(), AAD).err())
}

// Another sender's key gives another context.
#[test]
fn another_sender_is_refused(rt: HostRuntime) -> Result<(), Fail> {
    let row = row_with_a_sender();
    let refused = other_sender_refusal::<AesGcm256, HkdfSha512, 0x0041>(rt.alloc(), row)?;
    assert!(rt; refused == Some(HpkeError::OpenError));
    Ok(())
}
