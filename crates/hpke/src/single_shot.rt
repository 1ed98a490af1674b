//! Single shots: a setup, and one message or its opening (RFC 9180, section 6.1).

ghost use Rattle.std.specs.Prelude.{◌≡◌, ◌++◌, Err, IfOk, OnErr};
ghost use Rattle.rand_core.specs.Stream.{fill_bytes};
ghost use Rattle.hpke.specs.RecipientMode.{recipient_mode, recipient_sender};
ghost use Rattle.hpke.specs.SenderMode.{sender_mode, sender_identity};
ghost use Rattle.hpke.specs.Schedule.{suite_of, sender_setup, receiver_setup};
ghost use Rattle.hpke.specs.SingleShot.{SingleShotAnswers, opened_once, sealed_once};
ghost use Rattle.hpke.specs.declared.error.HpkeError.TheVariants.{DecapError, EncapError, NoMemory, OpenError, SealError};

use crate::aead::Aead;
use crate::error::HpkeError;
use crate::kdf::Kdf;
use crate::kem::Kem;
use crate::mode::{OpModeR, OpModeS};
use crate::setup::{setup_receiver, setup_sender};
use crate::tag::AeadTag;
use rand_core::Rng;
use std::alloc::Global;

/// Sets up a sender's context and seals one text in it: the encapsulated key, and the ciphertext and
/// then the tag.
///
/// It draws what [`setup_sender`] draws. `EncapError` comes exactly where `encap_of` is none, then
/// `SealError` exactly where `seal_of` is none; `NoMemory` is free.
pub fn single_shot_seal<A: Aead, D: Kdf, K: Kem, R: Rng>(
    alloc: Global,
    mode: &OpModeS<'_, K>,
    pk_recip: &K::PublicKey,
    info: &[u8],
    plaintext: &[u8],
    aad: &[u8],
    csprng: &mut R,
) -> Result<(K::EncappedKey, Vec<u8>), HpkeError>
    ensures drawn { R.stream csprng.new ≡ (fill_bytes 32 (R.stream csprng.old)).1 }
    ensures value { SingleShotAnswers (λ made. (K.EncappedKey.bytes made.0, made.1.items)) EncapError SealError result
        (sender_setup (suite_of K.KEM_ID D.kdf A.aead) (sender_mode mode.now) info.now
        (K.encap_of (K.PublicKey.bytes pk_recip.now) (sender_identity K.PrivateKey.bytes K.PublicKey.bytes mode.now)
        (fill_bytes 32 (R.stream csprng.old)).0))
        (sealed_once A.AeadImpl.seal_of aad.now plaintext.now) }
    ensures valid { IfOk result (λ made. K.EncappedKey.has_value (K.EncappedKey.bytes made.0)) }
{
    let (encapped_key, mut ctx) = setup_sender::<A, D, K, R>(alloc, mode, pk_recip, info, csprng)?;
    let ciphertext = ctx.seal(alloc, plaintext, aad)?;
    Ok((encapped_key, ciphertext))
}

/// Sets up a sender's context and seals one text in place: the encapsulated key and the tag.
///
/// It draws what [`setup_sender`] draws. `EncapError` comes exactly where `encap_of` is none, then
/// `SealError` exactly where `seal_of` is none. `NoMemory` is free where the KEM takes memory. A
/// refused call leaves the text as it was.
pub fn single_shot_seal_in_place_detached<A: Aead, D: Kdf, K: Kem, R: Rng>(
    alloc: Global,
    mode: &OpModeS<'_, K>,
    pk_recip: &K::PublicKey,
    info: &[u8],
    plaintext: &mut [u8],
    aad: &[u8],
    csprng: &mut R,
) -> Result<(K::EncappedKey, AeadTag<A>), HpkeError>
    ensures drawn { R.stream csprng.new ≡ (fill_bytes 32 (R.stream csprng.old)).1 }
    ensures value { SingleShotAnswers (λ made. (K.EncappedKey.bytes made.0, plaintext.new ++ made.1)) EncapError SealError result
        (sender_setup (suite_of K.KEM_ID D.kdf A.aead) (sender_mode mode.now) info.now
        (K.encap_of (K.PublicKey.bytes pk_recip.now) (sender_identity K.PrivateKey.bytes K.PublicKey.bytes mode.now)
        (fill_bytes 32 (R.stream csprng.old)).0))
        (sealed_once A.AeadImpl.seal_of aad.now plaintext.old) }
    ensures valid { IfOk result (λ made. K.EncappedKey.has_value (K.EncappedKey.bytes made.0)) }
    ensures refused { OnErr result (plaintext.new ≡ plaintext.old) }
    ensures memory { result ≡ Err NoMemory → K.takes_memory }
{
    let (encapped_key, mut ctx) = setup_sender::<A, D, K, R>(alloc, mode, pk_recip, info, csprng)?;
    let tag = ctx.seal_in_place_detached(plaintext, aad)?;
    Ok((encapped_key, tag))
}

/// Sets up a recipient's context and opens one ciphertext, which its tag follows.
///
/// `DecapError` comes exactly where `decap_of` is none, then `OpenError` exactly where `open_of` is
/// none, as it is for a text shorter than a tag; `NoMemory` is free.
pub fn single_shot_open<A: Aead, D: Kdf, K: Kem>(
    alloc: Global,
    mode: &OpModeR<'_, K>,
    sk_recip: &K::PrivateKey,
    encapped_key: &K::EncappedKey,
    info: &[u8],
    ciphertext: &[u8],
    aad: &[u8],
) -> Result<Vec<u8>, HpkeError>
    ensures { SingleShotAnswers (λ text. text.items) DecapError OpenError result
        (receiver_setup (suite_of K.KEM_ID D.kdf A.aead) (recipient_mode mode.now) info.now
        (K.decap_of (K.PrivateKey.bytes sk_recip.now) (recipient_sender K.PublicKey.bytes mode.now)
        (K.EncappedKey.bytes encapped_key.now)))
        (opened_once A.AeadImpl.open_of aad.now ciphertext.now) }
{
    let mut ctx = setup_receiver::<A, D, K>(alloc, mode, sk_recip, encapped_key, info)?;
    ctx.open(alloc, ciphertext, aad)
}

/// Sets up a recipient's context and opens one ciphertext in place, by its tag.
///
/// `DecapError` comes exactly where `decap_of` is none, then `OpenError` exactly where `open_of` is
/// none. `NoMemory` is free where the KEM takes memory. A refused call leaves the ciphertext as it was.
pub fn single_shot_open_in_place_detached<A: Aead, D: Kdf, K: Kem>(
    alloc: Global,
    mode: &OpModeR<'_, K>,
    sk_recip: &K::PrivateKey,
    encapped_key: &K::EncappedKey,
    info: &[u8],
    ciphertext: &mut [u8],
    aad: &[u8],
    tag: &AeadTag<A>,
) -> Result<(), HpkeError>
    ensures value { SingleShotAnswers (λ _. ciphertext.new) DecapError OpenError result
        (receiver_setup (suite_of K.KEM_ID D.kdf A.aead) (recipient_mode mode.now) info.now
        (K.decap_of (K.PrivateKey.bytes sk_recip.now) (recipient_sender K.PublicKey.bytes mode.now)
        (K.EncappedKey.bytes encapped_key.now)))
        (opened_once A.AeadImpl.open_of aad.now (ciphertext.old ++ tag.now)) }
    ensures refused { OnErr result (ciphertext.new ≡ ciphertext.old) }
    ensures memory { result ≡ Err NoMemory → K.takes_memory }
{
    let mut ctx = setup_receiver::<A, D, K>(alloc, mode, sk_recip, encapped_key, info)?;
    ctx.open_in_place_detached(ciphertext, aad, tag)
}
