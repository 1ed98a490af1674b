//! Hybrid encryption.

ghost use Rattle.std.specs.Prelude.{◌≡◌, [], None, IfOk};
ghost use Rattle.rand_core.specs.Stream.{fill_bytes};
ghost use Rattle.hpke.specs.Schedule.{suite_of, mode_base, sender_setup, receiver_setup};
ghost use Rattle.hpke.specs.SingleShot.{SingleShotAnswers, opened_once, sealed_once};
ghost use Rattle.hpke.specs.declared.error.HpkeError.TheVariants.{DecapError, EncapError, OpenError, SealError};
ghost use Rattle.age_primitives.specs.Suite.{hkdf_sha256};

use hpke::{
    Aead, HkdfSha256, HpkeError, Kem, OpModeR, OpModeS, single_shot_open, single_shot_seal,
};
use rand_core::Rng;
use std::alloc::Global;

/// Seals a text to a public key: the encapsulated key, and the ciphertext and then the tag (RFC 9180, section
/// 6.1, in mode Base, with HKDF-SHA256 and without associated data).
///
/// It draws 32 bytes by one call of `fill_bytes`, also before a refusal. `EncapError` comes exactly where the
/// KEM encapsulates nothing by these bytes, then `SealError` exactly where the text is too long for the AEAD;
/// `NoMemory` is free.
pub fn hpke_seal<A: Aead, K: Kem, R: Rng>(
    alloc: Global,
    pk_recip: &K::PublicKey,
    info: &[u8],
    plaintext: &[u8],
    rng: &mut R,
) -> Result<(K::EncappedKey, Vec<u8>), HpkeError>
    ensures drawn { R.stream rng.new ≡ (fill_bytes 32 (R.stream rng.old)).1 }
    ensures value { SingleShotAnswers (λ made. (K.EncappedKey.bytes made.0, made.1.items)) EncapError SealError result
        (sender_setup (suite_of K.KEM_ID hkdf_sha256 A.aead) mode_base info.now
        (K.encap_of (K.PublicKey.bytes pk_recip.now) None (fill_bytes 32 (R.stream rng.old)).0))
        (sealed_once A.AeadImpl.seal_of [] plaintext.now) }
    ensures valid { IfOk result (λ made. K.EncappedKey.has_value (K.EncappedKey.bytes made.0)) }
{
    single_shot_seal::<A, HkdfSha256, K, R>(
        alloc,
        &OpModeS::Base,
        pk_recip,
        info,
        plaintext,
        &[],
        rng,
    )
}

/// Opens what [`hpke_seal`] sealed to the public key of this private key, under the same info.
///
/// `DecapError` comes exactly where the KEM finds no secret, then `OpenError` exactly where the ciphertext
/// doesn't open, as one that is shorter than a tag; `NoMemory` is free.
pub fn hpke_open<A: Aead, K: Kem>(
    alloc: Global,
    encapped_key: &K::EncappedKey,
    sk_recip: &K::PrivateKey,
    info: &[u8],
    ciphertext: &[u8],
) -> Result<Vec<u8>, HpkeError>
    ensures { SingleShotAnswers (λ text. text.items) DecapError OpenError result
        (receiver_setup (suite_of K.KEM_ID hkdf_sha256 A.aead) mode_base info.now
        (K.decap_of (K.PrivateKey.bytes sk_recip.now) None (K.EncappedKey.bytes encapped_key.now)))
        (opened_once A.AeadImpl.open_of [] ciphertext.now) }
{
    single_shot_open::<A, HkdfSha256, K>(
        alloc,
        &OpModeR::Base,
        sk_recip,
        encapped_key,
        info,
        ciphertext,
        &[],
    )
}
