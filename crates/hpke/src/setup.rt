//! How both sides get their contexts (RFC 9180, section 5.1).

ghost use Rattle.std.specs.Prelude.{◌≡◌, None, Some, Err, IsSome, IfOk};
ghost use Rattle.rand_core.specs.Stream.{fill_bytes};
ghost use Rattle.hpke.specs.Answers.{Answers};
ghost use Rattle.hpke.specs.RecipientMode.{recipient_mode, recipient_sender};
ghost use Rattle.hpke.specs.SenderMode.{sender_mode, sender_identity};
ghost use Rattle.hpke.specs.Schedule.{suite_of, sender_setup, receiver_setup};
ghost use Rattle.hpke.specs.declared.error.HpkeError.TheVariants.{DecapError, EncapError, NoMemory};

use crate::aead::Aead;
use crate::context::{AeadCtxR, AeadCtxS, derive_enc_ctx};
use crate::error::HpkeError;
use crate::kdf::Kdf;
use crate::kem::Kem;
use crate::mode::{OpModeR, OpModeS};
use rand_core::Rng;
use std::alloc::Global;

/// A sender's context, at number 0, and the encapsulated key that brings it to the recipient (RFC
/// 9180, sections 5.1.1 to 5.1.4).
///
/// It draws what `Kem::encap` draws, 32 bytes, also before a refusal. `EncapError` comes exactly
/// where `encap_of` of these bytes, with the sender's pair of keys that the mode brings, is none, or
/// `NoMemory` in its place or in a context's, where the KEM takes memory.
pub fn setup_sender<A: Aead, D: Kdf, K: Kem, R: Rng>(
    alloc: Global,
    mode: &OpModeS<'_, K>,
    pk_recip: &K::PublicKey,
    info: &[u8],
    csprng: &mut R,
) -> Result<(K::EncappedKey, AeadCtxS<A, D, K>), HpkeError>
    ensures drawn { R.stream csprng.new ≡ (fill_bytes 32 (R.stream csprng.old)).1 }
    ensures value { Answers (λ made. (K.EncappedKey.bytes made.0, made.1)) EncapError result
        (sender_setup (suite_of K.KEM_ID D.kdf A.aead) (sender_mode mode.now) info.now
        (K.encap_of (K.PublicKey.bytes pk_recip.now) (sender_identity K.PrivateKey.bytes K.PublicKey.bytes mode.now)
        (fill_bytes 32 (R.stream csprng.old)).0)) }
    ensures valid { IfOk result (λ made. K.EncappedKey.has_value (K.EncappedKey.bytes made.0)) }
    ensures number { IfOk result (λ made. made.1.next ≡ Some 0) }
    ensures memory { result ≡ Err NoMemory → K.takes_memory }
{
    let (sk_sender_id, pk_sender_id) = mode.sender_id_keypair();
    let (shared_secret, encapped_key) = K::encap(
        alloc,
        pk_recip,
        sk_sender_id,
        pk_sender_id,
        csprng,
    )?;
    let bundle = mode.psk_bundle();
    let ctx = derive_enc_ctx(
        mode.mode_id(),
        shared_secret.as_slice(),
        info,
        bundle.psk,
        bundle.psk_id,
    );
    Ok((encapped_key, AeadCtxS::new(ctx)))
}

/// A recipient's context, at number 0, from the encapsulated key (RFC 9180, sections 5.1.1 to
/// 5.1.4).
///
/// `DecapError` comes exactly where `decap_of`, with the sender's public key that the mode brings, is
/// none, so never in modes Base and PSK, or `NoMemory` in its place or in a context's, where the KEM
/// takes memory.
pub fn setup_receiver<A: Aead, D: Kdf, K: Kem>(
    alloc: Global,
    mode: &OpModeR<'_, K>,
    sk_recip: &K::PrivateKey,
    encapped_key: &K::EncappedKey,
    info: &[u8],
) -> Result<AeadCtxR<A, D, K>, HpkeError>
    ensures value { Answers (λ context. context) DecapError result
        (receiver_setup (suite_of K.KEM_ID D.kdf A.aead) (recipient_mode mode.now) info.now
        (K.decap_of (K.PrivateKey.bytes sk_recip.now) (recipient_sender K.PublicKey.bytes mode.now)
        (K.EncappedKey.bytes encapped_key.now))) }
    ensures without_sender { IsSome (K.decap_of (K.PrivateKey.bytes sk_recip.now) None (K.EncappedKey.bytes encapped_key.now)) }
    ensures number { IfOk result (λ context. context.next ≡ Some 0) }
    ensures memory { result ≡ Err NoMemory → K.takes_memory }
{
    let shared_secret = K::decap(alloc, sk_recip, mode.pk_sender_id(), encapped_key)?;
    let bundle = mode.psk_bundle();
    let ctx = derive_enc_ctx(
        mode.mode_id(),
        shared_secret.as_slice(),
        info,
        bundle.psk,
        bundle.psk_id,
    );
    Ok(AeadCtxR::new(ctx))
}
