//! What holds of the definitions that the contracts of this crate cite, and of the calls together.

ghost use Rattle.std.specs.Prelude.{◌≡◌, ◌≢◌, ◌↔◌, ◌⊎◌, ℕ, List, [], ◌∷◌, Option, None, Some, Err, IfOk, IsSome, OnErr, OnOk, take};
ghost use Rattle.std.specs.Option.{option_map};
ghost use Rattle.sha2.specs.Sha256.{sha256};
ghost use Rattle.sha2.specs.Sha512.{sha384, sha512};
ghost use Rattle.rand_core.specs.Stream.{fill_bytes};
ghost use Rattle.kem_hash.specs.Family.{Family};
ghost use Rattle.ml_kem.specs.Keys.{expanded_seed, rho_part};
ghost use Rattle.ml_kem.specs.Matrix.{matrix};
ghost use Rattle.ml_kem.specs.Parameters.{Parameters};
ghost use Rattle.hpke.specs.Answers.{Answers};
ghost use Rattle.hpke.specs.Lattice.{lattice_decap, lattice_derive, lattice_encap, lattice_seed};
ghost use Rattle.hpke.specs.Mask.{mask_decap, mask_encap, mask_public};
ghost use Rattle.hpke.specs.Messages.{NumberedAnswers, used};
ghost use Rattle.hpke.specs.Nonce.{nonce_of};
ghost use Rattle.hpke.specs.RecipientMode.{recipient_mode, recipient_sender};
ghost use Rattle.hpke.specs.SenderMode.{sender_mode, sender_identity};
ghost use Rattle.hpke.specs.Schedule.{Context, Mode, Suite, suite_of, sender_setup, receiver_setup};
ghost use Rattle.hpke.specs.declared.error.HpkeError.TheVariants.{EncapError, NoMemory, OpenError, SealError};

use crate::aead::{Aead, BaseAead};
use crate::aes_gcm::{AesGcm128, AesGcm256};
use crate::context::{AeadCtxR, AeadCtxS};
use crate::error::HpkeError;
use crate::export_only::{EmptyAeadImpl, ExportOnlyAead};
use crate::kdf::{HkdfSha256, HkdfSha384, HkdfSha512, Kdf};
use crate::kem::Kem;
use crate::lattice::LatticeKem;
use crate::mask::MaskKem;
use crate::mode::{OpModeR, OpModeS};
use crate::setup::{setup_receiver, setup_sender};
use gcm_core::{AesGcm128Impl, AesGcm256Impl};
use kem_hash::KemHash;
use ml_kem::{MlKem512, MlKem768, MlKem1024};
use rand_core::Rng;
use std::alloc::Global;

/// The identifiers and lengths that are registered (RFC 9180, tables 3 and 5), and the identifier of
/// the test KEM.
pub fn registered_identifiers()
    ensures sha256 { ⟦<HkdfSha256 as Kdf>⟧.kdf ≡ record { hash = sha256; block_size = 64; digest_size = 32; kdf_id = 1 } }
    ensures sha384 { ⟦<HkdfSha384 as Kdf>⟧.kdf ≡ record { hash = sha384; block_size = 128; digest_size = 48; kdf_id = 2 } }
    ensures sha512 { ⟦<HkdfSha512 as Kdf>⟧.kdf ≡ record { hash = sha512; block_size = 128; digest_size = 64; kdf_id = 3 } }
    ensures aes128 { ⟦<AesGcm128 as Aead>⟧.aead ≡ record { key_size = 16; nonce_size = 12; aead_id = 1 } }
    ensures aes128_tag { ⟦<AesGcm128Impl as BaseAead>⟧.TAG_SIZE ≡ 16 }
    ensures aes256 { ⟦<AesGcm256 as Aead>⟧.aead ≡ record { key_size = 32; nonce_size = 12; aead_id = 2 } }
    ensures aes256_tag { ⟦<AesGcm256Impl as BaseAead>⟧.TAG_SIZE ≡ 16 }
    ensures export_only { ⟦<ExportOnlyAead as Aead>⟧.aead ≡ record { key_size = 0; nonce_size = 128; aead_id = 0xFFFF } }
    ensures export_only_tag { ⟦<EmptyAeadImpl as BaseAead>⟧.TAG_SIZE ≡ 0 }
    ensures mask { ⟦<MaskKem as Kem>⟧.KEM_ID ≡ 0xFF00 }
{}

/// The identifiers of ML-KEM, over any lawful family of hash functions.
pub fn lattice_identifiers<H: KemHash>()
    ensures k512 { ⟦<LatticeKem<MlKem512, H> as Kem>⟧.KEM_ID ≡ 0x0040 }
    ensures k768 { ⟦<LatticeKem<MlKem768, H> as Kem>⟧.KEM_ID ≡ 0x0041 }
    ensures k1024 { ⟦<LatticeKem<MlKem1024, H> as Kem>⟧.KEM_ID ≡ 0x0042 }
{}

/// Nonces of messages by their numbers, as an independent model makes them (RFC 9180, section 5.2).
pub fn worked_nonces()
    ensures first { nonce_of (0x46 ∷ 0xd4 ∷ 0x1b ∷ 0x63 ∷ 0x34 ∷ 0x66 ∷ 0x4b ∷ 0xe3 ∷ 0xb4 ∷ 0xbb ∷ 0xe4 ∷ 0xec ∷ []) 0 ≡ (0x46 ∷ 0xd4 ∷ 0x1b ∷ 0x63 ∷ 0x34 ∷ 0x66 ∷ 0x4b ∷ 0xe3 ∷ 0xb4 ∷ 0xbb ∷ 0xe4 ∷ 0xec ∷ []) }
    ensures second { nonce_of (0x04 ∷ 0x4d ∷ 0x13 ∷ 0x0a ∷ 0x95 ∷ 0xe4 ∷ 0x42 ∷ 0x72 ∷ 0x2f ∷ 0x94 ∷ 0x4b ∷ 0x6c ∷ []) 1 ≡ (0x04 ∷ 0x4d ∷ 0x13 ∷ 0x0a ∷ 0x95 ∷ 0xe4 ∷ 0x42 ∷ 0x72 ∷ 0x2f ∷ 0x94 ∷ 0x4b ∷ 0x6d ∷ []) }
    ensures one_byte { nonce_of (0xbd ∷ 0xfc ∷ 0x82 ∷ 0x6e ∷ 0xf4 ∷ 0x43 ∷ 0x35 ∷ 0x5b ∷ 0x89 ∷ 0xaa ∷ 0x6d ∷ 0x39 ∷ []) 255 ≡ (0xbd ∷ 0xfc ∷ 0x82 ∷ 0x6e ∷ 0xf4 ∷ 0x43 ∷ 0x35 ∷ 0x5b ∷ 0x89 ∷ 0xaa ∷ 0x6d ∷ 0xc6 ∷ []) }
    ensures two_bytes { nonce_of (0x17 ∷ 0x03 ∷ 0xa5 ∷ 0x65 ∷ 0xfc ∷ 0x98 ∷ 0x40 ∷ 0x92 ∷ 0xff ∷ 0xf0 ∷ 0x53 ∷ 0xcc ∷ []) 256 ≡ (0x17 ∷ 0x03 ∷ 0xa5 ∷ 0x65 ∷ 0xfc ∷ 0x98 ∷ 0x40 ∷ 0x92 ∷ 0xff ∷ 0xf0 ∷ 0x52 ∷ 0xcc ∷ []) }
    ensures five_bytes { nonce_of (0x72 ∷ 0x22 ∷ 0x3e ∷ 0x42 ∷ 0x32 ∷ 0x16 ∷ 0x71 ∷ 0x9e ∷ 0x5e ∷ 0x1d ∷ 0xee ∷ 0xb1 ∷ []) 4294967296 ≡ (0x72 ∷ 0x22 ∷ 0x3e ∷ 0x42 ∷ 0x32 ∷ 0x16 ∷ 0x71 ∷ 0x9f ∷ 0x5e ∷ 0x1d ∷ 0xee ∷ 0xb1 ∷ []) }
    ensures highest_bit { nonce_of (0xec ∷ 0xb7 ∷ 0xe8 ∷ 0x44 ∷ 0x0d ∷ 0x08 ∷ 0x67 ∷ 0x18 ∷ 0x2b ∷ 0x31 ∷ 0xc5 ∷ 0x4d ∷ []) 9223372036854775808 ≡ (0xec ∷ 0xb7 ∷ 0xe8 ∷ 0x44 ∷ 0x8d ∷ 0x08 ∷ 0x67 ∷ 0x18 ∷ 0x2b ∷ 0x31 ∷ 0xc5 ∷ 0x4d ∷ []) }
    ensures last { nonce_of (0xfd ∷ 0x36 ∷ 0xa2 ∷ 0xed ∷ 0x8e ∷ 0x4d ∷ 0xae ∷ 0x37 ∷ 0x13 ∷ 0x3d ∷ 0xf1 ∷ 0x57 ∷ []) 18446744073709551615 ≡ (0xfd ∷ 0x36 ∷ 0xa2 ∷ 0xed ∷ 0x71 ∷ 0xb2 ∷ 0x51 ∷ 0xc8 ∷ 0xec ∷ 0xc2 ∷ 0x0e ∷ 0xa8 ∷ []) }
{}

/// When the meanings of [`LatticeKem`] are none, by the samples of a matrix: without a sender's
/// identity encapsulation is, exactly where one of the public key's matrix is none; derivation is,
/// exactly where one of the derived seed's is; and of a seed whose samples are there, decapsulation
/// never is.
pub fn lattice_refusals()
    ensures encap { (set : Parameters) (family : Family) (pk draw : List ℕ)
        → (lattice_encap set family pk None draw ≡ None) ↔ (matrix family set.k (rho_part set pk) ≡ None) }
    ensures derive { (set : Parameters) (family : Family) (ikm : List ℕ)
        → (lattice_derive set family ikm ≡ None) ↔ (matrix family set.k (take 32 (expanded_seed set family (lattice_seed set ikm))) ≡ None) }
    ensures decap { (set : Parameters) (family : Family) (sk enc : List ℕ)
        → matrix family set.k (take 32 (expanded_seed set family sk)) ≢ None → IsSome (lattice_decap set family sk None enc) }
{}

/// Where decapsulation gives the secret that encapsulation gave, and mode, info and pre-shared key
/// are the same, both sides have the same context (RFC 9180, section 5.1).
pub fn same_context<K: Kem>()
    ensures { (suite : Suite) (mode : Mode) (info pk sk draw shared enc : List ℕ)
        (identity : Option (List ℕ × List ℕ)) (sender : Option (List ℕ))
        → K.encap_of pk identity draw ≡ Some (shared, enc) → K.decap_of sk sender enc ≡ Some shared
        → receiver_setup suite mode info (K.decap_of sk sender enc)
        ≡ option_map (λ made. made.1) (sender_setup suite mode info (K.encap_of pk identity draw)) }
{}

/// The test KEM decapsulates what it encapsulated, without a sender's identity.
pub fn mask_decapsulates()
    ensures { (sk draw secret enc : List ℕ) → mask_encap (mask_public sk) None draw ≡ Some (secret, enc)
        → mask_decap sk None enc ≡ Some secret }
{}

/// Sets up a sender's context, and a recipient's from the encapsulated key that it gives. Where both
/// modes bring the same to the key schedule and decapsulation gives the secret that encapsulation
/// gave, both are one context, at number 0. It draws 32 bytes, also before a refusal. `EncapError` comes
/// exactly where `encap_of` is none.
pub fn set_up_both<A: Aead, D: Kdf, K: Kem, R: Rng>(
    alloc: Global,
    mode_sender: &OpModeS<'_, K>,
    mode_recip: &OpModeR<'_, K>,
    pk_recip: &K::PublicKey,
    sk_recip: &K::PrivateKey,
    info: &[u8],
    csprng: &mut R,
) -> Result<(AeadCtxS<A, D, K>, AeadCtxR<A, D, K>), HpkeError>
    requires mode { sender_mode mode_sender.now ≡ recipient_mode mode_recip.now }
    requires secret { (secret enc : List ℕ)
        → K.encap_of (K.PublicKey.bytes pk_recip.now) (sender_identity K.PrivateKey.bytes K.PublicKey.bytes mode_sender.now)
        (fill_bytes 32 (R.stream csprng.old)).0 ≡ Some (secret, enc)
        → K.decap_of (K.PrivateKey.bytes sk_recip.now) (recipient_sender K.PublicKey.bytes mode_recip.now) enc ≡ Some secret }
    ensures drawn { R.stream csprng.new ≡ (fill_bytes 32 (R.stream csprng.old)).1 }
    ensures value { Answers (λ sides. sides.0) EncapError result (option_map (λ made. made.1)
        (sender_setup (suite_of K.KEM_ID D.kdf A.aead) (sender_mode mode_sender.now) info.now
        (K.encap_of (K.PublicKey.bytes pk_recip.now) (sender_identity K.PrivateKey.bytes K.PublicKey.bytes mode_sender.now)
        (fill_bytes 32 (R.stream csprng.old)).0))) }
    ensures same { IfOk result (λ sides. sides.0 ≡ sides.1) }
    ensures number { IfOk result (λ sides. sides.0.next ≡ Some 0) }
{
    let (encapped_key, sender) = setup_sender::<A, D, K, R>(
        alloc,
        mode_sender,
        pk_recip,
        info,
        csprng,
    )?;
    match setup_receiver::<A, D, K>(alloc, mode_recip, sk_recip, &encapped_key, info) {
        Ok(recipient) => Ok((sender, recipient)),
        // There is a secret, so nothing else is refused.
        Err(_) => Err(HpkeError::NoMemory),
    }
}

/// Where both sides have one context, what the sender seals under a number the recipient opens under
/// that number.
pub fn opens_what_was_sealed<A: Aead>()
    ensures { (context : Context) (number : ℕ) (aad text sealed : List ℕ) → let nonce = nonce_of context.base_nonce number in
        A.AeadImpl.seal_of context.key nonce aad text ≡ Some sealed
        → A.AeadImpl.open_of context.key nonce aad sealed ≡ Some text }
{}

/// Seals a text in a sender's context and opens it in a recipient's, where both are one context: the
/// text comes back, and both are one context afterwards, with the next number, so that `number` answers
/// the same. What was sealed is never refused by `OpenError`: `MessageLimitReached` and `SealError` come
/// as `seal` gives them, and leave both contexts as they were. At want of memory the recipient's is as it
/// was, and the sender's too, or with its number used.
pub fn seal_then_open<A: Aead, D: Kdf, K>(
    alloc: Global,
    sender: &mut AeadCtxS<A, D, K>,
    recipient: &mut AeadCtxR<A, D, K>,
    plaintext: &[u8],
    aad: &[u8],
) -> Result<Vec<u8>, HpkeError>
    requires { sender.old ≡ recipient.old }
    ensures text { IfOk result (λ text. text.items ≡ plaintext.now) }
    ensures value { NumberedAnswers (λ text. text.items) SealError result sender.old.next (λ number.
        option_map (λ _. plaintext.now) (A.AeadImpl.seal_of sender.old.key (nonce_of sender.old.base_nonce number) aad.now plaintext.now)) }
    ensures used { OnOk result (sender.new ≡ used sender.old) }
    ensures same { OnOk result (sender.new ≡ recipient.new) }
    ensures opens { result ≢ Err OpenError }
    ensures refused { result ≢ Err NoMemory → OnErr result ((sender.new ≡ sender.old) × (recipient.new ≡ recipient.old)) }
    ensures memory { OnErr result ((recipient.new ≡ recipient.old) × ((sender.new ≡ sender.old) ⊎ (sender.new ≡ used sender.old))) }
{
    let sealed = sender.seal(alloc, plaintext, aad)?;
    recipient.open(alloc, sealed.as_slice(), aad)
}
