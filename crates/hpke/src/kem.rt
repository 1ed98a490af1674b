//! Key encapsulation mechanisms (RFC 9180, section 4).

ghost use Rattle.std.specs.Prelude.{◌≡◌, ◌⊎◌, ℕ, List, length, Option, None, Some, Err, IfOk, IsErr, IsSome, is_some};
ghost use Rattle.std.specs.Option.{option_map};
ghost use Rattle.rand_core.specs.Stream.{fill_bytes};
ghost use Rattle.hpke.specs.Answers.{Answers, both};
ghost use Rattle.hpke.specs.Bytes.{IsBytes};
ghost use Rattle.hpke.specs.declared.error.HpkeError.TheVariants.{DecapError, EncapError, NoMemory, ValidationError};

use crate::error::HpkeError;
use crate::secret::{SecretSize, SharedSecret};
use crate::serial::{Deserializable, Serializable};
use rand_core::Rng;
use std::alloc::{AllocError, Global};

/// A key encapsulation mechanism. Contracts see a key by its bytes.
pub trait Kem: SecretSize + Sized {
    /// What a sender encapsulates to.
    type PublicKey: Deserializable + Drop;

    /// What a recipient decapsulates with.
    type PrivateKey: Deserializable + Drop;

    /// What a sender sends to the recipient.
    type EncappedKey: Deserializable + Drop;

    /// The algorithm's identifier.
    const KEM_ID: u16;

    ghost KEM_ID: { ℕ };

    /// Whether `sk_to_pk`, `derive_keypair`, `decap` and `encap` take memory.
    ghost takes_memory: { Type 0 };

    /// The public key of a private key.
    ghost pk_of: { List ℕ → List ℕ };

    /// The secret that a private key finds in an encapsulated key, with or without a sender's
    /// public key, or none.
    ghost decap_of: { List ℕ → Option (List ℕ) → List ℕ → Option (List ℕ) };

    /// The secret for a public key and the encapsulated key, with or without a sender's pair of
    /// keys, by 32 bytes that were drawn, or none.
    ghost encap_of: { List ℕ → Option (List ℕ × List ℕ) → List ℕ → Option (List ℕ × List ℕ) };

    /// The pair of private and public key that input keying material gives, or none.
    ghost derive_of: { List ℕ → Option (List ℕ × List ℕ) };

    /// The public key of a private key. The only error is want of memory, where the KEM takes memory.
    fn sk_to_pk(alloc: Global, sk: &Self::PrivateKey) -> Result<Self::PublicKey, AllocError>
        ensures value { IfOk result (λ pk. Self.PublicKey.bytes pk ≡ pk_of (Self.PrivateKey.bytes sk.now)) }
        ensures valid { IfOk result (λ pk. Self.PublicKey.has_value (Self.PublicKey.bytes pk)) }
        ensures memory { IsErr result → takes_memory };

    /// The pair of keys that input keying material gives (RFC 9180, section 4).
    ///
    /// `ValidationError` comes exactly where `derive_of` is none, or `NoMemory` in its place or in a
    /// pair's, where the KEM takes memory.
    fn derive_keypair(
        alloc: Global,
        ikm: &[u8],
    ) -> Result<(Self::PrivateKey, Self::PublicKey), HpkeError>
        ensures value { Answers (λ pair. (Self.PrivateKey.bytes pair.0, Self.PublicKey.bytes pair.1)) ValidationError result
            (derive_of ikm.now) }
        ensures valid { IfOk result (λ pair. Self.PrivateKey.has_value (Self.PrivateKey.bytes pair.0)
            × Self.PublicKey.has_value (Self.PublicKey.bytes pair.1)) }
        ensures memory { result ≡ Err NoMemory → takes_memory };

    /// A pair of keys by input keying material that is drawn, of as many bytes as a private key has,
    /// by one call of `fill_bytes`. Where memory runs out before, nothing is drawn.
    ///
    /// `ValidationError` comes exactly where `derive_of` of the bytes drawn is none; `NoMemory` is free,
    /// since the keying material takes memory.
    fn gen_keypair<R: Rng>(
        alloc: Global,
        csprng: &mut R,
    ) -> Result<(Self::PrivateKey, Self::PublicKey), HpkeError>
        ensures drawn { (R.stream csprng.new ≡ (fill_bytes Self.PrivateKey.wire_size (R.stream csprng.old)).1)
            ⊎ ((result ≡ Err NoMemory) × (R.stream csprng.new ≡ R.stream csprng.old)) }
        ensures value { Answers (λ pair. (Self.PrivateKey.bytes pair.0, Self.PublicKey.bytes pair.1)) ValidationError result
            (derive_of (fill_bytes Self.PrivateKey.wire_size (R.stream csprng.old)).0) }
        ensures valid { IfOk result (λ pair. Self.PrivateKey.has_value (Self.PrivateKey.bytes pair.0)
            × Self.PublicKey.has_value (Self.PublicKey.bytes pair.1)) }
    {
        let mut ikm = vec![in alloc; 0; Self::PrivateKey::size()]?;
        csprng.fill_bytes(ikm.as_mut_slice());
        Self::derive_keypair(alloc, ikm.as_slice())
    }

    /// The secret in an encapsulated key, with or without a sender's identity.
    ///
    /// `DecapError` comes exactly where `decap_of` is none, so never without a sender's identity, or
    /// `NoMemory` in its place or in a secret's, where the KEM takes memory.
    fn decap(
        alloc: Global,
        sk_recip: &Self::PrivateKey,
        pk_sender_id: Option<&Self::PublicKey>,
        encapped_key: &Self::EncappedKey,
    ) -> Result<SharedSecret<Self>, HpkeError>
        ensures value { Answers (λ secret. secret) DecapError result (decap_of (Self.PrivateKey.bytes sk_recip.now)
            (option_map (λ pk. Self.PublicKey.bytes pk.now) pk_sender_id.entry) (Self.EncappedKey.bytes encapped_key.now)) }
        ensures without_sender { IsSome (decap_of (Self.PrivateKey.bytes sk_recip.now) None (Self.EncappedKey.bytes encapped_key.now)) }
        ensures memory { result ≡ Err NoMemory → takes_memory };

    /// A secret and the encapsulated key that brings it to the holder of a private key, with or
    /// without a sender's identity.
    ///
    /// It draws 32 bytes by one call of `fill_bytes`, also before a refusal, and nothing else.
    /// `EncapError` comes exactly where `encap_of` of these bytes is none, or `NoMemory` in its place or
    /// in a secret's, where the KEM takes memory.
    fn encap<R: Rng>(
        alloc: Global,
        pk_recip: &Self::PublicKey,
        sk_sender_id: Option<&Self::PrivateKey>,
        pk_sender_id: Option<&Self::PublicKey>,
        csprng: &mut R,
    ) -> Result<(SharedSecret<Self>, Self::EncappedKey), HpkeError>
        requires { is_some sk_sender_id ≡ is_some pk_sender_id }
        ensures drawn { R.stream csprng.new ≡ (fill_bytes 32 (R.stream csprng.old)).1 }
        ensures value { Answers (λ made. (made.0, Self.EncappedKey.bytes made.1)) EncapError result
            (encap_of (Self.PublicKey.bytes pk_recip.now)
            (both (option_map (λ sk. Self.PrivateKey.bytes sk.now) sk_sender_id.entry)
            (option_map (λ pk. Self.PublicKey.bytes pk.now) pk_sender_id.entry))
            (fill_bytes 32 (R.stream csprng.old)).0) }
        ensures valid { IfOk result (λ made. Self.EncappedKey.has_value (Self.EncappedKey.bytes made.1)) }
        ensures memory { result ≡ Err NoMemory → takes_memory };

    // A derived public key is that of the derived private key.
    ghost derive_pair: { (ikm sk pk : List ℕ) → derive_of ikm ≡ Some (sk, pk) → pk ≡ pk_of sk };

    // A secret that is encapsulated is of one length.
    ghost encap_size: { (pk : List ℕ) (sender : Option (List ℕ × List ℕ)) (draw secret enc : List ℕ)
        → Self.PublicKey.has_value pk → length draw ≡ 32 → encap_of pk sender draw ≡ Some (secret, enc)
        → length secret ≡ Self.N_SECRET };

    // A secret that is found is of one length.
    ghost decap_size: { (sk : List ℕ) (sender : Option (List ℕ)) (enc secret : List ℕ) → Self.PrivateKey.has_value sk
        → Self.EncappedKey.has_value enc → decap_of sk sender enc ≡ Some secret → length secret ≡ Self.N_SECRET };

    // Without a sender's identity there is always a secret.
    ghost decap_without_sender: { (sk enc : List ℕ) → Self.PrivateKey.has_value sk → Self.EncappedKey.has_value enc
        → IsSome (decap_of sk None enc) };

    // Any bytes of the right length are an encapsulated key.
    ghost encapped_key_any: { (enc : List ℕ) → IsBytes enc → length enc ≡ Self.EncappedKey.wire_size → Self.EncappedKey.has_value enc };
}
