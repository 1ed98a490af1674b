//! A KEM for tests, which has no secrecy.

ghost use Rattle.std.specs.Prelude.{◌≡◌, length};
ghost use Rattle.hpke.specs.Bytes.{xor_bytes};
ghost use Rattle.hpke.specs.Mask.{IsMaskKey, mask_key, mask_public, mask_decap, mask_encap, mask_derive};

use crate::error::HpkeError;
use crate::kdf::derive_short;
use crate::kem::Kem;
use crate::secret::{SecretSize, SharedSecret};
use crate::serial::{Deserializable, Serializable};
use crate::short::xor_in_place;
use rand_core::Rng;
use std::alloc::{AllocError, Global};
use std::marker::Model;

/// How many bytes a key, an encapsulated key and a secret have.
const MASK_LEN: usize = 32;

/// The identifier of the KEM.
const MASK_KEM_ID: u16 = 0xFF00;

/// A public key, a private key or an encapsulated key of [`MaskKem`]: any 32 bytes.
#[derive(Drop)]
pub struct MaskKey {
    bytes: [u8; MASK_LEN],
}

impl Model for MaskKey {
    ghost use Rattle.std.specs.Prelude.{ℕ, List};

    ghost Value = { List ℕ };

    ghost view = { λ key. key.bytes };
}

// The key of these bytes.
fn key(bytes: [u8; MASK_LEN]) -> MaskKey
    ensures value { result ≡ bytes }
    ensures valid { IsMaskKey result }
{
    MaskKey { bytes }
}

impl Serializable for MaskKey {
    ghost bytes = { λ key. key };

    ghost wire_size = { 32 };

    ghost use Rattle.hpke.specs.Mask.{IsMaskKey};

    ghost has_value = { IsMaskKey };

    fn size() -> usize {
        MASK_LEN
    }

    fn write_exact(&self, buffer: &mut [u8]) {
        buffer.copy_from_slice(&self.bytes);
    }

    ghost value_size = { λ _ is. is.0 };
}

impl Deserializable for MaskKey {
    ghost takes_memory = { ⊥ };

    fn from_bytes(_alloc: Global, encoded: &[u8]) -> Result<MaskKey, HpkeError> {
        if encoded.len() != MASK_LEN {
            return Err(HpkeError::IncorrectInputLength(MASK_LEN, encoded.len()));
        }
        let mut bytes = [0; MASK_LEN];
        bytes.copy_from_slice(encoded);
        Ok(key(bytes))
    }
}

/// A KEM for tests: the public key is the private key, what is drawn is the encapsulated key, and
/// the secret is the key XOR the encapsulated key. It has no secrecy.
///
/// A sender's identity is refused: by `DecapError` and by `EncapError`. Of the calls only
/// `gen_keypair` takes memory.
pub struct MaskKem;

impl SecretSize for MaskKem {
    const N_SECRET: usize = MASK_LEN;

    ghost N_SECRET = { 32 };

    ghost use Rattle.std.proofs.Common.{rules};

    ghost secret_within = { Prim.search rules };
}

impl Kem for MaskKem {
    type PublicKey = MaskKey;

    type PrivateKey = MaskKey;

    type EncappedKey = MaskKey;

    const KEM_ID: u16 = MASK_KEM_ID;

    ghost KEM_ID = { 0xFF00 };

    ghost takes_memory = { ⊥ };

    ghost pk_of = { mask_public };

    ghost decap_of = { mask_decap };

    ghost encap_of = { mask_encap };

    ghost derive_of = { mask_derive };

    fn sk_to_pk(_alloc: Global, sk: &MaskKey) -> Result<MaskKey, AllocError> {
        Ok(key(sk.bytes))
    }

    fn derive_keypair(_alloc: Global, ikm: &[u8]) -> Result<(MaskKey, MaskKey), HpkeError> {
        let bytes = derive_key(ikm);
        Ok((key(bytes), key(bytes)))
    }

    fn decap(
        _alloc: Global,
        sk_recip: &MaskKey,
        pk_sender_id: Option<&MaskKey>,
        encapped_key: &MaskKey,
    ) -> Result<SharedSecret<MaskKem>, HpkeError> {
        if pk_sender_id.is_some() {
            return Err(HpkeError::DecapError);
        }
        Ok(SharedSecret::new(&mask(&sk_recip.bytes, &encapped_key.bytes)))
    }

    fn encap<R: Rng>(
        _alloc: Global,
        pk_recip: &MaskKey,
        sk_sender_id: Option<&MaskKey>,
        _pk_sender_id: Option<&MaskKey>,
        csprng: &mut R,
    ) -> Result<(SharedSecret<MaskKem>, MaskKey), HpkeError> {
        let mut draw = [0; MASK_LEN];
        csprng.fill_bytes(&mut draw);
        if sk_sender_id.is_some() {
            return Err(HpkeError::EncapError);
        }
        let secret = SharedSecret::new(&mask(&pk_recip.bytes, &draw));
        Ok((secret, key(draw)))
    }

    ghost use Rattle.std.proofs.Common.{refl};
    ghost use Rattle.hpke.specs.private.MaskLaws.{mask_decap-size, mask_derive-pair, mask_encap-size};

    ghost derive_pair = { mask_derive-pair };

    ghost encap_size = { mask_encap-size };

    ghost decap_size = { mask_decap-size };

    ghost decap_without_sender = { λ _ _ _ _. refl };

    ghost encapped_key_any = { λ _ bytes size. (size, bytes) };
}

// The key of input keying material.
fn derive_key(ikm: &[u8]) -> [u8; MASK_LEN]
    ensures { result ≡ mask_key ikm.now }
{
    let short = derive_short(MASK_KEM_ID, ikm, MASK_LEN);
    let mut bytes = [0; MASK_LEN];
    bytes.copy_from_slice(short.as_slice());
    bytes
}

// Two keys, XORed place by place.
fn mask(a: &[u8; MASK_LEN], b: &[u8; MASK_LEN]) -> [u8; MASK_LEN]
    ensures { result ≡ xor_bytes a.now b.now }
{
    let mut c = *a;
    xor_in_place(&mut c, b);
    c
}
