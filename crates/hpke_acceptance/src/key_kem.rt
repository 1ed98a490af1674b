//! A KEM for tests that takes a sender's identity.

ghost use Rattle.std.specs.Prelude.{◌≡◌, length};

use hpke::{
    Deserializable, HpkeError, Kem, MaskKem, MaskKey, SecretSize, Serializable, SharedSecret,
};
use rand_core::Rng;
use std::alloc::{AllocError, Global};

/// A KEM under any identifier whose keys are those of the test KEM, and whose secret is a key: the
/// sender's, where there is one, and else the recipient's. It has no secrecy.
pub struct KeyKem<const ID: u16>;

impl<const ID: u16> SecretSize for KeyKem<ID> {
    const N_SECRET: usize = 32;

    ghost N_SECRET = { 32 };

    ghost use Rattle.std.proofs.Common.{rules};

    ghost secret_within = { Prim.search rules };
}

// A key as the secret.
fn secret<const ID: u16>(key: &MaskKey) -> SharedSecret<KeyKem<ID>>
    ensures value { result ≡ key.now }
    ensures size { length key.now ≡ 32 }
{
    let mut bytes = [0; 32];
    key.write_exact(&mut bytes);
    SharedSecret::new(&bytes)
}

impl<const ID: u16> Kem for KeyKem<ID> {
    ghost use Rattle.hpke_acceptance.specs.private.KeyKem.{key_decap, key_encap};
    ghost use Rattle.hpke.specs.Mask.{mask_derive, mask_public};

    type PublicKey = MaskKey;

    type PrivateKey = MaskKey;

    type EncappedKey = MaskKey;

    const KEM_ID: u16 = ID;

    ghost KEM_ID = { ID };

    ghost takes_memory = { ⊥ };

    ghost pk_of = { mask_public };

    ghost decap_of = { key_decap };

    ghost encap_of = { key_encap };

    ghost derive_of = { mask_derive };

    fn sk_to_pk(alloc: Global, sk: &MaskKey) -> Result<MaskKey, AllocError> {
        MaskKem::sk_to_pk(alloc, sk)
    }

    fn derive_keypair(alloc: Global, ikm: &[u8]) -> Result<(MaskKey, MaskKey), HpkeError> {
        MaskKem::derive_keypair(alloc, ikm)
    }

    fn decap(
        _alloc: Global,
        sk_recip: &MaskKey,
        pk_sender_id: Option<&MaskKey>,
        _encapped_key: &MaskKey,
    ) -> Result<SharedSecret<KeyKem<ID>>, HpkeError> {
        match pk_sender_id {
            Some(pk) => Ok(secret(pk)),
            None => Ok(secret(sk_recip)),
        }
    }

    fn encap<R: Rng>(
        alloc: Global,
        pk_recip: &MaskKey,
        sk_sender_id: Option<&MaskKey>,
        _pk_sender_id: Option<&MaskKey>,
        csprng: &mut R,
    ) -> Result<(SharedSecret<KeyKem<ID>>, MaskKey), HpkeError> {
        let (_secret, encapped_key) = MaskKem::encap(alloc, pk_recip, None, None, csprng)?;
        match sk_sender_id {
            Some(sk) => Ok((secret(sk), encapped_key)),
            None => Ok((secret(pk_recip), encapped_key)),
        }
    }

    ghost use Rattle.std.proofs.Common.{refl};
    ghost use Rattle.hpke.specs.private.MaskLaws.{mask_derive-pair};
    ghost use Rattle.hpke_acceptance.specs.private.KeyKemLaws.{key_decap-size, key_encap-size};

    ghost derive_pair = { mask_derive-pair };

    ghost encap_size = { key_encap-size };

    ghost decap_size = { key_decap-size };

    ghost decap_without_sender = { λ _ _ _ _. refl };

    ghost encapped_key_any = { λ _ bytes size. (size, bytes) };
}
