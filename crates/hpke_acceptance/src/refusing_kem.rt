//! A KEM for tests that derives no keys, and what is refused for it.

ghost use Rattle.std.specs.Prelude.{◌≡◌, length};

use crate::refusals::{derivation, drawing};
use hpke::{HpkeError, Kem, MaskKem, MaskKey, SecretSize, SharedSecret};
use rand_core::Rng;
use std::alloc::{AllocError, Global};
use std::test::Fail;

/// The test KEM of `hpke` under another identifier, for which no keying material gives keys. It has no
/// secrecy.
struct RefusingKem;

impl SecretSize for RefusingKem {
    const N_SECRET: usize = 32;

    ghost N_SECRET = { 32 };

    ghost use Rattle.std.proofs.Common.{rules};

    ghost secret_within = { Prim.search rules };
}

// A secret of the test KEM as one of this KEM.
fn secret(of_mask: &SharedSecret<MaskKem>) -> SharedSecret<RefusingKem>
    ensures { result ≡ of_mask.now }
{
    SharedSecret::new(of_mask.as_slice())
}

impl Kem for RefusingKem {
    ghost use Rattle.std.specs.Prelude.{None};
    ghost use Rattle.hpke.specs.Mask.{mask_decap, mask_encap, mask_public};

    type PublicKey = MaskKey;

    type PrivateKey = MaskKey;

    type EncappedKey = MaskKey;

    const KEM_ID: u16 = 0xFF01;

    ghost KEM_ID = { 0xFF01 };

    ghost takes_memory = { ⊥ };

    ghost pk_of = { mask_public };

    ghost decap_of = { mask_decap };

    ghost encap_of = { mask_encap };

    ghost derive_of = { λ _. None };

    fn sk_to_pk(alloc: Global, sk: &MaskKey) -> Result<MaskKey, AllocError> {
        MaskKem::sk_to_pk(alloc, sk)
    }

    fn derive_keypair(_alloc: Global, _ikm: &[u8]) -> Result<(MaskKey, MaskKey), HpkeError> {
        Err(HpkeError::ValidationError)
    }

    fn decap(
        alloc: Global,
        sk_recip: &MaskKey,
        pk_sender_id: Option<&MaskKey>,
        encapped_key: &MaskKey,
    ) -> Result<SharedSecret<RefusingKem>, HpkeError> {
        let found = MaskKem::decap(alloc, sk_recip, pk_sender_id, encapped_key)?;
        Ok(secret(&found))
    }

    fn encap<R: Rng>(
        alloc: Global,
        pk_recip: &MaskKey,
        sk_sender_id: Option<&MaskKey>,
        pk_sender_id: Option<&MaskKey>,
        csprng: &mut R,
    ) -> Result<(SharedSecret<RefusingKem>, MaskKey), HpkeError> {
        let (made, encapped_key) = MaskKem::encap(
            alloc,
            pk_recip,
            sk_sender_id,
            pk_sender_id,
            csprng,
        )?;
        Ok((secret(&made), encapped_key))
    }

    ghost use Rattle.std.proofs.Common.{refl};
    ghost use Rattle.std.proofs.lemmas.Option.{none-some};
    ghost use Rattle.hpke.specs.private.MaskLaws.{mask_decap-size, mask_encap-size};

    ghost derive_pair = { λ _ _ _ is. absurd (none-some _ is) };

    ghost encap_size = { mask_encap-size };

    ghost decap_size = { mask_decap-size };

    ghost decap_without_sender = { λ _ _ _ _. refl };

    ghost encapped_key_any = { λ _ bytes size. (size, bytes) };
}

// Keying material that gives no keys is refused by name, also where it was drawn: its 32 bytes, eight
// words of the generator, are gone then.
#[test]
fn material_that_gives_no_keys_is_refused(rt: HostRuntime) -> Result<(), Fail> {
    let refused = Some(HpkeError::ValidationError);
    assert!(rt; derivation::<RefusingKem>(rt.alloc(), &[7; 32]) == refused);
    assert!(rt; drawing::<RefusingKem>(rt.alloc()) == (refused, 8));
    Ok(())
}
