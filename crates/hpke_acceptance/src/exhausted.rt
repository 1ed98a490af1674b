//! What `LatticeKem` refuses over a family for which no seed gives a key.

use crate::refusals::{derivation, drawing, reading};
use hash_families::{Ones, RepeatingHash};
use hpke::{Deserializable, HpkeError, Kem, LatticeKem, LatticePublicKey};
use ml_kem::MlKem768;
use rand_chacha::ChaCha20Rng;
use rand_core::SeedableRng;
use std::alloc::Global;
use std::test::Fail;

/// The KEM over that family.
type Exhausted = LatticeKem<MlKem768, RepeatingHash<Ones>>;

// Whether seeds that are derived, read and drawn are refused as invalid, the drawn one behind its 16
// words.
fn refuses_seeds<K: Kem>(alloc: Global) -> bool {
    let refused = Some(HpkeError::ValidationError);
    derivation::<K>(alloc, &[7; 64]) == refused
        && reading::<K::PrivateKey>(alloc, &[0; 64]) == refused
        && drawing::<K>(alloc) == (refused, 16)
}

#[test]
fn seeds_are_refused(rt: HostRuntime) -> Result<(), Fail> {
    assert!(rt; refuses_seeds::<Exhausted>(rt.alloc()));
    Ok(())
}

// What encapsulation to a public key of these bytes is refused with, and how many words are gone then.
fn encapsulation(alloc: Global, pk: &[u8]) -> Result<(Option<HpkeError>, u128), Fail> {
    let pk = LatticePublicKey::<MlKem768, RepeatingHash<Ones>>::from_bytes(alloc, pk)?;
    let mut csprng = ChaCha20Rng::from_seed([7; 32]);
    let made = Exhausted::encap(alloc, &pk, None, None, &mut csprng).err();
    Ok((made, csprng.get_word_pos()))
}

// A public key of zeros is one, and its matrix has no samples.
#[test]
fn encapsulations_are_refused(rt: HostRuntime) -> Result<(), Fail> {
    let made = encapsulation(rt.alloc(), &[0; 1184])?;
    assert!(rt; made == (Some(HpkeError::EncapError), 8));
    Ok(())
}
