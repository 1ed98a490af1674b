//! A caller of `sha3_family`.

ghost use Rattle.std.specs.Prelude.{◌≡◌, IfOk, Some};
ghost use Rattle.std.specs.Option.{option_map};
ghost use Rattle.ml_kem.specs.Keys.{key_of};
ghost use Rattle.ml_kem.specs.Parameters.{ml_kem_768};
ghost use Rattle.sha3_family.specs.Sha3Family.{sha3_family};

use ml_kem::{DecapsulationKey768, KemError, Seed};
use sha3_family::Sha3Hash;
use std::alloc::Global;

/// The public key of a seed at 768, in the bytes that any implementation of FIPS 203 reads.
pub fn public_key(alloc: Global, seed: &Seed) -> Result<Vec<u8>, KemError>
    ensures { IfOk result (λ bytes. option_map (λ key. key.ek) (key_of ml_kem_768 sha3_family seed.now) ≡ Some bytes.items) }
{
    let key = DecapsulationKey768::<Sha3Hash>::from_seed(alloc, seed)?;
    Ok(key.encapsulation_key().to_bytes()?)
}
