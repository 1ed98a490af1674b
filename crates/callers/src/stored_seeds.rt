//! A caller of `hpke`'s `LatticeKem`.

ghost use Rattle.std.specs.Prelude.{◌≡◌, codes, [], Some, IfOk};
ghost use Rattle.std.specs.Option.{option_and_then};
ghost use Rattle.ml_kem.specs.Encapsulation.{decaps};
ghost use Rattle.ml_kem.specs.Keys.{key_of};
ghost use Rattle.hpke.specs.Lattice.{lattice_kem_id};
ghost use Rattle.hpke.specs.Schedule.{mode_base, receiver_setup, suite_of};
ghost use Rattle.hpke.specs.SingleShot.{opened_once};

use crate::sealed_contexts::open_letter;
use hpke::{Aead, BaseAead, HpkeError, Kdf, LatticeKem, LatticePrivateKey};
use kem_hash::KemHash;
use ml_kem::{DecapsulationKey, KemError, ParameterSet, Seed};
use std::alloc::Global;

/// Opens a letter by a stored seed: the bytes of a ciphertext, and one text that was sealed in mode
/// Base, with `letter` as the info and without associated data. A seed that gives no key is no valid one.
pub fn open_letter_by_seed<A: Aead, D: Kdf, P: ParameterSet, H: KemHash>(
    alloc: Global,
    seed: &Seed,
    encapped: &[u8],
    sealed: &[u8],
) -> Result<Vec<u8>, HpkeError>
    ensures { let secret = option_and_then (λ key. decaps P.set H.family key.s key.ek key.z encapped.now) (key_of P.set H.family seed.now) in
        let setup = receiver_setup (suite_of (lattice_kem_id P.set) D.kdf A.aead) mode_base (codes "letter") secret in
        IfOk result (λ text. option_and_then (opened_once A.AeadImpl.open_of [] sealed.now) setup ≡ Some text.items) }
{
    match DecapsulationKey::<P, H>::from_seed(alloc, seed) {
        Ok(key) => {
            let sk = LatticePrivateKey::new(key);
            open_letter::<A, D, LatticeKem<P, H>>(alloc, &sk, encapped, sealed)
        }
        Err(KemError::XofExhausted) => Err(HpkeError::ValidationError),
        Err(KemError::NoMemory) => Err(HpkeError::NoMemory),
    }
}
