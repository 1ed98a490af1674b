//! A caller of the laws: what the call for decapsulation answers, by its contract and a law.

ghost use Rattle.std.specs.Prelude.{◌≡◌, ℕ, List, Some};
ghost use Rattle.kem_hash.specs.Family.{AreBytes};
ghost use Rattle.ml_kem.specs.Answers.{Answers};
ghost use Rattle.ml_kem.specs.Encapsulation.{encaps};
ghost use Rattle.ml_kem.specs.Keys.{Key, key_of};
ghost use Rattle.decryption_noise.specs.Noise.{AllInside, honest_coins, noise_of};

use decryption_noise::laws;
use kem_hash::KemHash;
use ml_kem::{Ciphertext, DecapsulationKey, KemError, ParameterSet, Seed, SharedKey};
use std::alloc::Global;

/// The shared key of a ciphertext under the key of a seed. Where Encaps made the ciphertext of a message of
/// 32 bytes, and all of the noise is inside, it is the key of Encaps, or memory runs out.
pub fn received_secret<P: ParameterSet, H: KemHash>(
    alloc: Global,
    seed: &Seed,
    c: &Ciphertext<P>,
) -> Result<SharedKey, KemError>
    ensures { (m shared : List ℕ) (key : Key) → key_of P.set H.family seed.now ≡ Some key → AreBytes 32 m
        → encaps P.set H.family key.ek m ≡ Some (c.now, shared) → AllInside m (noise_of P.set H.family key m (honest_coins H.family key.ek m))
        → Answers (λ k. k) result (Some shared) }
{
    laws::decapsulate_answers_the_shared_key();
    let key = DecapsulationKey::<P, H>::from_seed(alloc, seed)?;
    key.decapsulate(c)
}
