//! A caller of `decryption_noise`.

ghost use Rattle.std.specs.Prelude.{◌≡◌, Some, IfOk};
ghost use Rattle.ml_kem.specs.Keys.{Key, key_of};
ghost use Rattle.decryption_noise.specs.Noise.{AllInside, honest_coins, noise_of};

use decryption_noise::laws;
use kem_hash::KemHash;
use ml_kem::{B32, DecapsulationKey, KemError, ParameterSet, Seed, SharedKey};
use std::alloc::Global;

/// The shared keys of a sender and of a receiver: what a message of 32 bytes gives under the key of a seed,
/// and what that key finds in the ciphertext. Where all of the noise is inside, they are one key.
pub fn both_secrets<P: ParameterSet, H: KemHash>(
    alloc: Global,
    seed: &Seed,
    message: &B32,
) -> Result<(SharedKey, SharedKey), KemError>
    ensures { IfOk result (λ secrets. (key : Key) → key_of P.set H.family seed.now ≡ Some key
        → AllInside message.now (noise_of P.set H.family key message.now (honest_coins H.family key.ek message.now))
        → secrets.1 ≡ secrets.0) }
{
    laws::decapsulate_answers_the_shared_key();
    let key = DecapsulationKey::<P, H>::from_seed(alloc, seed)?;
    let (ciphertext, sent) = key.encapsulation_key().encapsulate_deterministic(message)?;
    let received = key.decapsulate(&ciphertext)?;
    Ok((sent, received))
}
