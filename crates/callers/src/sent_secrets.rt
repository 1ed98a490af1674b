//! A caller of `ml_kem`.

ghost use Rattle.std.specs.Prelude.{◌≡◌, None, Some, IfOk, IsErrOf};
ghost use Rattle.ml_kem.specs.Encapsulation.{encaps};
ghost use Rattle.ml_kem.specs.Keys.{IsEncapsulationKey};

use kem_hash::KemHash;
use ml_kem::{B32, EncapsulationKey, KemError, KeyError, ParameterSet, SharedKey};
use std::alloc::Global;

/// What a sender sends and what it keeps: the ciphertext and the shared key that a message of 32 bytes
/// gives under a key that came as bytes. `InvalidKey`: the bytes are no key, or the key's seed gives no
/// matrix. `NoMemory`: memory ran out.
pub fn sent<P: ParameterSet, H: KemHash>(
    alloc: Global,
    key: &[u8],
    message: &B32,
) -> Result<(Vec<u8>, SharedKey), KeyError>
    ensures key { IfOk result (λ _. IsEncapsulationKey P.set key.now) }
    ensures value { IfOk result (λ made. encaps P.set H.family key.now message.now ≡ Some (made.0.items, made.1)) }
    ensures invalid { IsErrOf result KeyError.InvalidKey → IsEncapsulationKey P.set key.now
        → encaps P.set H.family key.now message.now ≡ None }
{
    let key = EncapsulationKey::<P, H>::new(alloc, key)?;
    match key.encapsulate_deterministic(message) {
        Ok(made) => {
            let (ciphertext, shared) = made;
            let bytes = ciphertext.as_slice().to_vec(alloc)?;
            Ok((bytes, shared))
        }
        Err(KemError::XofExhausted) => Err(KeyError::InvalidKey),
        Err(KemError::NoMemory) => Err(KeyError::NoMemory),
    }
}
