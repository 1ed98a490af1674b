//! A caller of `key_der`.

ghost use Rattle.std.specs.Prelude.{◌≡◌, ◌≢◌, Err, IfOk};
ghost use Rattle.key_der.specs.declared.error.DerError.TheVariants.{NoSeed};

use kem_hash::KemHash;
use key_der::{DerError, from_pkcs8_der, to_pkcs8_der};
use ml_kem::ParameterSet;
use std::alloc::Global;

/// A private key's text in DER, as it is written again of the key that it holds: what is read is written
/// again to the byte, and a key that was read has a seed.
pub fn rewritten<P: ParameterSet, H: KemHash>(
    alloc: Global,
    der: &[u8],
) -> Result<Vec<u8>, DerError>
    ensures same { IfOk result (λ text. text.items ≡ der.now) }
    ensures seed { result ≢ Err NoSeed }
{
    let key = from_pkcs8_der::<P, H>(alloc, der)?;
    to_pkcs8_der(alloc, &key)
}
