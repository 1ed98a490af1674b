//! Private keys: OneAsymmetricKey (RFC 5958, section 2), which holds a seed.

ghost use Rattle.std.specs.Prelude.{◌≡◌, ◌↔◌, ◌⊎◌, ◌++◌, Err, IfErr, IfOk, IsNone, IsSomeAnd, Ok, length};
ghost use Rattle.key_der.specs.Keys.{one_asymmetric_key, private_header};
ghost use Rattle.key_der.specs.Reading.{ReadsPrivateKey};
ghost use Rattle.key_der.specs.declared.error.DerError.TheVariants.{NoMemory, NoSeed};

use crate::error::DerError;
use crate::shape::{HEADER_SIZE, SEED_SIZE, key_behind, private_header};
use kem_hash::KemHash;
use ml_kem::{DecapsulationKey, ParameterSet, Seed};
use std::alloc::{AllocError, Global};

/// The private key as a text in DER: 86 bytes, of which the last 64 are the seed.
///
/// `NoSeed` comes exactly for a key without a seed, which is one that was read from its expanded form, and
/// `NoMemory` at want of memory.
pub fn to_pkcs8_der<P: ParameterSet, H: KemHash>(
    alloc: Global,
    key: &DecapsulationKey<P, H>,
) -> Result<Vec<u8>, DerError>
    ensures value { IfOk result (λ der. IsSomeAnd key.now.seed (λ seed. der.items ≡ one_asymmetric_key P.set seed)) }
    // What is written is read as the same key.
    ensures read { IfOk result (λ der. ReadsPrivateKey (λ key. key) P.set H.family der.items (Ok key.now)) }
    ensures no_seed { (result ≡ Err NoSeed) ↔ IsNone key.now.seed }
    ensures refused { IfErr result (λ e. (e ≡ NoMemory) ⊎ (e ≡ NoSeed)) }
{
    let Some(seed) = key.to_seed() else {
        return Err(DerError::NoSeed);
    };
    let der = private_text::<P>(alloc, &seed)?;
    Ok(der)
}

/// The private key of a text in DER: the key of the seed that the text holds. What is read is what
/// [`to_pkcs8_der`] writes of the key.
///
/// `NotThisShape` comes exactly where the text isn't a header of this parameter set and 64 bytes behind it,
/// and tells the place of the first byte that isn't the header's, or else the smaller of the text's length
/// and 86. `XofExhausted` comes exactly where the text has the shape and its seed gives no key: where an
/// entry of the matrix has fewer than 256 numbers below 3329. `NoMemory` comes at want of memory, where
/// the text has the shape.
pub fn from_pkcs8_der<P: ParameterSet, H: KemHash>(
    alloc: Global,
    der: &[u8],
) -> Result<DecapsulationKey<P, H>, DerError>
    ensures value { ReadsPrivateKey (λ key. key) P.set H.family der.now result }
    // What is read is the text that is written of the key.
    ensures written { IfOk result (λ key. IsSomeAnd key.seed (λ seed. der.now ≡ one_asymmetric_key P.set seed)) }
{
    let bytes = match key_behind(&private_header::<P>(), SEED_SIZE, der) {
        Ok(bytes) => bytes,
        Err(place) => return Err(DerError::NotThisShape(place)),
    };
    let mut seed = [0; SEED_SIZE];
    seed.copy_from_slice(bytes);
    let key = DecapsulationKey::from_seed(alloc, &seed)?;
    Ok(key)
}

// A header and a seed behind it.
fn private_text<P: ParameterSet>(alloc: Global, seed: &Seed) -> Result<Vec<u8>, AllocError>
    ensures text { IfOk result (λ der. der.items ≡ private_header P.set ++ seed.now) }
    ensures size { length seed.now ≡ 64 }
{
    let mut der = Vec::with_capacity(alloc, HEADER_SIZE + SEED_SIZE)?;
    der.extend_from_slice(&private_header::<P>())?;
    der.extend_from_slice(seed)?;
    Ok(der)
}
