//! Public keys: SubjectPublicKeyInfo (RFC 5280, section 4.1), which holds an encapsulation key.

ghost use Rattle.std.specs.Prelude.{◌≡◌, ◌+◌, ◌++◌, IfOk, Ok, length};
ghost use Rattle.ml_kem.specs.Keys.{IsEncapsulationKey};
ghost use Rattle.key_der.specs.Keys.{public_header, subject_public_key_info};
ghost use Rattle.key_der.specs.Reading.{ReadsPublicKey};

use crate::error::DerError;
use crate::shape::{HEADER_SIZE, key_behind, public_header};
use kem_hash::KemHash;
use ml_kem::{EncapsulationKey, ParameterSet};
use std::alloc::{AllocError, Global};

/// The public key as a text in DER: 22 bytes and the EK_SIZE bytes of the encapsulation key, so 822 bytes
/// for ML-KEM-512, 1206 for ML-KEM-768 and 1590 for ML-KEM-1024. It is refused at want of memory alone.
pub fn to_public_key_der<P: ParameterSet, H: KemHash>(
    alloc: Global,
    key: &EncapsulationKey<P, H>,
) -> Result<Vec<u8>, AllocError>
    ensures value { IfOk result (λ der. der.items ≡ subject_public_key_info P.set key.now) }
    // What is written is read as the same key.
    ensures read { IfOk result (λ der. ReadsPublicKey (λ key. key) P.set der.items (Ok key.now)) }
{
    let der = public_text(alloc, key)?;
    Ok(der)
}

/// The public key of a text in DER. What is read is what [`to_public_key_der`] writes of the key.
///
/// `NotThisShape` comes exactly where the text isn't a header of this parameter set and EK_SIZE bytes
/// behind it, and tells the place of the first byte that isn't the header's, or else the smaller of the
/// text's length and the due one. `InvalidKey` comes exactly where the text has the shape and a group of 12
/// bits of the key's vector part is 3329 or more. `NoMemory` comes at want of memory, where the text has
/// the shape.
pub fn from_public_key_der<P: ParameterSet, H: KemHash>(
    alloc: Global,
    der: &[u8],
) -> Result<EncapsulationKey<P, H>, DerError>
    ensures { ReadsPublicKey (λ key. key) P.set der.now result }
{
    let bytes = match key_behind(&public_header::<P>(), P::EK_SIZE, der) {
        Ok(bytes) => bytes,
        Err(place) => return Err(DerError::NotThisShape(place)),
    };
    let key = EncapsulationKey::new(alloc, bytes)?;
    Ok(key)
}

// A header and a key behind it.
fn public_text<P: ParameterSet, H: KemHash>(
    alloc: Global,
    key: &EncapsulationKey<P, H>,
) -> Result<Vec<u8>, AllocError>
    ensures text { IfOk result (λ der. der.items ≡ public_header P.set ++ key.now) }
    ensures is { IfOk result (λ _. IsEncapsulationKey P.set key.now) }
{
    let mut der = vec![in alloc; 0; HEADER_SIZE + P::EK_SIZE]?;
    write_public(key, der.as_mut_slice());
    Ok(der)
}

// The same into bytes that are there.
fn write_public<P: ParameterSet, H: KemHash>(key: &EncapsulationKey<P, H>, out: &mut [u8])
    requires { length out.old ≡ 22 + P.EK_SIZE }
    ensures text { out.new ≡ public_header P.set ++ key.now }
    ensures is { IsEncapsulationKey P.set key.now }
{
    let (header, rest) = out.split_at_mut(HEADER_SIZE);
    header.copy_from_slice(&public_header::<P>());
    key.write_bytes(rest);
}
