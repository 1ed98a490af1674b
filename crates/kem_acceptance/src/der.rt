//! Texts of another implementation, OpenSSL 4.0, and of an independent model that was written from the
//! standards in another language; what that model answers to changed texts; and each law once.

use hash_families::{Ones, RepeatingHash};
use kem_hash::{KemHash, Sha2Hash};
use key_der::{
    DerError, from_pkcs8_der, from_public_key_der, laws, oid, to_pkcs8_der, to_public_key_der,
};
use ml_kem::{DecapsulationKey, MlKem512, MlKem768, MlKem1024, ParameterSet};
use sha2::{Digest, Sha256};
use std::alloc::Global;
use std::test::Fail;

// Private keys that OpenSSL wrote.
const PRIVATE_768: &[u8; 86] =
    b"\x30\x54\x02\x01\x00\x30\x0b\x06\x09\x60\x86\x48\x01\x65\x03\x04\x04\x02\x04\x42\x80\x40\x87\xcd\xe5\x3f\xa7\xb7\x45\x53\x6e\x47\x19\xc5\x8a\x35\xb1\x6f\x51\x3c\xa5\xd0\xc3\xbb\xa6\xae\xcb\xcc\xe1\xe1\x24\x73\xa6\xd0\x9b\xf6\xe9\x40\x03\x0d\x39\x5c\xb0\xb6\xff\x06\x54\x45\x6c\xd3\xf4\xdc\x1e\x3b\x64\xb0\x25\xd9\xad\xea\x97\x06\x97\x75\x67\x35";

const PRIVATE_1024: &[u8; 86] =
    b"\x30\x54\x02\x01\x00\x30\x0b\x06\x09\x60\x86\x48\x01\x65\x03\x04\x04\x03\x04\x42\x80\x40\xfa\xb2\x51\x07\x1d\x8f\x88\x7d\x45\x7b\x79\x65\xfc\xf6\x77\xc1\x25\x8e\xed\x57\x3f\x56\x4c\x13\x38\x30\x4f\x97\xbc\xa6\x10\xb0\x5b\xf5\xf1\x27\xa3\x8b\x96\x30\xe7\x53\x95\x93\x82\x61\xb0\x02\x78\x57\xc2\x19\xbb\xca\xb8\x93\x6e\x67\x96\xb0\x7d\x39\x64\x56";

// What stands before a key of ML-KEM-512.
const PRIVATE_HEADER_512: &[u8; 22] =
    b"\x30\x54\x02\x01\x00\x30\x0b\x06\x09\x60\x86\x48\x01\x65\x03\x04\x04\x01\x04\x42\x80\x40";

const PUBLIC_HEADER_512: &[u8; 22] =
    b"\x30\x82\x03\x32\x30\x0b\x06\x09\x60\x86\x48\x01\x65\x03\x04\x04\x01\x03\x82\x03\x21\x00";

// The SHA-256 of the public key of the zero seed.
const PUBLIC_512_HASH: &[u8; 32] =
    b"\x45\xc1\xe1\xdf\xd9\x9a\x42\xa0\x27\xc4\x68\xe6\xc3\x7d\x9f\x90\x67\xeb\xb4\x44\xc4\x4d\x08\x8c\xa0\xb2\x75\xaa\xa7\xbd\x17\x15";

// A family under which no seed gives a key.
type NoKeys = RepeatingHash<Ones>;

// Whether a private key is read, and written again to the byte.
fn is_kept<P: ParameterSet, H: KemHash>(alloc: Global, der: &[u8]) -> Result<bool, DerError> {
    let key = from_pkcs8_der::<P, H>(alloc, der)?;
    let again = to_pkcs8_der(alloc, &key)?;
    Ok(again.as_slice() == der)
}

// Where a text is no private key of a parameter set.
fn private_place<P: ParameterSet, H: KemHash>(alloc: Global, der: &[u8]) -> Option<usize> {
    match from_pkcs8_der::<P, H>(alloc, der) {
        Err(DerError::NotThisShape(place)) => Some(place),
        _ => None,
    }
}

// Where a text is no private key of ML-KEM-512.
fn private_place_512(alloc: Global, der: &[u8]) -> Option<usize> {
    private_place::<MlKem512, NoKeys>(alloc, der)
}

// Where a text is no public key of a parameter set.
fn public_place<P: ParameterSet, H: KemHash>(alloc: Global, der: &[u8]) -> Option<usize> {
    match from_public_key_der::<P, H>(alloc, der) {
        Err(DerError::NotThisShape(place)) => Some(place),
        _ => None,
    }
}

// Where a text is no public key of ML-KEM-512.
fn public_place_512(alloc: Global, der: &[u8]) -> Option<usize> {
    public_place::<MlKem512, NoKeys>(alloc, der)
}

// Whether a text is refused for its key.
fn is_invalid<P: ParameterSet, H: KemHash>(alloc: Global, der: &[u8]) -> bool {
    matches!(
        from_public_key_der::<P, H>(alloc, der),
        Err(DerError::InvalidKey)
    )
}

// Whether a text of ML-KEM-512 is refused for its key.
fn is_invalid_512(alloc: Global, der: &[u8]) -> bool {
    is_invalid::<MlKem512, NoKeys>(alloc, der)
}

#[test]
fn private_keys_of_openssl(rt: HostRuntime) -> Result<(), Fail> {
    assert!(rt; is_kept::<MlKem768, Sha2Hash>(rt.alloc(), PRIVATE_768)?);
    assert!(rt; is_kept::<MlKem1024, Sha2Hash>(rt.alloc(), PRIVATE_1024)?);
    Ok(())
}

// Whether the public key of the zero seed is written as the text of this SHA-256, and read again.
fn is_public_text<P: ParameterSet, H: KemHash>(
    alloc: Global,
    hash: &[u8; 32],
) -> Result<bool, Fail> {
    let key = DecapsulationKey::<P, H>::from_seed(alloc, &[0; 64])?;
    let der = to_public_key_der(alloc, key.encapsulation_key())?;
    let read = from_public_key_der::<P, H>(alloc, der.as_slice())?;
    Ok(Sha256::digest(der.as_slice()) == *hash && read == *key.encapsulation_key())
}

#[test]
fn public_key_of_the_zero_seed(rt: HostRuntime) -> Result<(), Fail> {
    assert!(rt; is_public_text::<MlKem512, Sha2Hash>(rt.alloc(), PUBLIC_512_HASH)?);
    Ok(())
}

#[test]
fn other_private_texts(rt: HostRuntime) {
    let mut der = [0; 86];
    der[..22].copy_from_slice(PRIVATE_HEADER_512);
    for i in 0..22 {
        let mut other = der;
        other[i] ^= 1;
        assert!(rt; private_place_512(rt.alloc(), &other) == Some(i));
    }
    for size in 0..86 {
        assert!(rt; private_place_512(rt.alloc(), &der[..size]) == Some(size));
    }
    let mut longer = [0; 87];
    longer[..86].copy_from_slice(&der);
    assert!(rt; private_place_512(rt.alloc(), &longer) == Some(86));
    assert!(rt; private_place_512(rt.alloc(), PRIVATE_768) == Some(17));
}

#[test]
fn other_public_texts(rt: HostRuntime) {
    let mut der = [0; 822];
    der[..22].copy_from_slice(PUBLIC_HEADER_512);
    for i in 0..22 {
        let mut other = der;
        other[i] ^= 1;
        assert!(rt; public_place_512(rt.alloc(), &other) == Some(i));
    }
    assert!(rt; public_place_512(rt.alloc(), &der[..821]) == Some(821));
    let mut longer = [0; 823];
    longer[..822].copy_from_slice(&der);
    assert!(rt; public_place_512(rt.alloc(), &longer) == Some(822));
    assert!(rt; public_place::<MlKem768, NoKeys>(rt.alloc(), &der) == Some(2));
}

#[test]
fn invalid_public_keys(rt: HostRuntime) {
    let mut der = [0; 822];
    der[..22].copy_from_slice(PUBLIC_HEADER_512);
    // The first number 3328, then 3329.
    der[23] = 0x0d;
    assert!(rt; !is_invalid_512(rt.alloc(), &der));
    der[22] = 0x01;
    assert!(rt; is_invalid_512(rt.alloc(), &der));
    // The last number 3329.
    der[22] = 0x00;
    der[788] = 0x10;
    der[789] = 0xd0;
    assert!(rt; is_invalid_512(rt.alloc(), &der));
    // The header is judged first.
    der[2] = 0xff;
    assert!(rt; public_place_512(rt.alloc(), &der) == Some(2));
}

// Whether a key that is read from its expanded form is not written, since it has no seed.
fn is_not_written<P: ParameterSet, H: KemHash>(alloc: Global) -> Result<bool, Fail> {
    let key = DecapsulationKey::<P, H>::from_seed(alloc, &[0; 64])?;
    let form = key.to_expanded_bytes()?;
    let read = DecapsulationKey::<P, H>::from_expanded(alloc, form.as_slice())?;
    Ok(matches!(to_pkcs8_der(alloc, &read), Err(DerError::NoSeed)))
}

#[test]
fn a_key_without_seed(rt: HostRuntime) -> Result<(), Fail> {
    assert!(rt; is_not_written::<MlKem512, Sha2Hash>(rt.alloc())?);
    Ok(())
}

// Whether the seed of a text gives no key.
fn is_exhausted<P: ParameterSet, H: KemHash>(alloc: Global, der: &[u8]) -> bool {
    matches!(
        from_pkcs8_der::<P, H>(alloc, der),
        Err(DerError::XofExhausted)
    )
}

#[test]
fn an_exhausted_xof_gives_no_key(rt: HostRuntime) {
    assert!(rt; is_exhausted::<MlKem768, NoKeys>(rt.alloc(), PRIVATE_768));
}

#[test]
fn object_identifiers(rt: HostRuntime) {
    assert!(rt; oid::<MlKem1024>() == *b"\x60\x86\x48\x01\x65\x03\x04\x04\x03");
}

#[test]
fn laws_are_called(_rt: HostRuntime) {
    laws::worked_encodings();
    laws::object_identifiers();
    laws::headers();
    laws::texts();
    laws::mismatches();
    laws::one_answer();
    laws::some_answer();
}
