//! Decapsulation keys: cases of an independent model that was written from the standard in another
//! language, of which the expanded form is compared by its SHA-256, and each call once.

use crate::kem::zero_draw::ZeroDraw;
use hash_families::{Ones, RepeatingHash};
use kem_hash::{KemHash, Sha2Hash};
use ml_kem::{
    Ciphertext, DecapsulationKey512, DecapsulationKey768, DecapsulationKey1024, KemError, SharedKey,
};
use sha2::{Digest, Sha256};
use std::alloc::Global;
use std::test::Fail;

const SEED: &[u8; 64] =
    b"\xda\x2a\x50\x8d\x53\x6a\x0e\x8c\x65\xcc\xc3\x09\xd1\xc6\x0f\xaf\xe8\x1b\x99\x52\xbe\x85\x88\x5e\x29\x5b\x63\x3a\xb3\xfe\x29\x9a\xa9\xc1\x67\x97\x6e\x95\xe5\xe5\xfd\xcb\x59\x8d\x48\x39\x5f\x37\x02\xd2\x71\xdb\xa2\xce\xee\xa6\x11\x8c\x4e\x1f\x7d\x2f\xb1\x9b";

// What an encapsulation of zeros under its key gives.
const SHARED_KEY: &[u8; 32] =
    b"\x34\x4d\xe6\x1c\x62\xe1\xcd\x67\xfb\x0a\xb3\x94\x14\x6d\x8b\xb9\x7c\x4f\x69\xb4\x1b\xfb\x55\x37\xa9\x6f\xc9\xdd\x29\x03\x9b\x73";

// What it answers a ciphertext of zeros with.
const REJECTED_KEY: &[u8; 32] =
    b"\xfb\x96\x57\xc3\x17\xb9\x1c\x7d\x80\x5b\x8b\xea\x67\x62\xc4\x1c\xfe\x90\xa7\x90\x57\x15\x54\x8e\xdf\x41\x11\x99\xfb\x02\x56\x35";

// Of the zero seed at 768.
const EXPANDED_FORM_HASH: &[u8; 32] =
    b"\x83\x6a\x68\x60\x07\xb7\xd1\x30\x26\x10\xb1\x68\x19\x48\xda\xe1\x0a\x86\x09\x08\x33\xad\xe9\xd0\xd0\xe7\xe2\x38\xda\x18\x24\xff";

// Whether the key at 1024 finds the shared key that an encapsulation of zeros gives.
fn decapsulates<H: KemHash>(alloc: Global) -> Result<bool, KemError> {
    let key = DecapsulationKey1024::<H>::from_seed(alloc, SEED)?;
    let (c, sent) = key.encapsulation_key().encapsulate_deterministic(&[0; 32])?;
    Ok(sent == *SHARED_KEY && key.decapsulate(&c)? == *SHARED_KEY)
}

#[test]
fn decapsulates_at_1024(rt: HostRuntime) -> Result<(), Fail> {
    assert!(rt; decapsulates::<Sha2Hash>(rt.alloc())?);
    Ok(())
}

// What the key at 1024 answers a ciphertext of zeros with.
fn rejected<H: KemHash>(alloc: Global) -> Result<SharedKey, Fail> {
    let key = DecapsulationKey1024::<H>::from_seed(alloc, SEED)?;
    let c = Ciphertext::from_slice(alloc, &[0; 1568])?;
    Ok(key.decapsulate(&c)?)
}

#[test]
fn rejects_at_1024(rt: HostRuntime) -> Result<(), Fail> {
    assert!(rt; rejected::<Sha2Hash>(rt.alloc())? == *REJECTED_KEY);
    Ok(())
}

// The expanded form of the zero seed at 768.
fn expanded_form<H: KemHash>(alloc: Global) -> Result<Vec<u8>, KemError> {
    let key = DecapsulationKey768::<H>::from_seed(alloc, &[0; 64])?;
    Ok(key.to_expanded_bytes()?)
}

#[test]
fn expanded_form_at_768(rt: HostRuntime) -> Result<(), Fail> {
    let form = expanded_form::<Sha2Hash>(rt.alloc())?;
    assert!(rt; Sha256::digest(form.as_slice()) == *EXPANDED_FORM_HASH);
    Ok(())
}

// Whether both calls read one key from the zero seed's expanded form.
fn reads_one_key<H: KemHash>(alloc: Global) -> Result<bool, Fail> {
    let key = DecapsulationKey512::<H>::from_seed(alloc, &[0; 64])?;
    let form = key.to_expanded_bytes()?;
    let read = DecapsulationKey512::<H>::from_expanded(alloc, form.as_slice())?;
    let again = DecapsulationKey512::<H>::from_expanded_bytes(alloc, form.as_slice())?;
    Ok(again == read)
}

#[test]
fn reads_an_expanded_form(rt: HostRuntime) -> Result<(), Fail> {
    assert!(rt; reads_one_key::<Sha2Hash>(rt.alloc())?);
    Ok(())
}

// Whether a key that is drawn has the zero seed, and its copy is equal.
fn draws_zeros<H: KemHash>(alloc: Global) -> Result<bool, KemError> {
    let drawn = DecapsulationKey512::<H>::generate_from_rng(alloc, &mut ZeroDraw)?;
    let copy = drawn.try_clone()?;
    Ok(drawn.to_seed() == Some([0; 64]) && drawn.to_bytes() == Some([0; 64]) && copy == drawn)
}

#[test]
fn draws_the_seed(rt: HostRuntime) -> Result<(), Fail> {
    assert!(rt; draws_zeros::<Sha2Hash>(rt.alloc())?);
    Ok(())
}

// Whether the zero seed gives no key.
fn is_exhausted<H: KemHash>(alloc: Global) -> bool {
    let refused = DecapsulationKey512::<H>::from_seed(alloc, &[0; 64]);
    matches!(refused, Err(KemError::XofExhausted))
}

#[test]
fn an_exhausted_xof_gives_no_key(rt: HostRuntime) {
    assert!(rt; is_exhausted::<RepeatingHash<Ones>>(rt.alloc()));
}
