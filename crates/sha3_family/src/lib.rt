//! The hash functions of ML-KEM that FIPS 203 itself names, which are those of SHA-3, as a family of
//! `kem_hash`: [`Sha3Hash`]. No call takes memory, and none refuses.
#![tactic(auto)]

pub mod laws;
mod sha3_hash;

pub use sha3_hash::Sha3Hash;
