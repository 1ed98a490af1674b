//! The hash functions that ML-KEM stands on (FIPS 203, section 4.1) as a trait, [`KemHash`], and a
//! family by SHA-2, [`Sha2Hash`]. No call takes memory, and none refuses.
#![tactic(auto)]

mod family;
pub mod laws;
mod sha2_hash;

pub use family::{KemHash, XOF_BLOCK_SIZE};
pub use sha2_hash::Sha2Hash;
