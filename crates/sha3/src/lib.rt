//! The hash functions and the functions with an output of any length of SHA-3 (FIPS 202), in scalar code.
//! The names are those of the crate `sha3`, and [`Digest`] is that of `sha2`. No call takes memory.
#![tactic(auto)]

mod hash;
mod keccak;
pub mod laws;
mod shake;
mod sponge;
mod squeeze;

pub use hash::{Sha3_256, Sha3_512};
pub use sha2::Digest;
pub use shake::{ExtendableOutput, Shake128, Shake128Reader, Shake256, Shake256Reader, XofReader};
