//! Families of hash functions for tests of what stands on `kem_hash`: the XOF repeats three bytes, so that
//! sampling meets its edges, or the PRF repeats one byte, so that the noise of a decryption meets its ends.
//! The other functions are those of SHA-2. No family has any security, and no call takes memory.
#![tactic(auto)]

mod family;
mod one_byte;
mod pattern;

pub use family::RepeatingHash;
pub use one_byte::OneByteHash;
pub use pattern::{AboutModulus, Ones, Pattern, SmallAndFifty, Zeros};
