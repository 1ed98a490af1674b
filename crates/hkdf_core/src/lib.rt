//! HMAC (RFC 2104) and HKDF (RFC 5869) over any hash function that implements [`HkdfHash`], as
//! SHA-256, SHA-384 and SHA-512 do by [`HashSha256`], [`HashSha384`] and [`HashSha512`]. No call takes
//! memory: what it is given is fed to the hash function piece by piece, and never joined.
#![tactic(auto)]

pub use derivation::{Hkdf, HkdfExtract, InvalidLength, MAX_OUTPUT_BLOCKS};
pub use hashing::{DigestBytes, HkdfHash, MAX_DIGEST_SIZE};
pub use keyed_hash::Hmac;
pub use sha2_hashes::{HashSha256, HashSha384, HashSha512};

mod derivation;
mod hashing;
mod key_block;
mod keyed_hash;
pub mod laws;
mod sha2_hashes;
