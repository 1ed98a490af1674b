//! AES-128-GCM and AES-256-GCM: authenticated encryption with associated data, in place and without memory
//! (FIPS 197, NIST SP 800-38D).
#![tactic(auto)]

mod aes;
mod aes_gcm;
mod error;
mod gcm;
mod ghash;
mod hash_key;
pub mod laws;
mod nibbles;

pub use aes_gcm::{AesGcm, AesGcm128Impl, AesGcm256Impl};
pub use error::{NotAuthentic, TooLong};
