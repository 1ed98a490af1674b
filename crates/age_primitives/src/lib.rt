//! The primitive operations of the age format: file keys, sealing under keys for one use, key derivation,
//! Bech32 and hybrid encryption.
#![tactic(auto)]

mod derivation;
mod file_key;
mod hybrid;
mod sealing;
mod text;

pub use derivation::hkdf;
pub use file_key::{FILE_KEY_BYTES, FileKey};
pub use hybrid::{hpke_open, hpke_seal};
pub use sealing::{aead_decrypt, aead_encrypt};
pub use text::{bech32_decode, bech32_encode, bech32_encode_to_fmt};
