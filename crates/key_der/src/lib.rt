//! Keys of ML-KEM as texts in DER (ITU-T X.690): private keys, which hold a seed, and public keys, which
//! hold an encapsulation key, for each parameter set and any lawful family of hash functions.
//!
//! Exactly these two shapes are written and read: private keys with expanded or combined keys, with
//! attributes or with a public key, and the text form PEM, aren't.
#![tactic(auto)]

mod error;
mod identifier;
pub mod laws;
mod private_key;
mod public_key;
mod shape;

pub use error::DerError;
pub use identifier::oid;
pub use private_key::{from_pkcs8_der, to_pkcs8_der};
pub use public_key::{from_public_key_der, to_public_key_der};
