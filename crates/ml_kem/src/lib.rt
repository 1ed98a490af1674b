//! ML-KEM: a key encapsulation mechanism that stands on module lattices (FIPS 203), over any lawful
//! family of hash functions.
#![tactic(auto)]

mod bytes;
mod ciphertext;
mod decapsulation_key;
mod encapsulation_key;
mod encryption;
mod error;
mod expanded_key;
pub mod laws;
mod matrix;
pub mod ml_kem_1024;
pub mod ml_kem_512;
pub mod ml_kem_768;
mod parameters;
mod rounding;
mod sampling;

pub use ciphertext::Ciphertext;
pub use decapsulation_key::DecapsulationKey;
pub use encapsulation_key::EncapsulationKey;
pub use error::{CiphertextError, KemError, KeyError};
pub use lattice_transform::{ntt, ntt_counted, ntt_inverse};
pub use parameters::{B32, MlKem512, MlKem768, MlKem1024, ParameterSet, Seed, SharedKey};
pub use rounding::{compress, decompress};
pub use sampling::{sample_ntt, sample_poly_cbd};

/// A decapsulation key of ML-KEM-512.
pub type DecapsulationKey512<H> = DecapsulationKey<MlKem512, H>;

/// An encapsulation key of ML-KEM-512.
pub type EncapsulationKey512<H> = EncapsulationKey<MlKem512, H>;

/// A decapsulation key of ML-KEM-768.
pub type DecapsulationKey768<H> = DecapsulationKey<MlKem768, H>;

/// An encapsulation key of ML-KEM-768.
pub type EncapsulationKey768<H> = EncapsulationKey<MlKem768, H>;

/// A decapsulation key of ML-KEM-1024.
pub type DecapsulationKey1024<H> = DecapsulationKey<MlKem1024, H>;

/// An encapsulation key of ML-KEM-1024.
pub type EncapsulationKey1024<H> = EncapsulationKey<MlKem1024, H>;
