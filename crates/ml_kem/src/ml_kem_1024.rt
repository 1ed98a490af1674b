//! ML-KEM-1024.

use crate::parameters::MlKem1024;

/// A decapsulation key.
pub type DecapsulationKey<H> = crate::decapsulation_key::DecapsulationKey<MlKem1024, H>;

/// An encapsulation key.
pub type EncapsulationKey<H> = crate::encapsulation_key::EncapsulationKey<MlKem1024, H>;

/// A ciphertext.
pub type Ciphertext = crate::ciphertext::Ciphertext<MlKem1024>;

/// The expanded form of a decapsulation key.
pub type ExpandedDecapsulationKey = Vec<u8>;
