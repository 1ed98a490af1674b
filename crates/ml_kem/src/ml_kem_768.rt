//! ML-KEM-768.

use crate::parameters::MlKem768;

/// A decapsulation key.
pub type DecapsulationKey<H> = crate::decapsulation_key::DecapsulationKey<MlKem768, H>;

/// An encapsulation key.
pub type EncapsulationKey<H> = crate::encapsulation_key::EncapsulationKey<MlKem768, H>;

/// A ciphertext.
pub type Ciphertext = crate::ciphertext::Ciphertext<MlKem768>;

/// The expanded form of a decapsulation key.
pub type ExpandedDecapsulationKey = Vec<u8>;
