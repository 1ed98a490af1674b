//! ML-KEM-512.

use crate::parameters::MlKem512;

/// A decapsulation key.
pub type DecapsulationKey<H> = crate::decapsulation_key::DecapsulationKey<MlKem512, H>;

/// An encapsulation key.
pub type EncapsulationKey<H> = crate::encapsulation_key::EncapsulationKey<MlKem512, H>;

/// A ciphertext.
pub type Ciphertext = crate::ciphertext::Ciphertext<MlKem512>;

/// The expanded form of a decapsulation key.
pub type ExpandedDecapsulationKey = Vec<u8>;
