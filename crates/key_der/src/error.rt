//! Why a call of this crate refused.

ghost use Rattle.std.specs.Prelude.{◌≡◌};
ghost use Rattle.key_der.specs.private.Refusals.{of_kem, of_key};
ghost use Rattle.key_der.specs.declared.error.DerError.TheVariants.{NoMemory};

use ml_kem::{KemError, KeyError};
use std::alloc::AllocError;
use thiserror::Error;

/// Why a key wasn't written, or a text wasn't read.
#[derive(Clone, Copy, Debug, PartialEq, Eq, Error)]
pub enum DerError {
    /// Memory ran out.
    #[error("no memory")]
    NoMemory,
    /// The seed gives no key: an entry of the matrix has fewer than 256 numbers below 3329 in its 2688
    /// bytes.
    #[error("the output of XOF holds too few numbers")]
    XofExhausted,
    /// The bytes behind the header are no encapsulation key of this parameter set.
    #[error("invalid key")]
    InvalidKey,
    /// The key was made of its expanded form, so there is no seed to write.
    #[error("the key has no seed")]
    NoSeed,
    /// The text has another shape: the place, from 0, of the first byte that isn't the header's, or else
    /// the smaller of the text's length and the due one.
    #[error("no key of this shape, from byte {0} on")]
    NotThisShape(usize),
}

impl From<AllocError> for DerError {
    ghost from_gives = { λ _ e. e ≡ NoMemory };

    fn from(_error: AllocError) -> DerError {
        DerError::NoMemory
    }
}

impl From<KemError> for DerError {
    ghost from_gives = { λ error e. e ≡ of_kem error };

    fn from(error: KemError) -> DerError {
        match error {
            KemError::NoMemory => DerError::NoMemory,
            KemError::XofExhausted => DerError::XofExhausted,
        }
    }
}

impl From<KeyError> for DerError {
    ghost from_gives = { λ error e. e ≡ of_key error };

    fn from(error: KeyError) -> DerError {
        match error {
            KeyError::NoMemory => DerError::NoMemory,
            KeyError::InvalidKey => DerError::InvalidKey,
        }
    }
}
