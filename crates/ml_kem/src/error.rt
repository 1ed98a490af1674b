//! Why a call of this crate refused.

ghost use Rattle.std.specs.Prelude.{◌≡◌};
ghost use Rattle.ml_kem.specs.declared.error.CiphertextError.TheVariants.{NoMemory as CiphertextNoMemory};
ghost use Rattle.ml_kem.specs.declared.error.KemError.TheVariants.{NoMemory as KemNoMemory};
ghost use Rattle.ml_kem.specs.declared.error.KeyError.TheVariants.{NoMemory as KeyNoMemory};

use std::alloc::{AllocError, AllocFailed};
use thiserror::Error;

/// Why no key was made, or nothing encapsulated or decapsulated.
#[derive(Clone, Copy, Debug, PartialEq, Eq, Error)]
pub enum KemError {
    /// Memory ran out.
    #[error("no memory")]
    NoMemory,
    /// An entry of the matrix has fewer than 256 numbers below 3329 in its 2688 bytes.
    #[error("the output of XOF holds too few numbers")]
    XofExhausted,
}

/// Why bytes are no key.
#[derive(Clone, Copy, Debug, PartialEq, Eq, Error)]
pub enum KeyError {
    /// Memory ran out.
    #[error("no memory")]
    NoMemory,
    /// The bytes are no key of this parameter set.
    #[error("invalid key")]
    InvalidKey,
}

/// Why bytes are no ciphertext.
#[derive(Clone, Copy, Debug, PartialEq, Eq, Error)]
pub enum CiphertextError {
    /// Memory ran out.
    #[error("no memory")]
    NoMemory,
    /// The bytes have another length: the expected and the given one.
    #[error("a ciphertext has {0} bytes and not {1}")]
    WrongLength(usize, usize),
}

impl From<AllocError> for KemError {
    ghost from_gives = { λ _ e. e ≡ KemNoMemory };

    fn from(_error: AllocError) -> KemError {
        KemError::NoMemory
    }
}

impl<T: Drop> From<AllocFailed<T>> for KemError {
    ghost from_gives = { λ _ e. e ≡ KemNoMemory };

    fn from(_error: AllocFailed<T>) -> KemError {
        KemError::NoMemory
    }
}

impl From<AllocError> for KeyError {
    ghost from_gives = { λ _ e. e ≡ KeyNoMemory };

    fn from(_error: AllocError) -> KeyError {
        KeyError::NoMemory
    }
}

impl<T: Drop> From<AllocFailed<T>> for KeyError {
    ghost from_gives = { λ _ e. e ≡ KeyNoMemory };

    fn from(_error: AllocFailed<T>) -> KeyError {
        KeyError::NoMemory
    }
}

impl From<AllocError> for CiphertextError {
    ghost from_gives = { λ _ e. e ≡ CiphertextNoMemory };

    fn from(_error: AllocError) -> CiphertextError {
        CiphertextError::NoMemory
    }
}

impl<T: Drop> From<AllocFailed<T>> for CiphertextError {
    ghost from_gives = { λ _ e. e ≡ CiphertextNoMemory };

    fn from(_error: AllocFailed<T>) -> CiphertextError {
        CiphertextError::NoMemory
    }
}
