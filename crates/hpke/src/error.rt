//! Why a call of this crate refused.

ghost use Rattle.std.specs.Prelude.{◌≡◌};
ghost use Rattle.hpke.specs.declared.error.HpkeError.TheVariants.{NoMemory};

use std::alloc::{AllocError, AllocFailed};
use thiserror::Error;

/// Why a call refused.
#[derive(Clone, Copy, Debug, PartialEq, Eq, Error)]
pub enum HpkeError {
    /// Memory ran out.
    #[error("No memory")]
    NoMemory,
    /// Each number of a context was used.
    #[error("Message limit reached")]
    MessageLimitReached,
    /// A text isn't what its sender sealed.
    #[error("Failed to open ciphertext")]
    OpenError,
    /// A text can't be sealed.
    #[error("Failed to seal plaintext")]
    SealError,
    /// More than 255 digests were asked of a key derivation function.
    #[error("Too many bytes requested from KDF")]
    KdfOutputTooLong,
    /// No value has these bytes.
    #[error("Input value is invalid")]
    ValidationError,
    /// No secret can be encapsulated.
    #[error("Encapsulation failed")]
    EncapError,
    /// No secret can be decapsulated.
    #[error("Decapsulation failed")]
    DecapError,
    /// The bytes of a value have another length: the expected and the given one.
    #[error("Incorrect input length. Expected {0} bytes. Got {1}.")]
    IncorrectInputLength(usize, usize),
}

impl From<AllocError> for HpkeError {
    ghost from_gives = { λ _ e. e ≡ NoMemory };

    fn from(_e: AllocError) -> HpkeError {
        HpkeError::NoMemory
    }
}

impl<T: Drop> From<AllocFailed<T>> for HpkeError {
    ghost from_gives = { λ _ e. e ≡ NoMemory };

    fn from(_e: AllocFailed<T>) -> HpkeError {
        HpkeError::NoMemory
    }
}
