//! Why receiving or sending ended.

ghost use Rattle.std.specs.Prelude.{◌≡◌};
ghost use Rattle.age_format.specs.declared.error.PhaseError.TheVariants.{NoMemory};

use std::alloc::{AllocError, AllocFailed};
use thiserror::Error;

/// Why a phase ended before its `done`.
#[derive(Debug, PartialEq, Eq, Error, Drop)]
pub enum PhaseError {
    /// Memory ran out.
    #[error("no memory")]
    NoMemory,
    /// The sink failed.
    #[error("the sink failed")]
    WriteFault,
    /// The source failed.
    #[error("the source failed")]
    ReadFault,
    /// What is held begins no stanza.
    #[error("the bytes are no stanza")]
    InvalidData,
    /// The source ended inside a stanza or between two.
    #[error("the source ended before the phase did")]
    UnexpectedEof,
    /// The budget ended inside a stanza or between two.
    #[error("the budget ended before the phase did")]
    TooMuch,
    /// The reply to a command has this tag, which no reply has.
    #[error("an unexpected reply: {0}")]
    UnexpectedReply(String),
}

impl From<AllocError> for PhaseError {
    ghost from_gives = { λ _ e. e ≡ NoMemory };

    fn from(_e: AllocError) -> PhaseError {
        PhaseError::NoMemory
    }
}

impl<T: Drop> From<AllocFailed<T>> for PhaseError {
    ghost from_gives = { λ _ e. e ≡ NoMemory };

    fn from(_e: AllocFailed<T>) -> PhaseError {
        PhaseError::NoMemory
    }
}
