//! Why a mail wasn't opened, or sealed and sent.

ghost use Rattle.std.specs.Prelude.{◌≡◌};
ghost use Rattle.kem_mail.specs.Causes.{of_kem};
ghost use Rattle.kem_mail.specs.declared.error.MailError.TheVariants.{NoMemory};

use ml_kem::KemError;
use std::alloc::{AllocError, AllocFailed};
use thiserror::Error;

/// Why a mail wasn't opened. Of those behind `NoMemory` the first that applies is given.
#[derive(Clone, Copy, Debug, PartialEq, Eq, Error)]
pub enum MailError {
    /// Memory ran out.
    #[error("no memory")]
    NoMemory,
    /// The seed gives no key: a sample of its matrix is none.
    #[error("the seed gives no key")]
    XofExhausted,
    /// The source failed before a whole `done` was read.
    #[error("the source failed")]
    ReadFault,
    /// The bytes are no stanzas.
    #[error("the bytes are no stanzas")]
    InvalidData,
    /// The source ended before a whole `done`.
    #[error("the source ended before the mail did")]
    UnexpectedEof,
    /// The budget ended before a whole `done`.
    #[error("the budget ended before the mail did")]
    TooMuch,
    /// So many stanzas are tagged `kem`, and not one.
    #[error("{0} stanzas hold an encapsulated key")]
    NotOneKem(u64),
    /// The encapsulated key has another length: the expected and the given one.
    #[error("an encapsulated key of {1} bytes, where {0} are due")]
    IncorrectInputLength(usize, usize),
    /// The sealed message of this number, from 0, doesn't open.
    #[error("message {0} doesn't open")]
    OpenError(u64),
}

impl From<AllocError> for MailError {
    ghost from_gives = { λ _ e. e ≡ NoMemory };

    fn from(_e: AllocError) -> MailError {
        MailError::NoMemory
    }
}

impl<T: Drop> From<AllocFailed<T>> for MailError {
    ghost from_gives = { λ _ e. e ≡ NoMemory };

    fn from(_e: AllocFailed<T>) -> MailError {
        MailError::NoMemory
    }
}

impl From<KemError> for MailError {
    ghost from_gives = { λ k e. e ≡ of_kem k };

    fn from(e: KemError) -> MailError {
        match e {
            KemError::NoMemory => MailError::NoMemory,
            KemError::XofExhausted => MailError::XofExhausted,
        }
    }
}

/// Why a mail wasn't sealed and sent to its end.
#[derive(Clone, Copy, Debug, PartialEq, Eq, Error)]
pub enum SealMailError {
    /// Memory ran out.
    #[error("no memory")]
    NoMemory,
    /// Nothing can be encapsulated to the key: a sample of its matrix is none.
    #[error("nothing can be encapsulated to the key")]
    XofExhausted,
    /// The message of this number, from 0, can't be sealed.
    #[error("message {0} can't be sealed")]
    SealError(u64),
    /// The sink failed.
    #[error("the sink failed")]
    WriteFault,
}
