//! Why a run wrote no items.

ghost use Rattle.std.specs.Prelude.{◌≡◌};
ghost use Rattle.kem_mail.specs.declared.error.MailError.TheVariants.{NoMemory};
ghost use Rattle.mail_commands.specs.declared.error.RunError.TheVariants.{Mail};

use kem_mail::MailError;
use std::alloc::{AllocError, AllocFailed};

/// Why a run wrote no items.
#[derive(Clone, Copy, Debug, PartialEq, Eq)]
pub enum RunError {
    /// The byte at this place of the input, from 0, can't stand there.
    Place(u64),
    /// The source ended inside the input.
    Ended,
    /// The key that a mail is to be sealed to is none.
    InvalidKey,
    /// The mail wasn't opened, or the key wasn't made.
    Mail(MailError),
}

impl From<MailError> for RunError {
    ghost from_gives = { λ m e. e ≡ Mail m };

    fn from(e: MailError) -> RunError {
        RunError::Mail(e)
    }
}

impl<T: Drop> From<AllocFailed<T>> for RunError {
    ghost from_gives = { λ _ e. e ≡ Mail NoMemory };

    fn from(_e: AllocFailed<T>) -> RunError {
        RunError::Mail(MailError::NoMemory)
    }
}

impl From<AllocError> for RunError {
    ghost from_gives = { λ _ e. e ≡ Mail NoMemory };

    fn from(_e: AllocError) -> RunError {
        RunError::Mail(MailError::NoMemory)
    }
}
