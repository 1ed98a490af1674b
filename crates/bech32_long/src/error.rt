//! Why a text or a human-readable part is refused.

use thiserror::Error;

/// The human-readable part is empty, longer than 83 bytes, has a byte outside 33 to 126, or has letters of
/// both cases.
#[derive(Clone, Copy, Debug, PartialEq, Eq, Error)]
#[error("the human-readable part is none")]
pub struct BadHrp;

/// Why a text is not read.
#[derive(Clone, Copy, Debug, PartialEq, Eq, Error)]
pub enum Bech32Error {
    /// There is no memory.
    #[error("out of memory")]
    NoMemory,
    /// What stands before the last `1` is no human-readable part.
    #[error("the human-readable part is none")]
    BadHrp,
    /// The text has no `1`.
    #[error("there is no separator")]
    NoSeparator,
    /// The text has ASCII letters of both cases.
    #[error("letters of both cases")]
    MixedCase,
    /// The byte at this place of the text, counted from 0, stands behind the separator and is no character of
    /// the alphabet.
    #[error("a character that is none of the alphabet, at place {0}")]
    BadCharacter(usize),
    /// Fewer than six characters stand behind the separator, or the last six are not the checksum.
    #[error("the checksum is wrong")]
    BadChecksum,
}
