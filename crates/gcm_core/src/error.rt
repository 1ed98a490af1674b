//! Why a text is not sealed or opened.

use thiserror::Error;

/// The text is longer than 2^36 - 32 bytes, or the associated data longer than 2^60 bytes
/// (NIST SP 800-38D, section 5.2.1.1).
#[derive(Clone, Copy, Debug, PartialEq, Eq, Error)]
#[error("the text or the associated data is too long")]
pub struct TooLong;

/// The tag is not that of the ciphertext under this key, nonce and associated data, or a length
/// passes its limit.
#[derive(Clone, Copy, Debug, PartialEq, Eq, Error)]
#[error("the ciphertext is not authentic")]
pub struct NotAuthentic;
