//! The stanzas of the age format: read, written, and made as grease.

pub use age_format::format::{AgeStanza, ReadRefused, Stanza, is_arbitrary_string, read};
pub use age_send::{grease_the_joint, write};
