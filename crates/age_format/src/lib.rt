//! The stanzas of the age format, and the sources and sinks of bytes that they are read from and written to.
#![tactic(auto)]

mod error;
pub mod format;
pub mod laws;
pub mod outside;
mod parse;
mod reader;
mod scan;

pub use error::PhaseError;
pub use reader::StanzaReader;
