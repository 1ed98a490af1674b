//! Stanzas of the age format that are written to a sink: one alone, grease, and sends with grease before them.
#![tactic(auto)]

mod grease;
pub mod laws;
mod send;
pub mod write;

pub use grease::{grease_the_joint, roll};
pub use send::{finish_to, send_stanza_to, send_to};
