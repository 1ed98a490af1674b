//! The stanzas of the age format as older writers spelled them.
#![tactic(auto)]

mod body;
pub mod laws;
pub mod read;
