//! The stanzas of the age format, and connections that receive and send them.
#![tactic(auto)]

pub mod format;
pub mod laws;
pub mod plugin;

pub use age_format::outside;
