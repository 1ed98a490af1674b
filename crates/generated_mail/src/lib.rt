//! A mail that is made of a number: its messages, key and random source. It is sealed and opened again, and four
//! lines tell of it.
#![tactic(auto)]

pub mod laws;
mod making;
mod summary;

pub use summary::{Summary, summary_of, write_summary};
