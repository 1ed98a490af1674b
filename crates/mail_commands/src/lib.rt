//! The run of the program: its commands over mails and keys of the lattice KEM, their inputs and outputs.
#![tactic(auto)]

mod command;
mod error;
mod input;
pub mod laws;
mod lines;
mod run;
mod seal_input;
mod sealing;

pub use run::mail_main;
