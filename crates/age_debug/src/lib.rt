//! A source and a sink of which a copy goes to another sink, for a look at what was read and written.
#![tactic(auto)]

mod copy;
mod reader;
mod writer;

pub use reader::DebugReader;
pub use writer::DebugWriter;
