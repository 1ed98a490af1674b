//! What a run writes: items as lines of digits, and the line of a fault.
#![tactic(auto)]

mod lines;
mod list;
mod pending;

pub use lines::{write_fault_line, write_lines};
pub use list::ItemList;
