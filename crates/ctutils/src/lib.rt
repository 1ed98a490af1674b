//! Assignment, equality, selection, search and options that take no branch on a choice.
#![tactic(auto)]

mod boxes;
mod ct_assign;
mod ct_eq;
mod ct_option;
mod ct_select;
pub mod laws;
mod search;
mod vectors;

pub use boxes::{box_ct_assign, box_ct_eq, box_ct_select};
pub use ct_assign::{CtAssign, CtAssignSlice};
pub use ct_choice::{Choice, CtGt, CtLt, CtNeg, primitives};
pub use ct_eq::{CtEq, CtEqAgrees, CtEqSlice};
pub use ct_option::CtOption;
pub use ct_select::{CtSelect, CtSelectArray};
pub use search::{LookupIndex, ct_find, ct_lookup};
pub use vectors::{vec_ct_assign, vec_ct_assign_slice, vec_ct_eq, vec_ct_eq_slice, vec_ct_select};
