//! Truth values without branches: choices, masks, and the word arithmetic under them.
#![tactic(auto)]

mod choices;
mod ct_gt;
mod ct_lt;
mod ct_neg;
pub mod primitives;

pub use choices::Choice;
pub use ct_gt::CtGt;
pub use ct_lt::CtLt;
pub use ct_neg::CtNeg;
