//! What holds of the equalities of this crate: `ct_eq` and `==` agree.

ghost use Rattle.std.specs.Prelude.{◌≡◌};

use crate::ct_eq::CtEqAgrees;

/// `ct_eq` answers what `==` answers, at each type that says so.
pub fn ct_eq_agrees<T: CtEqAgrees>()
    ensures { (a b : T) → T.ct_eq a b ≡ T.eq a b }
{}
