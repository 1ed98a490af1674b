//! A caller of `ctutils`.

ghost use Rattle.std.specs.Prelude.{◌≡◌, None, Some, if◌then◌else◌};

use ctutils::laws::ct_eq_agrees;
use ctutils::{CtEqAgrees, CtOption};

/// A value behind a tag: it is there exactly where the tags are equal by `==`, and the comparison takes
/// no branch.
pub fn behind_tag<T: Drop, G: CtEqAgrees>(value: T, tag: &G, expected: &G) -> Option<T>
    ensures { result ≡ (if G.eq tag.now expected.now then Some value else None) }
{
    ct_eq_agrees::<G>();
    CtOption::new(value, tag.ct_eq(expected)).into_option()
}
