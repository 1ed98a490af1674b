//! `ct_find` and `ct_lookup`: an item of a slice, by a predicate or by its place.

ghost use Rattle.std.specs.Prelude.{◌≡◌, ℕ, Bool, find, slice_get};
ghost use Rattle.std.specs.Bool.{OnFalse};
ghost use Rattle.ctutils.specs.Options.{into_option};
ghost use Rattle.ctutils.specs.Search.{Accepts};

use crate::ct_assign::CtAssign;
use crate::ct_option::CtOption;
use ct_choice::Choice;

/// Types whose values are places of a slice.
pub trait LookupIndex {
    ghost place: { Self → ℕ };

    /// The place as a number.
    fn place(&self) -> u128
        ensures { result ≡ place self.now };
}

/// The first item that the predicate accepts; a none that hides the default value where it accepts
/// none. The predicate is called on each item.
pub fn ct_find<T, P>(items: &[T], predicate: P) -> CtOption<T>
where
    T: CtAssign + Default,
    P: Fn(&T) -> Choice,
    requires { P.IsAlwaysCallable predicate }
    // Where the predicate answers each item by one test, the result is the first item that passes it.
    ensures first { (accepts : T → Bool) → Accepts P.Fn predicate accepts → into_option result ≡ find accepts items.now }
    ensures hidden { OnFalse result.is_some (T.is_default result.value) }
{
    let mut found = CtOption::none();
    for item in items {
        let is_first = predicate(item).and(found.is_none());
        found.insert_if(item, is_first);
    }
    found
}

/// The item at a place, which counts from 0; a none that hides the default value where there is none.
pub fn ct_lookup<T, I>(items: &[T], index: I) -> CtOption<T>
where
    T: CtAssign + Default,
    I: LookupIndex + Drop,
    ensures item { into_option result ≡ slice_get items.now (I.place index) }
    ensures hidden { OnFalse result.is_some (T.is_default result.value) }
{
    let place = index.place();
    let mut found = CtOption::none();
    for (i, item) in items.iter().enumerate() {
        found.insert_if(item, Choice::from_u128_eq(i as u128, place));
    }
    found
}

impl LookupIndex for u8 {
    ghost place = { λ index. index };

    fn place(&self) -> u128 {
        *self as u128
    }
}

impl LookupIndex for u16 {
    ghost place = { λ index. index };

    fn place(&self) -> u128 {
        *self as u128
    }
}

impl LookupIndex for u32 {
    ghost place = { λ index. index };

    fn place(&self) -> u128 {
        *self as u128
    }
}

impl LookupIndex for u64 {
    ghost place = { λ index. index };

    fn place(&self) -> u128 {
        *self as u128
    }
}

impl LookupIndex for u128 {
    ghost place = { λ index. index };

    fn place(&self) -> u128 {
        *self
    }
}

impl LookupIndex for usize {
    ghost place = { λ index. index };

    fn place(&self) -> u128 {
        *self as u128
    }
}
