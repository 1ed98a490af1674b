//! The calls on vectors: what the traits say of the elements of a vector.

ghost use Rattle.std.specs.Prelude.{◌≡◌, if◌then◌else◌, IfOk, vec_len, length};
ghost use Rattle.std.specs.Cmp.Lexicographic.{pointwise};

use crate::ct_assign::CtAssignSlice;
use crate::ct_eq::CtEqSlice;
use ct_choice::Choice;
use std::alloc::{AllocError, Global};

/// Gives `dst` the elements of `src` where `choice` is true, else leaves it as it is.
///
/// The two have one length, which a caller tests by `len`.
pub fn vec_ct_assign<T: CtAssignSlice>(dst: &mut Vec<T>, src: &Vec<T>, choice: Choice)
    requires { vec_len src.now ≡ vec_len dst.old }
    ensures { dst.new.items ≡ (if choice then src.now.items else dst.old.items) }
{
    T::ct_assign_slice(dst.as_mut_slice(), src.as_slice(), choice);
}

/// The same, of a slice.
pub fn vec_ct_assign_slice<T: CtAssignSlice>(dst: &mut Vec<T>, src: &[T], choice: Choice)
    requires { length src.now ≡ vec_len dst.old }
    ensures { dst.new.items ≡ (if choice then src.now else dst.old.items) }
{
    T::ct_assign_slice(dst.as_mut_slice(), src, choice);
}

/// Whether the two are as long and equal in each place.
pub fn vec_ct_eq<T: CtEqSlice>(a: &Vec<T>, b: &Vec<T>) -> Choice
    ensures { result ≡ pointwise T.ct_eq a.now.items b.now.items }
{
    T::ct_eq_slice(a.as_slice(), b.as_slice())
}

/// The same, of a slice.
pub fn vec_ct_eq_slice<T: CtEqSlice>(a: &Vec<T>, b: &[T]) -> Choice
    ensures { result ≡ pointwise T.ct_eq a.now.items b.now }
{
    T::ct_eq_slice(a.as_slice(), b)
}

/// A new vector with the elements of `a` for false and those of `b` for true.
///
/// The two have one length, which a caller tests by `len`.
pub fn vec_ct_select<T: CtAssignSlice + Copy>(
    alloc: Global,
    a: &Vec<T>,
    b: &Vec<T>,
    choice: Choice,
) -> Result<Vec<T>, AllocError>
    requires { vec_len a.now ≡ vec_len b.now }
    ensures { IfOk result (λ selected. selected.items ≡ (if choice then b.now.items else a.now.items)) }
{
    let mut selected: Vec<T> = a.iter().copied().collect(alloc)?;
    vec_ct_assign(&mut selected, b, choice);
    Ok(selected)
}
