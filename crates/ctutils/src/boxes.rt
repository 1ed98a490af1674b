//! The calls on boxes: what the traits say of the value in a box.

ghost use Rattle.std.specs.Prelude.{◌≡◌, if◌then◌else◌, IfOk};

use crate::ct_assign::CtAssign;
use crate::ct_eq::CtEq;
use crate::ct_select::CtSelect;
use ct_choice::Choice;
use std::alloc::{AllocError, Global};

/// Gives `dst` the value in `src` where `choice` is true, else leaves it as it is.
pub fn box_ct_assign<T: CtAssign>(dst: &mut Box<T>, src: &Box<T>, choice: Choice)
    ensures { dst.new.value ≡ (if choice then src.now.value else dst.old.value) }
{
    (**dst).ct_assign(&**src, choice);
}

/// Whether the values in the two boxes are equal.
pub fn box_ct_eq<T: CtEq>(a: &Box<T>, b: &Box<T>) -> Choice
    ensures { result ≡ T.ct_eq a.now.value b.now.value }
{
    (**a).ct_eq(&**b)
}

/// A new box with the value in `a` for false and that in `b` for true.
pub fn box_ct_select<T: CtSelect + Copy>(
    alloc: Global,
    a: &Box<T>,
    b: &Box<T>,
    choice: Choice,
) -> Result<Box<T>, AllocError>
    ensures { IfOk result (λ selected. selected.value ≡ (if choice then b.now.value else a.now.value)) }
{
    Ok(Box::new(alloc, (**a).ct_select(&**b, choice))?)
}
