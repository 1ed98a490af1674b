//! `CtAssign`: taking another value where a choice is true.

ghost use Rattle.std.specs.Prelude.{◌≡◌, if◌then◌else◌, length};

use crate::ct_select::CtSelect;
use ct_choice::Choice;
use std::cmp::Ordering;

/// Assignment where a choice is true.
pub trait CtAssign: Sized {
    /// Takes the value of `src` where `choice` is true, else keeps its own.
    fn ct_assign(&mut self, src: &Self, choice: Choice)
        ensures { self.new ≡ (if choice then src.now else self.old) };
}

/// Types whose slices and arrays are assigned element by element.
pub trait CtAssignSlice: CtAssign {
    /// Gives `dst` the elements of `src` where `choice` is true, else leaves it as it is.
    ///
    /// The two have one length, which a caller tests by `len`.
    final fn ct_assign_slice(dst: &mut [Self], src: &[Self], choice: Choice)
        requires { length src.now ≡ length dst.old }
        ensures { dst.new ≡ (if choice then src.now else dst.old) }
    {
        for i in 0..dst.len() {
            dst[i].ct_assign(&src[i], choice);
        }
    }
}

impl CtAssign for u8 {
    fn ct_assign(&mut self, src: &Self, choice: Choice) {
        *self = self.ct_select(src, choice);
    }
}

impl CtAssignSlice for u8 {}

impl CtAssign for u16 {
    fn ct_assign(&mut self, src: &Self, choice: Choice) {
        *self = self.ct_select(src, choice);
    }
}

impl CtAssignSlice for u16 {}

impl CtAssign for u32 {
    fn ct_assign(&mut self, src: &Self, choice: Choice) {
        *self = self.ct_select(src, choice);
    }
}

impl CtAssignSlice for u32 {}

impl CtAssign for u64 {
    fn ct_assign(&mut self, src: &Self, choice: Choice) {
        *self = self.ct_select(src, choice);
    }
}

impl CtAssignSlice for u64 {}

impl CtAssign for u128 {
    fn ct_assign(&mut self, src: &Self, choice: Choice) {
        *self = self.ct_select(src, choice);
    }
}

impl CtAssignSlice for u128 {}

impl CtAssign for usize {
    fn ct_assign(&mut self, src: &Self, choice: Choice) {
        *self = self.ct_select(src, choice);
    }
}

impl CtAssignSlice for usize {}

impl CtAssign for i8 {
    fn ct_assign(&mut self, src: &Self, choice: Choice) {
        *self = self.ct_select(src, choice);
    }
}

impl CtAssignSlice for i8 {}

impl CtAssign for i16 {
    fn ct_assign(&mut self, src: &Self, choice: Choice) {
        *self = self.ct_select(src, choice);
    }
}

impl CtAssignSlice for i16 {}

impl CtAssign for i32 {
    fn ct_assign(&mut self, src: &Self, choice: Choice) {
        *self = self.ct_select(src, choice);
    }
}

impl CtAssignSlice for i32 {}

impl CtAssign for i64 {
    fn ct_assign(&mut self, src: &Self, choice: Choice) {
        *self = self.ct_select(src, choice);
    }
}

impl CtAssignSlice for i64 {}

impl CtAssign for i128 {
    fn ct_assign(&mut self, src: &Self, choice: Choice) {
        *self = self.ct_select(src, choice);
    }
}

impl CtAssignSlice for i128 {}

impl CtAssign for isize {
    fn ct_assign(&mut self, src: &Self, choice: Choice) {
        *self = self.ct_select(src, choice);
    }
}

impl CtAssignSlice for isize {}

impl CtAssign for Choice {
    fn ct_assign(&mut self, src: &Self, choice: Choice) {
        *self = self.ct_select(src, choice);
    }
}

impl CtAssignSlice for Choice {}

impl CtAssign for Ordering {
    fn ct_assign(&mut self, src: &Self, choice: Choice) {
        *self = self.ct_select(src, choice);
    }
}

impl CtAssignSlice for Ordering {}

impl<T: CtAssignSlice, const N: usize> CtAssign for [T; N] {
    fn ct_assign(&mut self, src: &Self, choice: Choice) {
        T::ct_assign_slice(self, src, choice);
    }
}

impl<T: CtAssignSlice, const N: usize> CtAssignSlice for [T; N] {}
