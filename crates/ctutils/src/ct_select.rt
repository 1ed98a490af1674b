//! `CtSelect`: one of two values, by a choice.

ghost use Rattle.std.specs.Prelude.{◌≡◌, if◌then◌else◌};
ghost use Rattle.std.specs.Ordering.{ordering_index};

use ct_choice::Choice;
use std::cmp::Ordering;

// The orderings, each at its place.
const ORDERINGS: [Ordering; 3] = [Ordering::Less, Ordering::Equal, Ordering::Greater];

/// Selection of one of two values.
pub trait CtSelect: Sized + Drop {
    /// The value of `self` for false and that of `other` for true.
    fn ct_select(&self, other: &Self, choice: Choice) -> Self
        ensures { result ≡ (if choice then other.now else self.now) };

    /// Exchanges the two values where `choice` is true.
    final fn ct_swap(&mut self, other: &mut Self, choice: Choice)
        ensures first { self.new ≡ (if choice then other.old else self.old) }
        ensures second { other.new ≡ (if choice then self.old else other.old) }
    {
        let first = self.ct_select(other, choice);
        *other = other.ct_select(self, choice);
        *self = first;
    }
}

/// Types whose arrays of length `N` are selected from element by element.
pub trait CtSelectArray<const N: usize>: CtSelect + Copy {
    /// The array `a` for false and `b` for true.
    final fn ct_select_array(a: &[Self; N], b: &[Self; N], choice: Choice) -> [Self; N]
        ensures { result ≡ (if choice then b.now else a.now) }
    {
        let mut selected = *a;
        for i in 0..N {
            selected[i] = a[i].ct_select(&b[i], choice);
        }
        selected
    }
}

impl<T: CtSelect + Copy, const N: usize> CtSelectArray<N> for T {}

impl<T: CtSelectArray<N>, const N: usize> CtSelect for [T; N] {
    fn ct_select(&self, other: &Self, choice: Choice) -> Self {
        T::ct_select_array(self, other, choice)
    }
}

impl CtSelect for u8 {
    fn ct_select(&self, other: &Self, choice: Choice) -> Self {
        choice.select_u8(*self, *other)
    }
}

impl CtSelect for u16 {
    fn ct_select(&self, other: &Self, choice: Choice) -> Self {
        choice.select_u16(*self, *other)
    }
}

impl CtSelect for u32 {
    fn ct_select(&self, other: &Self, choice: Choice) -> Self {
        choice.select_u32(*self, *other)
    }
}

impl CtSelect for u64 {
    fn ct_select(&self, other: &Self, choice: Choice) -> Self {
        choice.select_u64(*self, *other)
    }
}

impl CtSelect for u128 {
    fn ct_select(&self, other: &Self, choice: Choice) -> Self {
        choice.select_u128(*self, *other)
    }
}

impl CtSelect for usize {
    fn ct_select(&self, other: &Self, choice: Choice) -> Self {
        choice.select_u64(*self as u64, *other as u64) as usize
    }
}

impl CtSelect for i8 {
    fn ct_select(&self, other: &Self, choice: Choice) -> Self {
        self.cast_unsigned()
            .ct_select(&other.cast_unsigned(), choice)
            .cast_signed()
    }
}

impl CtSelect for i16 {
    fn ct_select(&self, other: &Self, choice: Choice) -> Self {
        self.cast_unsigned()
            .ct_select(&other.cast_unsigned(), choice)
            .cast_signed()
    }
}

impl CtSelect for i32 {
    fn ct_select(&self, other: &Self, choice: Choice) -> Self {
        self.cast_unsigned()
            .ct_select(&other.cast_unsigned(), choice)
            .cast_signed()
    }
}

impl CtSelect for i64 {
    fn ct_select(&self, other: &Self, choice: Choice) -> Self {
        self.cast_unsigned()
            .ct_select(&other.cast_unsigned(), choice)
            .cast_signed()
    }
}

impl CtSelect for i128 {
    fn ct_select(&self, other: &Self, choice: Choice) -> Self {
        self.cast_unsigned()
            .ct_select(&other.cast_unsigned(), choice)
            .cast_signed()
    }
}

impl CtSelect for isize {
    fn ct_select(&self, other: &Self, choice: Choice) -> Self {
        self.cast_unsigned()
            .ct_select(&other.cast_unsigned(), choice)
            .cast_signed()
    }
}

impl CtSelect for Choice {
    fn ct_select(&self, other: &Self, choice: Choice) -> Self {
        Choice::from_u8_lsb(self.to_u8().ct_select(&other.to_u8(), choice))
    }
}

impl CtSelect for Ordering {
    fn ct_select(&self, other: &Self, choice: Choice) -> Self {
        let place = place_of(*self).ct_select(&place_of(*other), choice);
        ORDERINGS[place as usize]
    }
}

// -1, 0 and 1 are moved to 0, 1 and 2.
fn place_of(order: Ordering) -> u8
    ensures { result ≡ ordering_index order }
{
    (order as i8 + 1) as u8
}
