//! `CtLt`: which of two values is less.

ghost use Rattle.std.specs.Prelude.{◌≡◌, Bool, false, true, nat_lt};
ghost use Rattle.std.specs.Ordering.{ordering_index};
ghost use Rattle.ct_choice.specs.private.Order.{nat_lt-irreflexive, nat_lt-transitive};

use crate::choices::Choice;
use std::cmp::Ordering;

/// Whether one value is less than another.
pub trait CtLt {
    // Which values are less than which. For a type with `<` it is what `<` answers.
    ghost ct_lt: { Self → Self → Bool };

    /// True where `self` is less than `other`.
    fn ct_lt(&self, other: &Self) -> Choice
        ensures { result ≡ ct_lt self.now other.now };

    ghost irreflexive: { (a : Self) → ct_lt a a ≡ false };

    ghost transitive: { (a b c : Self) → ct_lt a b ≡ true → ct_lt b c ≡ true → ct_lt a c ≡ true };
}

impl CtLt for u8 {
    ghost ct_lt = { nat_lt };

    ghost irreflexive = { nat_lt-irreflexive };

    ghost transitive = { nat_lt-transitive };

    fn ct_lt(&self, other: &Self) -> Choice {
        Choice::from_u8_lt(*self, *other)
    }
}

impl CtLt for u16 {
    ghost ct_lt = { nat_lt };

    ghost irreflexive = { nat_lt-irreflexive };

    ghost transitive = { nat_lt-transitive };

    fn ct_lt(&self, other: &Self) -> Choice {
        Choice::from_u16_lt(*self, *other)
    }
}

impl CtLt for u32 {
    ghost ct_lt = { nat_lt };

    ghost irreflexive = { nat_lt-irreflexive };

    ghost transitive = { nat_lt-transitive };

    fn ct_lt(&self, other: &Self) -> Choice {
        Choice::from_u32_lt(*self, *other)
    }
}

impl CtLt for u64 {
    ghost ct_lt = { nat_lt };

    ghost irreflexive = { nat_lt-irreflexive };

    ghost transitive = { nat_lt-transitive };

    fn ct_lt(&self, other: &Self) -> Choice {
        Choice::from_u64_lt(*self, *other)
    }
}

impl CtLt for u128 {
    ghost ct_lt = { nat_lt };

    ghost irreflexive = { nat_lt-irreflexive };

    ghost transitive = { nat_lt-transitive };

    fn ct_lt(&self, other: &Self) -> Choice {
        Choice::from_u128_lt(*self, *other)
    }
}

impl CtLt for usize {
    ghost ct_lt = { nat_lt };

    ghost irreflexive = { nat_lt-irreflexive };

    ghost transitive = { nat_lt-transitive };

    fn ct_lt(&self, other: &Self) -> Choice {
        Choice::from_u64_lt(*self as u64, *other as u64)
    }
}

impl CtLt for Ordering {
    ghost ct_lt = { λ a b. nat_lt (ordering_index a) (ordering_index b) };

    ghost irreflexive = { λ a. nat_lt-irreflexive (ordering_index a) };

    ghost transitive = { λ a b c. nat_lt-transitive (ordering_index a) (ordering_index b) (ordering_index c) };

    fn ct_lt(&self, other: &Self) -> Choice {
        Choice::from_u8_lt(place(*self), place(*other))
    }
}

/// -1, 0 and 1 are moved to 0, 1 and 2.
pub(crate) fn place(order: Ordering) -> u8
    ensures { result ≡ ordering_index order }
{
    (order as i8 + 1) as u8
}
