//! `CtGt`: which of two values is greater.

ghost use Rattle.std.specs.Prelude.{◌≡◌, Bool, false, true, nat_lt};
ghost use Rattle.std.specs.Ordering.{ordering_index};
ghost use Rattle.ct_choice.specs.private.Order.{nat_lt-irreflexive, nat_lt-transitive};

use crate::choices::Choice;
use crate::ct_lt::CtLt;
use std::cmp::Ordering;

/// Whether one value is greater than another.
pub trait CtGt {
    // Which values are greater than which. For a type with `>` it is what `>` answers.
    ghost ct_gt: { Self → Self → Bool };

    /// True where `self` is greater than `other`.
    fn ct_gt(&self, other: &Self) -> Choice
        ensures { result ≡ ct_gt self.now other.now };

    ghost irreflexive: { (a : Self) → ct_gt a a ≡ false };

    ghost transitive: { (a b c : Self) → ct_gt a b ≡ true → ct_gt b c ≡ true → ct_gt a c ≡ true };
}

impl CtGt for u8 {
    ghost ct_gt = { λ a b. nat_lt b a };

    ghost irreflexive = { nat_lt-irreflexive };

    ghost transitive = { λ a b c p q. nat_lt-transitive c b a q p };

    fn ct_gt(&self, other: &Self) -> Choice {
        other.ct_lt(self)
    }
}

impl CtGt for u16 {
    ghost ct_gt = { λ a b. nat_lt b a };

    ghost irreflexive = { nat_lt-irreflexive };

    ghost transitive = { λ a b c p q. nat_lt-transitive c b a q p };

    fn ct_gt(&self, other: &Self) -> Choice {
        other.ct_lt(self)
    }
}

impl CtGt for u32 {
    ghost ct_gt = { λ a b. nat_lt b a };

    ghost irreflexive = { nat_lt-irreflexive };

    ghost transitive = { λ a b c p q. nat_lt-transitive c b a q p };

    fn ct_gt(&self, other: &Self) -> Choice {
        other.ct_lt(self)
    }
}

impl CtGt for u64 {
    ghost ct_gt = { λ a b. nat_lt b a };

    ghost irreflexive = { nat_lt-irreflexive };

    ghost transitive = { λ a b c p q. nat_lt-transitive c b a q p };

    fn ct_gt(&self, other: &Self) -> Choice {
        other.ct_lt(self)
    }
}

impl CtGt for u128 {
    ghost ct_gt = { λ a b. nat_lt b a };

    ghost irreflexive = { nat_lt-irreflexive };

    ghost transitive = { λ a b c p q. nat_lt-transitive c b a q p };

    fn ct_gt(&self, other: &Self) -> Choice {
        other.ct_lt(self)
    }
}

impl CtGt for usize {
    ghost ct_gt = { λ a b. nat_lt b a };

    ghost irreflexive = { nat_lt-irreflexive };

    ghost transitive = { λ a b c p q. nat_lt-transitive c b a q p };

    fn ct_gt(&self, other: &Self) -> Choice {
        other.ct_lt(self)
    }
}

impl CtGt for Ordering {
    ghost ct_gt = { λ a b. nat_lt (ordering_index b) (ordering_index a) };

    ghost irreflexive = { λ a. nat_lt-irreflexive (ordering_index a) };

    ghost transitive = { λ a b c p q. nat_lt-transitive (ordering_index c) (ordering_index b) (ordering_index a) q p };

    fn ct_gt(&self, other: &Self) -> Choice {
        other.ct_lt(self)
    }
}
