//! `CtEq`: whether two values are equal.

ghost use Rattle.std.specs.Prelude.{◌≡◌, Bool, not, nat_eq};
ghost use Rattle.std.specs.Bool.{beq};
ghost use Rattle.std.specs.Ordering.{int_eq, ordering_index};
ghost use Rattle.std.specs.Cmp.{IsEquivalence, nat_eq_equiv, int_eq_equiv, bool_eq_equiv, on_equiv};
ghost use Rattle.std.specs.Cmp.Lexicographic.{pointwise, lists_equiv};

use ct_choice::Choice;
use std::cmp::Ordering;

/// Equality as a choice.
pub trait CtEq {
    // Which values are equal. For a type with `==` it is what `==` answers.
    ghost ct_eq: { Self → Self → Bool };

    /// Whether the two are equal.
    fn ct_eq(&self, other: &Self) -> Choice
        ensures { result ≡ ct_eq self.now other.now };

    /// Whether the two differ.
    final fn ct_ne(&self, other: &Self) -> Choice
        ensures { result ≡ not (ct_eq self.now other.now) }
    {
        self.ct_eq(other).not()
    }

    ghost laws: { IsEquivalence ct_eq };
}

/// Types whose slices and arrays are compared element by element.
pub trait CtEqSlice: CtEq + Sized {
    /// Whether the two are as long and equal in each place.
    final fn ct_eq_slice(a: &[Self], b: &[Self]) -> Choice
        ensures { result ≡ pointwise Self.ct_eq a.now b.now }
    {
        let mut equal = Choice::from_u64_eq(a.len() as u64, b.len() as u64);
        for i in 0..a.len().min(b.len()) {
            equal &= a[i].ct_eq(&b[i]);
        }
        equal
    }

    /// Whether the two differ in length or in some place.
    final fn ct_ne_slice(a: &[Self], b: &[Self]) -> Choice
        ensures { result ≡ not (pointwise Self.ct_eq a.now b.now) }
    {
        Self::ct_eq_slice(a, b).not()
    }
}

/// Types at which `ct_eq` answers what `==` does. Generic code that asks for it may take either for the
/// other, and an `impl` owes a proof.
pub trait CtEqAgrees: CtEq + PartialEq {
    ghost agrees: { (a b : Self) → Self.ct_eq a b ≡ Self.eq a b };
}

impl CtEq for u8 {
    ghost ct_eq = { nat_eq };

    ghost laws = { nat_eq_equiv };

    fn ct_eq(&self, other: &Self) -> Choice {
        Choice::from_u8_eq(*self, *other)
    }
}

impl CtEqSlice for u8 {}

impl CtEqAgrees for u8 {
    ghost use Rattle.std.proofs.Common.{rules};

    ghost agrees = { Prim.search rules };
}

impl CtEq for u16 {
    ghost ct_eq = { nat_eq };

    ghost laws = { nat_eq_equiv };

    fn ct_eq(&self, other: &Self) -> Choice {
        Choice::from_u16_eq(*self, *other)
    }
}

impl CtEqSlice for u16 {}

impl CtEqAgrees for u16 {
    ghost use Rattle.std.proofs.Common.{rules};

    ghost agrees = { Prim.search rules };
}

impl CtEq for u32 {
    ghost ct_eq = { nat_eq };

    ghost laws = { nat_eq_equiv };

    fn ct_eq(&self, other: &Self) -> Choice {
        Choice::from_u32_eq(*self, *other)
    }
}

impl CtEqSlice for u32 {}

impl CtEqAgrees for u32 {
    ghost use Rattle.std.proofs.Common.{rules};

    ghost agrees = { Prim.search rules };
}

impl CtEq for u64 {
    ghost ct_eq = { nat_eq };

    ghost laws = { nat_eq_equiv };

    fn ct_eq(&self, other: &Self) -> Choice {
        Choice::from_u64_eq(*self, *other)
    }
}

impl CtEqSlice for u64 {}

impl CtEqAgrees for u64 {
    ghost use Rattle.std.proofs.Common.{rules};

    ghost agrees = { Prim.search rules };
}

impl CtEq for u128 {
    ghost ct_eq = { nat_eq };

    ghost laws = { nat_eq_equiv };

    fn ct_eq(&self, other: &Self) -> Choice {
        Choice::from_u128_eq(*self, *other)
    }
}

impl CtEqSlice for u128 {}

impl CtEqAgrees for u128 {
    ghost use Rattle.std.proofs.Common.{rules};

    ghost agrees = { Prim.search rules };
}

impl CtEq for usize {
    ghost ct_eq = { nat_eq };

    ghost laws = { nat_eq_equiv };

    fn ct_eq(&self, other: &Self) -> Choice {
        Choice::from_u64_eq(*self as u64, *other as u64)
    }
}

impl CtEqSlice for usize {}

impl CtEqAgrees for usize {
    ghost use Rattle.std.proofs.Common.{rules};

    ghost agrees = { Prim.search rules };
}

impl CtEq for i8 {
    ghost ct_eq = { int_eq };

    ghost laws = { int_eq_equiv };

    fn ct_eq(&self, other: &Self) -> Choice {
        self.cast_unsigned().ct_eq(&other.cast_unsigned())
    }
}

impl CtEqSlice for i8 {}

impl CtEqAgrees for i8 {
    ghost use Rattle.std.proofs.Common.{rules};

    ghost agrees = { Prim.search rules };
}

impl CtEq for i16 {
    ghost ct_eq = { int_eq };

    ghost laws = { int_eq_equiv };

    fn ct_eq(&self, other: &Self) -> Choice {
        self.cast_unsigned().ct_eq(&other.cast_unsigned())
    }
}

impl CtEqSlice for i16 {}

impl CtEqAgrees for i16 {
    ghost use Rattle.std.proofs.Common.{rules};

    ghost agrees = { Prim.search rules };
}

impl CtEq for i32 {
    ghost ct_eq = { int_eq };

    ghost laws = { int_eq_equiv };

    fn ct_eq(&self, other: &Self) -> Choice {
        self.cast_unsigned().ct_eq(&other.cast_unsigned())
    }
}

impl CtEqSlice for i32 {}

impl CtEqAgrees for i32 {
    ghost use Rattle.std.proofs.Common.{rules};

    ghost agrees = { Prim.search rules };
}

impl CtEq for i64 {
    ghost ct_eq = { int_eq };

    ghost laws = { int_eq_equiv };

    fn ct_eq(&self, other: &Self) -> Choice {
        self.cast_unsigned().ct_eq(&other.cast_unsigned())
    }
}

impl CtEqSlice for i64 {}

impl CtEqAgrees for i64 {
    ghost use Rattle.std.proofs.Common.{rules};

    ghost agrees = { Prim.search rules };
}

impl CtEq for i128 {
    ghost ct_eq = { int_eq };

    ghost laws = { int_eq_equiv };

    fn ct_eq(&self, other: &Self) -> Choice {
        self.cast_unsigned().ct_eq(&other.cast_unsigned())
    }
}

impl CtEqSlice for i128 {}

impl CtEqAgrees for i128 {
    ghost use Rattle.std.proofs.Common.{rules};

    ghost agrees = { Prim.search rules };
}

impl CtEq for isize {
    ghost ct_eq = { int_eq };

    ghost laws = { int_eq_equiv };

    fn ct_eq(&self, other: &Self) -> Choice {
        self.cast_unsigned().ct_eq(&other.cast_unsigned())
    }
}

impl CtEqSlice for isize {}

impl CtEqAgrees for isize {
    ghost use Rattle.std.proofs.Common.{rules};

    ghost agrees = { Prim.search rules };
}

impl CtEq for Choice {
    ghost ct_eq = { beq };

    ghost laws = { bool_eq_equiv };

    fn ct_eq(&self, other: &Self) -> Choice {
        self.eq(*other)
    }
}

impl CtEqSlice for Choice {}

impl CtEq for Ordering {
    ghost ct_eq = { λ a b. nat_eq (ordering_index a) (ordering_index b) };

    ghost laws = { on_equiv ordering_index nat_eq_equiv };

    fn ct_eq(&self, other: &Self) -> Choice {
        (*self as i8).ct_eq(&(*other as i8))
    }
}

impl CtEqSlice for Ordering {}

impl CtEqAgrees for Ordering {
    ghost use Rattle.std.proofs.Common.{rules};

    ghost agrees = { Prim.search rules };
}

impl<T: CtEqSlice, const N: usize> CtEq for [T; N] {
    ghost ct_eq = { pointwise T.ct_eq };

    ghost laws = { lists_equiv T.CtEq.laws };

    fn ct_eq(&self, other: &Self) -> Choice {
        T::ct_eq_slice(self, other)
    }
}

impl<T: CtEqSlice, const N: usize> CtEqSlice for [T; N] {}

impl<T: CtEqSlice + CtEqAgrees, const N: usize> CtEqAgrees for [T; N] {
    ghost use Rattle.ctutils.specs.private.Agreement.{pointwise-agrees};

    ghost agrees = { pointwise-agrees T.ct_eq T.eq T.CtEqAgrees.agrees };
}
