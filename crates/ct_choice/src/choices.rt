//! `Choice`: a truth value that is computed with by masks and word arithmetic.

ghost use Rattle.std.specs.Prelude.{◌≡◌, ◌≢◌, ◌<◌, ◌≤◌, ◌%◌, ◌^◌, ◌↔◌, IsTrue, not, ◌&&◌, ◌||◌, if◌then◌else◌};
ghost use Rattle.ct_choice.specs.Truth.{xor, bit_of, mask_of};

use crate::primitives::{below_u64, below_u128, nonzero_u64, nonzero_u128};
use std::marker::Model;
use std::ops::{BitAnd, BitAndAssign, BitOr, BitOrAssign, BitXor, BitXorAssign, Not};

/// A truth value. Contracts see it as `true` or `false`.
///
/// Its calls take no branch on the value: `to_bool` hands a `bool` to a caller that wants one.
#[derive(Clone, Copy, Debug)]
pub struct Choice {
    bit: u8,
}

impl Model for Choice {
    ghost use Rattle.std.specs.Prelude.{Bool, ◌==◌, ◌≤◌};
    ghost use Rattle.ct_choice.specs.Truth.{bit_of};

    ghost Value = { Bool };

    ghost view = { λ c. c.bit == 1 };

    ghost invariant = { λ c. c.bit ≤ 1 };

    ghost inverse = { λ b. record { bit = bit_of b } };
}

impl Choice {
    /// Equivalent of `false`.
    pub const FALSE: Self = Choice { bit: 0 };

    /// Equivalent of `true`.
    pub const TRUE: Self = Choice { bit: 1 };

    /// True where both are true.
    pub fn and(self, rhs: Choice) -> Choice
        ensures { result ≡ (self && rhs) }
    {
        Choice {
            bit: self.bit & rhs.bit,
        }
    }

    /// True where one of the two is true, or both.
    pub fn or(self, rhs: Choice) -> Choice
        ensures { result ≡ (self || rhs) }
    {
        Choice {
            bit: self.bit | rhs.bit,
        }
    }

    /// True where just one of the two is true.
    #[tactic(auto, using(crate::proofs::Words::bit_xor_is))]
    pub fn xor(self, rhs: Choice) -> Choice
        ensures { result ≡ xor self rhs }
    {
        Choice {
            bit: self.bit ^ rhs.bit,
        }
    }

    /// True where `self` is false.
    pub fn not(self) -> Choice
        ensures { result ≡ not self }
    {
        Choice { bit: self.bit ^ 1 }
    }

    /// Whether the two are the same truth value.
    pub fn eq(self, other: Self) -> Self
        ensures { IsTrue result ↔ (self ≡ other) }
    {
        self.ne(other).not()
    }

    /// Whether the two are different truth values.
    pub fn ne(self, other: Self) -> Self
        ensures { IsTrue result ↔ (self ≢ other) }
    {
        self.xor(other)
    }

    /// Whether `x` equals `y`.
    pub fn from_i64_eq(x: i64, y: i64) -> Self
        ensures { IsTrue result ↔ (x ≡ y) }
    {
        Self::from_u64_eq(x.cast_unsigned(), y.cast_unsigned())
    }

    /// Whether `x` equals `y`.
    pub fn from_u8_eq(x: u8, y: u8) -> Self
        ensures { IsTrue result ↔ (x ≡ y) }
    {
        Self::from_u64_eq(x as u64, y as u64)
    }

    /// Whether `x` is at most `y`.
    pub fn from_u8_le(x: u8, y: u8) -> Self
        ensures { IsTrue result ↔ (x ≤ y) }
    {
        Self::from_u64_le(x as u64, y as u64)
    }

    /// Whether the lowest bit of `value` is 1.
    pub fn from_u8_lsb(value: u8) -> Self
        ensures { IsTrue result ↔ (value % 2 ≡ 1) }
    {
        Choice { bit: value & 1 }
    }

    /// Whether `x` is below `y`.
    pub fn from_u8_lt(x: u8, y: u8) -> Self
        ensures { IsTrue result ↔ (x < y) }
    {
        Self::from_u64_lt(x as u64, y as u64)
    }

    /// Whether `value` is not 0.
    pub fn from_u8_nz(value: u8) -> Self
        ensures { IsTrue result ↔ (value ≢ 0) }
    {
        Self::from_u64_nz(value as u64)
    }

    /// Whether `x` equals `y`.
    pub fn from_u16_eq(x: u16, y: u16) -> Self
        ensures { IsTrue result ↔ (x ≡ y) }
    {
        Self::from_u64_eq(x as u64, y as u64)
    }

    /// Whether `x` is at most `y`.
    pub fn from_u16_le(x: u16, y: u16) -> Self
        ensures { IsTrue result ↔ (x ≤ y) }
    {
        Self::from_u64_le(x as u64, y as u64)
    }

    /// Whether the lowest bit of `value` is 1.
    pub fn from_u16_lsb(value: u16) -> Self
        ensures { IsTrue result ↔ (value % 2 ≡ 1) }
    {
        Choice {
            bit: (value & 1) as u8,
        }
    }

    /// Whether `x` is below `y`.
    pub fn from_u16_lt(x: u16, y: u16) -> Self
        ensures { IsTrue result ↔ (x < y) }
    {
        Self::from_u64_lt(x as u64, y as u64)
    }

    /// Whether `value` is not 0.
    pub fn from_u16_nz(value: u16) -> Self
        ensures { IsTrue result ↔ (value ≢ 0) }
    {
        Self::from_u64_nz(value as u64)
    }

    /// Whether `x` equals `y`.
    pub fn from_u32_eq(x: u32, y: u32) -> Self
        ensures { IsTrue result ↔ (x ≡ y) }
    {
        Self::from_u64_eq(x as u64, y as u64)
    }

    /// Whether `x` is at most `y`.
    pub fn from_u32_le(x: u32, y: u32) -> Self
        ensures { IsTrue result ↔ (x ≤ y) }
    {
        Self::from_u64_le(x as u64, y as u64)
    }

    /// Whether the lowest bit of `value` is 1.
    pub fn from_u32_lsb(value: u32) -> Self
        ensures { IsTrue result ↔ (value % 2 ≡ 1) }
    {
        Choice {
            bit: (value & 1) as u8,
        }
    }

    /// Whether `x` is below `y`.
    pub fn from_u32_lt(x: u32, y: u32) -> Self
        ensures { IsTrue result ↔ (x < y) }
    {
        Self::from_u64_lt(x as u64, y as u64)
    }

    /// Whether `value` is not 0.
    pub fn from_u32_nz(value: u32) -> Self
        ensures { IsTrue result ↔ (value ≢ 0) }
    {
        Self::from_u64_nz(value as u64)
    }

    /// Whether `x` equals `y`.
    pub fn from_u64_eq(x: u64, y: u64) -> Self
        ensures { IsTrue result ↔ (x ≡ y) }
    {
        Self::from_u64_nz(x ^ y).not()
    }

    /// Whether `x` is at most `y`.
    pub fn from_u64_le(x: u64, y: u64) -> Self
        ensures { IsTrue result ↔ (x ≤ y) }
    {
        Self::from_u64_lt(y, x).not()
    }

    /// Whether the lowest bit of `value` is 1.
    pub fn from_u64_lsb(value: u64) -> Self
        ensures { IsTrue result ↔ (value % 2 ≡ 1) }
    {
        Choice {
            bit: (value & 1) as u8,
        }
    }

    /// Whether `x` is below `y`.
    pub fn from_u64_lt(x: u64, y: u64) -> Self
        ensures { IsTrue result ↔ (x < y) }
    {
        Self::from_u64_lsb(below_u64(x, y))
    }

    /// Whether `value` is not 0.
    pub fn from_u64_nz(value: u64) -> Self
        ensures { IsTrue result ↔ (value ≢ 0) }
    {
        Self::from_u64_lsb(nonzero_u64(value))
    }

    /// Whether `x` equals `y`.
    pub fn from_u128_eq(x: u128, y: u128) -> Self
        ensures { IsTrue result ↔ (x ≡ y) }
    {
        Self::from_u128_nz(x ^ y).not()
    }

    /// Whether `x` is at most `y`.
    pub fn from_u128_le(x: u128, y: u128) -> Self
        ensures { IsTrue result ↔ (x ≤ y) }
    {
        Self::from_u128_lt(y, x).not()
    }

    /// Whether the lowest bit of `value` is 1.
    pub fn from_u128_lsb(value: u128) -> Self
        ensures { IsTrue result ↔ (value % 2 ≡ 1) }
    {
        Choice {
            bit: (value & 1) as u8,
        }
    }

    /// Whether `x` is below `y`.
    pub fn from_u128_lt(x: u128, y: u128) -> Self
        ensures { IsTrue result ↔ (x < y) }
    {
        Self::from_u128_lsb(below_u128(x, y))
    }

    /// Whether `value` is not 0.
    pub fn from_u128_nz(value: u128) -> Self
        ensures { IsTrue result ↔ (value ≢ 0) }
    {
        Self::from_u128_lsb(nonzero_u128(value))
    }

    /// `a` for false and `b` for true.
    pub fn select_i64(self, a: i64, b: i64) -> i64
        ensures { result ≡ (if self then b else a) }
    {
        self.select_u64(a.cast_unsigned(), b.cast_unsigned())
            .cast_signed()
    }

    /// `a` for false and `b` for true.
    #[tactic(auto, using(crate::proofs::Words::xor_masked))]
    pub fn select_u8(self, a: u8, b: u8) -> u8
        ensures { result ≡ (if self then b else a) }
    {
        a ^ (self.to_u8_mask() & (a ^ b))
    }

    /// `a` for false and `b` for true.
    #[tactic(auto, using(crate::proofs::Words::xor_masked))]
    pub fn select_u16(self, a: u16, b: u16) -> u16
        ensures { result ≡ (if self then b else a) }
    {
        a ^ (self.to_u16_mask() & (a ^ b))
    }

    /// `a` for false and `b` for true.
    #[tactic(auto, using(crate::proofs::Words::xor_masked))]
    pub fn select_u32(self, a: u32, b: u32) -> u32
        ensures { result ≡ (if self then b else a) }
    {
        a ^ (self.to_u32_mask() & (a ^ b))
    }

    /// `a` for false and `b` for true.
    #[tactic(auto, using(crate::proofs::Words::xor_masked))]
    pub fn select_u64(self, a: u64, b: u64) -> u64
        ensures { result ≡ (if self then b else a) }
    {
        a ^ (self.to_u64_mask() & (a ^ b))
    }

    /// `a` for false and `b` for true.
    #[tactic(auto, using(crate::proofs::Words::xor_masked))]
    pub fn select_u128(self, a: u128, b: u128) -> u128
        ensures { result ≡ (if self then b else a) }
    {
        a ^ (self.to_u128_mask() & (a ^ b))
    }

    /// The truth value as a `bool`, on which the caller may branch.
    pub fn to_bool(self) -> bool
        ensures { result ≡ self }
    {
        self.to_u8() != 0
    }

    /// 1 for true and 0 for false.
    pub fn to_u8(self) -> u8
        ensures { result ≡ bit_of self }
    {
        self.bit
    }

    /// The older name of `to_bool`.
    pub fn to_bool_vartime(self) -> bool
        ensures { result ≡ self }
    {
        self.to_bool()
    }

    /// The older name of `to_u8`.
    pub fn to_u8_vartime(self) -> u8
        ensures { result ≡ bit_of self }
    {
        self.to_u8()
    }

    /// `u8::MAX` for true and 0 for false.
    pub fn to_u8_mask(self) -> u8
        ensures { result ≡ mask_of 8 self }
    {
        self.to_u8().wrapping_neg()
    }

    /// `u16::MAX` for true and 0 for false.
    pub fn to_u16_mask(self) -> u16
        ensures { result ≡ mask_of 16 self }
    {
        (self.to_u8() as u16).wrapping_neg()
    }

    /// `u32::MAX` for true and 0 for false.
    pub fn to_u32_mask(self) -> u32
        ensures { result ≡ mask_of 32 self }
    {
        (self.to_u8() as u32).wrapping_neg()
    }

    /// `u64::MAX` for true and 0 for false.
    pub fn to_u64_mask(self) -> u64
        ensures { result ≡ mask_of 64 self }
    {
        (self.to_u8() as u64).wrapping_neg()
    }

    /// `u128::MAX` for true and 0 for false.
    pub fn to_u128_mask(self) -> u128
        ensures { result ≡ mask_of 128 self }
    {
        (self.to_u8() as u128).wrapping_neg()
    }
}

impl BitAnd for Choice {
    type Output = Choice;

    ghost bitand_gives = { λ a b r. r ≡ (a && b) };

    fn bitand(self, rhs: Choice) -> Choice {
        self.and(rhs)
    }
}

impl BitAndAssign for Choice {
    ghost bitand_assign_gives = { λ a b r. r ≡ (a && b) };

    fn bitand_assign(&mut self, rhs: Choice) {
        *self = self.and(rhs);
    }
}

impl BitOr for Choice {
    type Output = Choice;

    ghost bitor_gives = { λ a b r. r ≡ (a || b) };

    fn bitor(self, rhs: Choice) -> Choice {
        self.or(rhs)
    }
}

impl BitOrAssign for Choice {
    ghost bitor_assign_gives = { λ a b r. r ≡ (a || b) };

    fn bitor_assign(&mut self, rhs: Choice) {
        *self = self.or(rhs);
    }
}

impl BitXor for Choice {
    type Output = Choice;

    ghost bitxor_gives = { λ a b r. r ≡ xor a b };

    fn bitxor(self, rhs: Choice) -> Choice {
        self.xor(rhs)
    }
}

impl BitXorAssign for Choice {
    ghost bitxor_assign_gives = { λ a b r. r ≡ xor a b };

    fn bitxor_assign(&mut self, rhs: Choice) {
        *self = self.xor(rhs);
    }
}

impl Not for Choice {
    type Output = Choice;

    ghost not_gives = { λ a r. r ≡ not a };

    fn not(self) -> Choice {
        Choice::not(self)
    }
}

// True where the lowest bit is 1.
impl From<u8> for Choice {
    ghost from_gives = { λ value r. IsTrue r ↔ (value % 2 ≡ 1) };

    fn from(value: u8) -> Self {
        Choice::from_u8_lsb(value)
    }
}

impl From<Choice> for u8 {
    ghost from_gives = { λ choice r. r ≡ bit_of choice };

    fn from(choice: Choice) -> u8 {
        choice.to_u8()
    }
}

impl From<Choice> for bool {
    ghost from_gives = { λ choice r. r ≡ choice };

    fn from(choice: Choice) -> bool {
        choice.to_bool()
    }
}
