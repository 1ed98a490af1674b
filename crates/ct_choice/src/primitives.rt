//! Borrowing subtractions, carrying additions and counts of zeros, by word arithmetic.
//!
//! The formulas for borrow and carry bits are those of Hacker's Delight, second edition, sections
//! 2-12 and 2-13: a bit is computed in each place of a word, and that of the highest place is it.

ghost use Rattle.std.specs.Prelude.{◌≡◌, ◌+◌, ◌-◌, ◌/◌, ◌%◌, ◌^◌, ◌<◌, ◌≤◌, ◌==◌, ◌↔◌, IsTrue, nat_lt, not};
ghost use Rattle.std.specs.Int.{w32, w64, leading_zeros, trailing_zeros};
ghost use Rattle.ct_choice.specs.Truth.{bit_of, mask_of};
ghost use Rattle.ct_choice.specs.Words.{difference};

use crate::choices::Choice;

// Where `x - y - borrow` gave this difference: whether it had to borrow, as 0 or 1.
macro_rules! borrow_bit {
    ($x:expr, $y:expr, $difference:expr, $bits:expr) => {
        ((!$x & $y) | ((!$x | $y) & $difference)) >> ($bits - 1)
    };
}

// Where `x + y` gave this sum: whether it passed the greatest word, as 0 or 1.
macro_rules! carry_bit {
    ($x:expr, $y:expr, $sum:expr, $bits:expr) => {
        (($x & $y) | (($x | $y) & !$sum)) >> ($bits - 1)
    };
}

/// `lhs - rhs - borrow` modulo 2^32, where a true borrow counts 1, and whether `lhs` is below
/// `rhs + borrow`.
pub fn borrowing_sub_u32(lhs: u32, rhs: u32, borrow: Choice) -> (u32, Choice)
    ensures difference { result.0 ≡ difference 32 lhs rhs (bit_of borrow) }
    ensures borrows { IsTrue result.1 ↔ (lhs < rhs + bit_of borrow) }
{
    let (difference, bit) = borrowing_sub_inner_u32(lhs, rhs, borrow.to_u8() as u32);
    (difference, Choice::from_u32_lsb(bit))
}

/// The same subtraction with borrows as masks: the incoming borrow is the highest bit of `borrow`,
/// and the outgoing one is all ones or 0.
pub fn borrowing_sub_mask_u32(lhs: u32, rhs: u32, borrow: u32) -> (u32, u32)
    ensures difference { result.0 ≡ difference 32 lhs rhs (borrow / 2 ^ 31) }
    ensures borrows { result.1 ≡ mask_of 32 (nat_lt lhs (rhs + borrow / 2 ^ 31)) }
{
    let (difference, bit) = borrowing_sub_inner_u32(lhs, rhs, borrow >> (u32::BITS - 1));
    (difference, bit.wrapping_neg())
}

// The difference modulo 2^32 and the outgoing borrow, where borrows are 0 or 1.
fn borrowing_sub_inner_u32(lhs: u32, rhs: u32, borrow: u32) -> (u32, u32)
    requires { borrow ≤ 1 }
    ensures difference { result.0 ≡ difference 32 lhs rhs borrow }
    ensures borrows { result.1 ≡ bit_of (nat_lt lhs (rhs + borrow)) }
{
    let difference = lhs.wrapping_sub(rhs).wrapping_sub(borrow);
    (difference, borrow_bit!(lhs, rhs, difference, u32::BITS))
}

/// `lhs - rhs - borrow` modulo 2^64, where a true borrow counts 1, and whether `lhs` is below
/// `rhs + borrow`.
pub fn borrowing_sub_u64(lhs: u64, rhs: u64, borrow: Choice) -> (u64, Choice)
    ensures difference { result.0 ≡ difference 64 lhs rhs (bit_of borrow) }
    ensures borrows { IsTrue result.1 ↔ (lhs < rhs + bit_of borrow) }
{
    let (difference, bit) = borrowing_sub_inner_u64(lhs, rhs, borrow.to_u8() as u64);
    (difference, Choice::from_u64_lsb(bit))
}

/// The same subtraction with borrows as masks: the incoming borrow is the highest bit of `borrow`,
/// and the outgoing one is all ones or 0.
pub fn borrowing_sub_mask_u64(lhs: u64, rhs: u64, borrow: u64) -> (u64, u64)
    ensures difference { result.0 ≡ difference 64 lhs rhs (borrow / 2 ^ 63) }
    ensures borrows { result.1 ≡ mask_of 64 (nat_lt lhs (rhs + borrow / 2 ^ 63)) }
{
    let (difference, bit) = borrowing_sub_inner_u64(lhs, rhs, borrow >> (u64::BITS - 1));
    (difference, bit.wrapping_neg())
}

// The difference modulo 2^64 and the outgoing borrow, where borrows are 0 or 1.
fn borrowing_sub_inner_u64(lhs: u64, rhs: u64, borrow: u64) -> (u64, u64)
    requires { borrow ≤ 1 }
    ensures difference { result.0 ≡ difference 64 lhs rhs borrow }
    ensures borrows { result.1 ≡ bit_of (nat_lt lhs (rhs + borrow)) }
{
    let difference = lhs.wrapping_sub(rhs).wrapping_sub(borrow);
    (difference, borrow_bit!(lhs, rhs, difference, u64::BITS))
}

/// How many zeros stand above the highest bit of `value` that is 1; 32 for 0.
pub fn leading_zeros_u32(value: u32) -> u32
    ensures count { result ≡ leading_zeros w32 value }
    ensures zero { value ≡ 0 → result ≡ 32 }
{
    value.leading_zeros()
}

/// How many zeros stand below the lowest bit of `value` that is 1; 32 for 0.
pub fn trailing_zeros_u32(value: u32) -> u32
    ensures count { result ≡ trailing_zeros w32 value }
    ensures zero { value ≡ 0 → result ≡ 32 }
{
    value.trailing_zeros()
}

/// How many zeros stand above the highest bit of `value` that is 1; 64 for 0.
pub fn leading_zeros_u64(value: u64) -> u32
    ensures count { result ≡ leading_zeros w64 value }
    ensures zero { value ≡ 0 → result ≡ 64 }
{
    value.leading_zeros()
}

/// How many zeros stand below the lowest bit of `value` that is 1; 64 for 0.
pub fn trailing_zeros_u64(value: u64) -> u32
    ensures count { result ≡ trailing_zeros w64 value }
    ensures zero { value ≡ 0 → result ≡ 64 }
{
    value.trailing_zeros()
}

/// The sum modulo 2^64, and whether it passed `u64::MAX`.
pub fn overflowing_add_u64(lhs: u64, rhs: u64) -> (u64, Choice)
    ensures sum { result.0 ≡ (lhs + rhs) % 2 ^ 64 }
    ensures passes { IsTrue result.1 ↔ (2 ^ 64 ≤ lhs + rhs) }
{
    let sum = lhs.wrapping_add(rhs);
    let carry = carry_bit!(lhs, rhs, sum, u64::BITS);
    (sum, Choice::from_u64_lsb(carry))
}

/// The sum modulo 2^128, and whether it passed `u128::MAX`.
pub fn overflowing_add_u128(lhs: u128, rhs: u128) -> (u128, Choice)
    ensures sum { result.0 ≡ (lhs + rhs) % 2 ^ 128 }
    ensures passes { IsTrue result.1 ↔ (2 ^ 128 ≤ lhs + rhs) }
{
    let sum = lhs.wrapping_add(rhs);
    let carry = carry_bit!(lhs, rhs, sum, u128::BITS);
    (sum, Choice::from_u128_lsb(carry))
}

/// 1 where `x` is below `y`, else 0.
pub(crate) fn below_u64(x: u64, y: u64) -> u64
    ensures { result ≡ bit_of (nat_lt x y) }
{
    borrow_bit!(x, y, x.wrapping_sub(y), u64::BITS)
}

/// 1 where `x` is below `y`, else 0.
pub(crate) fn below_u128(x: u128, y: u128) -> u128
    ensures { result ≡ bit_of (nat_lt x y) }
{
    borrow_bit!(x, y, x.wrapping_sub(y), u128::BITS)
}

/// 0 for 0, else 1: one of `value` and `-value` has its highest bit set.
pub(crate) fn nonzero_u64(value: u64) -> u64
    ensures { result ≡ bit_of (not (value == 0)) }
{
    (value | value.wrapping_neg()) >> (u64::BITS - 1)
}

/// 0 for 0, else 1, as for 64 bits.
pub(crate) fn nonzero_u128(value: u128) -> u128
    ensures { result ≡ bit_of (not (value == 0)) }
{
    (value | value.wrapping_neg()) >> (u128::BITS - 1)
}
