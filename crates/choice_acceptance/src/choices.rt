//! Each call once at each width, about its edges: 0, the highest bit and the greatest word.

use ct_choice::primitives::{
    borrowing_sub_mask_u32, borrowing_sub_mask_u64, borrowing_sub_u32, borrowing_sub_u64,
    leading_zeros_u32, leading_zeros_u64, overflowing_add_u64, overflowing_add_u128,
    trailing_zeros_u32, trailing_zeros_u64,
};
use ct_choice::{Choice, CtGt, CtLt, CtNeg};
use std::cmp::Ordering;

const NO: Choice = Choice::FALSE;

const YES: Choice = Choice::TRUE;

#[test]
fn connectives(rt: HostRuntime) {
    assert!(rt;
        [
            NO.and(YES).to_u8(),
            NO.or(YES).to_u8(),
            YES.xor(YES).to_u8()
        ] == [0, 1, 0]
    );
    assert!(rt; [NO.ne(YES).to_u8_vartime(), NO.eq(YES).to_u8()] == [1, 0]);
    assert!(rt; NO.not().to_bool() && !YES.not().to_bool_vartime());
}

#[test]
fn operators(rt: HostRuntime) {
    assert!(rt; [u8::from(NO & YES), u8::from(NO | YES), u8::from(YES ^ YES)] == [0, 1, 0]);
    assert!(rt; bool::from(!NO) && Choice::from(3).to_bool() && !Choice::from(2).to_bool());
}

#[test]
fn assigning_operators(rt: HostRuntime) {
    let (mut x, mut y, mut z) = (NO, NO, YES);
    x &= YES;
    y |= YES;
    z ^= YES;
    assert!(rt; [x.to_u8(), y.to_u8(), z.to_u8()] == [0, 1, 0]);
}

// Whether the first is false, and the others are true.
fn are_no_yes_yes(first: Choice, second: Choice, third: Choice) -> bool {
    [first.to_u8(), second.to_u8(), third.to_u8()] == [0, 1, 1]
}

#[test]
fn comparisons_of_8_bits(rt: HostRuntime) {
    let equal = Choice::from_u8_eq(0xff, 0);
    let below = Choice::from_u8_lt(7, 0xff);
    let at_most = Choice::from_u8_le(0xff, 0xff);
    assert!(rt; are_no_yes_yes(equal, below, at_most));
}

#[test]
fn comparisons_of_16_bits(rt: HostRuntime) {
    let equal = Choice::from_u16_eq(0xffff, 0);
    let below = Choice::from_u16_lt(0x100, 0xffff);
    let at_most = Choice::from_u16_le(0xffff, 0xffff);
    assert!(rt; are_no_yes_yes(equal, below, at_most));
}

#[test]
fn comparisons_of_32_bits(rt: HostRuntime) {
    let equal = Choice::from_u32_eq(0xffff_ffff, 0);
    let below = Choice::from_u32_lt(0x1_0000, 0xffff_ffff);
    let at_most = Choice::from_u32_le(0xffff_ffff, 0xffff_ffff);
    assert!(rt; are_no_yes_yes(equal, below, at_most));
}

#[test]
fn comparisons_of_64_bits(rt: HostRuntime) {
    let equal = Choice::from_u64_eq(u64::MAX, 0);
    let below = Choice::from_u64_lt(1 << 32, u64::MAX);
    let at_most = Choice::from_u64_le(u64::MAX, u64::MAX);
    assert!(rt; are_no_yes_yes(equal, below, at_most));
}

#[test]
fn comparisons_of_128_bits(rt: HostRuntime) {
    let equal = Choice::from_u128_eq(u128::MAX, 0);
    let below = Choice::from_u128_lt(1 << 64, u128::MAX);
    let at_most = Choice::from_u128_le(u128::MAX, u128::MAX);
    assert!(rt; are_no_yes_yes(equal, below, at_most));
}

#[test]
fn equality_of_signed_numbers(rt: HostRuntime) {
    let same = Choice::from_i64_eq(i64::MIN, i64::MIN);
    assert!(rt; [same.to_u8(), Choice::from_i64_eq(1, -1).to_u8()] == [1, 0]);
}

#[test]
fn lowest_bits(rt: HostRuntime) {
    let narrow = [
        Choice::from_u8_lsb(0xfe).to_u8(),
        Choice::from_u16_lsb(0xffff).to_u8(),
    ];
    assert!(rt; narrow == [0, 1]);
    let wide = [
        Choice::from_u64_lsb(1 << 63).to_u8(),
        Choice::from_u128_lsb(u128::MAX).to_u8(),
    ];
    assert!(rt; wide == [0, 1] && Choice::from_u32_lsb(3).to_bool());
}

#[test]
fn numbers_that_are_not_zero(rt: HostRuntime) {
    let narrow = [
        Choice::from_u8_nz(0x80).to_u8(),
        Choice::from_u16_nz(0).to_u8(),
    ];
    assert!(rt; narrow == [1, 0]);
    let wide = [
        Choice::from_u64_nz(1 << 63).to_u8(),
        Choice::from_u128_nz(0).to_u8(),
    ];
    assert!(rt; wide == [1, 0] && Choice::from_u32_nz(1).to_bool());
}

#[test]
fn masks(rt: HostRuntime) {
    assert!(rt; [NO.to_u8_mask(), YES.to_u8_mask()] == [0, 0xff]);
    assert!(rt; YES.to_u16_mask() == 0xffff && YES.to_u32_mask() == 0xffff_ffff);
    assert!(rt; YES.to_u64_mask() == u64::MAX && YES.to_u128_mask() == u128::MAX);
}

#[test]
fn selections(rt: HostRuntime) {
    assert!(rt; [NO.select_u8(1, 0xff), YES.select_u8(1, 0xff)] == [1, 0xff]);
    assert!(rt; YES.select_u16(1, 0x8000) == 0x8000 && NO.select_u32(7, 9) == 7);
    assert!(rt; [NO.select_u64(0, u64::MAX), YES.select_u64(0, u64::MAX)] == [0, u64::MAX]);
    assert!(rt;
        YES.select_u128(0, u128::MAX) == u128::MAX && NO.select_i64(i64::MIN, -1) == i64::MIN
    );
}

#[test]
fn borrows_of_32_bits(rt: HostRuntime) {
    let (low, borrow) = borrowing_sub_u32(0, u32::MAX, YES);
    assert!(rt; low == 0 && borrow.to_bool());
    // The highest bit of the mask alone counts.
    let (low, mask) = borrowing_sub_mask_u32(5, 4, 0x8000_0005);
    assert!(rt; low == 0 && mask == 0);
}

#[test]
fn borrows_of_64_bits(rt: HostRuntime) {
    let (low, borrow) = borrowing_sub_u64(0, u64::MAX, NO);
    assert!(rt; low == 1 && borrow.to_bool());
    let (low, mask) = borrowing_sub_mask_u64(3, 3, 1 << 63);
    assert!(rt; low == u64::MAX && mask == u64::MAX);
}

#[test]
fn carries(rt: HostRuntime) {
    let (low, carry) = overflowing_add_u64(1 << 63, 1 << 63);
    assert!(rt; low == 0 && carry.to_bool());
    let (low, carry) = overflowing_add_u128(u128::MAX, 2);
    assert!(rt; low == 1 && carry.to_bool());
}

#[test]
fn counts_of_zeros(rt: HostRuntime) {
    assert!(rt; [leading_zeros_u32(0), leading_zeros_u32(12)] == [32, 28]);
    assert!(rt; [trailing_zeros_u32(0), trailing_zeros_u32(12)] == [32, 2]);
    assert!(rt; [leading_zeros_u64(0), leading_zeros_u64(12)] == [64, 60]);
    assert!(rt; [trailing_zeros_u64(0), trailing_zeros_u64(12)] == [64, 2]);
}

// Whether the first is below the second, by each trait.
fn is_below<T: CtLt + CtGt>(a: &T, b: &T) -> bool {
    a.ct_lt(b).to_bool() && b.ct_gt(a).to_bool()
}

#[test]
fn orders(rt: HostRuntime) {
    assert!(rt; is_below(&1u8, &0xff) && is_below(&1u16, &0x8000));
    assert!(rt; is_below(&1u32, &u32::MAX) && is_below(&1u64, &u64::MAX));
    assert!(rt; is_below(&1u128, &u128::MAX) && is_below(&1usize, &usize::MAX));
    assert!(rt; is_below(&Ordering::Less, &Ordering::Equal));
}

// Negated where the choice is true, and left where it is false.
fn negated<T: CtNeg>(x: &T) -> T {
    let mut y = x.ct_neg(YES);
    y.ct_neg_assign(NO);
    y
}

#[test]
fn negations_of_words(rt: HostRuntime) {
    assert!(rt; negated(&5u8) == 251 && negated(&1u16) == u16::MAX);
    assert!(rt; negated(&1u32) == u32::MAX && negated(&1u64) == u64::MAX);
    assert!(rt; negated(&1u128) == u128::MAX && negated(&1usize) == usize::MAX);
}

#[test]
fn negations_of_signed_numbers(rt: HostRuntime) {
    assert!(rt; negated(&i8::MIN) == i8::MIN && negated(&7i16) == -7);
    assert!(rt; negated(&7i32) == -7 && negated(&7i64) == -7);
    assert!(rt; negated(&7i128) == -7 && negated(&1isize) == -1);
}
