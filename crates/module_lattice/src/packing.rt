//! Numbers packed into bytes, and taken out of them (FIPS 203, section 4.2.1).
//!
//! Callers give widths as literals, so the functions are inlined: then shifts and lengths are literals too.

ghost use Rattle.std.specs.Prelude.{◌≡◌, ◌⊎◌, ◌*◌, ◌/◌, ◌%◌, ◌^◌, ◌<◌, ◌≤◌, All, length, map};
ghost use Rattle.std.specs.List.{range_with_len};
ghost use Rattle.module_lattice.specs.Bits.{bits_of_each, number_of};
ghost use Rattle.module_lattice.specs.Groups.{decoded, groups, lcm, reduced_once, ungroup};

use crate::field::Field;

// The coefficients of a polynomial.
const VALUE_COUNT: usize = 256;

// The bits of a byte.
const BYTE_BITS: usize = 8;

// The width at which bytes may hold numbers of Q or more.
const REDUCED_WIDTH: usize = 12;

/// ByteEncode (FIPS 203, algorithm 5): packs 256 numbers, each below 2^d and below Q, into 32·d bytes.
///
/// The width `d` is at least 1, with lcm(d, 8) at most 128 and 2^d at most Q; a `d` of 12 needs 2^12
/// at most 2·Q alone.
#[inline(always)]
pub fn byte_encode<F: Field>(d: usize, values: &[u32], out: &mut [u8])
    requires positive { 1 ≤ d }
    requires unit { lcm d 8 ≤ 128 }
    requires width { (2 ^ d ≤ F.Q) ⊎ ((d ≡ 12) × (4096 ≤ 2 * F.Q)) }
    requires values { length values.now ≡ 256 }
    requires in_width { All (λ x. x < 2 ^ d) values.now }
    requires in_field { All (λ x. x < F.Q) values.now }
    requires room { length out.old ≡ 32 * d }
    ensures { out.new ≡ groups d values.now }
{
    let value_count = values_in_unit(d);
    let byte_count = d * value_count / BYTE_BITS;
    for unit in 0..VALUE_COUNT / value_count {
        let first = value_count * unit;
        let start = byte_count * unit;
        pack_unit(
            d,
            &values[first..first + value_count],
            &mut out[start..start + byte_count],
        );
    }
}

/// ByteDecode (FIPS 203, algorithm 6): takes 256 numbers below Q out of 32·d bytes. At a `d` of 12 the
/// bytes may hold numbers of Q or more, and Q is subtracted from each of these.
///
/// The width `d` is at least 1, with lcm(d, 8) at most 128 and 2^d at most Q; a `d` of 12 needs 2^12
/// at most 2·Q alone.
#[inline(always)]
pub fn byte_decode<F: Field>(d: usize, bytes: &[u8], out: &mut [u32])
    requires positive { 1 ≤ d }
    requires unit { lcm d 8 ≤ 128 }
    requires width { (2 ^ d ≤ F.Q) ⊎ ((d ≡ 12) × (4096 ≤ 2 * F.Q)) }
    requires bytes { length bytes.now ≡ 32 * d }
    requires room { length out.old ≡ 256 }
    ensures value { out.new ≡ decoded F.Q d bytes.now }
    ensures in_width { All (λ x. x < 2 ^ d) out.new }
    ensures in_field { All (λ x. x < F.Q) out.new }
{
    unpack(d, bytes, out);
    if d == REDUCED_WIDTH {
        reduce_once::<F>(out);
    }
}

// The 256 numbers of `d` bits that the bytes hold, unreduced.
#[inline(always)]
fn unpack(d: usize, bytes: &[u8], out: &mut [u32])
    requires positive { 1 ≤ d }
    requires narrow { d ≤ 32 }
    requires unit { lcm d 8 ≤ 128 }
    requires bytes { length bytes.now ≡ 32 * d }
    requires room { length out.old ≡ 256 }
    ensures { out.new ≡ ungroup d bytes.now }
{
    let value_count = values_in_unit(d);
    let byte_count = d * value_count / BYTE_BITS;
    for unit in 0..VALUE_COUNT / value_count {
        let first = value_count * unit;
        let start = byte_count * unit;
        unpack_unit(
            d,
            &bytes[start..start + byte_count],
            &mut out[first..first + value_count],
        );
    }
}

// Subtracts Q once from each number of Q or more.
fn reduce_once<F: Field>(values: &mut [u32])
    ensures { values.new ≡ map (reduced_once F.Q) values.old }
{
    for value in values.iter_mut() {
        *value = F::small_reduce(*value);
    }
}

// lcm(d, 8) / d.
#[inline(always)]
fn values_in_unit(d: usize) -> usize
    ensures bits { d * result ≡ lcm d 8 }
    ensures whole_bytes { d * result % 8 ≡ 0 }
    ensures whole_units { (1 ≤ result) × (256 % result ≡ 0) }
{
    if d % 8 == 0 {
        1
    } else if d % 4 == 0 {
        2
    } else if d % 2 == 0 {
        4
    } else {
        8
    }
}

// Packs the numbers that fill lcm(d, 8) bits.
#[inline(always)]
fn pack_unit(d: usize, values: &[u32], out: &mut [u8])
    requires whole { d * length values.now ≡ 8 * length out.old }
    requires unit { length out.old ≤ 16 }
    requires in_width { All (λ x. x < 2 ^ d) values.now }
    ensures { out.new ≡ groups d values.now }
{
    let word = join_values(d, values).to_le_bytes();
    let len = out.len();
    out.copy_from_slice(&word[..len]);
}

// Takes the numbers that lcm(d, 8) bits hold out of them.
#[inline(always)]
fn unpack_unit(d: usize, bytes: &[u8], out: &mut [u32])
    requires positive { 1 ≤ d }
    requires narrow { d ≤ 32 }
    requires whole { 8 * length bytes.now ≡ d * length out.old }
    requires unit { length bytes.now ≤ 16 }
    ensures { out.new ≡ ungroup d bytes.now }
{
    split_word(d, join_bytes(bytes), out);
}

// The bytes as the digits of one number, the lowest first. They are joined and not copied into an
// array, since reading a word waits for stores of its bytes right before.
#[inline(always)]
fn join_bytes(bytes: &[u8]) -> u128
    requires { length bytes.now ≤ 16 }
    ensures { result ≡ number_of (bits_of_each 8 bytes.now) }
{
    let mut word = 0;
    for (j, byte) in bytes.iter().enumerate() {
        word |= u128::from(*byte) << (BYTE_BITS * j);
    }
    word
}

// The values as the digits of one number, the lowest first.
#[inline(always)]
fn join_values(d: usize, values: &[u32]) -> u128
    requires unit { d * length values.now ≤ 128 }
    requires in_width { All (λ x. x < 2 ^ d) values.now }
    ensures { result ≡ number_of (bits_of_each d values.now) }
{
    let mut word = 0;
    for (j, value) in values.iter().enumerate() {
        word |= u128::from(*value) << (d * j);
    }
    word
}

// The digits of the word of `d` bits each, the lowest first.
#[inline(always)]
fn split_word(d: usize, word: u128, out: &mut [u32])
    requires positive { 1 ≤ d }
    requires narrow { d ≤ 32 }
    requires unit { d * length out.old ≤ 128 }
    ensures { out.new ≡ map (λ j. word / 2 ^ (d * j) % 2 ^ d) (range_with_len 0 (length out.old)) }
{
    let mask = (1 << d) - 1;
    for j in 0..out.len() {
        out[j] = ((word >> (d * j)) & mask) as u32;
    }
}
