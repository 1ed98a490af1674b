//! The hash subkey of GHASH and its square, with rows of their products, which are looked up in
//! registers, so that no address depends on a text.
//!
//! A product is the sum, over the bytes of one factor, of each byte's product with the other, moved up
//! by the byte's place. Row b holds byte b of the products of the 16 low half bytes, and then of the 16
//! high ones; looked up at all bytes of the factor together it gives byte b of each byte's product.

ghost use Rattle.std.specs.Prelude.{◌≡◌, ◌+◌, ◌*◌, ◌/◌, ◌%◌, ◌^◌, ◌<◌, ℕ, bit_xor, length, map, slice_index};
ghost use Rattle.std.specs.Simd.Lanes.{Each1, number_l};
ghost use Rattle.gcm_core.specs.Ghash.{block_product};
ghost use Rattle.gcm_core.specs.private.Rows.{IsRows, byte_of, factor_of, product_byte, row_at};

use crate::aes::BLOCK_LEN;
use crate::ghash::byte_times;
use crate::nibbles::{HALF_BITS, LOW_HALF, look_up};
use std::marker::Model;
use std::simd::prelude::*;

// The factors of a row: 16 low half bytes and 16 high ones.
const HALVES: usize = 16;

const ROW_LEN: usize = 2 * HALVES;

// One row for each byte of a product.
const ROWS_LEN: usize = BLOCK_LEN * ROW_LEN;

// The places of two vectors, one behind the other, from the last lane of the first one on.
const FROM_LAST: [usize; BLOCK_LEN] = [
    15, 16, 17, 18, 19, 20, 21, 22, 23, 24, 25, 26, 27, 28, 29, 30,
];

// What the upper half of a product is worth.
const WORD: u128 = 1 << 64;

// One factor of products, with its rows. Contracts see it as its polynomial.
#[derive(Drop)]
struct Multiplier {
    by: u128,
    rows: [u8; ROWS_LEN],
}

impl Model for Multiplier {
    ghost use Rattle.std.specs.Prelude.{◌<◌, ◌^◌, ℕ};
    ghost use Rattle.gcm_core.specs.private.Rows.{IsRows};

    ghost Value = { ℕ };

    ghost view = { λ s. s.by };

    ghost invariant = { λ s. IsRows s.by s.rows × (s.by < 2 ^ 128) };
}

// The hash subkey and its square. Contracts see them as the subkey's polynomial.
#[derive(Drop)]
pub(crate) struct HashKey {
    subkey: Multiplier,
    square: Multiplier,
}

impl Model for HashKey {
    ghost use Rattle.std.specs.Prelude.{◌≡◌, ◌<◌, ◌^◌, ℕ};
    ghost use Rattle.gcm_core.specs.Ghash.{block_product};

    ghost Value = { ℕ };

    ghost view = { λ s. s.subkey };

    ghost invariant = { λ s. (s.square ≡ block_product s.subkey s.subkey) × (s.subkey < 2 ^ 128) };
}

// The factor of a place in a row.
fn factor(place: usize) -> u128
    requires { place < 32 }
    ensures value { result ≡ factor_of place }
    ensures small { result < 256 }
{
    if place < HALVES {
        place as u128
    } else {
        (HALVES * (place - HALVES)) as u128
    }
}

// Writes a product to one place of all rows.
fn write_column(rows: &mut [u8; ROWS_LEN], place: usize, product: u128)
    requires { place < 32 }
    ensures written { (b : ℕ) → b < 16 → slice_index rows.new (32 * b + place) ≡ byte_of b product }
    ensures others { (b other : ℕ) → b < 16 → other < place → slice_index rows.new (32 * b + other) ≡ slice_index rows.old (32 * b + other) }
{
    let bytes = product.to_le_bytes();
    for b in 0..BLOCK_LEN {
        rows[ROW_LEN * b + place] = bytes[b];
    }
}

// A number as the lanes of its bytes, the lowest first.
#[inline(always)]
pub(crate) fn lanes_of(n: u128) -> u8x16
    ensures number { number_l 256 result ≡ n }
    ensures bytes { Each1 (λ x. x < 256) result }
    ensures size { length result ≡ 16 }
{
    u64x2::from_array([(n % WORD) as u64, (n / WORD) as u64]).to_le_bytes()
}

// The number of the bytes in lanes, the lowest first.
#[inline(always)]
pub(crate) fn number_of(lanes: u8x16) -> u128
    ensures { result ≡ number_l 256 lanes }
{
    let words = u64x2::from_le_bytes(lanes).to_array();
    words[1] as u128 * WORD + words[0] as u128
}

// The number in lanes moved up by a byte, with the highest byte of `below` at the lowest place.
#[inline(always)]
fn moved_up(below: u8x16, lanes: u8x16) -> u8x16
    ensures { number_l 256 result ≡ bit_xor (number_l 256 lanes * 256 % 2 ^ 128) (number_l 256 below / 2 ^ 120) }
{
    below.shuffle(lanes, FROM_LAST)
}

// The sum of two numbers in lanes.
#[inline(always)]
fn sum_of(a: u8x16, b: u8x16) -> u8x16
    ensures { number_l 256 result ≡ bit_xor (number_l 256 a) (number_l 256 b) }
{
    a ^ b
}

// What a row gives of all bytes of a factor.
#[inline(always)]
fn row_sum(rows: &[u8; ROWS_LEN], b: usize, lanes: u8x16) -> u8x16
    requires { b < 16 }
    ensures sum { number_l 256 result ≡ number_l 256 (map (row_at rows.now b) lanes) }
    ensures small { number_l 256 result < 2 ^ 128 }
{
    let start = ROW_LEN * b;
    let low = look_up(
        u8x16::from_slice(&rows[start..]),
        lanes & u8x16::splat(LOW_HALF),
    );
    let high = look_up(
        u8x16::from_slice(&rows[start + HALVES..]),
        lanes >> u8x16::splat(HALF_BITS),
    );
    low ^ high
}

impl Multiplier {
    // The rows of a factor.
    fn new(by: u128) -> Multiplier
        ensures value { result ≡ by }
        ensures within { by < 2 ^ 128 }
    {
        let mut rows = [0; ROWS_LEN];
        for place in 0..ROW_LEN {
            write_column(&mut rows, place, byte_times(factor(place), by));
        }
        Multiplier { by, rows }
    }

    // Byte b of the product of each byte in lanes.
    #[inline(always)]
    fn row(&self, b: usize, lanes: u8x16) -> u8x16
        requires { b < 16 }
        ensures sum { number_l 256 result ≡ number_l 256 (map (product_byte self.now b) lanes) }
        ensures small { number_l 256 result < 2 ^ 128 }
        ensures within { self.now < 2 ^ 128 }
    {
        row_sum(&self.rows, b, lanes)
    }
}

// What two rows give together.
#[inline(always)]
fn rows_sum(x: &Multiplier, y: &Multiplier, b: usize, first: u8x16, second: u8x16) -> u8x16
    requires { b < 16 }
    ensures sum { number_l 256 result ≡ bit_xor (number_l 256 (map (product_byte x.now b) first)) (number_l 256 (map (product_byte y.now b) second)) }
    ensures small { number_l 256 result < 2 ^ 128 }
    ensures within { (x.now < 2 ^ 128) × (y.now < 2 ^ 128) }
{
    sum_of(x.row(b, first), y.row(b, second))
}

// The sum of two products. Their rows are added by Horner's rule into one number of two parts, which is
// reduced once; x^128 is x^7 + x^2 + x + 1.
#[inline(always)]
fn products_sum(x: &Multiplier, y: &Multiplier, a: u128, b: u128) -> u128
    ensures { result ≡ bit_xor (block_product a x.now) (block_product b y.now) }
{
    let first = lanes_of(a);
    let second = lanes_of(b);
    let zero = u8x16::splat(0);
    let mut lower = rows_sum(x, y, BLOCK_LEN - 1, first, second);
    let mut upper = zero;
    for j in 0..BLOCK_LEN - 1 {
        let row = rows_sum(x, y, BLOCK_LEN - 2 - j, first, second);
        upper = moved_up(lower, upper);
        lower = sum_of(moved_up(zero, lower), row);
    }
    let low = number_of(lower);
    let high = number_of(upper);
    low ^ (high ^ ((high << 1) ^ ((high << 2) ^ (high << 7))))
}

impl HashKey {
    // The subkey and its square.
    pub fn new(subkey: u128) -> HashKey
        ensures { result ≡ subkey }
    {
        let first = Multiplier::new(subkey);
        let square = Multiplier::new(products_sum(&first, &first, 0, subkey));
        HashKey {
            subkey: first,
            square,
        }
    }

    // The product of an element and the subkey.
    pub fn times(&self, element: u128) -> u128
        ensures product { result ≡ block_product element self.now }
        ensures within { self.now < 2 ^ 128 }
    {
        products_sum(&self.subkey, &self.subkey, 0, element)
    }

    // Two steps of Horner's rule: the first element times the subkey, the second one added, times the
    // subkey again.
    pub fn times_twice(&self, first: u128, second: u128) -> u128
        ensures product { result ≡ block_product (bit_xor (block_product first self.now) second) self.now }
        ensures within { self.now < 2 ^ 128 }
    {
        products_sum(&self.square, &self.subkey, first, second)
    }
}
