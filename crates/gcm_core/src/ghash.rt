//! GHASH over associated data and a ciphertext (SP 800-38D, section 6.4).

ghost use Rattle.std.specs.Prelude.{◌≡◌, ◌+◌, ◌*◌, ◌/◌, ◌%◌, ◌^◌, ◌<◌, ◌++◌, ℕ, List, bit_xor, drop, length, map, take};
ghost use Rattle.std.specs.Int.{div_ceil, reverse_bits, to_be_bytes, w8, w64};
ghost use Rattle.gcm_core.specs.FieldMul.{times_x};
ghost use Rattle.gcm_core.specs.Gcm.{authenticated, padded};
ghost use Rattle.gcm_core.specs.Ghash.{block_of, block_product, polynomial_of, polynomials, reduction_block, weighted_sum};
ghost use Rattle.gcm_core.specs.private.Continued.{continued};

use crate::aes::{BLOCK_LEN, Block};
use crate::hash_key::{HashKey, lanes_of, number_of};
use crate::nibbles::{HALF_BITS, LOW_HALF, look_up};
use ct_choice::Choice;
use std::simd::prelude::*;

// The coefficients of an element of GF(2^128).
const DEGREE: u32 = 128;

// What x^128 is modulo the field's polynomial x^128 + x^7 + x^2 + x + 1.
const REDUCTION: u128 = 0x87;

// The bits of a byte.
const BYTE_BITS: u64 = 8;

// The bytes of each length in the last block.
const LENGTH_LEN: usize = 8;

// What a low half byte brings to the byte with all bits in reverse order.
const REVERSED_LOW: [u8; 16] = [
    0x00, 0x80, 0x40, 0xc0, 0x20, 0xa0, 0x60, 0xe0, 0x10, 0x90, 0x50, 0xd0, 0x30, 0xb0, 0x70, 0xf0,
];

// What a high half byte brings to it.
const REVERSED_HIGH: [u8; 16] = [
    0x00, 0x08, 0x04, 0x0c, 0x02, 0x0a, 0x06, 0x0e, 0x01, 0x09, 0x05, 0x0d, 0x03, 0x0b, 0x07, 0x0f,
];

fn times_x(p: u128) -> u128
    ensures { result ≡ times_x 128 reduction_block p }
{
    let passes = Choice::from_u128_lsb(p >> (DEGREE - 1));
    passes.select_u128(p << 1, (p << 1) ^ REDUCTION)
}

// The product of a byte, from its highest coefficient down.
pub(crate) fn byte_times(a: u128, b: u128) -> u128
    requires { a < 256 }
    ensures { result ≡ block_product a b }
{
    let mut product = 0;
    for i in 0..BYTE_BITS as u32 {
        let sum = times_x(product);
        let odd = Choice::from_u128_lsb(a >> (BYTE_BITS as u32 - 1 - i));
        product = odd.select_u128(sum, sum ^ b);
    }
    product
}

// Each byte with its bits in reverse order.
#[inline(always)]
fn reversed_bits(bytes: u8x16) -> u8x16
    ensures { result ≡ map (reverse_bits w8) bytes }
{
    look_up(
        u8x16::from_array(REVERSED_LOW),
        bytes & u8x16::splat(LOW_HALF),
    ) ^ look_up(
        u8x16::from_array(REVERSED_HIGH),
        bytes >> u8x16::splat(HALF_BITS),
    )
}

// The polynomial of a block, whose bit i is the coefficient of x^i: the bits of each byte are
// reversed, and the first byte is the lowest.
#[inline(always)]
pub(crate) fn polynomial_of(block: Block) -> u128
    ensures { result ≡ polynomial_of block }
{
    number_of(reversed_bits(u8x16::from_array(block)))
}

fn block_of(polynomial: u128) -> Block
    ensures { result ≡ block_of polynomial }
{
    reversed_bits(lanes_of(polynomial)).to_array()
}

// One block more, by Horner's rule.
fn absorb_block(key: &HashKey, sum: u128, block: Block) -> u128
    ensures sum { result ≡ block_product (bit_xor sum (polynomial_of block)) key.now }
    ensures within { key.now < 2 ^ 128 }
{
    key.times(sum ^ polynomial_of(block))
}

// Two blocks more.
fn absorb_two(key: &HashKey, sum: u128, first: Block, second: Block) -> u128
    ensures sum { result ≡ block_product (bit_xor (block_product (bit_xor sum (polynomial_of first)) key.now) (polynomial_of second)) key.now }
    ensures within { key.now < 2 ^ 128 }
{
    key.times_twice(sum ^ polynomial_of(first), polynomial_of(second))
}

// The block of the bytes from `start` on, with zeros behind a short one. A whole block is read at once.
#[inline(always)]
fn padded_block(bytes: &[u8], start: usize) -> Block
    requires within { start < length bytes.now }
    requires at_block { start % 16 ≡ 0 }
    ensures { result ≡ take 16 (drop start (padded bytes.now)) }
{
    let rest = &bytes[start..];
    if rest.len() >= BLOCK_LEN {
        return u8x16::from_slice(rest).to_array();
    }
    let mut block = [0; BLOCK_LEN];
    block[..rest.len()].copy_from_slice(rest);
    block
}

// The blocks of the padded bytes, after those that gave the sum `earlier`.
pub(crate) fn absorb(key: &HashKey, earlier: u128, bytes: &[u8]) -> u128
    ensures { result ≡ continued key.now earlier
        (polynomials (div_ceil (length bytes.now) 16) (padded bytes.now)) }
{
    let count = bytes.len().div_ceil(BLOCK_LEN);
    let mut sum = earlier;
    for i in 0..count / 2 {
        let first = padded_block(bytes, BLOCK_LEN * (2 * i));
        let second = padded_block(bytes, BLOCK_LEN * (2 * i + 1));
        sum = absorb_two(key, sum, first, second);
    }
    if count % 2 == 1 {
        absorb_block(key, sum, padded_block(bytes, BLOCK_LEN * (2 * (count / 2))))
    } else {
        sum
    }
}

// The last block: both lengths in bits.
fn length_block(aad_len: usize, text_len: usize) -> Block
    requires aad { aad_len < 2 ^ 61 }
    requires text { text_len < 2 ^ 61 }
    ensures { result ≡ to_be_bytes w64 (8 * aad_len) ++ to_be_bytes w64 (8 * text_len) }
{
    let mut block = [0; BLOCK_LEN];
    block[..LENGTH_LEN].copy_from_slice(&(BYTE_BITS * aad_len as u64).to_be_bytes());
    block[LENGTH_LEN..].copy_from_slice(&(BYTE_BITS * text_len as u64).to_be_bytes());
    block
}

// GHASH of all that a tag authenticates, from the sum over the blocks of both texts.
pub(crate) fn ghash_of_sum(key: &HashKey, sum: u128, aad_len: usize, text_len: usize) -> Block
    requires aad { aad_len < 2 ^ 61 }
    requires text { text_len < 2 ^ 61 }
    ensures { (aad text : List ℕ) → aad_len ≡ length aad → text_len ≡ length text
        → sum ≡ continued key.now (continued key.now 0 (polynomials (div_ceil (length aad) 16) (padded aad)))
        (polynomials (div_ceil (length text) 16) (padded text))
        → let x = authenticated aad text
        in result ≡ block_of (weighted_sum key.now (polynomials (length x / 16) x)) }
{
    block_of(absorb_block(key, sum, length_block(aad_len, text_len)))
}

// GHASH, under the polynomial of the hash subkey, of all that a tag authenticates.
pub(crate) fn ghash(key: &HashKey, aad: &[u8], text: &[u8]) -> Block
    requires aad { length aad.now < 2 ^ 61 }
    requires text { length text.now < 2 ^ 61 }
    ensures { let x = authenticated aad.now text.now
        in result ≡ block_of (weighted_sum key.now (polynomials (length x / 16) x)) }
{
    let sum = absorb(key, absorb(key, 0, aad), text);
    ghash_of_sum(key, sum, aad.len(), text.len())
}
