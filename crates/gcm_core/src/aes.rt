//! The block cipher AES under a key of 16, 24 or 32 bytes (FIPS 197).

ghost use Rattle.std.specs.Prelude.{◌≡◌, ◌+◌, ◌*◌, ◌%◌, ◌<◌, ◌≤◌, ℕ, List, length, take};
ghost use Rattle.gcm_core.specs.Aes.{add_round_key, cipher, key_expansion, mix_columns, schedule_term, shift_rows, sub_bytes, sub_word, word_at, xor_bytes};
ghost use Rattle.gcm_core.specs.private.Nibbles.{IsChanged, IsKey};

use crate::nibbles::{changed, substituted, substitutes, with_affine};
use std::simd::prelude::*;

pub(crate) const BLOCK_LEN: usize = 16;

// A block, and a state: byte `4 * column + row` is in that row and column.
pub(crate) type Block = [u8; BLOCK_LEN];

const WORD_LEN: usize = 4;

// A word of the key schedule.
type Word = [u8; WORD_LEN];

// The powers of x from x^0 on, which Rcon counts from 1.
const POWERS_OF_X: [u8; 10] = [0x01, 0x02, 0x04, 0x08, 0x10, 0x20, 0x40, 0x80, 0x1b, 0x36];

// Table 4 of the standard.
pub(crate) const S_BOX: [u8; 256] = [
    0x63, 0x7c, 0x77, 0x7b, 0xf2, 0x6b, 0x6f, 0xc5, 0x30, 0x01, 0x67, 0x2b, 0xfe, 0xd7, 0xab, 0x76,
    0xca, 0x82, 0xc9, 0x7d, 0xfa, 0x59, 0x47, 0xf0, 0xad, 0xd4, 0xa2, 0xaf, 0x9c, 0xa4, 0x72, 0xc0,
    0xb7, 0xfd, 0x93, 0x26, 0x36, 0x3f, 0xf7, 0xcc, 0x34, 0xa5, 0xe5, 0xf1, 0x71, 0xd8, 0x31, 0x15,
    0x04, 0xc7, 0x23, 0xc3, 0x18, 0x96, 0x05, 0x9a, 0x07, 0x12, 0x80, 0xe2, 0xeb, 0x27, 0xb2, 0x75,
    0x09, 0x83, 0x2c, 0x1a, 0x1b, 0x6e, 0x5a, 0xa0, 0x52, 0x3b, 0xd6, 0xb3, 0x29, 0xe3, 0x2f, 0x84,
    0x53, 0xd1, 0x00, 0xed, 0x20, 0xfc, 0xb1, 0x5b, 0x6a, 0xcb, 0xbe, 0x39, 0x4a, 0x4c, 0x58, 0xcf,
    0xd0, 0xef, 0xaa, 0xfb, 0x43, 0x4d, 0x33, 0x85, 0x45, 0xf9, 0x02, 0x7f, 0x50, 0x3c, 0x9f, 0xa8,
    0x51, 0xa3, 0x40, 0x8f, 0x92, 0x9d, 0x38, 0xf5, 0xbc, 0xb6, 0xda, 0x21, 0x10, 0xff, 0xf3, 0xd2,
    0xcd, 0x0c, 0x13, 0xec, 0x5f, 0x97, 0x44, 0x17, 0xc4, 0xa7, 0x7e, 0x3d, 0x64, 0x5d, 0x19, 0x73,
    0x60, 0x81, 0x4f, 0xdc, 0x22, 0x2a, 0x90, 0x88, 0x46, 0xee, 0xb8, 0x14, 0xde, 0x5e, 0x0b, 0xdb,
    0xe0, 0x32, 0x3a, 0x0a, 0x49, 0x06, 0x24, 0x5c, 0xc2, 0xd3, 0xac, 0x62, 0x91, 0x95, 0xe4, 0x79,
    0xe7, 0xc8, 0x37, 0x6d, 0x8d, 0xd5, 0x4e, 0xa9, 0x6c, 0x56, 0xf4, 0xea, 0x65, 0x7a, 0xae, 0x08,
    0xba, 0x78, 0x25, 0x2e, 0x1c, 0xa6, 0xb4, 0xc6, 0xe8, 0xdd, 0x74, 0x1f, 0x4b, 0xbd, 0x8b, 0x8a,
    0x70, 0x3e, 0xb5, 0x66, 0x48, 0x03, 0xf6, 0x0e, 0x61, 0x35, 0x57, 0xb9, 0x86, 0xc1, 0x1d, 0x9e,
    0xe1, 0xf8, 0x98, 0x11, 0x69, 0xd9, 0x8e, 0x94, 0x9b, 0x1e, 0x87, 0xe9, 0xce, 0x55, 0x28, 0xdf,
    0x8c, 0xa1, 0x89, 0x0d, 0xbf, 0xe6, 0x42, 0x68, 0x41, 0x99, 0x2d, 0x0f, 0xb0, 0x54, 0xbb, 0x16,
];

// The places of ShiftRows, and those of the bytes one, two and three rows further down in the same
// column after it, which MixColumns adds.
const SHIFTED: [usize; BLOCK_LEN] = [0, 5, 10, 15, 4, 9, 14, 3, 8, 13, 2, 7, 12, 1, 6, 11];

const SHIFTED_1: [usize; BLOCK_LEN] = [5, 10, 15, 0, 9, 14, 3, 4, 13, 2, 7, 8, 1, 6, 11, 12];

const SHIFTED_2: [usize; BLOCK_LEN] = [10, 15, 0, 5, 14, 3, 4, 9, 2, 7, 8, 13, 6, 11, 12, 1];

const SHIFTED_3: [usize; BLOCK_LEN] = [15, 0, 5, 10, 3, 4, 9, 14, 7, 8, 13, 2, 11, 12, 1, 6];

// A round on a state in the other basis: SubBytes, ShiftRows, MixColumns and AddRoundKey, with a key of
// `changed_key`. Three times a byte is its double and itself.
#[inline(always)]
fn next_state(t: u8x16, key: u8x16) -> u8x16
    ensures { (w s : List ℕ) (n : ℕ) → IsChanged s t → IsKey w n key → 16 * (n + 1) ≤ length w
        → IsChanged (add_round_key w n (mix_columns (shift_rows (sub_bytes s)))) result }
{
    let (once, twice) = substitutes(t);
    twice.swizzle(SHIFTED)
        ^ (twice ^ once).swizzle(SHIFTED_1)
        ^ once.swizzle(SHIFTED_2)
        ^ once.swizzle(SHIFTED_3)
        ^ key
}

// SubBytes and ShiftRows of a state in the other basis, which leave it.
#[inline(always)]
fn shifted(t: u8x16) -> u8x16
    ensures { (s : List ℕ) → IsChanged s t → result ≡ shift_rows (sub_bytes s) }
{
    substituted(t).swizzle(SHIFTED)
}

// A round key in the other basis, with what the affine map adds to each byte: MixColumns leaves a column
// of four equal bytes as it is.
#[inline(always)]
fn changed_key(round_keys: &[u8], round: usize) -> u8x16
    requires { 16 * (round + 1) ≤ length round_keys.now }
    ensures { IsKey round_keys.now round result }
{
    with_affine(u8x16::from_slice(&round_keys[BLOCK_LEN * round..]))
}

#[inline(always)]
fn add_round_key(state: u8x16, round_keys: &[u8], round: usize) -> u8x16
    requires { 16 * (round + 1) ≤ length round_keys.now }
    ensures { result ≡ add_round_key round_keys.now round state }
{
    state ^ u8x16::from_slice(&round_keys[BLOCK_LEN * round..])
}

// A block after the first AddRoundKey, in the other basis.
#[inline(always)]
fn first_state(round_keys: &[u8], block: Block) -> u8x16
    requires { 32 ≤ length round_keys.now }
    ensures { IsChanged (add_round_key round_keys.now 0 block) result }
{
    changed(add_round_key(u8x16::from_array(block), round_keys, 0))
}

// The cipher over one block. The number of rounds is one less than the number of round keys.
pub(crate) fn cipher(round_keys: &[u8], block: Block) -> Block
    requires { 32 ≤ length round_keys.now }
    ensures { result ≡ cipher round_keys.now block }
{
    let rounds = round_keys.len() / BLOCK_LEN - 1;
    let mut state = first_state(round_keys, block);
    for round in 1..rounds {
        state = next_state(state, changed_key(round_keys, round));
    }
    add_round_key(shifted(state), round_keys, rounds).to_array()
}

// The cipher over four blocks, which go through each round together.
pub(crate) fn cipher_four(
    round_keys: &[u8],
    a: Block,
    b: Block,
    c: Block,
    d: Block,
) -> (u8x16, u8x16, u8x16, u8x16)
    requires { 32 ≤ length round_keys.now }
    ensures { result ≡ (cipher round_keys.now a, cipher round_keys.now b, cipher round_keys.now c, cipher round_keys.now d) }
{
    let rounds = round_keys.len() / BLOCK_LEN - 1;
    let mut a = first_state(round_keys, a);
    let mut b = first_state(round_keys, b);
    let mut c = first_state(round_keys, c);
    let mut d = first_state(round_keys, d);
    for round in 1..rounds {
        let key = changed_key(round_keys, round);
        a = next_state(a, key);
        b = next_state(b, key);
        c = next_state(c, key);
        d = next_state(d, key);
    }
    (
        add_round_key(shifted(a), round_keys, rounds),
        add_round_key(shifted(b), round_keys, rounds),
        add_round_key(shifted(c), round_keys, rounds),
        add_round_key(shifted(d), round_keys, rounds),
    )
}

// Word `i` of a key schedule.
fn word_at(round_keys: &[u8], i: usize) -> Word
    requires { 4 * i + 4 ≤ length round_keys.now }
    ensures { result ≡ word_at round_keys.now i }
{
    let start = WORD_LEN * i;
    [
        round_keys[start],
        round_keys[start + 1],
        round_keys[start + 2],
        round_keys[start + 3],
    ]
}

// SubWord of the first four bytes of a vector.
#[inline(always)]
fn sub_first_word(lanes: u8x16) -> Word
    ensures { result ≡ sub_word (take 4 lanes) }
{
    let bytes = substituted(changed(lanes)).to_array();
    [bytes[0], bytes[1], bytes[2], bytes[3]]
}

fn sub_word(word: Word) -> Word
    ensures { result ≡ sub_word word }
{
    let mut bytes = [0; BLOCK_LEN];
    bytes[..WORD_LEN].copy_from_slice(&word);
    sub_first_word(u8x16::from_array(bytes))
}

fn xor_words(a: Word, b: Word) -> Word
    ensures { result ≡ xor_bytes a b }
{
    [a[0] ^ b[0], a[1] ^ b[1], a[2] ^ b[2], a[3] ^ b[3]]
}

// What is added to word `i - key_words` to make word `i`, from the word before it.
fn schedule_term(previous: Word, key_words: usize, i: usize) -> Word
    requires least { 0 < key_words }
    requires after_key { key_words ≤ i }
    requires within_rcon { i < 11 * key_words }
    ensures { result ≡ schedule_term key_words i previous }
{
    if i % key_words == 0 {
        let rotated = [previous[1], previous[2], previous[3], previous[0]];
        let rcon = [POWERS_OF_X[i / key_words - 1], 0, 0, 0];
        xor_words(sub_word(rotated), rcon)
    } else if key_words > 6 && i % key_words == 4 {
        // Only keys of more than six words have this substitution.
        sub_word(previous)
    } else {
        previous
    }
}

// Fills the whole key schedule, whose length fixes the number of words.
pub(crate) fn expand_key(key: &[u8], round_keys: &mut [u8])
    requires least { 16 ≤ length key.now }
    requires most { length key.now ≤ 32 }
    requires whole { length key.now % 4 ≡ 0 }
    requires room { length round_keys.old ≡ 4 * length key.now + 112 }
    ensures { round_keys.new ≡ key_expansion key.now }
{
    let key_words = key.len() / WORD_LEN;
    round_keys[..key.len()].copy_from_slice(key);
    for i in key_words..round_keys.len() / WORD_LEN {
        let term = schedule_term(word_at(round_keys, i - 1), key_words, i);
        let word = xor_words(word_at(round_keys, i - key_words), term);
        round_keys[WORD_LEN * i..WORD_LEN * i + WORD_LEN].copy_from_slice(&word);
    }
}
