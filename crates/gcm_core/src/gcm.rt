//! GCM over a key schedule and its hash subkey, with a nonce of 12 bytes (SP 800-38D). A key of another
//! size is another schedule.

ghost use Rattle.std.specs.Prelude.{◌≡◌, ◌↔◌, ◌+◌, ◌-◌, ◌*◌, ◌/◌, ◌%◌, ◌^◌, ◌<◌, ◌≤◌, ◌++◌, ◌≢◌, ◌⊎◌, IsErr, IsTrue, None, OnErr, OnOk, Some, length, replicate};
ghost use Rattle.std.specs.Int.{div_ceil};
ghost use Rattle.gcm_core.specs.Aes.{cipher, xor_bytes};
ghost use Rattle.gcm_core.specs.Gcm.{gcm_ad, gcm_ae, gctr, gctr_blocks, inc32, j0, padded, tag_of};
ghost use Rattle.gcm_core.specs.private.Counters.{counter_after};
ghost use Rattle.gcm_core.specs.Ghash.{polynomial_of, polynomials};
ghost use Rattle.gcm_core.specs.private.Continued.{continued};

use crate::aes::{BLOCK_LEN, Block, cipher, cipher_four};
use crate::error::{NotAuthentic, TooLong};
use crate::ghash::{absorb, ghash, ghash_of_sum, polynomial_of};
use crate::hash_key::HashKey;
use ct_choice::Choice;
use std::simd::prelude::*;

// The bytes of a nonce, which stand before the counter in a counter block.
const NONCE_LEN: usize = 12;

// The bytes of four blocks, which are ciphered together.
const FOUR_BLOCKS: usize = 4 * BLOCK_LEN;

// The bytes that are sealed and then hashed while they are in the cache: whole groups of four blocks.
const CHUNK_LEN: usize = 4096;

type Nonce = [u8; NONCE_LEN];

type Tag = [u8; BLOCK_LEN];

// The longest text, in bytes.
const TEXT_LIMIT: usize = (1 << 36) - 32;

// The longest associated data, in bytes.
const AAD_LIMIT: usize = 1 << 60;

// The polynomial of the hash subkey.
pub(crate) fn hash_subkey(round_keys: &[u8]) -> u128
    requires { 32 ≤ length round_keys.now }
    ensures { result ≡ polynomial_of (cipher round_keys.now (replicate 16 0)) }
{
    polynomial_of(cipher(round_keys, [0; BLOCK_LEN]))
}

// The next counter block: the count in the last four bytes, modulo 2^32.
fn inc32(block: &mut Block)
    ensures { block.new ≡ inc32 block.old }
{
    let count = u32::from_be_bytes([block[12], block[13], block[14], block[15]]);
    block[NONCE_LEN..].copy_from_slice(&count.wrapping_add(1).to_be_bytes());
}

// J0: the nonce and the count 1.
fn start_block(nonce: &Nonce) -> Block
    ensures { result ≡ j0 nonce.now }
{
    let mut block = [0; BLOCK_LEN];
    block[..NONCE_LEN].copy_from_slice(nonce);
    block[BLOCK_LEN - 1] = 1;
    block
}

// The counter block of a text's first block: the one after J0.
fn text_start(nonce: &Nonce) -> Block
    ensures { result ≡ inc32 (j0 nonce.now) }
{
    let mut block = start_block(nonce);
    inc32(&mut block);
    block
}

// The block after this one.
fn next(block: Block) -> Block
    ensures { result ≡ inc32 block }
{
    let mut counter = block;
    inc32(&mut counter);
    counter
}

fn xor_in_place(text: &mut [u8], stream: Block)
    requires { length text.old ≤ 16 }
    ensures { text.new ≡ xor_bytes text.old stream }
{
    for i in 0..text.len() {
        text[i] ^= stream[i];
    }
}

// The same over a whole block.
#[inline(always)]
fn xor_block(text: &mut [u8], stream: u8x16)
    requires { length text.old ≡ 16 }
    ensures { text.new ≡ xor_bytes text.old stream }
{
    (u8x16::from_slice(text) ^ stream).copy_to_slice(text);
}

// GCTR over four blocks, from the counter block `counter`, which moves on behind them.
fn gctr_four(round_keys: &[u8], counter: &mut Block, text: &mut [u8])
    requires schedule { 32 ≤ length round_keys.now }
    requires four { length text.old ≡ 64 }
    ensures text { text.new ≡ gctr_blocks (cipher round_keys.now) 4 counter.old text.old }
    ensures counter { counter.new ≡ counter_after 4 counter.old }
{
    let first = *counter;
    let second = next(first);
    let third = next(second);
    let fourth = next(third);
    *counter = next(fourth);
    let (a, b, c, d) = cipher_four(round_keys, first, second, third, fourth);
    let (front, back) = text.split_at_mut(2 * BLOCK_LEN);
    let (first_block, second_block) = front.split_at_mut(BLOCK_LEN);
    let (third_block, fourth_block) = back.split_at_mut(BLOCK_LEN);
    xor_block(first_block, a);
    xor_block(second_block, b);
    xor_block(third_block, c);
    xor_block(fourth_block, d);
}

// GCTR over whole groups of four blocks, from the counter block `counter`, which moves on behind them.
fn gctr_fours(round_keys: &[u8], counter: &mut Block, text: &mut [u8])
    requires schedule { 32 ≤ length round_keys.now }
    requires fours { length text.old % 64 ≡ 0 }
    ensures text { text.new ≡ gctr_blocks (cipher round_keys.now) (length text.old / 16) counter.old text.old }
    ensures counter { counter.new ≡ counter_after (length text.old / 16) counter.old }
{
    for i in 0..text.len() / FOUR_BLOCKS {
        let start = FOUR_BLOCKS * i;
        gctr_four(round_keys, counter, &mut text[start..start + FOUR_BLOCKS]);
    }
}

// GCTR block by block; the last one may be short.
fn gctr_rest(round_keys: &[u8], icb: Block, text: &mut [u8])
    requires { 32 ≤ length round_keys.now }
    ensures { text.new ≡ gctr (cipher round_keys.now) icb text.old }
{
    let mut counter = icb;
    for i in 0..text.len().div_ceil(BLOCK_LEN) {
        let start = BLOCK_LEN * i;
        let end = text.len().min(start + BLOCK_LEN);
        let stream = cipher(round_keys, counter);
        xor_in_place(&mut text[start..end], stream);
        inc32(&mut counter);
    }
}

// GCTR from the counter block `icb`.
fn gctr(round_keys: &[u8], icb: Block, text: &mut [u8])
    requires { 32 ≤ length round_keys.now }
    ensures { text.new ≡ gctr (cipher round_keys.now) icb text.old }
{
    let whole = text.len() / FOUR_BLOCKS * FOUR_BLOCKS;
    let (fours, rest) = text.split_at_mut(whole);
    let mut counter = icb;
    gctr_fours(round_keys, &mut counter, fours);
    gctr_rest(round_keys, counter, rest);
}

// GCTR over whole groups of four blocks, from the counter block `counter`, which moves on behind them,
// and the sum of GHASH over what comes of it, after the blocks that gave the sum `earlier`.
fn seal_chunk(
    round_keys: &[u8],
    key: &HashKey,
    counter: &mut Block,
    earlier: u128,
    text: &mut [u8],
) -> u128
    requires schedule { 32 ≤ length round_keys.now }
    requires fours { length text.old % 64 ≡ 0 }
    ensures text { text.new ≡ gctr_blocks (cipher round_keys.now) (length text.old / 16) counter.old text.old }
    ensures counter { counter.new ≡ counter_after (length text.old / 16) counter.old }
    ensures sum { result ≡ continued key.now earlier (polynomials (length text.old / 16) text.new) }
{
    gctr_fours(round_keys, counter, text);
    absorb(key, earlier, text)
}

// The same over whole chunks, one by one.
fn seal_chunks(
    round_keys: &[u8],
    key: &HashKey,
    counter: &mut Block,
    earlier: u128,
    text: &mut [u8],
) -> u128
    requires schedule { 32 ≤ length round_keys.now }
    requires within { key.now < 2 ^ 128 }
    requires chunks { length text.old % 4096 ≡ 0 }
    ensures text { text.new ≡ gctr_blocks (cipher round_keys.now) (length text.old / 16) counter.old text.old }
    ensures counter { counter.new ≡ counter_after (length text.old / 16) counter.old }
    ensures sum { result ≡ continued key.now earlier (polynomials (length text.old / 16) text.new) }
{
    let mut sum = earlier;
    for i in 0..text.len() / CHUNK_LEN {
        let start = CHUNK_LEN * i;
        let chunk = &mut text[start..start + CHUNK_LEN];
        sum = seal_chunk(round_keys, key, counter, sum, chunk);
    }
    sum
}

// GCTR from the counter block `icb`, and the sum of GHASH over what comes of it, after the blocks that
// gave the sum `earlier`.
fn seal_text(round_keys: &[u8], key: &HashKey, icb: Block, earlier: u128, text: &mut [u8]) -> u128
    requires schedule { 32 ≤ length round_keys.now }
    requires within { key.now < 2 ^ 128 }
    ensures text { text.new ≡ gctr (cipher round_keys.now) icb text.old }
    ensures sum { result ≡ continued key.now earlier
        (polynomials (div_ceil (length text.new) 16) (padded text.new)) }
{
    let whole = text.len() / CHUNK_LEN * CHUNK_LEN;
    let (chunks, rest) = text.split_at_mut(whole);
    let mut counter = icb;
    let sum = seal_chunks(round_keys, key, &mut counter, earlier, chunks);
    gctr(round_keys, counter, rest);
    absorb(key, sum, rest)
}

// The tag that GHASH of all that it authenticates gives.
fn tag_of_hash(round_keys: &[u8], nonce: &Nonce, hash: Block) -> Tag
    requires { 32 ≤ length round_keys.now }
    ensures { result ≡ gctr (cipher round_keys.now) (j0 nonce.now) hash }
{
    let mut tag = hash;
    gctr(round_keys, start_block(nonce), &mut tag);
    tag
}

fn tag_of(round_keys: &[u8], key: &HashKey, nonce: &Nonce, aad: &[u8], text: &[u8]) -> Tag
    requires schedule { 32 ≤ length round_keys.now }
    requires subkey { key.now ≡ polynomial_of (cipher round_keys.now (replicate 16 0)) }
    requires aad { length aad.now < 2 ^ 61 }
    requires text { length text.now < 2 ^ 61 }
    ensures { result ≡ tag_of (cipher round_keys.now) nonce.now aad.now text.now }
{
    tag_of_hash(round_keys, nonce, ghash(key, aad, text))
}

// Whether the tags are equal, by all of their bytes.
fn is_same_tag(a: &Tag, b: &Tag) -> bool
    ensures { IsTrue result ↔ (a.now ≡ b.now) }
{
    let mut same = Choice::TRUE;
    for i in 0..BLOCK_LEN {
        same = same.and(Choice::from_u8_eq(a[i], b[i]));
    }
    same.to_bool()
}

// Whether both lengths keep the limits of GCM.
fn is_within_limits(aad: &[u8], text: &[u8]) -> bool
    ensures { IsTrue result ↔ ((length text.now ≤ 2 ^ 36 - 32) × (length aad.now ≤ 2 ^ 60)) }
{
    text.len() <= TEXT_LIMIT && aad.len() <= AAD_LIMIT
}

// Seals the text in `buf` in place, and writes its tag.
pub(crate) fn seal(
    round_keys: &[u8],
    key: &HashKey,
    nonce: &Nonce,
    aad: &[u8],
    buf: &mut [u8],
    tag: &mut Tag,
) -> Result<(), TooLong>
    requires schedule { 32 ≤ length round_keys.now }
    requires subkey { key.now ≡ polynomial_of (cipher round_keys.now (replicate 16 0)) }
    ensures sealed { OnOk result
        (gcm_ae (cipher round_keys.now) nonce.now aad.now buf.old ≡ Some (buf.new ++ tag.new)) }
    ensures refused { IsErr result
        ↔ (gcm_ae (cipher round_keys.now) nonce.now aad.now buf.old ≡ None) }
    ensures too_long { IsErr result ↔ ((2 ^ 36 - 32 < length buf.old) ⊎ (2 ^ 60 < length aad.now)) }
    ensures unchanged { OnErr result ((buf.new ≡ buf.old) × (tag.new ≡ tag.old)) }
{
    if !is_within_limits(aad, buf) {
        return Err(TooLong);
    }
    let sum = seal_text(round_keys, key, text_start(nonce), absorb(key, 0, aad), buf);
    let hash = ghash_of_sum(key, sum, aad.len(), buf.len());
    *tag = tag_of_hash(round_keys, nonce, hash);
    Ok(())
}

// Opens the ciphertext in `buf` in place, if `tag` is its tag.
pub(crate) fn open(
    round_keys: &[u8],
    key: &HashKey,
    nonce: &Nonce,
    aad: &[u8],
    buf: &mut [u8],
    tag: &Tag,
) -> Result<(), NotAuthentic>
    requires schedule { 32 ≤ length round_keys.now }
    requires subkey { key.now ≡ polynomial_of (cipher round_keys.now (replicate 16 0)) }
    ensures opened { OnOk result
        (gcm_ad (cipher round_keys.now) nonce.now aad.now (buf.old ++ tag.now) ≡ Some buf.new) }
    ensures refused { IsErr result
        ↔ (gcm_ad (cipher round_keys.now) nonce.now aad.now (buf.old ++ tag.now) ≡ None) }
    ensures not_authentic { IsErr result ↔ ((2 ^ 36 - 32 < length buf.old) ⊎ (2 ^ 60 < length aad.now)
        ⊎ (tag.now ≢ tag_of (cipher round_keys.now) nonce.now aad.now buf.old)) }
    ensures unchanged { OnErr result (buf.new ≡ buf.old) }
{
    if !is_within_limits(aad, buf) {
        return Err(NotAuthentic);
    }
    let expected = tag_of(round_keys, key, nonce, aad, buf);
    if !is_same_tag(tag, &expected) {
        return Err(NotAuthentic);
    }
    gctr(round_keys, text_start(nonce), buf);
    Ok(())
}
