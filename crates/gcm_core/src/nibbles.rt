//! SubBytes on all bytes of a block at once, by look-ups of 16 entries that are held in registers, so
//! that no address depends on a byte.
//!
//! A byte is an element of GF(2^8), which is also GF((2^4)^2): the inverse is taken by inverses in
//! GF(2^4), whose elements are half bytes. In the other basis these are the halves of a byte, so that
//! a state which stays in it from round to round is changed once.

ghost use Rattle.std.specs.Prelude.{◌≡◌, ◌<◌, IsTrue, bit_xor, map};
ghost use Rattle.std.specs.Simd.Lanes.{Each1};
ghost use Rattle.gcm_core.specs.private.Nibbles.{IsChanged, changed, entry_of, first_half, is_place, once, once_changed, second_half, twice_changed};

use std::simd::prelude::*;

// Another basis of the field: what the low half of a byte brings to it.
const TO_LOW: [u8; 16] = [
    0x00, 0x10, 0x46, 0x56, 0xad, 0xbd, 0xeb, 0xfb, 0x9d, 0x8d, 0xdb, 0xcb, 0x30, 0x20, 0x76, 0x66,
];

// What the high half brings.
const TO_HIGH: [u8; 16] = [
    0x00, 0x57, 0x29, 0x7e, 0x07, 0x50, 0x2e, 0x79, 0xfe, 0xa9, 0xd7, 0x80, 0xf9, 0xae, 0xd0, 0x87,
];

// 1/n in GF(2^4). The entry of 0 is no place, so what it leads to looks up 0.
const RECIPROCAL: [u8; 16] = [
    0x80, 0x01, 0x0c, 0x08, 0x06, 0x0f, 0x04, 0x0e, 0x03, 0x0d, 0x0b, 0x0a, 0x02, 0x09, 0x07, 0x05,
];

// 1/n times a constant of the basis. The entry of 0 is no place.
const SCALED: [u8; 16] = [
    0x80, 0x0c, 0x06, 0x04, 0x03, 0x0b, 0x02, 0x07, 0x0d, 0x0a, 0x09, 0x05, 0x01, 0x08, 0x0f, 0x0e,
];

// The affine map after the change back to the standard's basis: what one half brings.
const FIRST: [u8; 16] = [
    0x00, 0x4b, 0xb5, 0x2a, 0xa3, 0xc2, 0x9f, 0x89, 0x77, 0xfe, 0x5d, 0x16, 0x3c, 0x61, 0xe8, 0xd4,
];

// What the other half brings.
const SECOND: [u8; 16] = [
    0x00, 0x54, 0x01, 0xb7, 0x11, 0xf2, 0xb6, 0xa6, 0xf3, 0x55, 0x44, 0x10, 0xa7, 0xe3, 0x45, 0xe2,
];

// The two of them in the other basis, without what the affine map adds.
const FIRST_CHANGED: [u8; 16] = [
    0x00, 0xcc, 0x3d, 0xf2, 0x81, 0xbf, 0xcf, 0x73, 0x82, 0xf1, 0x70, 0xbc, 0x4e, 0x3e, 0x4d, 0x03,
];

const SECOND_CHANGED: [u8; 16] = [
    0x00, 0xfd, 0x10, 0x7b, 0x47, 0xc1, 0x6b, 0x3c, 0xd1, 0xed, 0xaa, 0x57, 0x2c, 0x86, 0xba, 0x96,
];

// These two doubled in GF(2^8).
const FIRST_TWICE: [u8; 16] = [
    0x00, 0x42, 0x69, 0xfd, 0x70, 0xcf, 0x94, 0x8d, 0xa6, 0x2b, 0x5b, 0x19, 0xe4, 0xbf, 0x32, 0xd6,
];

const SECOND_TWICE: [u8; 16] = [
    0x00, 0x4a, 0x46, 0xc4, 0x6f, 0xe1, 0x82, 0xab, 0xa7, 0x0c, 0x63, 0x29, 0xed, 0x8e, 0x25, 0xc8,
];

// What the affine map adds.
const AFFINE: u8 = 0x63;

// The bits of a half byte, and what they leave of a byte.
pub(crate) const HALF_BITS: u8 = 4;

pub(crate) const LOW_HALF: u8 = 0x0f;

// The entry at each place below 16; 0 at each place from 128 on.
#[inline(always)]
pub(crate) fn look_up(table: u8x16, places: u8x16) -> u8x16
    requires { Each1 (λ place. IsTrue (is_place place)) places }
    ensures { result ≡ map (entry_of table) places }
{
    table.swizzle_dyn(places)
}

// Each byte in the other basis.
#[inline(always)]
pub(crate) fn changed(s: u8x16) -> u8x16
    ensures { IsChanged s result }
{
    look_up(u8x16::from_array(TO_LOW), s & u8x16::splat(LOW_HALF))
        ^ look_up(u8x16::from_array(TO_HIGH), s >> u8x16::splat(HALF_BITS))
}

// Each byte in the other basis, with what the affine map adds.
#[inline(always)]
pub(crate) fn with_affine(s: u8x16) -> u8x16
    ensures value { result ≡ map (λ x. changed (bit_xor x AFFINE)) s }
    ensures bytes { Each1 (λ x. x < 256) s }
{
    changed(s ^ u8x16::splat(AFFINE))
}

// The two halves that lead to the inverse of each byte, which is in the other basis.
#[inline(always)]
fn halves(t: u8x16) -> (u8x16, u8x16)
    ensures { result ≡ (map first_half t, map second_half t) }
{
    let k = t & u8x16::splat(LOW_HALF);
    let i = t >> u8x16::splat(HALF_BITS);
    let j = i ^ k;
    let r = look_up(u8x16::from_array(SCALED), k);
    let p = look_up(
        u8x16::from_array(RECIPROCAL),
        look_up(u8x16::from_array(RECIPROCAL), i) ^ r,
    ) ^ j;
    let q = look_up(
        u8x16::from_array(RECIPROCAL),
        look_up(u8x16::from_array(RECIPROCAL), j) ^ r,
    ) ^ i;
    (p, q)
}

// The S-box of each byte, which is in the other basis, in the standard's basis.
#[inline(always)]
pub(crate) fn substituted(t: u8x16) -> u8x16
    ensures { result ≡ map once t }
{
    let (p, q) = halves(t);
    look_up(u8x16::from_array(FIRST), p)
        ^ look_up(u8x16::from_array(SECOND), q)
        ^ u8x16::splat(AFFINE)
}

// The S-box of each byte without what the affine map adds, and its double, all in the other basis.
#[inline(always)]
pub(crate) fn substitutes(t: u8x16) -> (u8x16, u8x16)
    ensures { result ≡ (map once_changed t, map twice_changed t) }
{
    let (p, q) = halves(t);
    (
        look_up(u8x16::from_array(FIRST_CHANGED), p)
            ^ look_up(u8x16::from_array(SECOND_CHANGED), q),
        look_up(u8x16::from_array(FIRST_TWICE), p) ^ look_up(u8x16::from_array(SECOND_TWICE), q),
    )
}
