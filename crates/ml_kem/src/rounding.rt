//! Compression and decompression (FIPS 203, section 4.2.1).

ghost use Rattle.std.specs.Prelude.{◌≡◌, ◌^◌, ◌<◌, ◌≤◌, ◌*◌, All, length, map};
ghost use Rattle.ml_kem.specs.Encryption.{compressed, decompressed};
ghost use Rattle.ml_kem.specs.Rounding.{compress, decompress};

use crate::parameters::{DEGREE, Q};
use lattice_transform::laws::compression_by_multiplier;
use module_lattice::{BaseField, Polynomial, byte_decode, byte_encode};

// Half of q, rounded up.
const HALF_OF_Q: u64 = 1665;

// 2^34 over q, rounded down: a product by it stands for a division by q.
const MULTIPLIER: u64 = 5160669;

// The shift that goes with the multiplier.
const SHIFT: u32 = 34;

/// Compress: the `d` bits of a number below 3329, rounded to the nearest. The width `d` is 1 to 11.
#[inline(always)]
pub fn compress(d: usize, x: u32) -> u32
    requires positive { 1 ≤ d }
    requires narrow { d ≤ 11 }
    requires in_field { x < 3329 }
    ensures value { result ≡ compress d x }
    ensures in_width { result < 2 ^ d }
{
    compression_by_multiplier();
    let scaled = ((x as u64) << d) + HALF_OF_Q;
    ((scaled * MULTIPLIER) >> SHIFT) as u32 % (1 << d)
}

/// Decompress: the number below 3329 that `d` bits stand for, rounded to the nearest. The width `d`
/// is 1 to 11, and `y` is below 2^d.
#[inline(always)]
pub fn decompress(d: usize, y: u32) -> u32
    requires positive { 1 ≤ d }
    requires narrow { d ≤ 11 }
    requires in_width { y < 2 ^ d }
    ensures value { result ≡ decompress d y }
    ensures in_field { result < 3329 }
{
    (2 * Q * y + (1 << d)) >> (d + 1)
}

/// Writes a polynomial, `d` bits for each coefficient, into 32·d bytes: ByteEncode of Compress.
#[inline(always)]
pub(crate) fn write_compressed(d: usize, f: &Polynomial<BaseField>, out: &mut [u8])
    requires positive { 1 ≤ d }
    requires narrow { d ≤ 11 }
    requires room { length out.old ≡ 32 * d }
    ensures { out.new ≡ compressed d f.now }
{
    let mut values = f.into_array();
    compress_each(d, &mut values);
    byte_encode::<BaseField>(d, &values, out);
}

/// The polynomial of 32·d bytes: Decompress of ByteDecode.
#[inline(always)]
pub(crate) fn read_decompressed(d: usize, bytes: &[u8]) -> Polynomial<BaseField>
    requires positive { 1 ≤ d }
    requires narrow { d ≤ 11 }
    requires bytes { length bytes.now ≡ 32 * d }
    ensures { result ≡ decompressed d bytes.now }
{
    let mut values = [0; DEGREE];
    byte_decode::<BaseField>(d, bytes, &mut values);
    decompress_each(d, &mut values);
    Polynomial::new(values)
}

// Compress of each number.
#[inline(always)]
fn compress_each(d: usize, values: &mut [u32])
    requires positive { 1 ≤ d }
    requires narrow { d ≤ 11 }
    requires in_field { All (λ x. x < 3329) values.old }
    ensures { values.new ≡ map (compress d) values.old }
{
    for value in values.iter_mut() {
        *value = compress(d, *value);
    }
}

// Decompress of each number.
#[inline(always)]
fn decompress_each(d: usize, values: &mut [u32])
    requires positive { 1 ≤ d }
    requires narrow { d ≤ 11 }
    requires in_width { All (λ x. x < 2 ^ d) values.old }
    ensures { values.new ≡ map (decompress d) values.old }
{
    for value in values.iter_mut() {
        *value = decompress(d, *value);
    }
}
