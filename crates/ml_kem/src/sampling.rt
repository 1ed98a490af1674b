//! Sampling of polynomials from bytes (FIPS 203, section 4.2.2).

ghost use Rattle.std.specs.Prelude.{◌≡◌, ◌⊎◌, ◌+◌, ◌*◌, ◌/◌, ◌%◌, ◌<◌, ◌≤◌, ◌++◌, [], ◌∷◌, All, Option, Some, None, ◌==◌, length, map, take, filter, nat_lt};
ghost use Rattle.std.specs.Int.{bit_at};
ghost use Rattle.std.specs.List.{range_with_len};
ghost use Rattle.std.specs.Option.{option_map};
ghost use Rattle.module_lattice.specs.Ring.{minus};
ghost use Rattle.ml_kem.specs.Matrix.{noise_polynomial};
ghost use Rattle.ml_kem.specs.Samples.{accepted, bit_sum, cbd, cbd_coefficient, sample};

use crate::parameters::{B32, DEGREE, Q};
use kem_hash::KemHash;
use module_lattice::{BaseField, Elem, NttPolynomial, Polynomial};
use std::marker::Model;

// The blocks of an output of XOF.
const BLOCKS: u8 = 16;

// The blocks that are asked for in one go: they hold 336 numbers, enough for 99 samples in 100.
const FIRST_BLOCKS: u8 = 3;

// The bytes of those blocks.
const FIRST_SIZE: usize = 504;

// The narrower of the two widths of noise.
const NARROW: usize = 2;

/// SampleNTT: the polynomial in the transform domain that the first 256 numbers below 3329 make, of
/// those that three bytes at a time of XOF(rho, a, b) hold two of. It is none exactly where all 2688
/// bytes hold fewer. It takes no memory.
pub fn sample_ntt<H: KemHash>(rho: &B32, a: u8, b: u8) -> Option<NttPolynomial<BaseField>>
    ensures { result ≡ sample (H.family.xof_of rho.now a b) }
{
    let mut first = [0; FIRST_SIZE];
    H::xof_blocks(rho, a, b, &mut first);
    let mut sampler = Sampler::new();
    sampler.take_block(&first);
    let mut n = FIRST_BLOCKS;
    while !sampler.is_full() {
        if n == BLOCKS {
            return None;
        }
        sampler.take_block(&H::xof_block(rho, a, b, n));
        n += 1;
    }
    Some(sampler.into_polynomial())
}

/// SamplePolyCBD: the polynomial whose coefficients are differences of sums of `eta` bits, for an
/// `eta` of 2 or 3 and 64·eta bytes. It takes no memory.
pub fn sample_poly_cbd(eta: usize, bytes: &[u8]) -> Polynomial<BaseField>
    requires eta { (eta ≡ 2) ⊎ (eta ≡ 3) }
    requires bytes { length bytes.now ≡ 64 * eta }
    ensures { result ≡ cbd eta bytes.now }
{
    let mut out = [0; DEGREE];
    if eta == NARROW {
        fill_narrow_cbd(bytes, &mut out);
    } else {
        fill_cbd(eta, bytes, &mut out);
    }
    Polynomial::new(out)
}

/// The noise that PRF gives for a secret seed and a byte, for an `eta` of 2 or 3.
pub(crate) fn noise_polynomial<H: KemHash>(eta: usize, seed: &B32, b: u8) -> Polynomial<BaseField>
    requires { (eta ≡ 2) ⊎ (eta ≡ 3) }
    ensures { result ≡ noise_polynomial H.family eta seed.now b }
{
    if eta == NARROW {
        sample_poly_cbd(eta, &H::prf2(seed, b))
    } else {
        sample_poly_cbd(eta, &H::prf3(seed, b))
    }
}

// At most 256 numbers below q, in the order in which they were taken.
#[derive(Drop)]
struct Sampler {
    values: [u32; DEGREE],
    count: usize,
}

impl Model for Sampler {
    ghost use Rattle.std.specs.Prelude.{ℕ, List, ◌≤◌, ◌<◌, All, take};

    ghost Value = { List ℕ };

    ghost view = { λ s. take s.count s.values };

    ghost invariant = { λ s. (s.count ≤ 256) × All (λ x. x < 3329) s.values };
}

impl Sampler {
    // No numbers.
    fn new() -> Sampler
        ensures { result ≡ [] }
    {
        Sampler {
            values: [0; DEGREE],
            count: 0,
        }
    }

    // Whether 256 numbers were taken.
    fn is_full(&self) -> bool
        ensures { result ≡ (length self.now == 256) }
    {
        self.count == DEGREE
    }

    // Takes a number below q where there is room. In place of another number a 0 is written behind those
    // that were taken, and not counted: one number in five is such, and no branch foretells which.
    fn take_number(&mut self, d: u32)
        ensures { self.new ≡ take 256 (self.old ++ filter (λ x. nat_lt x 3329) (d ∷ [])) }
    {
        if self.count < DEGREE {
            let (value, taken) = if d < Q { (d, 1) } else { (0, 0) };
            self.values[self.count] = value;
            self.count += taken;
        }
    }

    // Takes the two numbers of three bytes.
    fn take_three(&mut self, b0: u8, b1: u8, b2: u8)
        ensures { self.new ≡ take 256 (self.old ++ accepted (b0 ∷ b1 ∷ b2 ∷ [])) }
    {
        let (b0, b1, b2) = (b0 as u32, b1 as u32, b2 as u32);
        self.take_number(b0 + 256 * (b1 % 16));
        self.take_number(b1 / 16 + 16 * b2);
    }

    // Takes the numbers of bytes that three divides.
    fn take_block(&mut self, block: &[u8])
        requires whole { length block.now % 3 ≡ 0 }
        requires within { length self.old ≤ 256 }
        ensures { self.new ≡ take 256 (self.old ++ accepted block.now) }
    {
        for t in 0..block.len() / 3 {
            self.take_three(block[3 * t], block[3 * t + 1], block[3 * t + 2]);
        }
    }

    // The polynomial of 256 numbers.
    fn into_polynomial(self) -> NttPolynomial<BaseField>
        requires { length self ≡ 256 }
        ensures { result ≡ self }
    {
        NttPolynomial::new(self.values)
    }
}

// For an eta of 2, where each byte makes two coefficients.
fn fill_narrow_cbd(bytes: &[u8], out: &mut [u32])
    requires bytes { length bytes.now ≡ 128 }
    requires room { length out.old ≡ 256 }
    ensures { out.new ≡ cbd 2 bytes.now }
{
    for t in 0..bytes.len() {
        let byte = bytes[t];
        out[2 * t] = narrow_coefficient(byte, 0);
        out[2 * t + 1] = narrow_coefficient(byte, 4);
    }
}

// The coefficient that four bits of a byte make, from bit `first` on.
#[inline(always)]
fn narrow_coefficient(byte: u8, first: u32) -> u32
    requires { first ≤ 4 }
    ensures value { result ≡ minus 3329 (bit_at byte first + bit_at byte (first + 1)) (bit_at byte (first + 2) + bit_at byte (first + 3)) }
    ensures in_field { result < 3329 }
{
    let x = bit(byte, first) + bit(byte, first + 1);
    let y = bit(byte, first + 2) + bit(byte, first + 3);
    (Elem::<BaseField>::new(x) - Elem::new(y)).get()
}

// Bit `k` of a byte.
#[inline(always)]
fn bit(byte: u8, k: u32) -> u32
    requires { k < 8 }
    ensures value { result ≡ bit_at byte k }
    ensures small { result ≤ 1 }
{
    ((byte >> k) & 1) as u32
}

// For either eta, coefficient by coefficient.
fn fill_cbd(eta: usize, bytes: &[u8], out: &mut [u32])
    requires eta { (eta ≡ 2) ⊎ (eta ≡ 3) }
    requires bytes { length bytes.now ≡ 64 * eta }
    requires room { length out.old ≡ 256 }
    ensures { out.new ≡ cbd eta bytes.now }
{
    for i in 0..out.len() {
        out[i] = cbd_coefficient(eta, bytes, i);
    }
}

// Coefficient `i`: the sum of `eta` bits minus that of the next `eta`.
fn cbd_coefficient(eta: usize, bytes: &[u8], i: usize) -> u32
    requires eta { (eta ≡ 2) ⊎ (eta ≡ 3) }
    requires bytes { length bytes.now ≡ 64 * eta }
    requires place { i < 256 }
    ensures value { result ≡ cbd_coefficient eta bytes.now i }
    ensures in_field { result < 3329 }
{
    let first = 2 * eta * i;
    let x = bit_sum(bytes, first, eta);
    let y = bit_sum(bytes, first + eta, eta);
    (Elem::<BaseField>::new(x) - Elem::new(y)).get()
}

// The sum of `count` bits from bit `first` on.
fn bit_sum(bytes: &[u8], first: usize, count: usize) -> u32
    requires room { first + count ≤ 8 * length bytes.now }
    requires few { count ≤ 3 }
    requires short { length bytes.now ≤ 192 }
    ensures value { result ≡ bit_sum bytes.now first count }
    ensures small { result ≤ count }
{
    let mut sum = 0;
    for n in 0..count {
        let k = first + n;
        sum += bit(bytes[k / 8], (k % 8) as u32);
    }
    sum
}
