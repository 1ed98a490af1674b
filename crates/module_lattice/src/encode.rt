//! Polynomials and vectors as bytes.

ghost use Rattle.std.specs.Prelude.{◌≡◌, ◌⊎◌, ◌*◌, ◌^◌, ◌<◌, ◌≤◌, ℕ, List, All, IfOk, IsErr, length};
ghost use Rattle.std.specs.List.{flat_map};
ghost use Rattle.module_lattice.specs.Groups.{decoded, decoded_each, groups, lcm};
ghost use Rattle.module_lattice.specs.Ring.{IsPolynomial};

use crate::coefficients::DEGREE;
use crate::field::Field;
use crate::ntt_polynomial::NttPolynomial;
use crate::ntt_vector::NttVector;
use crate::packing::{byte_decode, byte_encode};
use crate::polynomial::Polynomial;
use crate::vector::Vector;
use std::alloc::{AllocError, Global};

// The bytes that one bit of each coefficient takes.
const BYTES_PER_BIT: usize = 32;

/// Values that are one polynomial or several, as bytes: `d` bits for each coefficient (FIPS 203,
/// section 4.2.1). Here 2^d is at most Q, or d is 12 and 2^12 at most 2·Q, and lcm(d, 8) is at most
/// 128.
pub trait Encode: Sized + Drop {
    ghost Q: { ℕ };

    // The polynomials of a value.
    ghost polynomials: { Self → List (List ℕ) };

    // How many polynomials a value may have.
    ghost has_count: { ℕ → Type 0 };

    // Whether decoding takes memory.
    ghost takes_memory: { Type 0 };

    /// Writes each polynomial, whose coefficients are below 2^d, into 32·d bytes, one polynomial after
    /// another. The polynomials of any value are 256 numbers below Q each.
    fn encode(&self, d: usize, out: &mut [u8])
        requires positive { 1 ≤ d }
        requires unit { lcm d 8 ≤ 128 }
        requires width { (2 ^ d ≤ Q) ⊎ ((d ≡ 12) × (4096 ≤ 2 * Q)) }
        requires in_width { All (λ f. All (λ x. x < 2 ^ d) f) (polynomials self.now) }
        requires room { length out.old ≡ 32 * d * length (polynomials self.now) }
        ensures bytes { out.new ≡ flat_map (groups d) (polynomials self.now) }
        ensures polynomials { All (IsPolynomial Q) (polynomials self.now) };

    /// The value of `count` polynomials of 32·d bytes each: of one where the value is a polynomial. It
    /// is refused at want of memory alone, and a polynomial takes none.
    fn decode(alloc: Global, d: usize, count: usize, bytes: &[u8]) -> Result<Self, AllocError>
        requires positive { 1 ≤ d }
        requires unit { lcm d 8 ≤ 128 }
        requires width { (2 ^ d ≤ Q) ⊎ ((d ≡ 12) × (4096 ≤ 2 * Q)) }
        requires count { has_count count }
        requires bytes { length bytes.now ≡ 32 * d * count }
        ensures value { IfOk result (λ value. polynomials value ≡ decoded_each Q d count bytes.now) }
        ensures count { IfOk result (λ value. length (polynomials value) ≡ count) }
        ensures in_width { IfOk result (λ value. All (λ f. All (λ x. x < 2 ^ d) f) (polynomials value)) }
        ensures polynomials { IfOk result (λ value. All (IsPolynomial Q) (polynomials value)) }
        ensures memory { IsErr result → takes_memory };
}

impl<F: Field> Encode for Polynomial<F> {
    ghost use Rattle.std.specs.Prelude.{◌≡◌, [], ◌∷◌};

    ghost Q = { F.Q };

    ghost polynomials = { λ p. p ∷ [] };

    ghost has_count = { λ n. n ≡ 1 };

    ghost takes_memory = { ⊥ };

    #[inline(always)]
    fn encode(&self, d: usize, out: &mut [u8]) {
        byte_encode::<F>(d, self.as_array(), out);
    }

    #[inline(always)]
    fn decode(
        _alloc: Global,
        d: usize,
        _count: usize,
        bytes: &[u8],
    ) -> Result<Polynomial<F>, AllocError> {
        Ok(Polynomial::new(decode_one::<F>(d, bytes)))
    }
}

impl<F: Field> Encode for NttPolynomial<F> {
    ghost use Rattle.std.specs.Prelude.{◌≡◌, [], ◌∷◌};

    ghost Q = { F.Q };

    ghost polynomials = { λ p. p ∷ [] };

    ghost has_count = { λ n. n ≡ 1 };

    ghost takes_memory = { ⊥ };

    #[inline(always)]
    fn encode(&self, d: usize, out: &mut [u8]) {
        byte_encode::<F>(d, self.as_array(), out);
    }

    #[inline(always)]
    fn decode(
        _alloc: Global,
        d: usize,
        _count: usize,
        bytes: &[u8],
    ) -> Result<NttPolynomial<F>, AllocError> {
        Ok(NttPolynomial::new(decode_one::<F>(d, bytes)))
    }
}

impl<F: Field> Encode for Vector<F> {
    ghost use Rattle.std.specs.Prelude.{⊤};

    ghost Q = { F.Q };

    ghost polynomials = { λ v. v };

    ghost has_count = { λ _. ⊤ };

    ghost takes_memory = { ⊤ };

    #[inline(always)]
    fn encode(&self, d: usize, out: &mut [u8]) {
        let size = BYTES_PER_BIT * d;
        for i in 0..self.len() {
            let start = size * i;
            byte_encode::<F>(d, self.item(i).as_array(), &mut out[start..start + size]);
        }
    }

    #[inline(always)]
    fn decode(
        alloc: Global,
        d: usize,
        count: usize,
        bytes: &[u8],
    ) -> Result<Vector<F>, AllocError> {
        let size = BYTES_PER_BIT * d;
        let mut items = Vec::new(alloc);
        for i in 0..count {
            let start = size * i;
            items.push(Polynomial::new(decode_one::<F>(d, &bytes[start..start + size])))?;
        }
        Ok(Vector::new(items))
    }
}

impl<F: Field> Encode for NttVector<F> {
    ghost use Rattle.std.specs.Prelude.{⊤};

    ghost Q = { F.Q };

    ghost polynomials = { λ v. v };

    ghost has_count = { λ _. ⊤ };

    ghost takes_memory = { ⊤ };

    #[inline(always)]
    fn encode(&self, d: usize, out: &mut [u8]) {
        let size = BYTES_PER_BIT * d;
        for i in 0..self.len() {
            let start = size * i;
            byte_encode::<F>(d, self.item(i).as_array(), &mut out[start..start + size]);
        }
    }

    #[inline(always)]
    fn decode(
        alloc: Global,
        d: usize,
        count: usize,
        bytes: &[u8],
    ) -> Result<NttVector<F>, AllocError> {
        let size = BYTES_PER_BIT * d;
        let mut items = Vec::new(alloc);
        for i in 0..count {
            let start = size * i;
            items.push(NttPolynomial::new(decode_one::<F>(d, &bytes[start..start + size])))?;
        }
        Ok(NttVector::new(items))
    }
}

// The numbers of one polynomial.
#[inline(always)]
fn decode_one<F: Field>(d: usize, bytes: &[u8]) -> [u32; DEGREE]
    requires positive { 1 ≤ d }
    requires unit { lcm d 8 ≤ 128 }
    requires width { (2 ^ d ≤ F.Q) ⊎ ((d ≡ 12) × (4096 ≤ 2 * F.Q)) }
    requires bytes { length bytes.now ≡ 32 * d }
    ensures value { result ≡ decoded F.Q d bytes.now }
    ensures in_width { All (λ x. x < 2 ^ d) result }
    ensures polynomial { IsPolynomial F.Q result }
{
    let mut values = [0; DEGREE];
    byte_decode::<F>(d, bytes, &mut values);
    values
}
