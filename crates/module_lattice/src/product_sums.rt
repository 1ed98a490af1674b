//! Sums of products in the transform domain of ML-KEM, which are reduced once at their end.

ghost use Rattle.std.specs.Prelude.{◌≡◌, ◌+◌, ◌*◌, ◌%◌, ◌<◌, [], ◌∷◌, replicate};
ghost use Rattle.module_lattice.specs.Ring.{sum};
ghost use Rattle.module_lattice.specs.Pairs.{gamma, pair_products, reduced_pairs, IsSums};

use crate::coefficients::DEGREE;
use crate::elem::Elem;
use crate::field::{BaseField, Field, small_reduce};
use crate::multiply_ntt::{PAIRS, gamma};
use crate::ntt_polynomial::NttPolynomial;
use std::marker::Model;

// 2^19·3329, which is subtracted from a sum that reaches it.
const FOLD: u32 = 1745354752;

// 2^32 / 3329, rounded down: the multiplier of the reduction of any number of 32 bits.
const WIDE_MULTIPLIER: u64 = 1290167;

/// A sum of products of polynomials in the transform domain of ML-KEM. It takes any number of them, no
/// memory, and a reduction at its end alone. Contracts see it as the reduced sum.
#[derive(Drop)]
pub struct ProductSums {
    // With (a0, a1) and (b0, b1) the pairs i of the factors, the sums of a0·b0 at place i,
    constants: [u32; PAIRS],
    // those of a0·b1 + a1·b0,
    linears: [u32; PAIRS],
    // and those of a1·b1, each below FOLD.
    squares: [u32; PAIRS],
}

impl Model for ProductSums {
    ghost use Rattle.std.specs.Prelude.{ℕ, List};
    ghost use Rattle.module_lattice.specs.Pairs.{reduced_pairs, IsSums};

    ghost Value = { List ℕ };

    ghost view = { λ s. reduced_pairs s.constants s.linears s.squares };

    ghost invariant = { λ s. IsSums s.constants × IsSums s.linears × IsSums s.squares };
}

impl ProductSums {
    /// Adds the product of two polynomials.
    pub fn add_product(&mut self, lhs: &NttPolynomial<BaseField>, rhs: &NttPolynomial<BaseField>)
        ensures { self.new ≡ sum 3329 self.old (pair_products lhs.now rhs.now) }
    {
        add_pairs(
            &mut self.constants,
            &mut self.linears,
            &mut self.squares,
            lhs,
            rhs,
        );
    }

    /// The sum, reduced.
    pub fn reduce(&self) -> NttPolynomial<BaseField>
        ensures { result ≡ self.now }
    {
        let mut out = [0; DEGREE];
        for i in 0..PAIRS {
            let pair = reduced_pair(self.constants[i], self.linears[i], self.squares[i], i);
            out[2 * i] = pair[0];
            out[2 * i + 1] = pair[1];
        }
        NttPolynomial::new(out)
    }
}

/// The sum of no products: zero.
impl Default for ProductSums {
    fn default() -> ProductSums
        ensures { result ≡ replicate 256 0 }
    {
        ProductSums {
            constants: [0; PAIRS],
            linears: [0; PAIRS],
            squares: [0; PAIRS],
        }
    }
}

// Adds the products of all pairs.
fn add_pairs(
    constants: &mut [u32; PAIRS],
    linears: &mut [u32; PAIRS],
    squares: &mut [u32; PAIRS],
    lhs: &NttPolynomial<BaseField>,
    rhs: &NttPolynomial<BaseField>,
)
    requires constants { IsSums constants.old }
    requires linears { IsSums linears.old }
    requires squares { IsSums squares.old }
    ensures value { reduced_pairs constants.new linears.new squares.new
        ≡ sum 3329 (reduced_pairs constants.old linears.old squares.old) (pair_products lhs.now rhs.now) }
    ensures new_constants { IsSums constants.new }
    ensures new_linears { IsSums linears.new }
    ensures new_squares { IsSums squares.new }
{
    for i in 0..PAIRS {
        let (a0, a1) = (lhs.coefficient(2 * i), lhs.coefficient(2 * i + 1));
        let (b0, b1) = (rhs.coefficient(2 * i), rhs.coefficient(2 * i + 1));
        let constant = plus_product(constants[i], a0, b0);
        let half = plus_product(linears[i], a0, b1);
        let linear = plus_product(half, a1, b0);
        let square = plus_product(squares[i], a1, b1);
        constants[i] = constant;
        linears[i] = linear;
        squares[i] = square;
    }
}

// x + a·b, below FOLD.
fn plus_product(x: u32, a: Elem<BaseField>, b: Elem<BaseField>) -> u32
    requires { x < 1745354752 }
    ensures value { result % 3329 ≡ (x + a * b) % 3329 }
    ensures within { result < 1745354752 }
{
    let product = a.get() * b.get();
    small_reduce(x + product, FOLD)
}

// The two numbers of pair `i`.
fn reduced_pair(constant: u32, linear: u32, square: u32, i: usize) -> [u32; 2]
    requires place { i < 128 }
    requires within { constant < 1745354752 }
    ensures { result ≡ (constant + square * gamma i) % 3329 ∷ linear % 3329 ∷ [] }
{
    let turned = reduce_wide(square) * gamma(i).get();
    [reduce_wide(constant + turned), reduce_wide(linear)]
}

// x modulo 3329, for every x: a product of 32 bits by 32 has lanes too.
fn reduce_wide(x: u32) -> u32
    ensures { result ≡ x % 3329 }
{
    let quotient = (u64::from(x) * WIDE_MULTIPLIER) >> 32;
    BaseField::small_reduce(x - quotient as u32 * BaseField::Q)
}
