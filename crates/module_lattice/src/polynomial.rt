//! Polynomials by their coefficients.

ghost use Rattle.std.specs.Prelude.{◌≡◌, ◌<◌, All, slice_index, slice_set, replicate};
ghost use Rattle.module_lattice.specs.Ring.{IsPolynomial, sum, difference, negation, multiple};

use crate::coefficients::{self, DEGREE};
use crate::elem::Elem;
use crate::field::Field;
use ctutils::{Choice, CtEq, CtEqAgrees, CtEqSlice};
use std::marker::{Model, PhantomData};
use std::ops::{Add, Mul, Neg, Sub};

/// A polynomial modulo X^256 + 1 and Q: its coefficients, that of X^0 first.
#[derive(Clone, Copy, Debug, PartialEq)]
pub struct Polynomial<F: Field> {
    values: [u32; DEGREE],
    field: PhantomData<F>,
}

impl<F: Field> Model for Polynomial<F> {
    ghost use Rattle.std.specs.Prelude.{ℕ, List};
    ghost use Rattle.module_lattice.specs.Ring.{IsPolynomial};

    ghost Value = { List ℕ };

    ghost view = { λ p. p.values };

    ghost invariant = { λ p. IsPolynomial F.Q p.values };

    ghost inverse = { λ xs. record { values = xs; field = record {} } };
}

impl<F: Field> Polynomial<F> {
    /// The polynomial with these coefficients, each below Q.
    pub fn new(values: [u32; DEGREE]) -> Polynomial<F>
        requires { All (λ x. x < F.Q) values }
        ensures { result ≡ values }
    {
        Polynomial {
            values,
            field: PhantomData,
        }
    }

    /// The coefficient of X^i, for an `i` below 256.
    pub fn coefficient(&self, i: usize) -> Elem<F>
        requires { i < 256 }
        ensures value { result ≡ slice_index self.now i }
        ensures polynomial { IsPolynomial F.Q self.now }
    {
        Elem::new(self.values[i])
    }

    /// The coefficients, each below Q.
    pub fn into_array(self) -> [u32; DEGREE]
        ensures value { result ≡ self }
        ensures polynomial { IsPolynomial F.Q result }
    {
        self.values
    }

    /// Makes `x` the coefficient of X^i, for an `i` below 256.
    pub(crate) fn set(&mut self, i: usize, x: Elem<F>)
        requires { i < 256 }
        ensures value { self.new ≡ slice_set self.old i x }
        ensures polynomial { IsPolynomial F.Q self.new }
    {
        self.values[i] = x.get();
    }

    /// The coefficients.
    pub(crate) fn as_array(&self) -> &[u32; DEGREE]
        ensures value { result.now ≡ self.now }
        ensures polynomial { IsPolynomial F.Q self.now }
    {
        &self.values
    }
}

impl<F: Field> Default for Polynomial<F> {
    fn default() -> Polynomial<F>
        ensures { result ≡ replicate 256 0 }
    {
        Polynomial::new([0; DEGREE])
    }
}

impl<F: Field> Add<&Polynomial<F>> for &Polynomial<F> {
    type Output = Polynomial<F>;

    ghost add_gives = { λ a b r. r ≡ sum F.Q a.now b.now };

    fn add(self, rhs: &Polynomial<F>) -> Polynomial<F> {
        Polynomial::new(coefficients::add::<F>(&self.values, &rhs.values))
    }
}

impl<F: Field> Sub<&Polynomial<F>> for &Polynomial<F> {
    type Output = Polynomial<F>;

    ghost sub_gives = { λ a b r. r ≡ difference F.Q a.now b.now };

    fn sub(self, rhs: &Polynomial<F>) -> Polynomial<F> {
        Polynomial::new(coefficients::sub::<F>(&self.values, &rhs.values))
    }
}

impl<F: Field> Neg for &Polynomial<F> {
    type Output = Polynomial<F>;

    ghost neg_gives = { λ a r. r ≡ negation F.Q a.now };

    fn neg(self) -> Polynomial<F> {
        Polynomial::new(coefficients::neg::<F>(&self.values))
    }
}

impl<F: Field> Mul<&Polynomial<F>> for Elem<F> {
    type Output = Polynomial<F>;

    ghost mul_gives = { λ a b r. r ≡ multiple F.Q a b.now };

    fn mul(self, rhs: &Polynomial<F>) -> Polynomial<F> {
        Polynomial::new(coefficients::scale::<F>(self, &rhs.values))
    }
}

impl<F: Field> CtEq for Polynomial<F> {
    ghost use Rattle.std.specs.Prelude.{nat_eq};
    ghost use Rattle.std.specs.Cmp.{nat_eq_equiv};
    ghost use Rattle.std.specs.Cmp.Lexicographic.{pointwise, lists_equiv};

    ghost ct_eq = { pointwise nat_eq };

    ghost laws = { lists_equiv nat_eq_equiv };

    fn ct_eq(&self, other: &Self) -> Choice {
        self.values.ct_eq(&other.values)
    }
}

impl<F: Field> CtEqSlice for Polynomial<F> {}

impl<F: Field> CtEqAgrees for Polynomial<F> {
    ghost use Rattle.std.proofs.Common.{rules};

    ghost agrees = { Prim.search rules };
}
