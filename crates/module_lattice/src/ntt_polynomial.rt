//! Polynomials in the transform domain.

ghost use Rattle.std.specs.Prelude.{◌≡◌, ◌<◌, All, slice_index, replicate};
ghost use Rattle.module_lattice.specs.Ring.{IsPolynomial, sum, difference, negation, multiple};

use crate::coefficients::{self, DEGREE};
use crate::elem::Elem;
use crate::field::Field;
use ctutils::{Choice, CtEq, CtEqAgrees, CtEqSlice};
use std::marker::{Model, PhantomData};
use std::ops::{Add, Mul, Neg, Sub};

/// A polynomial in the transform domain: 256 numbers below Q (FIPS 203, section 4.3).
#[derive(Clone, Debug, PartialEq, Eq, Drop)]
pub struct NttPolynomial<F: Field> {
    values: [u32; DEGREE],
    field: PhantomData<F>,
}

impl<F: Field> Model for NttPolynomial<F> {
    ghost use Rattle.std.specs.Prelude.{ℕ, List};
    ghost use Rattle.module_lattice.specs.Ring.{IsPolynomial};

    ghost Value = { List ℕ };

    ghost view = { λ p. p.values };

    ghost invariant = { λ p. IsPolynomial F.Q p.values };

    ghost inverse = { λ xs. record { values = xs; field = record {} } };
}

impl<F: Field> NttPolynomial<F> {
    /// The polynomial with these 256 numbers, each below Q.
    pub fn new(values: [u32; DEGREE]) -> NttPolynomial<F>
        requires { All (λ x. x < F.Q) values }
        ensures { result ≡ values }
    {
        NttPolynomial {
            values,
            field: PhantomData,
        }
    }

    /// The number at place `i`, for an `i` below 256.
    pub fn coefficient(&self, i: usize) -> Elem<F>
        requires { i < 256 }
        ensures value { result ≡ slice_index self.now i }
        ensures polynomial { IsPolynomial F.Q self.now }
    {
        Elem::new(self.values[i])
    }

    /// The numbers, each below Q.
    pub fn into_array(self) -> [u32; DEGREE]
        ensures value { result ≡ self }
        ensures polynomial { IsPolynomial F.Q result }
    {
        self.values
    }

    /// Adds a polynomial to this one.
    pub(crate) fn add_assign(&mut self, rhs: &NttPolynomial<F>)
        ensures value { self.new ≡ sum F.Q self.old rhs.now }
        ensures polynomial { IsPolynomial F.Q rhs.now }
    {
        coefficients::add_to::<F>(&mut self.values, &rhs.values);
    }

    /// The numbers.
    pub(crate) fn as_array(&self) -> &[u32; DEGREE]
        ensures value { result.now ≡ self.now }
        ensures polynomial { IsPolynomial F.Q self.now }
    {
        &self.values
    }
}

impl<F: Field> Default for NttPolynomial<F> {
    fn default() -> NttPolynomial<F>
        ensures { result ≡ replicate 256 0 }
    {
        NttPolynomial::new([0; DEGREE])
    }
}

impl<F: Field> Add<&NttPolynomial<F>> for &NttPolynomial<F> {
    type Output = NttPolynomial<F>;

    ghost add_gives = { λ a b r. r ≡ sum F.Q a.now b.now };

    fn add(self, rhs: &NttPolynomial<F>) -> NttPolynomial<F> {
        NttPolynomial::new(coefficients::add::<F>(&self.values, &rhs.values))
    }
}

impl<F: Field> Sub<&NttPolynomial<F>> for &NttPolynomial<F> {
    type Output = NttPolynomial<F>;

    ghost sub_gives = { λ a b r. r ≡ difference F.Q a.now b.now };

    fn sub(self, rhs: &NttPolynomial<F>) -> NttPolynomial<F> {
        NttPolynomial::new(coefficients::sub::<F>(&self.values, &rhs.values))
    }
}

impl<F: Field> Neg for &NttPolynomial<F> {
    type Output = NttPolynomial<F>;

    ghost neg_gives = { λ a r. r ≡ negation F.Q a.now };

    fn neg(self) -> NttPolynomial<F> {
        NttPolynomial::new(coefficients::neg::<F>(&self.values))
    }
}

impl<F: Field> Mul<&NttPolynomial<F>> for Elem<F> {
    type Output = NttPolynomial<F>;

    ghost mul_gives = { λ a b r. r ≡ multiple F.Q a b.now };

    fn mul(self, rhs: &NttPolynomial<F>) -> NttPolynomial<F> {
        NttPolynomial::new(coefficients::scale::<F>(self, &rhs.values))
    }
}

impl<F: Field> CtEq for NttPolynomial<F> {
    ghost use Rattle.std.specs.Prelude.{nat_eq};
    ghost use Rattle.std.specs.Cmp.{nat_eq_equiv};
    ghost use Rattle.std.specs.Cmp.Lexicographic.{pointwise, lists_equiv};

    ghost ct_eq = { pointwise nat_eq };

    ghost laws = { lists_equiv nat_eq_equiv };

    fn ct_eq(&self, other: &Self) -> Choice {
        self.values.ct_eq(&other.values)
    }
}

impl<F: Field> CtEqSlice for NttPolynomial<F> {}

impl<F: Field> CtEqAgrees for NttPolynomial<F> {
    ghost use Rattle.std.proofs.Common.{rules};

    ghost agrees = { Prim.search rules };
}
