//! Vectors of polynomials in the transform domain.

ghost use Rattle.std.specs.Prelude.{◌≡◌, ◌<◌, length, slice_get, Some, IfOk};
ghost use Rattle.module_lattice.specs.Vectors.{vector_sum, vector_difference, vector_product, dot_product};

use crate::field::Field;
use crate::multiply_ntt::MultiplyNtt;
use crate::ntt_polynomial::NttPolynomial;
use ctutils::{Choice, CtEq, CtEqAgrees, CtEqSlice};
use std::alloc::AllocError;
use std::marker::Model;

/// A vector of polynomials in the transform domain.
#[derive(Debug, Drop)]
pub struct NttVector<F: Field> {
    items: Vec<NttPolynomial<F>>,
}

impl<F: Field> Model for NttVector<F> {
    ghost use Rattle.std.specs.Prelude.{ℕ, List};

    ghost Value = { List (List ℕ) };

    ghost view = { λ v. v.items.items };
}

impl<F: Field> NttVector<F> {
    /// The vector of these polynomials.
    pub fn new(items: Vec<NttPolynomial<F>>) -> NttVector<F>
        ensures { result ≡ items.items }
    {
        NttVector { items }
    }

    /// How many polynomials there are.
    pub fn len(&self) -> usize
        ensures { result ≡ length self.now }
    {
        self.items.len()
    }

    /// The polynomial at place `i`, for an `i` below the length.
    pub fn item(&self, i: usize) -> &NttPolynomial<F>
        requires { i < length self.now }
        ensures { slice_get self.now i ≡ Some result.now }
    {
        &self.items[i]
    }

    /// The sums, item by item, of two vectors of one length. It is refused at want of memory alone.
    pub fn add(&self, rhs: &NttVector<F>) -> Result<NttVector<F>, AllocError>
        requires { length rhs.now ≡ length self.now }
        ensures { IfOk result (λ out. out ≡ vector_sum F.Q self.now rhs.now) }
    {
        let mut items = Vec::new(*self.items.allocator());
        for i in 0..self.items.len() {
            items.push(&self.items[i] + &rhs.items[i])?;
        }
        Ok(NttVector { items })
    }

    /// The differences, item by item, of two vectors of one length. It is refused at want of memory
    /// alone.
    pub fn sub(&self, rhs: &NttVector<F>) -> Result<NttVector<F>, AllocError>
        requires { length rhs.now ≡ length self.now }
        ensures { IfOk result (λ out. out ≡ vector_difference F.Q self.now rhs.now) }
    {
        let mut items = Vec::new(*self.items.allocator());
        for i in 0..self.items.len() {
            items.push(&self.items[i] - &rhs.items[i])?;
        }
        Ok(NttVector { items })
    }

    /// A vector with the same items. It is refused at want of memory alone.
    pub fn try_clone(&self) -> Result<NttVector<F>, AllocError>
        ensures { IfOk result (λ out. out ≡ self.now) }
    {
        let items = self.items.clone()?;
        Ok(NttVector { items })
    }
}

impl<F: MultiplyNtt> NttVector<F> {
    /// `by` times each item. It is refused at want of memory alone.
    pub fn scale_ntt(&self, by: &NttPolynomial<F>) -> Result<NttVector<F>, AllocError>
        ensures { IfOk result (λ out. out ≡ vector_product F.product_of by.now self.now) }
    {
        let mut items = Vec::new(*self.items.allocator());
        for i in 0..self.items.len() {
            items.push(by * &self.items[i])?;
        }
        Ok(NttVector { items })
    }

    /// The sum of the products, item by item, of two vectors of one length: zero for length 0. It
    /// takes no memory.
    pub fn dot(&self, rhs: &NttVector<F>) -> NttPolynomial<F>
        requires { length rhs.now ≡ length self.now }
        ensures { result ≡ dot_product F.Q F.product_of self.now rhs.now }
    {
        F::dot(self.items.as_slice(), rhs.items.as_slice())
    }
}

impl<F: Field> PartialEq for NttVector<F> {
    ghost use Rattle.std.specs.Prelude.{nat_eq};
    ghost use Rattle.std.specs.Cmp.{nat_eq_equiv, partial_equiv_from_equiv};
    ghost use Rattle.std.specs.Cmp.Lexicographic.{pointwise, lists_per};

    ghost eq = { pointwise (pointwise nat_eq) };

    ghost laws = { lists_per (lists_per (partial_equiv_from_equiv nat_eq_equiv)) };

    fn eq(&self, other: &Self) -> bool {
        self.items == other.items
    }
}

impl<F: Field> Eq for NttVector<F> {
    ghost use Rattle.std.specs.Cmp.{nat_eq_equiv};
    ghost use Rattle.std.specs.Cmp.Lexicographic.{lists_equiv};

    ghost laws = { lists_equiv (lists_equiv nat_eq_equiv) };
}

impl<F: Field> CtEq for NttVector<F> {
    ghost use Rattle.std.specs.Prelude.{nat_eq};
    ghost use Rattle.std.specs.Cmp.{nat_eq_equiv};
    ghost use Rattle.std.specs.Cmp.Lexicographic.{pointwise, lists_equiv};

    ghost ct_eq = { pointwise (pointwise nat_eq) };

    ghost laws = { lists_equiv (lists_equiv nat_eq_equiv) };

    fn ct_eq(&self, other: &Self) -> Choice {
        NttPolynomial::<F>::ct_eq_slice(self.items.as_slice(), other.items.as_slice())
    }
}

impl<F: Field> CtEqSlice for NttVector<F> {}

impl<F: Field> CtEqAgrees for NttVector<F> {
    ghost use Rattle.std.proofs.Common.{rules};

    ghost agrees = { Prim.search rules };
}
