//! Vectors of polynomials.

ghost use Rattle.std.specs.Prelude.{◌≡◌, ◌<◌, length, slice_get, Some, IfOk};
ghost use Rattle.module_lattice.specs.Vectors.{vector_sum, vector_difference, vector_negation, vector_multiple};

use crate::elem::Elem;
use crate::field::Field;
use crate::polynomial::Polynomial;
use ctutils::{Choice, CtEq, CtEqAgrees, CtEqSlice};
use std::alloc::AllocError;
use std::marker::Model;

/// A vector of polynomials.
#[derive(Debug, Drop)]
pub struct Vector<F: Field> {
    items: Vec<Polynomial<F>>,
}

impl<F: Field> Model for Vector<F> {
    ghost use Rattle.std.specs.Prelude.{ℕ, List};

    ghost Value = { List (List ℕ) };

    ghost view = { λ v. v.items.items };
}

impl<F: Field> Vector<F> {
    /// The vector of these polynomials.
    pub fn new(items: Vec<Polynomial<F>>) -> Vector<F>
        ensures { result ≡ items.items }
    {
        Vector { items }
    }

    /// How many polynomials there are.
    pub fn len(&self) -> usize
        ensures { result ≡ length self.now }
    {
        self.items.len()
    }

    /// The polynomial at place `i`, for an `i` below the length.
    pub fn item(&self, i: usize) -> &Polynomial<F>
        requires { i < length self.now }
        ensures { slice_get self.now i ≡ Some result.now }
    {
        &self.items[i]
    }

    /// The sums, item by item, of two vectors of one length. It is refused at want of memory alone.
    pub fn add(&self, rhs: &Vector<F>) -> Result<Vector<F>, AllocError>
        requires { length rhs.now ≡ length self.now }
        ensures { IfOk result (λ out. out ≡ vector_sum F.Q self.now rhs.now) }
    {
        let mut items = Vec::new(*self.items.allocator());
        for i in 0..self.items.len() {
            items.push(&self.items[i] + &rhs.items[i])?;
        }
        Ok(Vector { items })
    }

    /// The differences, item by item, of two vectors of one length. It is refused at want of memory
    /// alone.
    pub fn sub(&self, rhs: &Vector<F>) -> Result<Vector<F>, AllocError>
        requires { length rhs.now ≡ length self.now }
        ensures { IfOk result (λ out. out ≡ vector_difference F.Q self.now rhs.now) }
    {
        let mut items = Vec::new(*self.items.allocator());
        for i in 0..self.items.len() {
            items.push(&self.items[i] - &rhs.items[i])?;
        }
        Ok(Vector { items })
    }

    /// Each item with its sign changed. It is refused at want of memory alone.
    pub fn neg(&self) -> Result<Vector<F>, AllocError>
        ensures { IfOk result (λ out. out ≡ vector_negation F.Q self.now) }
    {
        let mut items = Vec::new(*self.items.allocator());
        for i in 0..self.items.len() {
            items.push(-&self.items[i])?;
        }
        Ok(Vector { items })
    }

    /// Each item times `by`. It is refused at want of memory alone.
    pub fn scale(&self, by: Elem<F>) -> Result<Vector<F>, AllocError>
        ensures { IfOk result (λ out. out ≡ vector_multiple F.Q by self.now) }
    {
        let mut items = Vec::new(*self.items.allocator());
        for i in 0..self.items.len() {
            items.push(by * &self.items[i])?;
        }
        Ok(Vector { items })
    }

    /// A vector with the same items. It is refused at want of memory alone.
    pub fn try_clone(&self) -> Result<Vector<F>, AllocError>
        ensures { IfOk result (λ out. out ≡ self.now) }
    {
        let items = self.items.clone()?;
        Ok(Vector { items })
    }
}

impl<F: Field> PartialEq for Vector<F> {
    ghost use Rattle.std.specs.Prelude.{nat_eq};
    ghost use Rattle.std.specs.Cmp.{nat_eq_equiv, partial_equiv_from_equiv};
    ghost use Rattle.std.specs.Cmp.Lexicographic.{pointwise, lists_per};

    ghost eq = { pointwise (pointwise nat_eq) };

    ghost laws = { lists_per (lists_per (partial_equiv_from_equiv nat_eq_equiv)) };

    fn eq(&self, other: &Self) -> bool {
        self.items == other.items
    }
}

impl<F: Field> CtEq for Vector<F> {
    ghost use Rattle.std.specs.Prelude.{nat_eq};
    ghost use Rattle.std.specs.Cmp.{nat_eq_equiv};
    ghost use Rattle.std.specs.Cmp.Lexicographic.{pointwise, lists_equiv};

    ghost ct_eq = { pointwise (pointwise nat_eq) };

    ghost laws = { lists_equiv (lists_equiv nat_eq_equiv) };

    fn ct_eq(&self, other: &Self) -> Choice {
        Polynomial::<F>::ct_eq_slice(self.items.as_slice(), other.items.as_slice())
    }
}

impl<F: Field> CtEqSlice for Vector<F> {}

impl<F: Field> CtEqAgrees for Vector<F> {
    ghost use Rattle.std.proofs.Common.{rules};

    ghost agrees = { Prim.search rules };
}
