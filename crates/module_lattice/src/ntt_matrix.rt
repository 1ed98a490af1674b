//! Matrices of polynomials in the transform domain.

ghost use Rattle.std.specs.Prelude.{◌≡◌, ◌<◌, ℕ, length, slice_get, Some, IfOk};
ghost use Rattle.module_lattice.specs.Vectors.{matrix_product, RowsHaveLength};

use crate::field::Field;
use crate::multiply_ntt::MultiplyNtt;
use crate::ntt_vector::NttVector;
use ctutils::{Choice, CtEq, CtEqAgrees, CtEqSlice};
use std::alloc::AllocError;
use std::marker::Model;

/// A matrix of polynomials in the transform domain, by its rows.
#[derive(Debug, Drop)]
pub struct NttMatrix<F: Field> {
    rows: Vec<NttVector<F>>,
}

impl<F: Field> Model for NttMatrix<F> {
    ghost use Rattle.std.specs.Prelude.{ℕ, List};

    ghost Value = { List (List (List ℕ)) };

    ghost view = { λ m. m.rows.items };
}

impl<F: Field> NttMatrix<F> {
    /// The matrix of these rows, which have one length.
    pub fn new(rows: Vec<NttVector<F>>) -> NttMatrix<F>
        requires { (n : ℕ) × RowsHaveLength n rows.items }
        ensures { result ≡ rows.items }
    {
        NttMatrix { rows }
    }

    /// How many rows there are.
    pub fn len(&self) -> usize
        ensures { result ≡ length self.now }
    {
        self.rows.len()
    }

    /// The row at place `i`, for an `i` below the number of rows.
    pub fn item(&self, i: usize) -> &NttVector<F>
        requires { i < length self.now }
        ensures { slice_get self.now i ≡ Some result.now }
    {
        &self.rows[i]
    }

    /// A matrix with the same rows. It is refused at want of memory alone.
    pub fn try_clone(&self) -> Result<NttMatrix<F>, AllocError>
        ensures { IfOk result (λ out. out ≡ self.now) }
    {
        let mut rows = Vec::new(*self.rows.allocator());
        for i in 0..self.rows.len() {
            rows.push(self.rows[i].try_clone()?)?;
        }
        Ok(NttMatrix { rows })
    }
}

impl<F: MultiplyNtt> NttMatrix<F> {
    /// The product with a vector, row by row. Each row has the vector's length, which a matrix without
    /// rows meets: its product is the empty vector. It is refused at want of memory alone.
    pub fn mul(&self, rhs: &NttVector<F>) -> Result<NttVector<F>, AllocError>
        requires { RowsHaveLength (length rhs.now) self.now }
        ensures { IfOk result (λ out. out ≡ matrix_product F.Q F.product_of self.now rhs.now) }
    {
        let mut items = Vec::new(*self.rows.allocator());
        for i in 0..self.rows.len() {
            items.push(self.rows[i].dot(rhs))?;
        }
        Ok(NttVector::new(items))
    }
}

impl<F: Field> PartialEq for NttMatrix<F> {
    ghost use Rattle.std.specs.Prelude.{nat_eq};
    ghost use Rattle.std.specs.Cmp.{nat_eq_equiv, partial_equiv_from_equiv};
    ghost use Rattle.std.specs.Cmp.Lexicographic.{pointwise, lists_per};

    ghost eq = { pointwise (pointwise (pointwise nat_eq)) };

    ghost laws = { lists_per (lists_per (lists_per (partial_equiv_from_equiv nat_eq_equiv))) };

    fn eq(&self, other: &Self) -> bool {
        self.rows == other.rows
    }
}

impl<F: Field> CtEq for NttMatrix<F> {
    ghost use Rattle.std.specs.Prelude.{nat_eq};
    ghost use Rattle.std.specs.Cmp.{nat_eq_equiv};
    ghost use Rattle.std.specs.Cmp.Lexicographic.{pointwise, lists_equiv};

    ghost ct_eq = { pointwise (pointwise (pointwise nat_eq)) };

    ghost laws = { lists_equiv (lists_equiv (lists_equiv nat_eq_equiv)) };

    fn ct_eq(&self, other: &Self) -> Choice {
        NttVector::<F>::ct_eq_slice(self.rows.as_slice(), other.rows.as_slice())
    }
}

impl<F: Field> CtEqSlice for NttMatrix<F> {}

impl<F: Field> CtEqAgrees for NttMatrix<F> {
    ghost use Rattle.std.proofs.Common.{rules};

    ghost agrees = { Prim.search rules };
}
