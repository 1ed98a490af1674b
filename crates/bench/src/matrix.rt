//! The product of a matrix and a vector of polynomials in the transform domain modulo 3329.

ghost use Rattle.std.specs.Prelude.{◌≡◌, IfOk, length};
ghost use Rattle.module_lattice.specs.Vectors.{RowsHaveLength};

use crate::stopwatch::{Work, fastest};
use crate::transforms::polynomial;
use anyhow::{Result, ensure};
use lattice_transform::ntt;
use module_lattice::{BaseField, NttMatrix, NttPolynomial, NttVector};
use std::alloc::{AllocError, Global};
use std::marker::Model;
use std::time::CpuClock;

/// How many products make a trial.
const RUNS: u32 = 512;

/// The vector that has a polynomial three times.
fn vector(alloc: Global, f: &NttPolynomial<BaseField>) -> Result<NttVector<BaseField>, AllocError>
    ensures { IfOk result (λ v. length v ≡ 3) }
{
    let mut items = Vec::new(alloc);
    items.push(f.clone()?)?;
    items.push(f.clone()?)?;
    items.push(f.clone()?)?;
    Ok(NttVector::new(items))
}

/// The matrix that has a polynomial in each of three rows and three columns.
fn matrix(alloc: Global, f: &NttPolynomial<BaseField>) -> Result<NttMatrix<BaseField>, AllocError>
    ensures { IfOk result (λ a. RowsHaveLength 3 a) }
{
    let mut rows = Vec::new(alloc);
    rows.push(vector(alloc, f)?)?;
    rows.push(vector(alloc, f)?)?;
    rows.push(vector(alloc, f)?)?;
    Ok(NttMatrix::new(rows))
}

/// A product of a matrix, 3 by 3, and a vector, made over and over.
#[derive(Drop)]
struct Products {
    matrix: NttMatrix<BaseField>,
    vector: NttVector<BaseField>,
    product: NttVector<BaseField>,
}

impl Model for Products {
    ghost use Rattle.std.specs.Prelude.{◌≡◌, ℕ, List, length};
    ghost use Rattle.module_lattice.specs.Vectors.{RowsHaveLength};

    ghost Value = { List (List ℕ) };

    ghost view = { λ p. p.product };

    ghost invariant = { λ p. RowsHaveLength 3 p.matrix × (length p.vector ≡ 3) };
}

impl Work for Products {
    fn run(&mut self) -> Result<()> {
        self.product = self.matrix.mul(&self.vector)?;
        Ok(())
    }
}

/// Prints the time of a product of a matrix, 3 by 3, and a vector.
pub fn print_product(rt: &(impl Print + CpuClock + AllocGlobal)) -> Result<()> {
    let alloc = rt.alloc();
    let f = ntt(&polynomial()?);
    let mut products = Products {
        matrix: matrix(alloc, &f)?,
        vector: vector(alloc, &f)?,
        product: vector(alloc, &f)?,
    };
    let time = fastest(rt, &mut products, RUNS)?;
    let square = &f * &f;
    let sum = &(&square + &square) + &square;
    ensure!(products.product == vector(alloc, &sum)?, "another product");
    println!(rt; "modulo 3329 matrix by vector: {} ns", time.nanos())?;
    Ok(())
}
