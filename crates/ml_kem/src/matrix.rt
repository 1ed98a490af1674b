//! The matrix of a public seed, and noise, in the transform domain (FIPS 203, algorithm 13).

ghost use Rattle.std.specs.Prelude.{◌≡◌, ◌⊎◌, ◌+◌, ◌<◌, ◌≤◌, All, IfOk, length, map};
ghost use Rattle.module_lattice.specs.Pairs.{pair_products};
ghost use Rattle.module_lattice.specs.Ring.{IsPolynomial};
ghost use Rattle.module_lattice.specs.Vectors.{dot_product};
ghost use Rattle.ml_kem.specs.Answers.{Answers};
ghost use Rattle.ml_kem.specs.private.Kept.{IsMatrix};
ghost use Rattle.ml_kem.specs.Matrix.{column, matrix, noise, row};
ghost use Rattle.lattice_transform.specs.Transform.{inverse_transform, transform};

use crate::error::KemError;
use crate::parameters::B32;
use crate::sampling::{noise_polynomial, sample_ntt};
use kem_hash::KemHash;
use lattice_transform::ntt;
use module_lattice::{BaseField, NttMatrix, NttPolynomial, NttVector, ProductSums};
use std::alloc::{AllocError, Global};

/// The transforms of the matrix A of a seed, by its `k` rows of `k` polynomials.
pub(crate) fn sample_matrix<H: KemHash>(
    alloc: Global,
    k: usize,
    rho: &B32,
) -> Result<NttMatrix<BaseField>, KemError>
    requires { k ≤ 4 }
    ensures value { Answers (λ a. map (map inverse_transform) a) result (matrix H.family k rho.now) }
    ensures is { IfOk result (λ a. IsMatrix H.family k rho.now a) }
{
    let mut rows = Vec::new(alloc);
    for i in 0..k {
        let row = sample_row::<H>(alloc, k, rho, i)?;
        rows.push(row)?;
    }
    Ok(NttMatrix::new(rows))
}

// The transforms of row `i` of the matrix.
fn sample_row<H: KemHash>(
    alloc: Global,
    k: usize,
    rho: &B32,
    i: usize,
) -> Result<NttVector<BaseField>, KemError>
    requires columns { k ≤ 4 }
    requires place { i < 4 }
    ensures value { Answers (λ items. map inverse_transform items) result (row H.family k rho.now i) }
    ensures long { IfOk result (λ items. length items ≡ k) }
    ensures polynomials { IfOk result (λ items. All (IsPolynomial 3329) items) }
{
    let mut items = Vec::new(alloc);
    for j in 0..k {
        match sample_ntt::<H>(rho, j as u8, i as u8) {
            Some(f) => items.push(f)?,
            None => return Err(KemError::XofExhausted),
        }
    }
    Ok(NttVector::new(items))
}

/// The sum of the products of column `i` of a matrix with a vector of as many items as it has rows.
pub(crate) fn column_dot(
    a: &NttMatrix<BaseField>,
    i: usize,
    v: &NttVector<BaseField>,
) -> NttPolynomial<BaseField>
    requires place { All (λ row. i < length row) a.now }
    requires long { length v.now ≡ length a.now }
    ensures { result ≡ dot_product 3329 pair_products (column a.now i) v.now }
{
    let mut sums = ProductSums::default();
    for j in 0..a.len() {
        sums.add_product(a.item(j).item(i), v.item(j));
    }
    sums.reduce()
}

/// The transforms of so many polynomials of the noise of a secret seed, from number `first` on, for an
/// `eta` of 2 or 3.
pub(crate) fn noise_transforms<H: KemHash>(
    alloc: Global,
    eta: usize,
    seed: &B32,
    first: usize,
    count: usize,
) -> Result<NttVector<BaseField>, AllocError>
    requires eta { (eta ≡ 2) ⊎ (eta ≡ 3) }
    requires numbers { first + count ≤ 256 }
    ensures value { IfOk result (λ out. out ≡ map transform (noise H.family eta seed.now first count)) }
    ensures long { IfOk result (λ out. length out ≡ count) }
{
    let mut items = Vec::new(alloc);
    for i in 0..count {
        items.push(ntt(&noise_polynomial::<H>(eta, seed, (first + i) as u8)))?;
    }
    Ok(NttVector::new(items))
}
