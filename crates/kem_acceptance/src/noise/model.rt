//! An encryption by chosen coins and its decryption, over the ring, by the public calls of the crates
//! below: the noise, and what stands where each bit of the message is read.

ghost use Rattle.std.specs.Prelude.{◌<◌, ◌≤◌, All};

use kem_hash::KemHash;
use lattice_transform::{ntt, ntt_inverse};
use ml_kem::{B32, Seed, compress, decompress, sample_ntt, sample_poly_cbd};
use module_lattice::{BaseField, Polynomial};
use std::alloc::{AllocError, Global};

/// The modulus of the coefficients.
pub const Q: u32 = 3329;

// Half of the modulus, rounded up: Decompress of a 1 bit.
const HALF_OF_Q: u32 = 1665;

/// The coefficients of a polynomial.
pub const DEGREE: usize = 256;

/// A parameter set.
#[derive(Clone, Copy)]
pub enum Set {
    MlKem512,
    MlKem768,
    MlKem1024,
}

// The numbers of a parameter set.
#[derive(Clone, Copy)]
struct Numbers {
    k: u8,
    eta1: usize,
    eta2: usize,
    du: usize,
    dv: usize,
}

/// What is seen of an encryption and its decryption.
#[derive(Drop)]
pub struct Seen {
    /// The noise, modulo q.
    pub noise: [u32; DEGREE],
    /// v' - s·u', from which the bits are read.
    pub masked: [u32; DEGREE],
}

type Ring = Polynomial<BaseField>;

// The two halves of what G gives.
fn halves(made: &[u8; 64]) -> (B32, B32) {
    let (mut first, mut second) = ([0; 32], [0; 32]);
    first.copy_from_slice(&made[..32]);
    second.copy_from_slice(&made[32..]);
    (first, second)
}

// The polynomial of these numbers modulo q.
fn reduced(mut values: [u32; DEGREE]) -> Ring {
    for i in 0..DEGREE {
        values[i] %= Q;
    }
    Polynomial::new(values)
}

fn product(f: &Ring, g: &Ring) -> Ring {
    ntt_inverse(&(&ntt(f) * &ntt(g)))
}

fn dot(u: &[Ring], v: &[Ring]) -> Ring {
    let mut sum = Polynomial::default();
    for (f, g) in u.iter().zip(v.iter()) {
        sum = &sum + &product(f, g);
    }
    sum
}

fn sums(alloc: Global, u: &[Ring], v: &[Ring]) -> Result<Vec<Ring>, AllocError> {
    let mut items = Vec::new(alloc);
    for (f, g) in u.iter().zip(v.iter()) {
        items.push(f + g)?;
    }
    Ok(items)
}

fn differences(alloc: Global, u: &[Ring], v: &[Ring]) -> Result<Vec<Ring>, AllocError> {
    let mut items = Vec::new(alloc);
    for (f, g) in u.iter().zip(v.iter()) {
        items.push(f - g)?;
    }
    Ok(items)
}

// Entry (i, j) of the matrix.
fn entry<H: KemHash>(rho: &B32, i: u8, j: u8) -> Ring {
    ntt_inverse(&sample_ntt::<H>(rho, j, i).unwrap_or_default())
}

fn row<H: KemHash>(alloc: Global, k: u8, rho: &B32, i: u8) -> Result<Vec<Ring>, AllocError> {
    let mut items = Vec::new(alloc);
    for j in 0..k {
        items.push(entry::<H>(rho, i, j))?;
    }
    Ok(items)
}

fn column<H: KemHash>(alloc: Global, k: u8, rho: &B32, j: u8) -> Result<Vec<Ring>, AllocError> {
    let mut items = Vec::new(alloc);
    for i in 0..k {
        items.push(entry::<H>(rho, i, j))?;
    }
    Ok(items)
}

// A·s.
fn matrix_product<H: KemHash>(
    alloc: Global,
    k: u8,
    rho: &B32,
    s: &[Ring],
) -> Result<Vec<Ring>, AllocError> {
    let mut items = Vec::new(alloc);
    for i in 0..k {
        items.push(dot(row::<H>(alloc, k, rho, i)?.as_slice(), s))?;
    }
    Ok(items)
}

// A^T·y.
fn transposed_product<H: KemHash>(
    alloc: Global,
    k: u8,
    rho: &B32,
    y: &[Ring],
) -> Result<Vec<Ring>, AllocError> {
    let mut items = Vec::new(alloc);
    for j in 0..k {
        items.push(dot(column::<H>(alloc, k, rho, j)?.as_slice(), y))?;
    }
    Ok(items)
}

// Polynomial `b` of the noise of a secret seed.
fn noise_polynomial<H: KemHash>(eta: usize, seed: &B32, b: u8) -> Ring {
    if eta == 2 {
        sample_poly_cbd(2, &H::prf2(seed, b))
    } else {
        sample_poly_cbd(3, &H::prf3(seed, b))
    }
}

// The polynomials from number `first` on, before number `end`.
fn drawn<H: KemHash>(
    alloc: Global,
    eta: usize,
    seed: &B32,
    first: u8,
    end: u8,
) -> Result<Vec<Ring>, AllocError> {
    let mut items = Vec::new(alloc);
    for b in first..end {
        items.push(noise_polynomial::<H>(eta, seed, b))?;
    }
    Ok(items)
}

// A polynomial, rounded to `d` bits and back.
fn rounded(d: usize, f: &Ring) -> Ring
    requires positive { 1 ≤ d }
    requires narrow { d ≤ 11 }
{
    let mut values = [0; DEGREE];
    for i in 0..DEGREE {
        values[i] = decompress(d, compress(d, f.coefficient(i).get()));
    }
    reduced(values)
}

// Each polynomial, rounded to `d` bits and back.
fn each_rounded(alloc: Global, d: usize, u: &[Ring]) -> Result<Vec<Ring>, AllocError>
    requires positive { 1 ≤ d }
    requires narrow { d ≤ 11 }
{
    let mut items = Vec::new(alloc);
    for f in u {
        items.push(rounded(d, f))?;
    }
    Ok(items)
}

/// Bit `i` of a message.
pub fn bit(m: &B32, i: usize) -> u32
    requires { i < 256 }
{
    ((m[i / 8] >> (i % 8)) & 1) as u32
}

// Decompress of each bit of a message.
fn message(m: &B32) -> Ring {
    let mut values = [0; DEGREE];
    for i in 0..DEGREE {
        values[i] = if bit(m, i) == 1 { HALF_OF_Q } else { 0 };
    }
    reduced(values)
}

// The numbers of each set (FIPS 203, section 8, table 2).
fn numbers_of(set: Set) -> Numbers
    ensures few { result.k ≤ 4 }
    ensures positive_u { 1 ≤ result.du }
    ensures narrow_u { result.du ≤ 11 }
    ensures positive_v { 1 ≤ result.dv }
    ensures narrow_v { result.dv ≤ 11 }
{
    let (k, eta1, du, dv) = match set {
        Set::MlKem512 => (2, 3, 10, 4),
        Set::MlKem768 => (3, 2, 10, 4),
        Set::MlKem1024 => (4, 2, 11, 5),
    };
    Numbers {
        k,
        eta1,
        eta2: 2,
        du,
        dv,
    }
}

/// What is seen under the key of a seed.
pub fn encrypt_and_decrypt<H: KemHash>(
    alloc: Global,
    set: Set,
    seed: &Seed,
    m: &B32,
    r: &B32,
) -> Result<Seen, AllocError> {
    let set = numbers_of(set);
    let k = set.k;
    let (rho, sigma) = halves(&H::g(&seed[..32], &[k]));
    let s = drawn::<H>(alloc, set.eta1, &sigma, 0, k)?;
    let e = drawn::<H>(alloc, set.eta1, &sigma, k, 2 * k)?;
    let multiplied = matrix_product::<H>(alloc, k, &rho, s.as_slice())?;
    let t = sums(alloc, multiplied.as_slice(), e.as_slice())?;
    let y = drawn::<H>(alloc, set.eta1, r, 0, k)?;
    let e1 = drawn::<H>(alloc, set.eta2, r, k, 2 * k)?;
    let e2 = noise_polynomial::<H>(set.eta2, r, 2 * k);
    let turned = transposed_product::<H>(alloc, k, &rho, y.as_slice())?;
    let u = sums(alloc, turned.as_slice(), e1.as_slice())?;
    let v = &(&dot(t.as_slice(), y.as_slice()) + &e2) + &message(m);
    let u_rounded = each_rounded(alloc, set.du, u.as_slice())?;
    let v_rounded = rounded(set.dv, &v);
    let cu = differences(alloc, u_rounded.as_slice(), u.as_slice())?;
    let e1_cu = sums(alloc, e1.as_slice(), cu.as_slice())?;
    let kept = &(&dot(e.as_slice(), y.as_slice()) + &e2) + &(&v_rounded - &v);
    let noise = &kept - &dot(s.as_slice(), e1_cu.as_slice());
    let masked = &v_rounded - &dot(s.as_slice(), u_rounded.as_slice());
    Ok(Seen {
        noise: noise.into_array(),
        masked: masked.into_array(),
    })
}
