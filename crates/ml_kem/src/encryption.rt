//! The encryption that ML-KEM stands on (FIPS 203, sections 5.2 and 5.3).

ghost use Rattle.std.specs.Prelude.{◌≡◌, ◌+◌, ◌*◌, ◌<◌, ◌≤◌, ◌++◌, All, IfOk, Some, length, map};
ghost use Rattle.std.specs.List.{flat_map, range_with_len};
ghost use Rattle.module_lattice.specs.Pairs.{pair_products};
ghost use Rattle.module_lattice.specs.Ring.{IsPolynomial, sum};
ghost use Rattle.module_lattice.specs.Vectors.{dot_product, RowsHaveLength};
ghost use Rattle.ml_kem.specs.Answers.{Answers};
ghost use Rattle.ml_kem.specs.Encryption.{compressed, decompressed, decrypt, encrypt, encrypted_with};
ghost use Rattle.ml_kem.specs.private.Kept.{IsMatrix};
ghost use Rattle.ml_kem.specs.Keys.{piece, rho_part};
ghost use Rattle.ml_kem.specs.Matrix.{column, noise_polynomial};
ghost use Rattle.lattice_transform.specs.Transform.{inverse_transform, transform};

use crate::bytes::copied;
use crate::error::KemError;
use crate::matrix::{column_dot, noise_transforms, sample_matrix};
use crate::parameters::{B32, POLYNOMIAL_BYTES, ParameterSet};
use crate::rounding::{read_decompressed, write_compressed};
use crate::sampling::noise_polynomial;
use kem_hash::KemHash;
use lattice_transform::{ntt, ntt_inverse};
use module_lattice::{BaseField, Encode, NttMatrix, NttVector, Polynomial, Vector};
use std::alloc::{AllocError, Global};

// The bytes that one bit of each coefficient takes.
const BYTES_PER_BIT: usize = 32;

/// The bits of a number below q.
pub(crate) const NUMBER_BITS: usize = 12;

/// The ciphertext of a message under an encapsulation key, by the coins `r`: CT_SIZE bytes. The matrix is
/// sampled.
pub(crate) fn encrypt<P: ParameterSet, H: KemHash>(
    alloc: Global,
    ek: &[u8],
    m: &B32,
    r: &B32,
) -> Result<Vec<u8>, KemError>
    requires { length ek.now ≡ P.EK_SIZE }
    ensures value { Answers (λ c. c.items) result (encrypt P.set H.family ek.now m.now r.now) }
    ensures size { IfOk result (λ c. length c.items ≡ P.CT_SIZE) }
{
    let rho = copied(&ek[POLYNOMIAL_BYTES * P::K..]);
    let a = sample_matrix::<H>(alloc, P::K, &rho)?;
    let c = encrypt_under::<P, H>(alloc, &a, ek, m, r)?;
    Ok(c)
}

/// The same under the transforms of the matrix of the key's seed.
pub(crate) fn encrypt_under<P: ParameterSet, H: KemHash>(
    alloc: Global,
    a: &NttMatrix<BaseField>,
    ek: &[u8],
    m: &B32,
    r: &B32,
) -> Result<Vec<u8>, AllocError>
    requires size { length ek.now ≡ P.EK_SIZE }
    requires matrix { IsMatrix H.family P.K (rho_part P.set ek.now) a.now }
    ensures value { IfOk result (λ c. encrypt P.set H.family ek.now m.now r.now ≡ Some c.items) }
    ensures size { IfOk result (λ c. length c.items ≡ P.CT_SIZE) }
{
    let t_hat = NttVector::decode(alloc, NUMBER_BITS, P::K, &ek[..POLYNOMIAL_BYTES * P::K])?;
    let c = encrypt_with::<P, H>(alloc, a, &t_hat, m, r)?;
    Ok(c)
}

// The ciphertext under the transforms of A and t.
fn encrypt_with<P: ParameterSet, H: KemHash>(
    alloc: Global,
    a: &NttMatrix<BaseField>,
    t_hat: &NttVector<BaseField>,
    m: &B32,
    r: &B32,
) -> Result<Vec<u8>, AllocError>
    requires count { length a.now ≡ P.K }
    requires rows { RowsHaveLength P.K a.now }
    requires polynomials { All (All (IsPolynomial 3329)) a.now }
    requires t_long { length t_hat.now ≡ P.K }
    requires t_polynomials { All (IsPolynomial 3329) t_hat.now }
    ensures value { IfOk result (λ c. c.items
        ≡ encrypted_with P.set H.family (map inverse_transform t_hat.now) m.now r.now (map (map inverse_transform) a.now)) }
    ensures size { IfOk result (λ c. length c.items ≡ P.CT_SIZE) }
{
    let y_hat = noise_transforms::<H>(alloc, P::ETA1, r, 0, P::K)?;
    let u = encrypted_u::<P, H>(alloc, a, &y_hat, r)?;
    let v = encrypted_v::<P, H>(t_hat, &y_hat, m, r);
    let c = ciphertext_bytes::<P>(alloc, &u, &v)?;
    Ok(c)
}

// The bytes of u and v, rounded.
fn ciphertext_bytes<P: ParameterSet>(
    alloc: Global,
    u: &Vector<BaseField>,
    v: &Polynomial<BaseField>,
) -> Result<Vec<u8>, AllocError>
    requires { length u.now ≡ P.K }
    ensures value { IfOk result (λ c. c.items ≡ flat_map (compressed P.DU) u.now ++ compressed P.DV v.now) }
    ensures size { IfOk result (λ c. length c.items ≡ P.CT_SIZE) }
{
    let mut c = vec![in alloc; 0; P::CT_SIZE]?;
    write_ciphertext::<P>(u, v, c.as_mut_slice());
    Ok(c)
}

// A^T·y + e1.
fn encrypted_u<P: ParameterSet, H: KemHash>(
    alloc: Global,
    a: &NttMatrix<BaseField>,
    y_hat: &NttVector<BaseField>,
    r: &B32,
) -> Result<Vector<BaseField>, AllocError>
    requires count { length a.now ≡ P.K }
    requires rows { RowsHaveLength P.K a.now }
    requires long { length y_hat.now ≡ P.K }
    ensures value { IfOk result (λ u. u
        ≡ map (λ i. sum 3329 (inverse_transform (dot_product 3329 pair_products (column a.now i) y_hat.now)) (noise_polynomial H.family P.ETA2 r.now (P.K + i)))
        (range_with_len 0 P.K)) }
    ensures long { IfOk result (λ u. length u ≡ P.K) }
{
    let mut items = Vec::new(alloc);
    for i in 0..P::K {
        let e1 = noise_polynomial::<H>(P::ETA2, r, (P::K + i) as u8);
        items.push(&ntt_inverse(&column_dot(a, i, y_hat)) + &e1)?;
    }
    Ok(Vector::new(items))
}

// t·y + e2 + the message.
fn encrypted_v<P: ParameterSet, H: KemHash>(
    t_hat: &NttVector<BaseField>,
    y_hat: &NttVector<BaseField>,
    m: &B32,
    r: &B32,
) -> Polynomial<BaseField>
    requires t_long { length t_hat.now ≡ P.K }
    requires y_long { length y_hat.now ≡ P.K }
    ensures { result ≡ sum 3329 (sum 3329 (inverse_transform (dot_product 3329 pair_products t_hat.now y_hat.now))
        (noise_polynomial H.family P.ETA2 r.now (2 * P.K))) (decompressed 1 m.now) }
{
    let e2 = noise_polynomial::<H>(P::ETA2, r, (2 * P::K) as u8);
    let noisy = &ntt_inverse(&t_hat.dot(y_hat)) + &e2;
    &noisy + &read_decompressed(1, m)
}

// The same into bytes that are there.
fn write_ciphertext<P: ParameterSet>(
    u: &Vector<BaseField>,
    v: &Polynomial<BaseField>,
    out: &mut [u8],
)
    requires long { length u.now ≡ P.K }
    requires room { length out.old ≡ P.CT_SIZE }
    ensures { out.new ≡ flat_map (compressed P.DU) u.now ++ compressed P.DV v.now }
{
    let end = BYTES_PER_BIT * P::DU * P::K;
    write_compressed_vector(P::DU, u, &mut out[..end]);
    write_compressed(P::DV, v, &mut out[end..]);
}

// Writes each polynomial, `d` bits for each coefficient, one behind another.
#[inline(always)]
fn write_compressed_vector(d: usize, v: &Vector<BaseField>, out: &mut [u8])
    requires positive { 1 ≤ d }
    requires narrow { d ≤ 11 }
    requires room { length out.old ≡ 32 * d * length v.now }
    ensures { out.new ≡ flat_map (compressed d) v.now }
{
    let size = BYTES_PER_BIT * d;
    for i in 0..v.len() {
        let start = size * i;
        write_compressed(d, v.item(i), &mut out[start..start + size]);
    }
}

/// The message of a ciphertext under the transforms of s: 32 bytes.
pub(crate) fn decrypt<P: ParameterSet>(
    alloc: Global,
    s_hat: &NttVector<BaseField>,
    c: &[u8],
) -> Result<B32, AllocError>
    requires long { length s_hat.now ≡ P.K }
    requires polynomials { All (IsPolynomial 3329) s_hat.now }
    requires size { length c.now ≡ P.CT_SIZE }
    ensures { IfOk result (λ m. m ≡ decrypt P.set (map inverse_transform s_hat.now) c.now) }
{
    let end = BYTES_PER_BIT * P::DU * P::K;
    let u_hat = read_u(alloc, P::DU, P::K, c)?;
    let v = read_decompressed(P::DV, &c[end..]);
    let masked = ntt_inverse(&s_hat.dot(&u_hat));
    let mut m = [0; 32];
    write_compressed(1, &(&v - &masked), &mut m);
    Ok(m)
}

// The transforms of the first `count` polynomials of `d` bits for each coefficient.
#[inline(always)]
fn read_u(
    alloc: Global,
    d: usize,
    count: usize,
    bytes: &[u8],
) -> Result<NttVector<BaseField>, AllocError>
    requires positive { 1 ≤ d }
    requires narrow { d ≤ 11 }
    requires room { 32 * d * count ≤ length bytes.now }
    ensures value { IfOk result (λ out. out ≡ map transform (map (λ i. decompressed d (piece (32 * d) i bytes.now)) (range_with_len 0 count))) }
    ensures long { IfOk result (λ out. length out ≡ count) }
{
    let size = BYTES_PER_BIT * d;
    let mut items = Vec::new(alloc);
    for i in 0..count {
        let start = size * i;
        items.push(ntt(&read_decompressed(d, &bytes[start..start + size])))?;
    }
    Ok(NttVector::new(items))
}
