//! Encapsulation keys, and encapsulation (FIPS 203, section 7.2).

ghost use Rattle.std.specs.Prelude.{◌≡◌, ◌≢◌, ◌↔◌, ◌+◌, ◌*◌, ◌^◌, ◌<◌, ◌≤◌, ◌++◌, All, Err, IfErr, IfOk, IsTrue, drop, length, take};
ghost use Rattle.std.specs.List.{flat_map};
ghost use Rattle.rand_core.specs.Stream.{fill_bytes};
ghost use Rattle.module_lattice.specs.Groups.{groups, ungroup};
ghost use Rattle.module_lattice.specs.Ring.{IsPolynomial};
ghost use Rattle.ml_kem.specs.Answers.{Answers};
ghost use Rattle.ml_kem.specs.Encapsulation.{encaps};
ghost use Rattle.ml_kem.specs.Encryption.{encrypt};
ghost use Rattle.ml_kem.specs.Keys.{IsEncapsulationKey, IsReduced};
ghost use Rattle.ml_kem.specs.private.Kept.{IsMatrix};
ghost use Rattle.ml_kem.specs.declared.error.KeyError.TheVariants.{InvalidKey, NoMemory};

use crate::bytes::halves;
use crate::ciphertext::Ciphertext;
use crate::encryption::{NUMBER_BITS, encrypt, encrypt_under};
use crate::error::{KemError, KeyError};
use crate::parameters::{B32, DEGREE, POLYNOMIAL_BYTES, ParameterSet, SharedKey};
use ctutils::CtEqSlice;
use kem_hash::KemHash;
use module_lattice::{BaseField, Encode, NttMatrix, NttVector, byte_decode, byte_encode};
use rand_core::Rng;
use std::alloc::{AllocError, Global};
use std::marker::{Model, PhantomData};

/// An encapsulation key: EK_SIZE bytes, which contracts see. One that was made of a seed keeps the
/// matrix as well, of which no contract tells: its body has no need to sample it again.
#[derive(Drop)]
#[derive_where(Debug)]
pub struct EncapsulationKey<P: ParameterSet, H: KemHash> {
    bytes: Vec<u8>,
    matrix: Option<NttMatrix<BaseField>>,
    set: PhantomData<P>,
    hash: PhantomData<H>,
}

impl<P: ParameterSet, H: KemHash> Model for EncapsulationKey<P, H> {
    ghost use Rattle.std.specs.Prelude.{ℕ, List, IfSome};
    ghost use Rattle.ml_kem.specs.Keys.{IsEncapsulationKey, rho_part};
    ghost use Rattle.ml_kem.specs.private.Kept.{IsMatrix};

    ghost Value = { List ℕ };

    ghost view = { λ key. key.bytes.items };

    ghost invariant = { λ key. IsEncapsulationKey P.set key.bytes.items
        × IfSome key.matrix (λ a. IsMatrix H.family P.K (rho_part P.set key.bytes.items) a) };
}

impl<P: ParameterSet, H: KemHash> EncapsulationKey<P, H> {
    /// The key of these bytes (FIPS 203, section 7.2). `InvalidKey` comes exactly where their length isn't
    /// EK_SIZE or a group of 12 bits of the vector part is 3329 or more, and `NoMemory` at want of memory.
    pub fn new(alloc: Global, bytes: &[u8]) -> Result<EncapsulationKey<P, H>, KeyError>
        ensures value { IfOk result (λ key. key ≡ bytes.now) }
        ensures accepted { IfOk result (λ _. IsEncapsulationKey P.set bytes.now) }
        ensures invalid { (result ≡ Err InvalidKey) ↔ (¬ IsEncapsulationKey P.set bytes.now) }
    {
        if !is_encapsulation_key::<P>(bytes) {
            return Err(KeyError::InvalidKey);
        }
        let key = EncapsulationKey::from_checked(alloc, bytes)?;
        Ok(key)
    }

    /// The key of the transforms of a vector of K polynomials and a seed, with the seed's matrix.
    pub(crate) fn from_parts(
        alloc: Global,
        matrix: NttMatrix<BaseField>,
        t_hat: &NttVector<BaseField>,
        rho: &B32,
    ) -> Result<EncapsulationKey<P, H>, AllocError>
        requires matrix { IsMatrix H.family P.K rho.now matrix }
        requires long { length t_hat.now ≡ P.K }
        requires polynomials { All (IsPolynomial 3329) t_hat.now }
        ensures { IfOk result (λ key. key ≡ flat_map (groups 12) t_hat.now ++ rho.now) }
    {
        let bytes = key_bytes(alloc, P::EK_SIZE, t_hat, rho)?;
        Ok(EncapsulationKey {
            bytes,
            matrix: Some(matrix),
            set: PhantomData,
            hash: PhantomData,
        })
    }

    /// The key of bytes that pass the checks.
    pub(crate) fn from_checked(
        alloc: Global,
        bytes: &[u8],
    ) -> Result<EncapsulationKey<P, H>, AllocError>
        requires { IsEncapsulationKey P.set bytes.now }
        ensures { IfOk result (λ key. key ≡ bytes.now) }
    {
        let bytes = bytes.to_vec(alloc)?;
        Ok(EncapsulationKey {
            bytes,
            matrix: None,
            set: PhantomData,
            hash: PhantomData,
        })
    }

    /// The bytes, which pass the checks of [`EncapsulationKey::new`]. It is refused at want of memory
    /// alone.
    pub fn to_bytes(&self) -> Result<Vec<u8>, AllocError>
        ensures value { IfOk result (λ bytes. bytes.items ≡ self.now) }
        ensures is { IfOk result (λ _. IsEncapsulationKey P.set self.now) }
    {
        let bytes = self.bytes.clone()?;
        Ok(bytes)
    }

    /// Writes the bytes into `out`, which has EK_SIZE bytes. It takes no memory.
    pub fn write_bytes(&self, out: &mut [u8])
        requires { length out.old ≡ P.EK_SIZE }
        ensures value { out.new ≡ self.now }
        ensures is { IsEncapsulationKey P.set self.now }
    {
        out.copy_from_slice(self.bytes.as_slice());
    }

    /// The bytes.
    pub(crate) fn as_slice(&self) -> &[u8]
        ensures value { result.now ≡ self.now }
        ensures is { IsEncapsulationKey P.set self.now }
    {
        self.bytes.as_slice()
    }

    /// The allocator of the bytes.
    pub(crate) fn allocator(&self) -> Global {
        *self.bytes.allocator()
    }

    /// A key of the same bytes. It is refused at want of memory alone.
    pub fn try_clone(&self) -> Result<EncapsulationKey<P, H>, AllocError>
        ensures value { IfOk result (λ key. key ≡ self.now) }
        ensures is { IfOk result (λ _. IsEncapsulationKey P.set self.now) }
    {
        let bytes = self.bytes.clone()?;
        let matrix = copied_matrix(&self.matrix)?;
        Ok(EncapsulationKey {
            bytes,
            matrix,
            set: PhantomData,
            hash: PhantomData,
        })
    }

    /// ML-KEM.Encaps_internal (algorithm 17): the ciphertext, of CT_SIZE bytes, and the shared key that 32
    /// bytes give.
    ///
    /// `XofExhausted` comes exactly where an entry of the matrix has fewer than 256 numbers below 3329, and
    /// `NoMemory` at want of memory.
    pub fn encapsulate_deterministic(&self, m: &B32) -> Result<(Ciphertext<P>, SharedKey), KemError>
        ensures value { Answers (λ made. (made.0, made.1)) result (encaps P.set H.family self.now m.now) }
        ensures size { IfOk result (λ made. length made.0 ≡ P.CT_SIZE) }
    {
        let made = H::g(m, &H::h(self.bytes.as_slice()));
        let (key, r) = halves(&made);
        let c = self.encrypted(m, &r)?;
        Ok((Ciphertext::from_vec(c), key))
    }

    /// ML-KEM.Encaps (algorithm 20) by 32 bytes of the random source, which are drawn by one call of
    /// `fill_bytes`, also before a refusal.
    ///
    /// `XofExhausted` comes exactly where an entry of the matrix has fewer than 256 numbers below 3329, and
    /// `NoMemory` at want of memory.
    pub fn encapsulate_with_rng<R: Rng>(
        &self,
        rng: &mut R,
    ) -> Result<(Ciphertext<P>, SharedKey), KemError>
        ensures drawn { R.stream rng.new ≡ (fill_bytes 32 (R.stream rng.old)).1 }
        ensures value { Answers (λ made. (made.0, made.1)) result
            (encaps P.set H.family self.now (fill_bytes 32 (R.stream rng.old)).0) }
        ensures size { IfOk result (λ made. length made.0 ≡ P.CT_SIZE) }
    {
        let mut m = [0; 32];
        rng.fill_bytes(&mut m);
        self.encapsulate_deterministic(&m)
    }

    /// The ciphertext of a message by the coins `r`, under the matrix that is kept, or else is sampled.
    pub(crate) fn encrypted(&self, m: &B32, r: &B32) -> Result<Vec<u8>, KemError>
        ensures value { Answers (λ c. c.items) result (encrypt P.set H.family self.now m.now r.now) }
        ensures size { IfOk result (λ c. length c.items ≡ P.CT_SIZE) }
    {
        let alloc = self.allocator();
        match &self.matrix {
            Some(a) => {
                let c = encrypt_under::<P, H>(alloc, a, self.bytes.as_slice(), m, r)?;
                Ok(c)
            }
            None => encrypt::<P, H>(alloc, self.bytes.as_slice(), m, r),
        }
    }
}

impl<P: ParameterSet, H: KemHash> PartialEq for EncapsulationKey<P, H> {
    ghost use Rattle.std.specs.Prelude.{nat_eq};
    ghost use Rattle.std.specs.Cmp.{nat_eq_equiv, partial_equiv_from_equiv};
    ghost use Rattle.std.specs.Cmp.Lexicographic.{pointwise, lists_per};

    ghost eq = { pointwise nat_eq };

    ghost laws = { lists_per (partial_equiv_from_equiv nat_eq_equiv) };

    fn eq(&self, other: &Self) -> bool {
        self.bytes == other.bytes
    }
}

impl<P: ParameterSet, H: KemHash> Eq for EncapsulationKey<P, H> {
    ghost use Rattle.std.specs.Cmp.{nat_eq_equiv};
    ghost use Rattle.std.specs.Cmp.Lexicographic.{lists_equiv};

    ghost laws = { lists_equiv nat_eq_equiv };
}

// A copy of a matrix, if there is one.
fn copied_matrix(
    matrix: &Option<NttMatrix<BaseField>>,
) -> Result<Option<NttMatrix<BaseField>>, AllocError>
    ensures { IfOk result (λ copy. copy ≡ matrix.now) }
{
    match matrix {
        Some(a) => {
            let copy = a.try_clone()?;
            Ok(Some(copy))
        }
        None => Ok(None),
    }
}

// A vector of transforms and a seed, in `size` bytes.
fn key_bytes(
    alloc: Global,
    size: usize,
    transforms: &NttVector<BaseField>,
    rho: &B32,
) -> Result<Vec<u8>, AllocError>
    requires narrow { All (λ f. All (λ x. x < 2 ^ 12) f) transforms.now }
    requires size { size ≡ 384 * length transforms.now + 32 }
    ensures { IfOk result (λ bytes. bytes.items ≡ flat_map (groups 12) transforms.now ++ rho.now) }
{
    let mut bytes = vec![in alloc; 0; size]?;
    write_key(transforms, rho, bytes.as_mut_slice());
    Ok(bytes)
}

// The same into bytes that are there.
fn write_key(transforms: &NttVector<BaseField>, rho: &B32, out: &mut [u8])
    requires narrow { All (λ f. All (λ x. x < 2 ^ 12) f) transforms.now }
    requires room { length out.old ≡ 384 * length transforms.now + 32 }
    ensures { out.new ≡ flat_map (groups 12) transforms.now ++ rho.now }
{
    let end = POLYNOMIAL_BYTES * transforms.len();
    transforms.encode(NUMBER_BITS, &mut out[..end]);
    out[end..].copy_from_slice(rho);
}

/// The checks of FIPS 203, section 7.2.
pub(crate) fn is_encapsulation_key<P: ParameterSet>(bytes: &[u8]) -> bool
    ensures { IsTrue result ↔ IsEncapsulationKey P.set bytes.now }
{
    bytes.len() == P::EK_SIZE && is_reduced(bytes, P::K)
}

// Whether no group of 12 bits of the first `k` polynomials is 3329 or more.
fn is_reduced(bytes: &[u8], k: usize) -> bool
    requires { 384 * k ≤ length bytes.now }
    ensures { IsTrue result ↔ IsReduced k bytes.now }
{
    for i in 0..k {
        let start = POLYNOMIAL_BYTES * i;
        if !is_polynomial_reduced(&bytes[start..start + POLYNOMIAL_BYTES]) {
            return false;
        }
    }
    true
}

// Whether the bytes are those of the numbers that they decode to.
fn is_polynomial_reduced(bytes: &[u8]) -> bool
    requires { length bytes.now ≡ 384 }
    ensures { IsTrue result ↔ All (λ x. x < 3329) (ungroup 12 bytes.now) }
{
    let mut values = [0; DEGREE];
    byte_decode::<BaseField>(NUMBER_BITS, bytes, &mut values);
    let mut again = [0; POLYNOMIAL_BYTES];
    byte_encode::<BaseField>(NUMBER_BITS, &values, &mut again);
    u8::ct_eq_slice(&again, bytes).to_bool()
}
