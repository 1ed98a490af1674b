//! Decapsulation keys, key generation and decapsulation (FIPS 203, sections 7.1 and 7.3).

ghost use Rattle.std.specs.Prelude.{◌≡◌, ◌≢◌, ◌+◌, ◌^◌, ◌<◌, ◌++◌, All, Err, IfOk, IfSome, IsSome, None, Some, length, map};
ghost use Rattle.std.specs.Option.{option_map};
ghost use Rattle.rand_core.specs.Stream.{fill_bytes};
ghost use Rattle.ml_kem.specs.Answers.{Answers};
ghost use Rattle.module_lattice.specs.Pairs.{pair_products};
ghost use Rattle.module_lattice.specs.Ring.{IsPolynomial};
ghost use Rattle.module_lattice.specs.Vectors.{matrix_product, vector_sum, RowsHaveLength};
ghost use Rattle.lattice_transform.specs.Transform.{inverse_transform, transform};
ghost use Rattle.ml_kem.specs.Encapsulation.{decaps};
ghost use Rattle.ml_kem.specs.Expanded.{SecretKey, key_of_seed};
ghost use Rattle.ml_kem.specs.Keys.{IsEncapsulationKey, key_of};
ghost use Rattle.ml_kem.specs.Matrix.{noise};
ghost use Rattle.ml_kem.specs.declared.error.KemError.TheVariants.{XofExhausted};

use crate::bytes::{halves, joined};
use crate::ciphertext::Ciphertext;
use crate::encapsulation_key::EncapsulationKey;
use crate::encryption::decrypt;
use crate::error::KemError;
use crate::matrix::{noise_transforms, sample_matrix};
use crate::parameters::{B32, ParameterSet, Seed, SharedKey};
use ctutils::{CtEqSlice, CtSelectArray};
use kem_hash::KemHash;
use module_lattice::{BaseField, NttMatrix, NttVector};
use rand_core::Rng;
use std::alloc::{AllocError, Global};
use std::marker::Model;

/// A decapsulation key.
#[derive(Drop)]
pub struct DecapsulationKey<P: ParameterSet, H: KemHash> {
    seed: Option<Seed>,
    s_hat: NttVector<BaseField>,
    ek: EncapsulationKey<P, H>,
    z: B32,
}

impl<P: ParameterSet, H: KemHash> Model for DecapsulationKey<P, H> {
    ghost use Rattle.std.specs.Prelude.{All, map};
    ghost use Rattle.module_lattice.specs.Ring.{IsPolynomial};
    ghost use Rattle.lattice_transform.specs.Transform.{inverse_transform};
    ghost use Rattle.ml_kem.specs.Expanded.{SecretKey};
    ghost use Rattle.ml_kem.specs.private.Kept.{IsSecretKey};

    ghost Value = { SecretKey };

    ghost view = { λ key. record { seed = key.seed; s = map inverse_transform key.s_hat; s_hat = key.s_hat; ek = key.ek; z = key.z } };

    ghost invariant = { λ key. IsSecretKey P.set H.family (record { seed = key.seed; s = map inverse_transform key.s_hat; s_hat = key.s_hat; ek = key.ek; z = key.z })
        × All (IsPolynomial 3329) key.s_hat };
}

impl<P: ParameterSet, H: KemHash> DecapsulationKey<P, H> {
    /// ML-KEM.KeyGen_internal (algorithm 16): the key of d, the first half of the seed, and z, the
    /// second.
    ///
    /// `XofExhausted` comes exactly where an entry of the matrix has fewer than 256 numbers below 3329, and
    /// `NoMemory` at want of memory. The public key passes the checks of [`EncapsulationKey::new`].
    pub fn from_seed(alloc: Global, seed: &Seed) -> Result<DecapsulationKey<P, H>, KemError>
        ensures value { Answers (λ key. key) result (option_map (key_of_seed seed.now) (key_of P.set H.family seed.now)) }
        ensures is { IfOk result (λ key. IsEncapsulationKey P.set key.ek) }
    {
        let (d, z) = halves(seed);
        let made = H::g(&d, &[P::K as u8]);
        let (rho, sigma) = halves(&made);
        let a = sample_matrix::<H>(alloc, P::K, &rho)?;
        let s_hat = noise_transforms::<H>(alloc, P::ETA1, &sigma, 0, P::K)?;
        let t_hat = public_vector::<P, H>(alloc, &a, &s_hat, &sigma)?;
        let ek = EncapsulationKey::from_parts(alloc, a, &t_hat, &rho)?;
        Ok(DecapsulationKey {
            seed: Some(*seed),
            s_hat,
            ek,
            z,
        })
    }

    /// ML-KEM.KeyGen (algorithm 19) by the random source: d, then z, 32 bytes each, which are drawn by one
    /// call of `fill_bytes` each, also before a refusal.
    ///
    /// `XofExhausted` comes exactly where an entry of the matrix has fewer than 256 numbers below 3329, and
    /// `NoMemory` at want of memory.
    pub fn generate_from_rng<R: Rng>(
        alloc: Global,
        rng: &mut R,
    ) -> Result<DecapsulationKey<P, H>, KemError>
        ensures drawn { R.stream rng.new ≡ (fill_bytes 32 (fill_bytes 32 (R.stream rng.old)).1).1 }
        ensures value { let d = fill_bytes 32 (R.stream rng.old) in let seed = d.0 ++ (fill_bytes 32 d.1).0 in
            Answers (λ key. key) result (option_map (key_of_seed seed) (key_of P.set H.family seed)) }
        ensures is { IfOk result (λ key. IsEncapsulationKey P.set key.ek) }
    {
        let mut d = [0; 32];
        rng.fill_bytes(&mut d);
        let mut z = [0; 32];
        rng.fill_bytes(&mut z);
        DecapsulationKey::from_seed(alloc, &joined(&d, &z))
    }

    /// ML-KEM.Decaps_internal (algorithm 18): the shared key of a ciphertext, or the key of its rejection
    /// where the message that it decrypts to encrypts to another ciphertext.
    ///
    /// `XofExhausted` comes exactly where an entry of the matrix has fewer than 256 numbers below 3329, so
    /// never for a key from a seed, and `NoMemory` at want of memory.
    pub fn decapsulate(&self, c: &Ciphertext<P>) -> Result<SharedKey, KemError>
        ensures value { Answers (λ key. key) result (decaps P.set H.family self.now.s self.now.ek self.now.z c.now) }
        ensures from_seed { IsSome self.now.seed → result ≢ Err XofExhausted }
    {
        let alloc = self.ek.allocator();
        let m = decrypt::<P>(alloc, &self.s_hat, c.as_slice())?;
        let made = H::g(&m, &H::h(self.ek.as_slice()));
        let (key, r) = halves(&made);
        let again = self.ek.encrypted(&m, &r)?;
        let rejected = H::j(&self.z, c.as_slice());
        let is_same = u8::ct_eq_slice(again.as_slice(), c.as_slice());
        Ok(u8::ct_select_array(&rejected, &key, is_same))
    }

    /// The seed, or none exactly for a key from an expanded form. The key is the one that the seed gives.
    pub fn to_seed(&self) -> Option<Seed>
        ensures value { result ≡ self.now.seed }
        ensures made { IfSome result (λ seed. option_map (key_of_seed seed) (key_of P.set H.family seed) ≡ Some self.now) }
    {
        self.seed
    }

    /// The seed, as [`DecapsulationKey::to_seed`] gives it.
    pub fn to_bytes(&self) -> Option<Seed>
        ensures { result ≡ self.now.seed }
    {
        self.to_seed()
    }

    /// The public key, which passes the checks of [`EncapsulationKey::new`].
    pub fn encapsulation_key(&self) -> &EncapsulationKey<P, H>
        ensures value { result.now ≡ self.now.ek }
        ensures is { IsEncapsulationKey P.set self.now.ek }
    {
        // Whose contract tells that the key passes the checks.
        let _ = self.ek.as_slice();
        &self.ek
    }

    /// An equal key. It is refused at want of memory alone.
    pub fn try_clone(&self) -> Result<DecapsulationKey<P, H>, AllocError>
        ensures { IfOk result (λ key. key ≡ self.now) }
    {
        let s_hat = self.s_hat.try_clone()?;
        let ek = self.ek.try_clone()?;
        Ok(DecapsulationKey {
            seed: self.seed,
            s_hat,
            ek,
            z: self.z,
        })
    }

    /// The key without a seed of these parts.
    pub(crate) fn from_transforms(
        s_hat: NttVector<BaseField>,
        ek: EncapsulationKey<P, H>,
        z: B32,
    ) -> DecapsulationKey<P, H>
        requires long { length s_hat ≡ P.K }
        requires narrow { All (λ f. All (λ x. x < 2 ^ 12) f) s_hat }
        requires polynomials { All (IsPolynomial 3329) s_hat }
        ensures { result ≡ record { seed = None; s = map inverse_transform s_hat; s_hat = s_hat; ek = ek; z = z } }
    {
        DecapsulationKey {
            seed: None,
            s_hat,
            ek,
            z,
        }
    }

    /// The transforms of s.
    pub(crate) fn s_hat(&self) -> &NttVector<BaseField>
        ensures value { result.now ≡ self.now.s_hat }
        ensures long { length self.now.s_hat ≡ P.K }
        ensures narrow { All (λ f. All (λ x. x < 2 ^ 12) f) self.now.s_hat }
    {
        &self.s_hat
    }

    /// The secret of rejections.
    pub(crate) fn z(&self) -> &B32
        ensures { result.now ≡ self.now.z }
    {
        &self.z
    }
}

impl<P: ParameterSet, H: KemHash> PartialEq for DecapsulationKey<P, H> {
    ghost use Rattle.std.specs.Cmp.{and_per, nat_eq_equiv, on_per, partial_equiv_from_equiv};
    ghost use Rattle.std.specs.Cmp.Lexicographic.{lists_per};
    ghost use Rattle.ml_kem.specs.Expanded.{SecretKey, same_key};

    ghost eq = { same_key };

    ghost laws = { and_per (and_per (on_per (λ (key : SecretKey). key.s_hat) (lists_per (lists_per (partial_equiv_from_equiv nat_eq_equiv))))
        (on_per (λ (key : SecretKey). key.ek) (lists_per (partial_equiv_from_equiv nat_eq_equiv))))
        (on_per (λ (key : SecretKey). key.z) (lists_per (partial_equiv_from_equiv nat_eq_equiv))) };

    fn eq(&self, other: &Self) -> bool {
        self.s_hat == other.s_hat && self.ek == other.ek && self.z == other.z
    }
}

// The transforms of t: A·s and noise.
fn public_vector<P: ParameterSet, H: KemHash>(
    alloc: Global,
    a: &NttMatrix<BaseField>,
    s_hat: &NttVector<BaseField>,
    sigma: &B32,
) -> Result<NttVector<BaseField>, AllocError>
    requires count { length a.now ≡ P.K }
    requires rows { RowsHaveLength P.K a.now }
    requires long { length s_hat.now ≡ P.K }
    ensures value { IfOk result (λ t_hat. t_hat ≡ vector_sum 3329 (matrix_product 3329 pair_products a.now s_hat.now)
        (map transform (noise H.family P.ETA1 sigma.now P.K P.K))) }
    ensures long { IfOk result (λ t_hat. length t_hat ≡ P.K) }
    ensures polynomials { IfOk result (λ t_hat. All (IsPolynomial 3329) t_hat) }
{
    let multiplied = a.mul(s_hat)?;
    let e_hat = noise_transforms::<H>(alloc, P::ETA1, sigma, P::K, P::K)?;
    let t_hat = multiplied.add(&e_hat)?;
    Ok(t_hat)
}
