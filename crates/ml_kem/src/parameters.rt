//! The parameter sets of ML-KEM (FIPS 203, section 8).

ghost use Rattle.ml_kem.specs.Parameters.{Parameters, IsSet};

use module_lattice::{BaseField, Field};

/// 32 bytes.
pub type B32 = [u8; 32];

/// What a decapsulation key is made of: d, then z, 32 bytes each.
pub type Seed = [u8; 64];

/// What an encapsulation gives both sides.
pub type SharedKey = [u8; 32];

/// The modulus of the coefficients.
pub(crate) const Q: u32 = BaseField::Q;

/// The coefficients of a polynomial.
pub(crate) const DEGREE: usize = 256;

/// The bytes of a polynomial of numbers below q.
pub(crate) const POLYNOMIAL_BYTES: usize = 384;

/// A parameter set. Contracts see it as `set`, which is one of the three sets of FIPS 203, and the
/// constants are those of that set.
pub trait ParameterSet {
    /// How many polynomials a vector has.
    const K: usize;

    /// The width of the noise of keys, and of the vector y that encryption draws.
    const ETA1: usize;

    /// The width of the noise that encryption adds: e1 and e2.
    const ETA2: usize;

    /// The bits that a ciphertext keeps of each coefficient of its vector u.
    const DU: usize;

    /// The bits that a ciphertext keeps of each coefficient of its polynomial v.
    const DV: usize;

    /// The bytes of an encapsulation key.
    const EK_SIZE: usize;

    /// The bytes of a ciphertext.
    const CT_SIZE: usize;

    /// The bytes of an expanded decapsulation key.
    const DK_SIZE: usize;

    ghost use Rattle.std.specs.Prelude.{◌≡◌, ℕ};

    ghost K: { ℕ };

    ghost ETA1: { ℕ };

    ghost ETA2: { ℕ };

    ghost DU: { ℕ };

    ghost DV: { ℕ };

    ghost EK_SIZE: { ℕ };

    ghost CT_SIZE: { ℕ };

    ghost DK_SIZE: { ℕ };

    // The row of the table.
    ghost set: { Parameters };

    ghost is_set: { IsSet set };

    ghost constants: { set ≡ record { k = K; eta1 = ETA1; eta2 = ETA2; du = DU; dv = DV; ek_size = EK_SIZE; ct_size = CT_SIZE; dk_size = DK_SIZE } };
}

/// ML-KEM-512.
#[derive(Clone, Copy, Debug, Default, PartialEq, Eq, PartialOrd, Ord)]
pub struct MlKem512;

impl ParameterSet for MlKem512 {
    const K: usize = 2;

    const ETA1: usize = 3;

    const ETA2: usize = 2;

    const DU: usize = 10;

    const DV: usize = 4;

    const EK_SIZE: usize = 800;

    const CT_SIZE: usize = 768;

    const DK_SIZE: usize = 1632;

    ghost use Rattle.std.proofs.Common.{refl, inl, inr};
    ghost use Rattle.ml_kem.specs.Parameters.{ml_kem_512};

    ghost K = { 2 };

    ghost ETA1 = { 3 };

    ghost ETA2 = { 2 };

    ghost DU = { 10 };

    ghost DV = { 4 };

    ghost EK_SIZE = { 800 };

    ghost CT_SIZE = { 768 };

    ghost DK_SIZE = { 1632 };

    ghost set = { ml_kem_512 };

    ghost is_set = { inl refl };

    ghost constants = { refl };
}

/// ML-KEM-768.
#[derive(Clone, Copy, Debug, Default, PartialEq, Eq, PartialOrd, Ord)]
pub struct MlKem768;

impl ParameterSet for MlKem768 {
    const K: usize = 3;

    const ETA1: usize = 2;

    const ETA2: usize = 2;

    const DU: usize = 10;

    const DV: usize = 4;

    const EK_SIZE: usize = 1184;

    const CT_SIZE: usize = 1088;

    const DK_SIZE: usize = 2400;

    ghost use Rattle.std.proofs.Common.{refl, inl, inr};
    ghost use Rattle.ml_kem.specs.Parameters.{ml_kem_768};

    ghost K = { 3 };

    ghost ETA1 = { 2 };

    ghost ETA2 = { 2 };

    ghost DU = { 10 };

    ghost DV = { 4 };

    ghost EK_SIZE = { 1184 };

    ghost CT_SIZE = { 1088 };

    ghost DK_SIZE = { 2400 };

    ghost set = { ml_kem_768 };

    ghost is_set = { inr (inl refl) };

    ghost constants = { refl };
}

/// ML-KEM-1024.
#[derive(Clone, Copy, Debug, Default, PartialEq, Eq, PartialOrd, Ord)]
pub struct MlKem1024;

impl ParameterSet for MlKem1024 {
    const K: usize = 4;

    const ETA1: usize = 2;

    const ETA2: usize = 2;

    const DU: usize = 11;

    const DV: usize = 5;

    const EK_SIZE: usize = 1568;

    const CT_SIZE: usize = 1568;

    const DK_SIZE: usize = 3168;

    ghost use Rattle.std.proofs.Common.{refl, inl, inr};
    ghost use Rattle.ml_kem.specs.Parameters.{ml_kem_1024};

    ghost K = { 4 };

    ghost ETA1 = { 2 };

    ghost ETA2 = { 2 };

    ghost DU = { 11 };

    ghost DV = { 5 };

    ghost EK_SIZE = { 1568 };

    ghost CT_SIZE = { 1568 };

    ghost DK_SIZE = { 3168 };

    ghost set = { ml_kem_1024 };

    ghost is_set = { inr (inr refl) };

    ghost constants = { refl };
}
