//! Linear algebra over polynomials of degree below 256 over a finite field, for lattice-based
//! cryptography.
#![tactic(auto)]

mod butterflies;
mod coefficients;
mod elem;
mod encode;
mod field;
pub mod laws;
mod maybe_box;
mod multiply_ntt;
mod ntt_matrix;
mod ntt_polynomial;
mod ntt_vector;
mod packing;
mod polynomial;
mod product_sums;
mod steps;
mod truncate;
mod vector;

pub use butterflies::Butterflies;
pub use ctutils;
pub use elem::Elem;
pub use encode::Encode;
pub use field::{BaseField, Field, Field8380417};
pub use maybe_box::MaybeBox;
pub use multiply_ntt::MultiplyNtt;
pub use ntt_matrix::NttMatrix;
pub use ntt_polynomial::NttPolynomial;
pub use ntt_vector::NttVector;
pub use packing::{byte_decode, byte_encode};
pub use polynomial::Polynomial;
pub use product_sums::ProductSums;
pub use steps::Steps;
pub use truncate::Truncate;
pub use vector::Vector;
