//! The ring of ML-DSA (FIPS 204): polynomials modulo X^256 + 1 and 8380417, their number-theoretic
//! transform, and the parts that signatures round them to.
#![tactic(auto)]

mod arrays;
mod hints;
pub mod laws;
mod layers;
mod products;
mod rounding;
mod zetas;

pub use arrays::{dsa_ntt, dsa_ntt_inverse};
pub use hints::{make_hint, use_hint};
pub use layers::dsa_ntt_counted;
pub use products::dsa_multiply;
pub use rounding::{Gamma2, decompose, high_bits, low_bits, power2round};
