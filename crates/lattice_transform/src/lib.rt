//! The number-theoretic transform of ML-KEM, as an isomorphism of rings and by layers of butterflies.
#![tactic(auto)]

mod arrays;
pub mod laws;
mod layers;
mod zetas;

pub use arrays::{ntt, ntt_inverse};
pub use layers::ntt_counted;
