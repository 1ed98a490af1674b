//! Tests of the rings: polynomials and vectors, the transforms of ML-KEM and ML-DSA, rounding and packing.
#![tactic(auto)]

#[cfg(test)]
mod dsa;
#[cfg(test)]
mod dsa_model;
#[cfg(test)]
mod packing;
#[cfg(test)]
mod polynomials;
#[cfg(test)]
mod rings;
#[cfg(test)]
mod transform;
