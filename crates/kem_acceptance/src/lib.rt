//! Tests of the lattice KEM, of its keys in DER and of its noise.
#![tactic(auto)]

#[cfg(test)]
mod der;
#[cfg(test)]
mod kem;
#[cfg(test)]
mod noise;
