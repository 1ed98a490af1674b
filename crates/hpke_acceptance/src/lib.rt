//! Tests of HPKE that cross crates: suites in each mode, the lattice KEM, and KEMs made for tests.
#![tactic(auto)]

#[cfg(test)]
mod exhausted;
#[cfg(test)]
mod key_kem;
#[cfg(test)]
mod lattice_kem;
#[cfg(test)]
mod refusals;
#[cfg(test)]
mod refusing_kem;
#[cfg(test)]
mod rows;
#[cfg(test)]
mod suites;
