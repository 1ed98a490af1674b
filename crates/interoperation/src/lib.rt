//! Tests against what other implementations made: the lattice KEM, HPKE and mails over the family of hash
//! functions that FIPS 203 names, Bech32, and the primitives of age.
#![tactic(auto)]

#[cfg(test)]
mod bech32;
#[cfg(test)]
mod keys;
#[cfg(test)]
mod mails;
#[cfg(test)]
mod messages;
#[cfg(test)]
mod primitives;
