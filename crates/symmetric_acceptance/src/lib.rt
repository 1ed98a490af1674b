//! Tests of hash functions and their families, of HKDF and of AES-GCM.
#![tactic(auto)]

#[cfg(test)]
mod derivation;
#[cfg(test)]
mod families;
#[cfg(test)]
mod gcm;
#[cfg(test)]
mod keccak;
#[cfg(test)]
mod standard_family;
#[cfg(test)]
mod test_families;
