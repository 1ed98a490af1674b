//! The noise of an ML-KEM decryption (FIPS 203): what stands beside the message when it is decrypted, and
//! exactly when each bit, the message and the shared key come out right. All of it is laws of the
//! definitions; there is nothing to run.
#![tactic(auto)]

pub mod laws;
