//! How fast AES-GCM, SHA-3, the lattice KEM, the transforms of polynomials and mails are on this machine, each
//! beside SHA-256 in the same run: a tool for the hand.
#![tactic(auto)]

mod ciphers;
mod hashes;
mod lattice;
mod mails;
mod matrix;
mod sha256;
mod stopwatch;
mod transforms;

use anyhow::Result;
use std::alloc::Global;
use std::env::{self, Env};

/// What is printed where no word asks for a measurement.
const USAGE: &str = "bench gcm    AES-GCM and SHA-256, in MB/s
bench sha3   SHA3-256 and SHAKE128 over 16 KiB, in MB/s
bench kem    the lattice KEM and SHA-256 over 8 KiB, in microseconds
bench ntt    the transforms modulo 3329 and 8380417 and products, in nanoseconds
bench mail   mails of some 16 MB, sealed, opened and read, and their parts, in microseconds";

/// The first word after the program's name.
fn word(rt: &(impl Env + AllocGlobal)) -> Result<Option<String>> {
    Ok(env::args(rt)?.nth(1))
}

fn main(rt: HostRuntime) -> Result<()> {
    match word(&rt)?.as_ref().map(|word| word.as_str()) {
        Some("gcm") => ciphers::print_all(&rt),
        Some("sha3") => hashes::print_all(&rt),
        Some("kem") => lattice::print_all(&rt),
        Some("ntt") => transforms::print_all(&rt),
        Some("mail") => mails::print_all(&rt),
        _ => {
            println!(rt; "{USAGE}")?;
            Ok(())
        }
    }
}
