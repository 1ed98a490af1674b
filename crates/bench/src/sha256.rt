//! SHA-256, the measure beside which the other times stand.

use crate::stopwatch::{Work, fastest};
use anyhow::Result;
use sha2::{Digest, Sha256};
use std::time::CpuClock;

/// The bytes of a text, and how many runs make a trial, where one length is enough.
const SIZE: usize = 8192;

const RUNS: u32 = 256;

/// A text that is hashed, and then takes a byte of its digest.
#[derive(Drop)]
struct Hashing {
    text: Vec<u8>,
}

impl Work for Hashing {
    fn run(&mut self) -> Result<()> {
        let digest = Sha256::digest(self.text.as_slice());
        if let Some(first) = self.text.first_mut() {
            *first = digest[0];
        }
        Ok(())
    }
}

/// Prints the time of a text of this many bytes.
pub fn print_size(
    rt: &(impl Print + CpuClock + AllocGlobal),
    size: usize,
    runs: u32,
) -> Result<()> {
    let text = vec![in rt.alloc(); 5; size]?;
    let mut hashing = Hashing { text };
    let time = fastest(rt, &mut hashing, runs)?;
    println!(rt;
        "SHA-256 {size}: {} us, {} MB/s",
        time.micros(),
        time.megabytes(size)
    )?;
    Ok(())
}

/// Prints the time of a text of 8192 bytes.
pub fn print_one(rt: &(impl Print + CpuClock + AllocGlobal)) -> Result<()> {
    print_size(rt, SIZE, RUNS)
}
