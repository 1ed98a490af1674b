//! SHA3-256 and SHAKE128 over one text. What a trial made is used after it, so that the compiler leaves
//! none of the work out.

use crate::sha256;
use crate::stopwatch::{Work, fastest};
use anyhow::Result;
use sha3::{Digest, ExtendableOutput, Sha3_256, Shake128, XofReader};
use std::time::CpuClock;

/// The bytes of the text.
const SIZE: usize = 16384;

/// How many runs make a trial.
const RUNS: u32 = 64;

/// A function of SHA-3.
#[derive(Clone, Copy, Debug)]
enum Function {
    Sha3_256,
    Shake128,
}

// The first 32 bytes of SHAKE128.
fn shake128(text: &[u8]) -> [u8; 32] {
    let mut function = Shake128::new();
    function.update(text);
    let mut out = [0; 32];
    function.finalize_xof().read(&mut out);
    out
}

/// A text that a function is computed of, and that then takes a byte of the answer.
#[derive(Drop)]
struct Hashing {
    function: Function,
    text: Vec<u8>,
}

impl Work for Hashing {
    fn run(&mut self) -> Result<()> {
        let answer = match self.function {
            Function::Sha3_256 => Sha3_256::digest(self.text.as_slice()),
            Function::Shake128 => shake128(self.text.as_slice()),
        };
        if let Some(first) = self.text.first_mut() {
            *first = answer[0];
        }
        Ok(())
    }
}

/// Prints the times of SHA-256 and of both functions.
pub fn print_all(rt: &(impl Print + CpuClock + AllocGlobal)) -> Result<()> {
    sha256::print_one(rt)?;
    for function in [Function::Sha3_256, Function::Shake128] {
        let text = vec![in rt.alloc(); 5; SIZE]?;
        let mut hashing = Hashing { function, text };
        let time = fastest(rt, &mut hashing, RUNS)?;
        println!(rt; "{function:?} {SIZE}: {} MB/s", time.megabytes(SIZE))?;
    }
    Ok(())
}
