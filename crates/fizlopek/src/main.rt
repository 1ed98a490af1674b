//! The program: it collects its words and runs over the standard streams.
#![tactic(auto)]

use age_format::outside::{StdSink, StdSource};
use kem_hash::Sha2Hash;
use mail_commands::mail_main;
use std::alloc::Global;
use std::env::{self, Env};
use std::io::ErrorKind;
use std::process::ExitCode;

/// The status where memory for the words is refused.
const NO_MEMORY: u8 = 6;

/// The status where a word is no UTF-8.
const NOT_TEXT: u8 = 7;

/// The words after the program's name, or the status that the program ends with for want of them.
fn words(rt: &(impl Env + AllocGlobal)) -> Result<Vec<String>, u8> {
    match env::args(rt) {
        Ok(args) => args.skip(1).collect(rt.alloc()).map_err(|_| NO_MEMORY),
        Err(e) if e.kind() == ErrorKind::InvalidData => Err(NOT_TEXT),
        Err(_) => Err(NO_MEMORY),
    }
}

fn main(rt: HostRuntime) -> ExitCode {
    let words = match words(&rt) {
        Ok(words) => words,
        Err(status) => return ExitCode::from(status),
    };
    let mut src = StdSource::new(rt.stdin());
    let mut out = StdSink::new(rt.stdout());
    let status = mail_main::<Sha2Hash, _, _>(rt.alloc(), &words, &mut src, &mut out);
    ExitCode::from(status)
}
