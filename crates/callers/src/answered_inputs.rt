//! A caller of `mail_commands`.

ghost use Rattle.std.specs.Prelude.{map};
ghost use Rattle.std.specs.String.{string_bytes};
ghost use Rattle.kem_hash.specs.Sha2.{sha2_family};
ghost use Rattle.mail_commands.specs.Due.{Due, IsAnswer};

use age_core::outside::{CleanSource, MemSink};
use kem_hash::Sha2Hash;
use mail_commands::mail_main;
use std::alloc::Global;

/// Runs the program's words over an input in memory: its status, and a sink with all that it writes. A status
/// that is an answer, 0, 2 or 3, comes with what these words and this input are due.
pub fn answered(alloc: Global, words: &[String], input: Vec<u8>) -> (u8, MemSink)
    ensures { IsAnswer result.0 → Due sha2_family (map string_bytes words.now) input.items result.0 result.1.got }
{
    let mut src = CleanSource::new(input);
    let mut out = MemSink::new(alloc, Vec::new(alloc));
    let status = mail_main::<Sha2Hash, CleanSource, MemSink>(alloc, words, &mut src, &mut out);
    (status, out)
}
