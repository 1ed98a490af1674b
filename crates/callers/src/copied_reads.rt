//! A caller of `age_debug`.

ghost use Rattle.std.specs.Prelude.{◌≡◌, Some, IfOk, OnErr, take};
ghost use Rattle.age_format.specs.Outside.{Gives};
ghost use Rattle.age_debug.specs.Copies.{Copies};
ghost use Rattle.age_debug.specs.Reader.{copy_of, source_of};

use age_debug::DebugReader;
use age_format::outside::{Failed, Sink, Source};

/// Reads once, and writes a copy of what was read to a log, whose failures change no answer.
pub fn read_with_log<R: Source, T: Sink>(
    source: R,
    log: T,
    buffer: &mut [u8],
) -> (DebugReader<R, T>, Result<usize, Failed>)
    ensures read { IfOk result.1 (λ n. Gives (R.left source) (R.left (source_of result.0)) n buffer.new) }
    ensures copied { IfOk result.1 (λ n. Copies T.got T.faults T.plan (Some log) (copy_of result.0) (take n buffer.new)) }
    ensures failed { OnErr result.1 (copy_of result.0 ≡ Some log) }
{
    let mut reader = DebugReader::On(source, log);
    let answer = reader.read(buffer);
    (reader, answer)
}
