//! A source with a copy.

ghost use Rattle.std.specs.Prelude.{◌≡◌, ◌≤◌, length, take, drop, IfOk, OnErr, OnOk};
ghost use Rattle.age_format.specs.Outside.{Rose, Gives};
ghost use Rattle.age_debug.specs.Reader.{source_of, copy_of};
ghost use Rattle.age_debug.specs.Copies.{Copies};

use crate::copy::copy_to;
use age_format::outside::{Failed, Sink, Source};

/// A source, and, where the copy is on, a sink that gets a copy of the bytes that are read.
///
/// It is a source as the inner one is: the answers are the inner source's, and so are the bytes that are left
/// and the count of faults. Where the copy's sink fails, the copying of that call ends, and no answer changes.
#[derive(Drop)]
pub enum DebugReader<R: Source, T: Sink> {
    /// The source alone.
    Off(R),
    /// The source, and the copy's sink.
    On(R, T),
}

impl<R: Source, T: Sink> Source for DebugReader<R, T> {
    ghost left = { λ reader. R.left (source_of reader) };

    ghost faults = { λ reader. R.faults (source_of reader) };

    fn read(&mut self, buffer: &mut [u8]) -> Result<usize, Failed>
        // The copy gets the bytes that were read.
        ensures copy { IfOk result (λ n. Copies T.got T.faults T.plan (copy_of self.old) (copy_of self.new) (take n buffer.new)) }
        ensures no_copy { OnErr result (copy_of self.new ≡ copy_of self.old) }

        ensures count { IfOk result (λ n. n ≤ length buffer.old) }
        ensures told { IfOk result (λ n. Gives (R.left (source_of self.old)) (R.left (source_of self.new)) n buffer.new) }
        ensures behind { IfOk result (λ n. drop n buffer.new ≡ drop n buffer.old) }
        ensures no_fault { OnOk result (R.faults (source_of self.new) ≡ R.faults (source_of self.old)) }
        ensures failed { OnErr result (Rose (R.faults (source_of self.old)) (R.faults (source_of self.new))) }
        ensures untaken { OnErr result (R.left (source_of self.new) ≡ R.left (source_of self.old)) }
        ensures untouched { OnErr result (buffer.new ≡ buffer.old) }
        ensures faults { R.faults (source_of self.old) ≤ R.faults (source_of self.new) }
    {
        match self {
            DebugReader::Off(source) => source.read(buffer),
            DebugReader::On(source, copy) => {
                let n = source.read(buffer)?;
                copy_to(copy, &buffer[..n]);
                Ok(n)
            }
        }
    }
}
