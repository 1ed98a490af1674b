//! A sink with a copy.

ghost use Rattle.std.specs.Prelude.{◌≡◌, ◌<◌, ◌≤◌, length, take, IfOk, OnErr, OnOk};
ghost use Rattle.age_format.specs.Outside.{Rose, Gains};
ghost use Rattle.age_debug.specs.Writer.{sink_of, copy_of};
ghost use Rattle.age_debug.specs.Copies.{Copies};

use crate::copy::copy_to;
use age_format::outside::{Failed, Sink};

/// A sink, and, where the copy is on, another sink that gets a copy of the bytes that the first took.
///
/// It is a sink as the inner one is: the answers are the inner sink's, and so are the bytes that it got, the
/// count of faults and the plan. Where the copy's sink fails, the copying of that call ends, and no answer
/// changes.
#[derive(Drop)]
pub enum DebugWriter<W: Sink, T: Sink> {
    /// The sink alone.
    Off(W),
    /// The sink, and the copy's sink.
    On(W, T),
}

impl<W: Sink, T: Sink> Sink for DebugWriter<W, T> {
    ghost got = { λ writer. W.got (sink_of writer) };

    ghost faults = { λ writer. W.faults (sink_of writer) };

    ghost plan = { λ writer. W.plan (sink_of writer) };

    fn write(&mut self, piece: &[u8]) -> Result<usize, Failed>
        // The copy gets the bytes that were taken.
        ensures copy { IfOk result (λ n. Copies T.got T.faults T.plan (copy_of self.old) (copy_of self.new) (take n piece.now)) }
        ensures no_copy { OnErr result (copy_of self.new ≡ copy_of self.old) }

        ensures count { IfOk result (λ n. n ≤ length piece.now) }
        ensures some { IfOk result (λ n. 0 < length piece.now → 0 < n) }
        ensures told { IfOk result (λ n. Gains (W.got (sink_of self.old)) (W.got (sink_of self.new)) (take n piece.now)) }
        ensures no_fault { OnOk result (W.faults (sink_of self.new) ≡ W.faults (sink_of self.old)) }
        ensures failed { OnErr result (Rose (W.faults (sink_of self.old)) (W.faults (sink_of self.new))) }
        ensures untaken { OnErr result (W.got (sink_of self.new) ≡ W.got (sink_of self.old)) }
        ensures plan { W.plan (sink_of self.new) ≡ W.plan (sink_of self.old) }
        ensures faults { W.faults (sink_of self.old) ≤ W.faults (sink_of self.new) }
    {
        match self {
            DebugWriter::Off(sink) => sink.write(piece),
            DebugWriter::On(sink, copy) => {
                let n = sink.write(piece)?;
                copy_to(copy, &piece[..n]);
                Ok(n)
            }
        }
    }
}
