//! Sources and sinks of bytes: what they mean, and those over memory and over the standard streams.

mod memory;
mod standard;

ghost use Rattle.std.specs.Prelude.{◌≡◌, ◌≤◌, ◌<◌, ℕ, List, length, take, drop, Option, IfOk, OnErr, OnOk};
ghost use Rattle.age_format.specs.Outside.{Rose, Gives, Gains, Writes, WritesWhole};

pub use memory::{CleanSource, MemSink, MemSource, NoSink};
pub use standard::{StdSink, StdSource};
use thiserror::Error;

/// The one answer of a call of the outside that failed.
#[derive(Clone, Copy, Debug, PartialEq, Eq, Error)]
#[error("a read or a write failed")]
pub struct Failed;

/// Where bytes come from.
pub trait Source {
    /// The bytes that are left, where the source tells them.
    ghost left: { Self → Option (List ℕ) };

    /// How many faults there were. The count never falls, and stands still at 2 ^ 64 - 1.
    ghost faults: { Self → ℕ };

    /// Reads bytes to the front of the buffer, and answers their number.
    ///
    /// None of a buffer that isn't empty means that no bytes are left. `Failed` comes only where
    /// the count of faults rose in the call, or stands at its last value; it takes nothing. What
    /// stands in the buffer behind the bytes that were read is left as it was.
    fn read(&mut self, buffer: &mut [u8]) -> Result<usize, Failed>
        ensures count { IfOk result (λ n. n ≤ length buffer.old) }
        ensures told { IfOk result (λ n. Gives (left self.old) (left self.new) n buffer.new) }
        ensures behind { IfOk result (λ n. drop n buffer.new ≡ drop n buffer.old) }
        ensures no_fault { OnOk result (faults self.new ≡ faults self.old) }

        ensures failed { OnErr result (Rose (faults self.old) (faults self.new)) }
        ensures untaken { OnErr result (left self.new ≡ left self.old) }
        ensures untouched { OnErr result (buffer.new ≡ buffer.old) }
        ensures faults { faults self.old ≤ faults self.new };
}

/// Where bytes go.
pub trait Sink {
    /// The bytes that the sink got, where it tells them.
    ghost got: { Self → Option (List ℕ) };

    /// How many faults there were. The count never falls, and stands still at 2 ^ 64 - 1.
    ghost faults: { Self → ℕ };

    /// Which calls of `write` are to fail, by their number from 0. No call changes it.
    ghost plan: { Self → List ℕ };

    /// Takes bytes from the front of the piece, and answers their number: at least one of a piece
    /// that isn't empty.
    ///
    /// `Failed` comes only where the count of faults rose in the call, or stands at its last value;
    /// the sink then got nothing.
    fn write(&mut self, piece: &[u8]) -> Result<usize, Failed>
        ensures count { IfOk result (λ n. n ≤ length piece.now) }
        ensures some { IfOk result (λ n. 0 < length piece.now → 0 < n) }
        ensures told { IfOk result (λ n. Gains (got self.old) (got self.new) (take n piece.now)) }
        ensures no_fault { OnOk result (faults self.new ≡ faults self.old) }

        ensures failed { OnErr result (Rose (faults self.old) (faults self.new)) }
        ensures untaken { OnErr result (got self.new ≡ got self.old) }
        ensures plan { plan self.new ≡ plan self.old }
        ensures faults { faults self.old ≤ faults self.new };
}

/// Writes all of the bytes, and fails exactly where it didn't: at `Failed` a part of them, from their front,
/// was written, and not the whole.
pub fn write_whole<W: Sink>(sink: &mut W, bytes: &[u8]) -> Result<(), Failed>
    ensures { WritesWhole W.got W.faults W.plan sink.old sink.new result bytes.now }
{
    let mut rest = bytes;
    while !rest.is_empty() {
        let n = sink.write(rest)?;
        rest = &rest[n..];
    }
    Ok(())
}

/// Writes all of the bytes, as [`write_whole`] does, and says less of a failure: at `Failed` a part of them,
/// from their front, was written.
pub fn write_all<W: Sink>(sink: &mut W, bytes: &[u8]) -> Result<(), Failed>
    ensures { Writes W.got W.faults W.plan sink.old sink.new result bytes.now }
{
    write_whole(sink, bytes)
}
