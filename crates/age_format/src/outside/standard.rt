//! The edge over a reader and a writer of the standard library.
//!
//! As a source and a sink they tell nothing. Clauses of their own say what the reader gave and what
//! was handed to the writer, by what the standard library says of those.

ghost use Rattle.std.specs.Prelude.{◌≡◌, ◌≤◌, ◌<◌, [], None, length, take, drop, IfOk, IfSome, IfNone, OnErr, OnOk};
ghost use Rattle.std.specs.Io.KnownBytes.{Consumes, Keeps, Appends, IsAtEnd};
ghost use Rattle.age_format.specs.Outside.{Rose, Gives, Gains, next_count};
ghost use Rattle.age_format.specs.Adapters.{AppendsFront};

use super::{Failed, Sink, Source};
use std::io::{ErrorKind, Read, Write};

/// How often an interrupted call is repeated.
const RETRIES: u32 = 16;

/// The most bytes that are asked of a reader at once.
const PIECE_LEN: usize = 4096;

/// A source over a reader, as standard input.
#[derive(Drop)]
pub struct StdSource<R> {
    reader: R,
    faults: u64,
}

impl<R: Read> StdSource<R> {
    ghost use Rattle.age_format.specs.Adapters.{source_reader, source_faults};

    /// A source with a count of 0. It takes no memory.
    pub fn new(reader: R) -> StdSource<R>
        ensures reader { source_reader result ≡ reader }
        ensures faults { source_faults result ≡ 0 }
    {
        StdSource { reader, faults: 0 }
    }
}

impl<R: Read> Source for StdSource<R> {
    ghost use Rattle.age_format.specs.Adapters.{source_reader, source_faults};

    ghost left = { λ _. None };

    ghost faults = { source_faults };

    /// Reads once, 4096 bytes at most; an interrupted call is repeated 16 times at most, and is then
    /// a fault.
    fn read(&mut self, buffer: &mut [u8]) -> Result<usize, Failed>
        // The bytes are those that the reader lost, and there are none only at its end.
        ensures given { IfOk result (λ n. Consumes (R.remaining (source_reader self.old)) (R.remaining (source_reader self.new)) (take n buffer.new)) }
        ensures ended { IfOk result (λ n. n ≡ 0 → 0 < length buffer.old → IsAtEnd (R.remaining (source_reader self.new))) }
        ensures kept { OnErr result (Keeps (R.remaining (source_reader self.old)) (R.remaining (source_reader self.new))) }

        // The count rises by one at a failure, up to its last value, and never else.
        ensures counted { OnErr result (source_faults self.new ≡ next_count (source_faults self.old)) }
        ensures no_fault { OnOk result (source_faults self.new ≡ source_faults self.old) }

        ensures count { IfOk result (λ n. n ≤ length buffer.old) }
        ensures behind { IfOk result (λ n. drop n buffer.new ≡ drop n buffer.old) }
        ensures failed { OnErr result (Rose (source_faults self.old) (source_faults self.new)) }
        ensures untouched { OnErr result (buffer.new ≡ buffer.old) }
        ensures faults { source_faults self.old ≤ source_faults self.new }
    {
        // No clause of a reader says what it leaves behind the bytes that it gave, so it gets a buffer
        // of its own.
        let mut piece = [0; PIECE_LEN];
        let most = buffer.len().min(PIECE_LEN);
        if let Some(n) = given(&mut self.reader, &mut piece[..most]) {
            buffer[..n].copy_from_slice(&piece[..n]);
            return Ok(n);
        }
        self.faults = self.faults.saturating_add(1);
        Err(Failed)
    }
}

/// How many bytes one read gave, or none where it failed or was interrupted too often.
fn given<R: Read>(reader: &mut R, buffer: &mut [u8]) -> Option<usize>
    ensures count { IfSome result (λ n. n ≤ length buffer.old) }
    ensures given { IfSome result (λ n. Consumes (R.remaining reader.old) (R.remaining reader.new) (take n buffer.new)) }
    ensures ended { IfSome result (λ n. n ≡ 0 → 0 < length buffer.old → IsAtEnd (R.remaining reader.new)) }
    ensures kept { IfNone result (Keeps (R.remaining reader.old) (R.remaining reader.new)) }
{
    for _ in 0..=RETRIES {
        match reader.read(buffer) {
            Ok(n) => return Some(n),
            Err(e) if e.kind() == ErrorKind::Interrupted => {}
            Err(_) => return None,
        }
    }
    None
}

/// A sink over a writer, as standard output.
#[derive(Drop)]
pub struct StdSink<W> {
    writer: W,
    faults: u64,
}

impl<W: Write> StdSink<W> {
    ghost use Rattle.age_format.specs.Adapters.{sink_writer, sink_faults};

    /// A sink with a count of 0. It takes no memory.
    pub fn new(writer: W) -> StdSink<W>
        ensures writer { sink_writer result ≡ writer }
        ensures faults { sink_faults result ≡ 0 }
    {
        StdSink { writer, faults: 0 }
    }
}

impl<W: Write> Sink for StdSink<W> {
    ghost use Rattle.age_format.specs.Adapters.{sink_writer, sink_faults};

    ghost got = { λ _. None };

    ghost faults = { sink_faults };

    ghost plan = { λ _. [] };

    /// Writes once and flushes what was taken; an interrupted call is repeated 16 times at most,
    /// and is then a fault. So are a write that takes nothing of a piece that isn't empty, and a
    /// flush that fails.
    fn write(&mut self, piece: &[u8]) -> Result<usize, Failed>
        // The bytes that were taken were handed to the writer, once; at a failure a front of the piece was.
        ensures handed { IfOk result (λ n. Appends (W.contents (sink_writer self.old)) (W.contents (sink_writer self.new)) (take n piece.now)) }
        ensures part { OnErr result (AppendsFront (W.contents (sink_writer self.old)) (W.contents (sink_writer self.new)) piece.now) }

        // The count rises by one at a failure, up to its last value, and never else.
        ensures counted { OnErr result (sink_faults self.new ≡ next_count (sink_faults self.old)) }
        ensures no_fault { OnOk result (sink_faults self.new ≡ sink_faults self.old) }

        ensures count { IfOk result (λ n. n ≤ length piece.now) }
        ensures some { IfOk result (λ n. 0 < length piece.now → 0 < n) }
        ensures failed { OnErr result (Rose (sink_faults self.old) (sink_faults self.new)) }
        ensures faults { sink_faults self.old ≤ sink_faults self.new }
    {
        if piece.is_empty() {
            return Ok(0);
        }
        if let Some(n) = written(&mut self.writer, piece) {
            if n > 0 && is_flushed(&mut self.writer) {
                return Ok(n);
            }
        }
        self.faults = self.faults.saturating_add(1);
        Err(Failed)
    }
}

/// How many bytes one write took, or none where it failed or was interrupted too often.
fn written<W: Write>(writer: &mut W, piece: &[u8]) -> Option<usize>
    ensures count { IfSome result (λ n. n ≤ length piece.now) }
    ensures handed { IfSome result (λ n. Appends (W.contents writer.old) (W.contents writer.new) (take n piece.now)) }
    ensures kept { IfNone result (Keeps (W.contents writer.old) (W.contents writer.new)) }
{
    for _ in 0..=RETRIES {
        match writer.write(piece) {
            Ok(n) => return Some(n),
            Err(e) if e.kind() == ErrorKind::Interrupted => {}
            Err(_) => return None,
        }
    }
    None
}

/// Whether a flush succeeded.
fn is_flushed<W: Write>(writer: &mut W) -> bool
    ensures { Keeps (W.contents writer.old) (W.contents writer.new) }
{
    for _ in 0..=RETRIES {
        match writer.flush() {
            Ok(()) => return true,
            Err(e) if e.kind() == ErrorKind::Interrupted => {}
            Err(_) => return false,
        }
    }
    false
}
