//! What no clause says of the adapters: how often a call is repeated and when it is a fault, how much is
//! asked for at once, and that what was taken is flushed. The reader and the writer count their calls.

ghost use Rattle.std.specs.Prelude.{◌≤◌, IfOk};

use age_format::outside::{Failed, Sink, Source, StdSink, StdSource};
use std::io;
use std::io::{ErrorKind, Read, Write};
use std::test::Fail;

/// How a call of a reader or a writer goes.
#[derive(Clone, Copy, PartialEq, Eq)]
enum Call {
    /// It moves so many bytes at most.
    Moves(usize),
    /// It fails.
    Breaks,
}

impl Call {
    /// How many bytes it moves at most, unless it fails.
    fn most(self) -> Option<usize> {
        match self {
            Call::Moves(most) => Some(most),
            Call::Breaks => None,
        }
    }
}

/// The calls of a kind: how many come first that are interrupted, how the others go, and how many there were.
#[derive(Drop)]
struct Calls {
    interruptions: u32,
    call: Call,
    count: u32,
}

impl Calls {
    fn new(interruptions: u32, call: Call) -> Calls {
        Calls {
            interruptions,
            call,
            count: 0,
        }
    }

    /// One call, with room for so many bytes.
    fn next(&mut self, room: usize) -> io::Result<usize>
        ensures { IfOk result (λ n. n ≤ room) }
    {
        let number = self.count;
        self.count = number.wrapping_add(1);
        if number < self.interruptions {
            return Err(io::Error::from(ErrorKind::Interrupted));
        }
        match self.call {
            Call::Breaks => Err(io::Error::from(ErrorKind::BrokenPipe)),
            Call::Moves(most) => Ok(room.min(most)),
        }
    }
}

/// A reader of zeros.
#[derive(Drop)]
struct Reader {
    reads: Calls,
}

impl Read for Reader {
    fn read(&mut self, buffer: &mut [u8]) -> io::Result<usize> {
        self.reads.next(buffer.len())
    }
}

/// A writer that counts what it takes.
#[derive(Drop)]
struct Writer {
    writes: Calls,
    flushes: Calls,
}

impl Write for Writer {
    fn write(&mut self, piece: &[u8]) -> io::Result<usize> {
        self.writes.next(piece.len())
    }

    fn flush(&mut self) -> io::Result<()> {
        self.flushes.next(0)?;
        Ok(())
    }
}

/// Interruptions, how the call behind them goes, what a read of 5000 bytes answers, and how many calls
/// of the reader there were.
type ReadCase = (u32, Call, Result<usize, Failed>, u32);

const READS: [ReadCase; 7] = [
    (0, Call::Moves(2), Ok(2), 1),
    (0, Call::Moves(9000), Ok(4096), 1),
    (0, Call::Moves(0), Ok(0), 1),
    (16, Call::Moves(9), Ok(9), 17),
    (17, Call::Moves(9), Err(Failed), 17),
    (0, Call::Breaks, Err(Failed), 1),
    (3, Call::Breaks, Err(Failed), 4),
];

/// Whether a read goes as in this case.
fn is_read(case: ReadCase) -> bool {
    let (interruptions, call, want, count) = case;
    let mut reader = Reader {
        reads: Calls::new(interruptions, call),
    };
    let mut source = StdSource::new(&mut reader);
    let mut buffer = [0u8; 5000];
    source.read(&mut buffer) == want && reader.reads.count == count
}

#[test]
fn a_read_is_repeated_sixteen_times(rt: HostRuntime) -> Result<(), Fail> {
    for case in READS {
        assert!(rt; is_read(case), "{} {:?}", case.0, case.1.most());
    }
    Ok(())
}

/// Interruptions of the write, how the call behind them goes, the same of the flush, what a write of three
/// bytes answers, and how many calls of both kinds there were.
type WriteCase = (u32, Call, u32, Call, Result<usize, Failed>, u32, u32);

const WRITES: [WriteCase; 9] = [
    (0, Call::Moves(2), 0, Call::Moves(0), Ok(2), 1, 1),
    (16, Call::Moves(9), 16, Call::Moves(0), Ok(3), 17, 17),
    (17, Call::Moves(9), 0, Call::Moves(0), Err(Failed), 17, 0),
    (3, Call::Breaks, 0, Call::Moves(0), Err(Failed), 4, 0),
    (0, Call::Breaks, 0, Call::Moves(0), Err(Failed), 1, 0),
    (0, Call::Moves(0), 0, Call::Moves(0), Err(Failed), 1, 0),
    (0, Call::Moves(9), 17, Call::Moves(0), Err(Failed), 1, 17),
    (0, Call::Moves(9), 3, Call::Breaks, Err(Failed), 1, 4),
    (0, Call::Moves(9), 0, Call::Breaks, Err(Failed), 1, 1),
];

/// Whether a write goes as in this case, and one of nothing before it makes no calls.
fn is_written(case: WriteCase) -> bool {
    let (interruptions, call, flush_interruptions, flush, want, writes, flushes) = case;
    let mut writer = Writer {
        writes: Calls::new(interruptions, call),
        flushes: Calls::new(flush_interruptions, flush),
    };
    let mut sink = StdSink::new(&mut writer);
    let is_nothing = sink.write(b"") == Ok(0);
    let is_same = sink.write(b"abc") == want;
    is_nothing & is_same && writer.writes.count == writes && writer.flushes.count == flushes
}

#[test]
fn a_write_is_repeated_and_flushed(rt: HostRuntime) -> Result<(), Fail> {
    for case in WRITES {
        assert!(rt; is_written(case), "{} {}", case.0, case.2);
    }
    Ok(())
}
