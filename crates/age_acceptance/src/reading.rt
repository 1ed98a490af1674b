//! What no clause says: that each call succeeds with memory, and that the definitions mean what the format
//! says.

ghost use Rattle.std.specs.Prelude.{◌≤◌};

use age_format::outside::MemSource;
use age_format::{PhaseError, StanzaReader};
use std::alloc::{AllocError, Global};
use std::test::Fail;

/// More than any text has.
const BUDGET: u64 = 65_536;

/// The sizes of pieces in which texts come.
const PIECES: [usize; 4] = [1, 7, 64, 4096];

/// A source of a text, with a part of it repeated, in pieces.
fn source_of(
    alloc: Global,
    front: &[u8],
    part: &[u8],
    count: usize,
    piece: usize,
) -> Result<MemSource, AllocError>
    requires { 1 ≤ piece }
{
    let mut text = Vec::from_slice(alloc, front)?;
    for _ in 0..count {
        text.extend_from_slice(part)?;
    }
    Ok(MemSource::new(text, piece, Vec::new(alloc)))
}

/// How the next stanza of a source is refused, unless there is one.
fn refusal(reader: &mut StanzaReader, source: &mut MemSource) -> Option<PhaseError> {
    reader.receive_from(source).err()
}

/// Texts that no stanza begins.
const MALFORMED: [&[u8]; 6] = [
    b"-> a  b\n",
    b"-> a\nAB\n",
    b"-> a\nAAAAAAAAAAAAAAAAAAAAAAAAAAAAAAAAAAAAAAAAAAAAAAAAAAAAAAAAAAAAAAAAA",
    b"-> a\r\n",
    b"-> a\x80",
    b"-> x\n/\n",
];

#[test]
fn malformed_texts_are_refused_again_and_again(rt: HostRuntime) -> Result<(), Fail> {
    for text in MALFORMED {
        let mut source = source_of(rt.alloc(), text, b"", 0, 1)?;
        let mut reader = StanzaReader::new(rt.alloc(), BUDGET);
        for _ in 0..2 {
            let error = refusal(&mut reader, &mut source);
            assert!(rt; matches!(error, Some(PhaseError::InvalidData)));
        }
    }
    Ok(())
}

/// Texts that begin a stanza beyond the budget.
const LONG: [(&[u8], &[u8], usize, u64); 3] = [
    (b"-> ", b"x", 100_000, BUDGET),
    (
        b"-> x\n",
        b"AAAAAAAAAAAAAAAAAAAAAAAAAAAAAAAAAAAAAAAAAAAAAAAAAAAAAAAAAAAAAAAA\n",
        2000,
        BUDGET,
    ),
    (b"-> done\n\n", b"", 0, 8),
];

#[test]
fn a_stanza_beyond_the_budget_is_refused(rt: HostRuntime) -> Result<(), Fail> {
    for (front, part, count, budget) in LONG {
        let mut source = source_of(rt.alloc(), front, part, count, 4096)?;
        let mut reader = StanzaReader::new(rt.alloc(), budget);
        let error = refusal(&mut reader, &mut source);
        assert!(rt; matches!(error, Some(PhaseError::TooMuch)));
    }
    Ok(())
}

/// How often a text of so many bytes is read up to its end, by a source that gives all that is asked for.
const READS: [(usize, u64); 4] = [(4096, 2), (4097, 3), (8192, 3), (8193, 4)];

#[test]
fn at_most_4096_bytes_are_read_at_once(rt: HostRuntime) -> Result<(), Fail> {
    for (len, want) in READS {
        let mut source = source_of(
            rt.alloc(),
            b"-> ",
            b"x",
            len.saturating_sub(3),
            BUDGET as usize,
        )?;
        let mut reader = StanzaReader::new(rt.alloc(), BUDGET);
        let error = refusal(&mut reader, &mut source);
        assert!(rt; matches!(error, Some(PhaseError::UnexpectedEof)));
        assert!(rt; source.reads() == want, "{len}");
    }
    Ok(())
}

/// A text of stanzas: `done` is the third, and what follows it is no stanza.
const STANZAS: &[u8] = b"-> a b c\n\n-> test foo\nYmFy\n-> done\n\n-> x\n/\n";

/// Whether the next stanza of a source has this tag, so many arguments and this body.
fn gives(
    reader: &mut StanzaReader,
    source: &mut MemSource,
    tag: &str,
    args: usize,
    body: &[u8],
) -> bool {
    match reader.receive_from(source) {
        Ok(stanza) => {
            stanza.has_tag(tag) && stanza.args.len() == args && stanza.body.as_slice() == body
        }
        Err(_) => false,
    }
}

#[test]
fn stanzas_come_in_any_pieces(rt: HostRuntime) -> Result<(), Fail> {
    for piece in PIECES {
        let mut source = source_of(rt.alloc(), STANZAS, b"", 0, piece)?;
        let mut reader = StanzaReader::new(rt.alloc(), BUDGET);
        assert!(rt; gives(&mut reader, &mut source, "a", 2, b""));
        assert!(rt; gives(&mut reader, &mut source, "test", 1, b"bar"));
        assert!(rt; gives(&mut reader, &mut source, "done", 0, b""));
        let next = refusal(&mut reader, &mut source);
        assert!(rt; matches!(next, Some(PhaseError::InvalidData)));
    }
    Ok(())
}

#[test]
fn a_source_that_failed_goes_on(rt: HostRuntime) -> Result<(), Fail> {
    let bytes = Vec::from_slice(rt.alloc(), STANZAS)?;
    let fail_at = [0, 2, 3].to_vec(rt.alloc())?;
    let mut source = MemSource::new(bytes, 7, fail_at);
    let mut reader = StanzaReader::new(rt.alloc(), BUDGET);
    for _ in 0..3 {
        let error = refusal(&mut reader, &mut source);
        assert!(rt; matches!(error, Some(PhaseError::ReadFault)));
    }
    for _ in 0..3 {
        assert!(rt; refusal(&mut reader, &mut source).is_none());
    }
    Ok(())
}
