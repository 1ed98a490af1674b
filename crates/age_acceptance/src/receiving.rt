//! What no clause says: that each call succeeds with memory, and in which order a phase calls its closures.

pub(super) mod words;

use age_core::plugin::{Connection, Error, PhaseError, UnidirAnswer};
use age_format::format::Stanza;
use age_format::outside::{MemSink, MemSource, StdSink, StdSource};
use std::alloc::{AllocError, Global};
use std::cell::Cell;
use std::test::Fail;

/// More than any text has.
const BUDGET: u64 = 65_536;

/// A connection over a text, whose sink fails at these writes.
pub(super) fn connection_over(
    alloc: Global,
    text: &[u8],
    fail_at: &[u64],
) -> std::result::Result<Connection<MemSource, MemSink>, AllocError> {
    let source = MemSource::new(Vec::from_slice(alloc, text)?, 5, Vec::new(alloc));
    let sink = MemSink::new(alloc, Vec::from_slice(alloc, fail_at)?);
    Ok(Connection::new(alloc, source, sink, BUDGET))
}

/// Whether the sink of a connection got this.
pub(super) fn has_written(connection: Connection<MemSource, MemSink>, want: &[u8]) -> bool {
    let (_, sink) = connection.into_parts();
    sink.bytes() == want
}

/// What a closure of a command does in the tests: it notes the command and the length of the body as
/// two digits, and errs at stanzas without arguments.
fn noted(log: &Cell<u64>, command: u64, stanza: &Stanza) -> std::result::Result<usize, usize> {
    let digits = command
        .wrapping_mul(10)
        .wrapping_add(stanza.body.len() as u64);
    log.set(log.get().wrapping_mul(100).wrapping_add(digits));
    if stanza.args.is_empty() {
        Err(stanza.body.len())
    } else {
        Ok(stanza.body.len())
    }
}

/// What a phase comes to in the tests.
type Phase = std::result::Result<UnidirAnswer<usize, usize, usize, usize, usize>, PhaseError>;

/// A phase of the commands `a`, `b` and two that may be left out, and which closures it called.
fn phase_of(
    connection: &mut Connection<MemSource, MemSink>,
    b: &str,
    c: Option<&str>,
    d: Option<&str>,
) -> (Phase, u64) {
    let log = Cell::new(0u64);
    let phase = connection.unidir_receive(
        "a",
        |stanza: Stanza| noted(&log, 1, &stanza),
        b,
        |stanza: Stanza| noted(&log, 2, &stanza),
        c,
        |stanza: Stanza| noted(&log, 3, &stanza),
        d,
        |stanza: Stanza| noted(&log, 4, &stanza),
    );
    (phase, log.get())
}

/// Whether a phase came to these errors of the first command, and to these values of the third.
fn came_to(phase: &Phase, errors: &[usize], values: &[usize]) -> bool {
    match phase {
        Ok(
            UnidirAnswer {
                a: Err(a),
                c: Some(Ok(c)),
                ..
            },
        ) => a.as_slice() == errors && c.as_slice() == values,
        _ => false,
    }
}

#[test]
fn closures_are_called_in_the_order_of_their_stanzas(
    rt: HostRuntime,
) -> std::result::Result<(), Fail> {
    let text =
        b"-> a x\nYQ\n-> odd\n\n-> b x\n\n-> a\nYmE\n-> a x\n\n-> a\n\n-> done x\n\n-> a\n\n";
    let mut connection = connection_over(rt.alloc(), text, &[])?;
    let (phase, log) = phase_of(&mut connection, "a", Some("b"), Some("done"));
    assert!(rt; log == 11_30_12_10_10, "{log}");
    assert!(rt; came_to(&phase, &[2, 0], &[0]));
    Ok(())
}

/// A text as a phase of the commands `a`, `b` and none takes it: how it ends, and which closures were called.
fn refusal_of(
    alloc: Global,
    text: &[u8],
) -> std::result::Result<(Option<PhaseError>, u64), AllocError> {
    let mut connection = connection_over(alloc, text, &[])?;
    let (phase, log) = phase_of(&mut connection, "b", None, None);
    Ok((phase.err(), log))
}

#[test]
fn a_refusal_comes_behind_the_calls_before_it(rt: HostRuntime) -> std::result::Result<(), Fail> {
    let whole = b"-> c x\n\n-> a x\nYQ\n-> d\n\n-> done\n\n";
    assert!(rt; matches!(refusal_of(rt.alloc(), whole)?, (None, 11)));
    let malformed = b"-> b\nYQ\n-> a\n\n-> a x\nYWE\n-> \n";
    let refusal = refusal_of(rt.alloc(), malformed)?;
    assert!(rt; matches!(refusal, (Some(PhaseError::InvalidData), 21_10_12)));
    let ended = b"-> a x\nYQ\n-> b\n\n-> done\n";
    let refusal = refusal_of(rt.alloc(), ended)?;
    assert!(rt; matches!(refusal, (Some(PhaseError::UnexpectedEof), 11_20)));
    Ok(())
}

/// The tag of the first stanza of a connection over a reader and a writer.
fn first_tag(alloc: Global, text: &[u8]) -> Option<String> {
    let output = StdSink::new(Vec::new(alloc));
    let mut connection = Connection::accept(alloc, StdSource::new(text), output, BUDGET);
    Some(connection.receive().ok()?.tag)
}

#[test]
fn a_connection_over_a_reader_and_a_writer(rt: HostRuntime) -> std::result::Result<(), Fail> {
    let tag = first_tag(rt.alloc(), b"-> a b c\n\n-> test foo\nYmFy\n");
    assert!(rt; tag.ok_or("a stanza")?.as_str() == "a");
    Ok(())
}

/// Whether an error is shown as this text.
fn is_shown_as(alloc: Global, error: &Error, want: &str) -> std::result::Result<bool, Fail> {
    Ok(format!(in alloc; "{error}")?.as_str() == want)
}

#[test]
fn errors_have_their_texts(rt: HostRuntime) -> std::result::Result<(), Fail> {
    for (error, want) in [
        (Error::Fail, "General plugin protocol error"),
        (Error::Unsupported, "Unsupported command"),
    ] {
        assert!(rt; is_shown_as(rt.alloc(), &error, want)?, "{want}");
    }
    Ok(())
}
