//! Texts of stanzas that are cut, malformed or too long, over connections.

use crate::runs::joined;
use crate::texts::ZERO_MAIL;
use age_core::format::Stanza;
use age_core::outside::{CleanSource, MemSink};
use age_core::plugin::{Connection, PhaseError, UnidirAnswer};
use std::alloc::{AllocError, Global};
use std::test::Fail;

/// A connection of a text, and of a sink that gets nothing.
fn connection_of(alloc: Global, text: Vec<u8>, budget: u64) -> Connection<CleanSource, MemSink> {
    let sink = MemSink::new(alloc, Vec::new(alloc));
    Connection::new(alloc, CleanSource::new(text), sink, budget)
}

/// What a phase of the bodies of stanzas comes to.
type Phase = Result<UnidirAnswer<usize, usize, usize, usize, usize>, PhaseError>;

/// A phase of the commands `kem` and `msg`, whose closures give the lengths of their bodies.
fn phase_of(connection: &mut Connection<CleanSource, MemSink>) -> Phase {
    connection.unidir_receive(
        "kem",
        |stanza: Stanza| Ok(stanza.body.len()),
        "msg",
        |stanza: Stanza| Ok(stanza.body.len()),
        None,
        |stanza: Stanza| Ok(stanza.body.len()),
        None,
        |stanza: Stanza| Ok(stanza.body.len()),
    )
}

/// Whether a phase of a text ends before `done` does.
fn ends_too_early(alloc: Global, text: &[u8]) -> Result<bool, AllocError> {
    let mut connection = connection_of(alloc, Vec::from_slice(alloc, text)?, 1490);
    Ok(matches!(phase_of(&mut connection), Err(PhaseError::UnexpectedEof)))
}

/// Whether a phase of a text has one `kem`, whose body is of 1088 bytes.
fn has_one_key(alloc: Global, text: Vec<u8>) -> Result<bool, Fail> {
    let mut connection = connection_of(alloc, text, 1490);
    let phase = phase_of(&mut connection).ok().ok_or("a phase")?;
    let keys = phase.a.ok().ok_or("lengths")?;
    Ok(keys.as_slice() == [1088].as_slice())
}

/// Each front of a mail that isn't the whole ends before `done` does.
#[test]
fn a_cut_mail_ends_too_early(rt: HostRuntime) -> Result<(), Fail> {
    let mail = joined(rt.alloc(), ZERO_MAIL)?;
    assert!(rt; mail.len() == 1490);
    for n in 0..mail.len() {
        assert!(rt; ends_too_early(rt.alloc(), &mail[..n])?, "{n}");
    }
    assert!(rt; has_one_key(rt.alloc(), mail)?);
    Ok(())
}

/// Texts that no stanza begins, each with a part that is repeated and how often.
const MALFORMED: &[(&[u8], &[u8], usize)] = &[
    (b"-> \n", b"", 0),
    (b"-> a  b\n", b"", 0),
    (b"-> a\nAB\n", b"", 0),
    (b"-> a\nA=\n", b"", 0),
    (b"-> a\n", b"A", 65),
    (b"-> a\r\n", b"", 0),
    (b"-> a\x80\n", b"", 0),
];

/// Texts that begin a stanza which is longer than the budget: a tag, and a body.
const TOO_LONG: &[(&[u8], &[u8], usize)] = &[
    (b"-> ", b"x", 100_000),
    (
        b"-> x\n",
        b"AAAAAAAAAAAAAAAAAAAAAAAAAAAAAAAAAAAAAAAAAAAAAAAAAAAAAAAAAAAAAAAA\n",
        2000,
    ),
];

/// A connection of a text that ends with so many of a part.
fn connection_with(
    alloc: Global,
    front: &[u8],
    part: &[u8],
    count: usize,
) -> Result<Connection<CleanSource, MemSink>, AllocError> {
    let mut text = Vec::from_slice(alloc, front)?;
    for _ in 0..count {
        text.extend_from_slice(part)?;
    }
    Ok(connection_of(alloc, text, 65536))
}

/// Whether nothing is received of a connection, since its text is malformed.
fn is_malformed(connection: &mut Connection<CleanSource, MemSink>) -> bool {
    matches!(connection.receive(), Err(PhaseError::InvalidData))
}

/// Whether nothing is received of a connection, since its budget has ended.
fn is_too_long(connection: &mut Connection<CleanSource, MemSink>) -> bool {
    matches!(connection.receive(), Err(PhaseError::TooMuch))
}

#[test]
fn malformed_texts_are_refused_again(rt: HostRuntime) -> Result<(), Fail> {
    for &(front, part, count) in MALFORMED {
        let mut connection = connection_with(rt.alloc(), front, part, count)?;
        for _ in 0..2 {
            assert!(rt; is_malformed(&mut connection), "{count}");
        }
    }
    Ok(())
}

#[test]
fn long_texts_end_with_the_budget(rt: HostRuntime) -> Result<(), Fail> {
    for &(front, part, count) in TOO_LONG {
        let mut connection = connection_with(rt.alloc(), front, part, count)?;
        for _ in 0..2 {
            assert!(rt; is_too_long(&mut connection), "{count}");
        }
    }
    Ok(())
}
