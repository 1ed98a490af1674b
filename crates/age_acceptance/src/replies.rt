//! That a conversation of commands succeeds with memory, and what a failing sink leaves. The texts of the first come from an independent model.

use crate::receiving::{connection_over, has_written};
use age_core::plugin::{Connection, NoCommand, PhaseError};
use age_format::format::Stanza;
use age_format::outside::{MemSink, MemSource};
use std::alloc::{AllocError, Global};
use std::test::Fail;

/// A list of one command.
fn commands_of(alloc: Global, command: &str) -> Result<Vec<String>, AllocError> {
    let mut commands = Vec::new(alloc);
    commands.push(String::from_str(alloc, command)?)?;
    Ok(commands)
}

/// Receives a command and replies `ok` with a body, or `fail` where there is none, and gives the command.
fn next_replied(
    connection: &mut Connection<MemSource, MemSink>,
    commands: &[String],
    body: Option<&[u8]>,
) -> Result<Stanza, NoCommand> {
    let (stanza, reply) = connection.next_command(commands)?;
    let response = match body {
        Some(body) => reply.ok(Some(body)),
        None => reply.fail(),
    };
    match response.result() {
        Ok(()) => Ok(stanza),
        Err(WriteFault) => Err(NoCommand::Refused(PhaseError::WriteFault)),
    }
}

/// Whether this is a command with this body.
fn has_body(next: &Result<Stanza, NoCommand>, want: &[u8]) -> bool {
    match next {
        Ok(stanza) => stanza.body.as_slice() == want,
        Err(_) => false,
    }
}

#[test]
fn commands_are_replied_to(rt: HostRuntime) -> Result<(), Fail> {
    let text = b"-> odd\n\n-> test a\nYg\n-> test\n\n-> done\n\nbehind";
    let mut connection = connection_over(rt.alloc(), text, &[])?;
    let commands = commands_of(rt.alloc(), "test")?;
    let first = next_replied(&mut connection, commands.as_slice(), Some(b"data"));
    assert!(rt; has_body(&first, b"b"));
    let second = next_replied(&mut connection, commands.as_slice(), None);
    assert!(rt; second.is_ok());
    let none = next_replied(&mut connection, commands.as_slice(), None);
    assert!(rt; matches!(none, Err(NoCommand::Done)));
    assert!(rt; has_written(connection, b"-> unsupported\n\n-> ok\nZGF0YQ\n-> fail\n\n"));
    Ok(())
}

/// Whether a command is replied to with metadata, of which there is none.
fn replies_with(connection: &mut Connection<MemSource, MemSink>, commands: &[String]) -> bool {
    match connection.next_command(commands) {
        Ok((_, reply)) => reply.ok_with_metadata(&[], None).result().is_ok(),
        Err(_) => false,
    }
}

#[test]
fn a_reply_has_metadata(rt: HostRuntime) -> Result<(), Fail> {
    let mut connection = connection_over(rt.alloc(), b"-> test\n\n", &[])?;
    let commands = commands_of(rt.alloc(), "test")?;
    assert!(rt; replies_with(&mut connection, commands.as_slice()));
    assert!(rt; has_written(connection, b"-> ok\n\n"));
    Ok(())
}

#[test]
fn a_fault_of_the_sink_ends_a_call(rt: HostRuntime) -> Result<(), Fail> {
    let text = b"-> odd\n\n-> test\n\n-> test\n\n";
    let mut connection = connection_over(rt.alloc(), text, &[0, 1])?;
    let commands = commands_of(rt.alloc(), "test")?;
    for _ in 0..2 {
        let none = next_replied(&mut connection, commands.as_slice(), None);
        assert!(rt; matches!(none, Err(NoCommand::Refused(PhaseError::WriteFault))));
    }
    let second = next_replied(&mut connection, commands.as_slice(), Some(b""));
    assert!(rt; second.is_ok());
    assert!(rt; has_written(connection, b"-> ok\n\n"));
    Ok(())
}
