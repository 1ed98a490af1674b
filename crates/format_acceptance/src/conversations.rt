//! Each recorded phase, received by a connection.

ghost use Rattle.age_core.specs.Replies.{IsAnswer};

use crate::phases::{Asked, FAILED, KNOWN, Told, phases_of_age, phases_of_the_plugin};
use age_core::format::Stanza;
use age_core::outside::{MemSink, MemSource, Sink, Source};
use age_core::plugin::{Answer, Connection, NoCommand, PhaseError, UnidirAnswer};
use std::alloc::{AllocError, Global};
use std::test::Fail;

// A connection over a text.
fn connection_over(
    alloc: Global,
    text: &[u8],
) -> Result<Connection<MemSource, MemSink>, AllocError> {
    let source = MemSource::new(Vec::from_slice(alloc, text)?, 7, Vec::new(alloc));
    let sink = MemSink::new(alloc, Vec::new(alloc));
    Ok(Connection::new(alloc, source, sink, 65_536))
}

// Whether the sink of a connection got this.
fn has_written(connection: Connection<MemSource, MemSink>, want: &[u8]) -> bool {
    let (_, sink) = connection.into_parts();
    sink.bytes() == want
}

// The body of a stanza.
fn body_of(stanza: Stanza) -> Result<Vec<u8>, ()> {
    let Stanza {
        tag: _,
        args: _,
        body,
    } = stanza;
    Ok(body)
}

// Whether a command came to these bodies.
fn are_bodies(outcome: Result<Vec<Vec<u8>>, Vec<()>>, bodies: &[&[u8]]) -> bool {
    let Ok(values) = outcome else {
        return false;
    };
    if values.len() != bodies.len() {
        return false;
    }
    for (value, body) in values.iter().zip(bodies.iter()) {
        if value.as_slice() != *body {
            return false;
        }
    }
    true
}

// What a phase of bodies comes to.
type Bodies = UnidirAnswer<Vec<u8>, Vec<u8>, Vec<u8>, Vec<u8>, ()>;

// The bodies of a phase that age sent, by command.
fn bodies_of(
    connection: &mut Connection<MemSource, MemSink>,
    commands: (&str, &str, Option<&str>),
) -> Result<Bodies, PhaseError> {
    let (a, b, c) = commands;
    connection.unidir_receive(
        a,
        |stanza: Stanza| body_of(stanza),
        b,
        |stanza: Stanza| body_of(stanza),
        c,
        |stanza: Stanza| body_of(stanza),
        None,
        |stanza: Stanza| body_of(stanza),
    )
}

// Whether such a phase is taken as it was meant, and nothing is replied.
fn is_taken(alloc: Global, row: &Told) -> Result<bool, Fail> {
    let mut connection = connection_over(alloc, row.text)?;
    let UnidirAnswer { a, b, c, d } = bodies_of(&mut connection, row.commands)?;
    let third = match c {
        Some(outcome) => are_bodies(outcome, row.c),
        None => row.c.is_empty(),
    };
    Ok(
        are_bodies(a, row.a)
            & are_bodies(b, row.b)
            & third
            & d.is_none()
            & has_written(connection, b""),
    )
}

#[test]
fn what_age_sent_is_taken(rt: HostRuntime) -> Result<(), Fail> {
    for row in phases_of_age() {
        assert!(rt; is_taken(rt.alloc(), row)?);
    }
    Ok(())
}

// The commands that age knows.
fn known(alloc: Global) -> Result<Vec<String>, AllocError> {
    let mut commands = Vec::new(alloc);
    for command in KNOWN {
        commands.push(String::from_str(alloc, command)?)?;
    }
    Ok(commands)
}

// What age answered to a command.
fn answer_to(alloc: Global, stanza: &Stanza) -> Answer
    ensures { IsAnswer result }
{
    if stanza.tag.as_str() == FAILED {
        return Answer::Fail;
    }
    Answer::Ok(Vec::new(alloc))
}

// Whether a phase that the plugin sent is answered as age did, to its end.
fn is_answered(alloc: Global, row: &Asked) -> Result<bool, Fail> {
    let commands = known(alloc)?;
    let mut connection = connection_over(alloc, row.text)?;
    let phase = connection.bidir_receive(commands.as_slice(), |stanza: &Stanza| {
        answer_to(alloc, stanza)
    });
    let ends = match phase {
        Ok(()) => row.is_done,
        Err(PhaseError::UnexpectedEof) => !row.is_done,
        Err(_) => false,
    };
    Ok(ends & has_written(connection, row.replies))
}

// The next command, replied to as age did.
fn next_replied<R: Source, W: Sink>(
    connection: &mut Connection<R, W>,
    commands: &[String],
) -> Result<Stanza, NoCommand> {
    let (stanza, reply) = connection.next_command(commands)?;
    let response = if stanza.tag.as_str() == FAILED {
        reply.fail()
    } else {
        reply.ok(None)
    };
    match response.result() {
        Ok(()) => Ok(stanza),
        Err(_) => Err(NoCommand::Refused(PhaseError::WriteFault)),
    }
}

// Whether the commands of such a phase are given one by one, with these bodies.
fn is_given(alloc: Global, row: &Asked) -> Result<bool, Fail> {
    let commands = known(alloc)?;
    let mut connection = connection_over(alloc, row.text)?;
    for body in row.bodies {
        let stanza = next_replied(&mut connection, commands.as_slice())
            .ok()
            .ok_or("a command")?;
        if stanza.body.as_slice() != *body {
            return Ok(false);
        }
    }
    let ends = match next_replied(&mut connection, commands.as_slice()) {
        Ok(_) => false,
        Err(NoCommand::Done) => row.is_done,
        Err(NoCommand::Refused(PhaseError::UnexpectedEof)) => !row.is_done,
        Err(NoCommand::Refused(_)) => false,
    };
    Ok(ends & has_written(connection, row.replies))
}

#[test]
fn what_the_plugin_sent_is_answered(rt: HostRuntime) -> Result<(), Fail> {
    for row in phases_of_the_plugin() {
        assert!(rt; is_answered(rt.alloc(), row)?);
        assert!(rt; is_given(rt.alloc(), row)?);
    }
    Ok(())
}
