//! That phases with replies succeed with memory. The texts come from an independent model.

ghost use Rattle.age_core.specs.Replies.{IsAnswer};

use crate::receiving::{connection_over, has_written};
use age_core::format::Stanza;
use age_core::plugin::{Answer, PhaseError};
use std::alloc::{AllocError, Global};
use std::test::Fail;

/// What the handler answers: it fails at a stanza with an argument, and else gives back the body.
fn answer_to(alloc: Global, stanza: &Stanza) -> Answer
    ensures { IsAnswer result }
{
    if !stanza.args.is_empty() {
        return Answer::Fail;
    }
    match Vec::from_slice(alloc, stanza.body.as_slice()) {
        Ok(body) => Answer::Ok(body),
        Err(_) => Answer::Fail,
    }
}

/// How a phase of the command `test` ends over a text, and whether this was replied.
fn phase_over(
    alloc: Global,
    text: &[u8],
    replied: &[u8],
) -> Result<(Option<PhaseError>, bool), AllocError> {
    let mut commands = Vec::new(alloc);
    commands.push(String::from_str(alloc, "test")?)?;
    let mut connection = connection_over(alloc, text, &[])?;
    let phase = connection.bidir_receive(commands.as_slice(), |stanza: &Stanza| {
        answer_to(alloc, stanza)
    });
    Ok((phase.err(), has_written(connection, replied)))
}

#[test]
fn stanzas_are_answered_up_to_done(rt: HostRuntime) -> Result<(), Fail> {
    let text = b"-> Test\n\n-> tes\n\n-> testt\n\n-> test fail with\nMQ\n-> done\n\n";
    let replied = b"-> unsupported\n\n-> unsupported\n\n-> unsupported\n\n-> fail\n\n";
    assert!(rt; matches!(phase_over(rt.alloc(), text, replied)?, (None, true)));
    let text = b"-> test\nYm9keQ\n-> done\n\nbehind";
    let replied = b"-> ok\nYm9keQ\n";
    assert!(rt; matches!(phase_over(rt.alloc(), text, replied)?, (None, true)));
    Ok(())
}

#[test]
fn a_refusal_comes_behind_the_replies_before_it(rt: HostRuntime) -> Result<(), Fail> {
    let ended = phase_over(rt.alloc(), b"-> test\n\n-> test\nA", b"-> ok\n\n")?;
    assert!(rt; matches!(ended, (Some(PhaseError::UnexpectedEof), true)));
    let malformed = phase_over(
        rt.alloc(),
        b"-> test fail\n\n-> \n\n-> done\n\n",
        b"-> fail\n\n",
    )?;
    assert!(rt; matches!(malformed, (Some(PhaseError::InvalidData), true)));
    Ok(())
}
