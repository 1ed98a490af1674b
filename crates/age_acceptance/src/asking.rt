//! That phases with replies succeed with memory, and what they write and answer. The texts and the words
//! come from an independent model.

use crate::receiving::words::{NO_GREASE, Words, grease_first};
use crate::receiving::{connection_over, has_written};
use age_core::plugin::{Connection, Error, PhaseError, Result};
use age_format::format::Stanza;
use age_format::outside::{MemSink, MemSource};
use std::alloc::{AllocError, Global};
use std::test::Fail;

/// Whether a stanza is sent and has its reply, in a phase that is abandoned then.
fn sends_stanza(
    alloc: Global,
    connection: &mut Connection<MemSource, MemSink>,
) -> std::result::Result<bool, AllocError> {
    let stanza = Stanza {
        tag: String::from_str(alloc, "piv-p256")?,
        args: Vec::new(alloc),
        body: Vec::new(alloc),
    };
    let mut rng = Words::new(&NO_GREASE);
    let mut phase = connection.bidir_send(&mut rng);
    let said = phase.send_stanza("recipient-stanza", &[], &stanza);
    phase.abandon();
    Ok(matches!(said, Ok(Ok(_))))
}

#[test]
fn a_recipient_stanza_is_sent(rt: HostRuntime) -> std::result::Result<(), Fail> {
    let mut connection = connection_over(rt.alloc(), b"-> ok\n\n", &[])?;
    assert!(rt; sends_stanza(rt.alloc(), &mut connection)?);
    assert!(rt; has_written(connection, b"-> recipient-stanza piv-p256\n\n"));
    Ok(())
}

/// Sends a command, and ends the phase.
fn converse(
    alloc: Global,
    connection: &mut Connection<MemSource, MemSink>,
    words: &[u32],
) -> Result<Stanza> {
    let metadata = [String::from_str(alloc, "foo")?];
    let mut rng = Words::new(words);
    let mut phase = connection.bidir_send(&mut rng);
    let said = phase.send("test", &metadata, b"bar");
    let finished = phase.finish();
    match said {
        Ok(Ok(reply)) => {
            finished?;
            Ok(Ok(reply))
        }
        other => other,
    }
}

/// What is said to a command, where the other side answers this.
fn said_at(
    alloc: Global,
    replies: &[u8],
    words: &[u32],
    written: &[u8],
) -> std::result::Result<(Result<Stanza>, bool), AllocError> {
    let mut connection = connection_over(alloc, replies, &[])?;
    let said = converse(alloc, &mut connection, words);
    Ok((said, has_written(connection, written)))
}

#[test]
fn a_reply_says_what_became_of_a_command(rt: HostRuntime) -> std::result::Result<(), Fail> {
    let all = b"-> test foo\nYmFy\n-> done\n\n";
    let fail = said_at(rt.alloc(), b"-> fail why\ndGV4dA\n", &NO_GREASE, all)?;
    assert!(rt; matches!(fail, (Ok(Err(Error::Fail)), true)));
    let unsupported = said_at(rt.alloc(), b"-> unsupported\n\n", &NO_GREASE, all)?;
    assert!(rt; matches!(unsupported, (Ok(Err(Error::Unsupported)), true)));
    let ok = said_at(rt.alloc(), b"-> ok a b\nYm9keQ\nbehind", &NO_GREASE, all)?;
    assert!(rt; matches!(ok, (Ok(Ok(_)), true)));
    let other = said_at(rt.alloc(), b"-> what\n\n-> ok\n\n", &NO_GREASE, all)?;
    assert!(rt; matches!(other, (Err(PhaseError::UnexpectedReply(_)), true)));
    let ended = said_at(rt.alloc(), b"-> ok", &NO_GREASE, all)?;
    assert!(rt; matches!(ended, (Err(PhaseError::UnexpectedEof), true)));
    Ok(())
}

#[test]
fn the_reply_to_grease_is_dropped(rt: HostRuntime) -> std::result::Result<(), Fail> {
    let words = grease_first();
    let written =
        b"-> G]:cKVx-grease nA[ OZK NT\n3cDVC54RtO010Rx5VjYClV/z4w\n-> test foo\nYmFy\n-> done\n\n";
    let said = said_at(rt.alloc(), b"-> ok\n\n-> fail\n\n", &words, written)?;
    assert!(rt; matches!(said, (Ok(Err(Error::Fail)), true)));
    Ok(())
}
