//! One call of each function of a phase that sends. The texts come from an independent model.

use crate::receiving::words::{NO_GREASE, Words};
use crate::receiving::{connection_over, has_written};
use age_core::format::read::age_stanza;
use age_core::format::write;
use age_core::plugin::Connection;
use age_format::format::Stanza;
use age_format::outside::{MemSink, MemSource};
use std::alloc::{AllocError, Global};
use std::test::Fail;

/// Whether a phase of one command is sent to its end.
fn sends(
    alloc: Global,
    connection: &mut Connection<MemSource, MemSink>,
) -> Result<bool, AllocError> {
    let metadata = [String::from_str(alloc, "foo")?];
    let mut rng = Words::new(&NO_GREASE);
    let mut phase = connection.unidir_send(&mut rng);
    let sent = phase.send("test", &metadata, b"bar").is_ok();
    let ended = phase.finish().is_ok();
    Ok(sent & ended)
}

#[test]
fn a_phase_sends_and_ends_with_done(rt: HostRuntime) -> Result<(), Fail> {
    let mut connection = connection_over(rt.alloc(), b"", &[])?;
    assert!(rt; sends(rt.alloc(), &mut connection)?);
    assert!(rt; has_written(connection, b"-> test foo\nYmFy\n-> done\n\n"));
    Ok(())
}

/// Whether a stanza is sent, in a phase that is abandoned then.
fn sends_stanza(
    alloc: Global,
    connection: &mut Connection<MemSource, MemSink>,
) -> Result<bool, AllocError> {
    let stanza = Stanza {
        tag: String::from_str(alloc, "piv-p256")?,
        args: Vec::new(alloc),
        body: Vec::new(alloc),
    };
    let mut rng = Words::new(&NO_GREASE);
    let mut phase = connection.unidir_send(&mut rng);
    let sent = phase.send_stanza("recipient-stanza", &[], &stanza).is_ok();
    phase.abandon();
    Ok(sent)
}

#[test]
fn an_abandoned_phase_sends_no_done(rt: HostRuntime) -> Result<(), Fail> {
    let mut connection = connection_over(rt.alloc(), b"", &[])?;
    assert!(rt; sends_stanza(rt.alloc(), &mut connection)?);
    assert!(rt; has_written(connection, b"-> recipient-stanza piv-p256\n\n"));
    Ok(())
}

#[test]
fn what_is_read_is_written_again(rt: HostRuntime) -> Result<(), Fail> {
    let alloc = rt.alloc();
    let text = b"-> empty-body some arguments\n\n".as_slice();
    let Ok((_, read)) = age_stanza(alloc, text) else {
        assert!(rt; false);
        return Ok(());
    };
    let stanza = read.to_stanza(alloc)?;
    let mut sink = MemSink::new(alloc, Vec::new(alloc));
    assert!(rt;
        write::age_stanza(
            &mut sink,
            stanza.tag.as_str(),
            stanza.args.as_slice(),
            stanza.body.as_slice()
        )
        .is_ok()
    );
    assert!(rt; sink.bytes() == text);
    Ok(())
}
