//! What no clause says: that a sink over memory takes what it is given, and what `==` says of stanzas.

use age_format::StanzaReader;
use age_format::format::Stanza;
use age_format::outside::{CleanSource, Failed, MemSink, Sink, write_all};
use std::test::Fail;

#[test]
fn the_sink_over_memory_holds_what_it_got(rt: HostRuntime) -> Result<(), Fail> {
    let mut sink = MemSink::new(rt.alloc(), [1].to_vec(rt.alloc())?);
    assert!(rt; write_all(&mut sink, b"one") == Ok(()));
    assert!(rt; sink.write(b"two") == Err(Failed));
    assert!(rt; sink.write(b"six") == Ok(3));
    assert!(rt; sink.bytes() == b"onesix".as_slice() && !sink.ran_out());
    Ok(())
}

#[test]
fn equal_stanzas_are_equal(rt: HostRuntime) -> Result<(), Fail> {
    let text = b"-> a b\nYmFy\n-> a b\nYmFy\n-> a c\nYmFy\n".to_vec(rt.alloc())?;
    let mut source = CleanSource::new(text);
    let mut reader = StanzaReader::new(rt.alloc(), 100);
    let mut next = || -> Option<Stanza> { reader.receive_from(&mut source).ok() };
    let (one, other, third) = (next(), next(), next());
    assert!(rt; one.is_some());
    assert!(rt; one == other);
    assert!(rt; one != third);
    Ok(())
}
