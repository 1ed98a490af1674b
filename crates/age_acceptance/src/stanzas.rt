//! What no clause says: that the calls succeed with memory enough, and that the definitions mean what the
//! format says.

use age_format::format::read::{
    ReadRefused, age_stanza, arbitrary_string, header_line, is_arbitrary_string,
};
use std::test::Fail;

/// Texts that no stanza begins.
const REFUSED: [(&[u8], ReadRefused); 10] = [
    (b"", ReadRefused::Incomplete),
    (b"-> a ", ReadRefused::Incomplete),
    (b"-> a\nAAAAA", ReadRefused::Incomplete),
    (b"->x", ReadRefused::Error),
    (b"-> a  b\n\n", ReadRefused::Error),
    (b"-> a\x80\n\n", ReadRefused::Error),
    (b"-> a\nAB\n", ReadRefused::Error),
    (b"-> a\nAA==\n", ReadRefused::Error),
    (b"-> a\n AA\n", ReadRefused::Error),
    (b"-> H\n/\n\n", ReadRefused::Error),
];

#[test]
fn texts_that_no_stanza_begins_are_refused(rt: HostRuntime) -> Result<(), Fail> {
    for (text, want) in REFUSED {
        assert_eq!(rt; age_stanza(rt.alloc(), text).err(), Some(want));
    }
    Ok(())
}

#[test]
fn a_stanza_and_its_rest_are_read(rt: HostRuntime) -> Result<(), Fail> {
    let text = b"-> test foo\nYmFy\n-> done\n\n".as_slice();
    let Ok((rest, stanza)) = age_stanza(rt.alloc(), text) else {
        assert!(rt; false);
        return Ok(());
    };
    assert_eq!(rt; rest, b"-> done\n\n".as_slice());
    assert_eq!(rt; stanza.tag(), "test");
    assert_eq!(rt; stanza.arg_count(), 1);
    assert_eq!(rt; stanza.arg(0), "foo");
    assert_eq!(rt; stanza.body(rt.alloc())?.as_slice(), b"bar".as_slice());
    assert!(rt; stanza.to_stanza(rt.alloc())?.has_tag("test"));
    Ok(())
}

#[test]
fn a_header_line_is_read(rt: HostRuntime) -> Result<(), Fail> {
    let Some((header, behind)) = header_line(rt.alloc(), b"-> H one\n/")? else {
        assert!(rt; false);
        return Ok(());
    };
    assert_eq!(rt; behind, b"/".as_slice());
    let stanza = header.with_body(b"bar".to_vec(rt.alloc())?);
    assert_eq!(rt; stanza.arg_count(), 1);
    assert_eq!(rt; stanza.body(rt.alloc())?.as_slice(), b"bar".as_slice());
    Ok(())
}

#[test]
fn strings_are_runs_of_visible_bytes(rt: HostRuntime) -> Result<(), Fail> {
    assert_eq!(rt; arbitrary_string(b"-> x"), Ok((b" x".as_slice(), "->")));
    assert_eq!(rt; arbitrary_string(b"!~"), Err(ReadRefused::Incomplete));
    assert_eq!(rt; arbitrary_string(b"\x7f"), Err(ReadRefused::Error));
    assert!(rt; is_arbitrary_string("!~"));
    assert!(rt; !is_arbitrary_string(""));
    assert!(rt; !is_arbitrary_string("a b"));
    assert!(rt; !is_arbitrary_string("a\u{e9}"));
    Ok(())
}
