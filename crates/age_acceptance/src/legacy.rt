//! What no clause says: that the call succeeds with memory enough, and that the definitions mean what the
//! format says.

use age_format::format::ReadRefused;
use age_legacy::read::legacy_age_stanza;
use std::alloc::{AllocError, Global};
use std::test::Fail;

/// Texts of stanzas that are tagged `H`, with the length of the body and what follows.
fn read_texts() -> &'static [(&'static [u8], usize, &'static [u8])] {
    &[
        (b"-> H\nAAAA\nAAAA\n\n", 3, b"AAAA\n\n"),
        (b"-> H\n=\n", 0, b"=\n"),
        (b"-> H one two\n\x80", 0, b"\x80"),
        (b"-> H\n/\n\n", 0, b"/\n\n"),
        (b"-> H\nA=\nAAAA\n", 0, b"A=\nAAAA\n"),
        (b"-> H\nAB\n=", 0, b"AB\n="),
        (b"-> H\nA\nAA\nAAA\n-", 0, b"A\nAA\nAAA\n-"),
        (
            b"-> H\n/fjLIBtYBU+0hsDXYAb7Brn3AqoFL3M04x/ZUIxbtRo5S7CQ1BZW2vaqBOoH1fOC\n--- header end\n",
            48,
            b"--- header end\n",
        ),
        (
            b"-> H\n/fjLIBtYBU+0hsDXYAb7Brn3AqoFL3M04x/ZUIxbtRo5S7CQ1BZW2vaqBOoH1fOC\nAAAAAAAAAAAAAAAAAAAAAAAAAAAAAAAAAAAAAAAAAAAAAAAAAAAAAAAAAAAAAAAA\n=\n",
            96,
            b"=\n",
        ),
        (
            b"-> H\nAAAAAAAAAAAAAAAAAAAAAAAAAAAAAAAAAAAAAAAAAAAAAAAAAAAAAAAAAAAAAAAAA\n\n",
            0,
            b"AAAAAAAAAAAAAAAAAAAAAAAAAAAAAAAAAAAAAAAAAAAAAAAAAAAAAAAAAAAAAAAAA\n\n",
        ),
    ]
}

/// Whether a text is read as a stanza that is tagged `H`, with a body of this length, and what follows.
fn is_read(alloc: Global, text: &[u8], len: usize, want: &[u8]) -> Result<bool, AllocError> {
    match legacy_age_stanza(alloc, text) {
        Ok((rest, stanza)) => {
            let body = stanza.body(alloc)?;
            Ok(rest == want && stanza.tag() == "H" && body.len() == len)
        }
        Err(_) => Ok(false),
    }
}

#[test]
fn stanzas_of_older_writers_are_read(rt: HostRuntime) -> Result<(), Fail> {
    for &(text, len, want) in read_texts() {
        assert!(rt; is_read(rt.alloc(), text, len, want)?, "{len}");
    }
    Ok(())
}

/// Texts that are refused.
fn refused_texts() -> &'static [(&'static [u8], ReadRefused)] {
    &[
        (b"-> a ", ReadRefused::Incomplete),
        (b"-> a\nAAAA", ReadRefused::Incomplete),
        (b"-> H\n/\n", ReadRefused::Incomplete),
        (b"-> H\nA\nAAA", ReadRefused::Incomplete),
        (b"-> H\nAB\nAAAA\n", ReadRefused::Incomplete),
        (b"x", ReadRefused::Error),
        (b"-> a \n=\n", ReadRefused::Error),
        (b"-> a  b\n=\n", ReadRefused::Error),
        (b"-> H\nAAAA=\n", ReadRefused::Error),
        (b"-> H\nAAAA\r\n", ReadRefused::Error),
        (
            b"-> H\n/fjLIBtYBU+0hsDXYAb7Brn3AqoFL3M04x/ZUIxbtRo5S7CQ1BZW2vaqBOoH1fOC \n",
            ReadRefused::Error,
        ),
    ]
}

#[test]
fn other_texts_are_refused(rt: HostRuntime) -> Result<(), Fail> {
    for &(text, want) in refused_texts() {
        assert!(rt; legacy_age_stanza(rt.alloc(), text).err() == Some(want));
    }
    Ok(())
}
