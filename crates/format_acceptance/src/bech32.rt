//! Each row of the tables in Bech32.

use crate::texts::{Decoding, Encoding, age_keys, decodings, encodings, no_parts, parts, refused};
use bech32_long::{Bech32Error, Hrp, decode, encode, encoded_len};
use std::alloc::Global;
use std::test::Fail;

/// More bytes than any row has.
const MANY: usize = 4096;

// Whether the bytes under a part are written as this text, which has the length that is told.
fn is_text(alloc: Global, part: &Hrp, bytes: &[u8], text: &str) -> Result<bool, Fail> {
    if bytes.len() > MANY {
        return Ok(false);
    }
    let written = encode(alloc, part, bytes)?;
    Ok(written.as_str() == text && encoded_len(part, bytes.len()) == text.len())
}

// Whether a text is read as this part and these bytes.
fn is_read(alloc: Global, text: &str, part: &Hrp, bytes: &[u8]) -> Result<bool, Fail> {
    let (hrp, read) = decode(alloc, text)?;
    Ok(hrp == *part && read.as_slice() == bytes)
}

// Whether the bytes are written as this text, and read again from it and from the text in upper case.
fn is_encoding(alloc: Global, row: &Encoding) -> Result<bool, Fail> {
    let part = Hrp::parse(row.part)?;
    let bytes = hex::decode(alloc, row.bytes)?;
    let upper = row.text.to_ascii_uppercase(alloc)?;
    Ok(
        is_text(alloc, &part, bytes.as_slice(), row.text)?
            && is_read(alloc, row.text, &part, bytes.as_slice())?
            && is_read(alloc, upper.as_str(), &part, bytes.as_slice())?,
    )
}

#[test]
fn texts_are_written(rt: HostRuntime) -> Result<(), Fail> {
    for row in encodings() {
        assert!(rt; is_encoding(rt.alloc(), row)?, "{}", row.text);
    }
    for row in age_keys() {
        assert!(rt; is_encoding(rt.alloc(), row)?, "{}", row.text);
    }
    Ok(())
}

// Whether a text is read as its row says, and what was read is written as the row's other text.
fn is_decoding(alloc: Global, row: &Decoding) -> Result<bool, Fail> {
    let (part, bytes) = decode(alloc, row.text)?;
    if bytes.len() > MANY {
        return Ok(false);
    }
    let again = encode(alloc, &part, bytes.as_slice())?;
    let digits = hex::encode(alloc, &bytes)?;
    Ok(part.as_str() == row.part && digits.as_str() == row.bytes && again.as_str() == row.again)
}

#[test]
fn texts_are_read(rt: HostRuntime) -> Result<(), Fail> {
    for row in decodings() {
        assert!(rt; is_decoding(rt.alloc(), row)?, "{}", row.text);
    }
    Ok(())
}

// Whether a text is refused, and for this reason.
fn is_refused(alloc: Global, text: &str, why: Bech32Error) -> bool {
    match decode(alloc, text) {
        Ok(_) => false,
        Err(error) => error == why,
    }
}

#[test]
fn texts_are_refused(rt: HostRuntime) {
    for &(text, why) in refused() {
        assert!(rt; is_refused(rt.alloc(), text, why), "{text}");
    }
}

// Whether a text is a part that is kept as this one.
fn is_kept(text: &str, kept: &str) -> Result<bool, Fail> {
    Ok(Hrp::parse(text)?.as_str() == kept)
}

#[test]
fn parts_are_judged(rt: HostRuntime) -> Result<(), Fail> {
    for &(text, kept) in parts() {
        assert!(rt; is_kept(text, kept)?, "{text}");
    }
    for text in no_parts() {
        assert!(rt; Hrp::parse(text).is_err(), "{text}");
    }
    Ok(())
}
