//! Texts of BIP 173 and of other programs, and one call of each function.

use bech32_long::{BadHrp, Bech32Error, Hrp, decode, encode, encode_to_slice, encoded_len};
use std::alloc::Global;
use std::test::Fail;

// A text, its part, its bytes, and the text that is written of them: two of BIP 173 in lower case and one in
// upper case, one with leftover bits that are set, and a recipient that age-keygen wrote.
const READ: &[(&str, &str, &[u8], &str)] = &[
    ("a12uel5l", "a", &[], "a12uel5l"),
    ("A12UEL5L", "a", &[], "a12uel5l"),
    (
        "abcdef1qpzry9x8gf2tvdw0s3jn54khce6mua7lmqqqxw",
        "abcdef",
        &[
            0x00, 0x44, 0x32, 0x14, 0xc7, 0x42, 0x54, 0xb6, 0x35, 0xcf, 0x84, 0x65, 0x3a, 0x56,
            0xd7, 0xc6, 0x75, 0xbe, 0x77, 0xdf,
        ],
        "abcdef1qpzry9x8gf2tvdw0s3jn54khce6mua7lmqqqxw",
    ),
    ("x1llssn9at", "x", &[0xff], "x1lu7rxnn5"),
    (
        "age1d7z8fqhmpcw0z5h0rgvaxjkkrshg0qd6drrxul77l3c23l97vysq7de4lj",
        "age",
        &[
            0x6f, 0x84, 0x74, 0x82, 0xfb, 0x0e, 0x1c, 0xf1, 0x52, 0xef, 0x1a, 0x19, 0xd3, 0x4a,
            0xd6, 0x1c, 0x2e, 0x87, 0x81, 0xba, 0x68, 0xc6, 0x6e, 0x7f, 0xde, 0xfc, 0x70, 0xa8,
            0xfc, 0xbe, 0x61, 0x20,
        ],
        "age1d7z8fqhmpcw0z5h0rgvaxjkkrshg0qd6drrxul77l3c23l97vysq7de4lj",
    ),
];

// The table, by a call.
fn read() -> &'static [(&'static str, &'static str, &'static [u8], &'static str)] {
    READ
}

/// More bytes than any row has.
const MANY: usize = 4096;

// Whether the bytes under a part are written as this text.
fn is_written(alloc: Global, part: &Hrp, bytes: &[u8], written: &str) -> Result<bool, Fail> {
    if bytes.len() > MANY {
        return Ok(false);
    }
    Ok(encode(alloc, part, bytes)?.as_str() == written)
}

// Whether a text is read as this part and these bytes, which are written as the other text.
fn is_read(
    alloc: Global,
    text: &str,
    part: &str,
    bytes: &[u8],
    written: &str,
) -> Result<bool, Fail> {
    let (hrp, read) = decode(alloc, text)?;
    Ok(hrp.as_str() == part && read.as_slice() == bytes && is_written(alloc, &hrp, bytes, written)?)
}

#[test]
fn reads_and_writes_texts(rt: HostRuntime) -> Result<(), Fail> {
    for &(text, part, bytes, written) in read() {
        assert!(rt; is_read(rt.alloc(), text, part, bytes, written)?, "{text}");
    }
    Ok(())
}

// Texts and why they are refused.
const REFUSED: &[(&str, Bech32Error)] = &[
    ("A1G7SGD8", Bech32Error::BadChecksum),
    ("pzry9x0s0muk", Bech32Error::NoSeparator),
    ("1pzry9x0s0muk", Bech32Error::BadHrp),
    ("x1b4n0q5v", Bech32Error::BadCharacter(2)),
    ("a12UEL5L", Bech32Error::MixedCase),
];

// The table, by a call.
fn refused() -> &'static [(&'static str, Bech32Error)] {
    REFUSED
}

// Whether a text is refused, and for this reason.
fn is_refused(alloc: Global, text: &str, why: Bech32Error) -> bool {
    match decode(alloc, text) {
        Ok(_) => false,
        Err(error) => error == why,
    }
}

#[test]
fn refuses_texts(rt: HostRuntime) {
    for &(text, why) in refused() {
        assert!(rt; is_refused(rt.alloc(), text, why), "{text}");
    }
}

#[test]
fn writes_into_a_slice(rt: HostRuntime) -> Result<(), Fail> {
    let hrp = Hrp::parse("X")?;
    let mut out = vec![in rt.alloc(); 0; encoded_len(&hrp, 1)]?;
    encode_to_slice(&hrp, &[0xff], &mut out);
    assert!(rt; out.as_slice() == b"x1lu7rxnn5".as_slice());
    Ok(())
}

#[test]
fn compares_parts(rt: HostRuntime) -> Result<(), Fail> {
    assert!(rt; Hrp::parse("A-1")? == Hrp::parse("a-1")?);
    assert!(rt; Hrp::parse("a")? != Hrp::parse("b")?);
    assert!(rt; Hrp::parse("aB") == Err(BadHrp));
    Ok(())
}
