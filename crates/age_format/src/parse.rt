//! One stanza at the front of a text: its header line, and the lines of its body.

ghost use Rattle.std.specs.Prelude.{◌≡◌, ◌<◌, ◌≤◌, ◌↔◌, ℕ, None, Some, List, [], length, map, take, IfOk, IfSome, OnOk, MatchBool, ◌++◌};
ghost use Rattle.std.specs.Option.{option_map};
ghost use Rattle.std.specs.String.{string_bytes};
ghost use Rattle.base64.specs.GeneralPurpose.{decoded_of};
ghost use Rattle.age_format.specs.Stanza.{IsBytes, stanza_of};
ghost use Rattle.age_format.specs.private.Parse.{IsLineEngine, is_visible, words_from, lines_from, header_read, stanza_read};

use crate::format::AgeStanza;
use crate::format::read::arbitrary_string;
use base64::DecodeAllocError;
use base64::alphabet::Alphabet;
use base64::engine::general_purpose::{GeneralPurpose, NO_PAD};
use std::alloc::{AllocError, Global};

/// The characters for 0 to 63 (RFC 4648, section 4).
const ALPHABET: &str = "ABCDEFGHIJKLMNOPQRSTUVWXYZabcdefghijklmnopqrstuvwxyz0123456789+/";

/// How many characters a full line of a body has.
pub(crate) const LINE_LEN: usize = 64;

/// What each stanza begins with.
const PREFIX: &[u8; 3] = b"-> ";

/// The engine of a body's lines: without padding, and strict.
pub(crate) fn engine() -> GeneralPurpose
    ensures { IsLineEngine result }
{
    let Ok(alphabet) = Alphabet::new(ALPHABET) else {
        unreachable!();
    };
    GeneralPurpose::new(&alphabet, NO_PAD)
}

/// Whether a tag or an argument may hold the byte.
pub(crate) fn is_visible(byte: u8) -> bool
    ensures { result ≡ is_visible byte }
{
    33 <= byte && byte <= 126
}

/// The words of a header line, which single spaces separate, and what follows the line.
fn words_at<'a>(
    alloc: Global,
    text: &'a [u8],
) -> Result<Option<(Vec<&'a str>, &'a [u8])>, AllocError>
    ensures { IfOk result (λ found.
        option_map (λ x. (map (λ word. word.now) x.0.items, x.1.now)) found ≡ words_from [] [] text.now) }
{
    let mut words = Vec::new(alloc);
    let mut rest = text;
    while let Ok((behind, word)) = arbitrary_string(rest) {
        words.push(word)?;
        rest = &behind[1..];
        let byte = behind[0];
        if byte == b'\n' {
            return Ok(Some((words, rest)));
        }
        if byte != b' ' {
            return Ok(None);
        }
    }
    Ok(None)
}

/// Appends the bytes that a line spells to the body, and answers whether it spells any.
fn push_line(engine: &GeneralPurpose, line: &[u8], body: &mut Vec<u8>) -> Result<bool, AllocError>
    requires { IsLineEngine engine.now }
    ensures value { IfOk result (λ spells. MatchBool spells
        ((bytes : List ℕ) × (decoded_of engine.now line.now ≡ Some bytes) × (body.new.items ≡ body.old.items ++ bytes))
        ((decoded_of engine.now line.now ≡ None) × (body.new.items ≡ body.old.items))) }
    ensures bytes { OnOk result (IsBytes body.new.items) }
{
    match engine.decode_vec(line, body) {
        Ok(()) => Ok(true),
        Err(DecodeAllocError::DecodeError(_)) => Ok(false),
        Err(DecodeAllocError::OutOfMemory) => Err(AllocError),
    }
}

/// Appends what the full lines at the front of a text spell, each in one call, and answers what follows
/// them.
fn push_full_lines<'a>(
    engine: &GeneralPurpose,
    text: &'a [u8],
    body: &mut Vec<u8>,
) -> Result<&'a [u8], AllocError>
    requires { IsLineEngine engine.now }
    ensures { IfOk result (λ rest. lines_from engine.now body.new.items [] rest.now ≡ lines_from engine.now body.old.items [] text.now) }
{
    let mut rest = text;
    while rest.len() > LINE_LEN && rest[LINE_LEN] == b'\n' {
        if !push_line(engine, &rest[..LINE_LEN], body)? {
            break;
        }
        rest = &rest[LINE_LEN + 1..];
    }
    Ok(rest)
}

/// The body that the lines at the front of the text spell, and what follows its last line.
fn body_at<'a>(
    alloc: Global,
    engine: &GeneralPurpose,
    text: &'a [u8],
) -> Result<Option<(Vec<u8>, &'a [u8])>, AllocError>
    requires { IsLineEngine engine.now }
    ensures value { IfOk result (λ found. option_map (λ x. (x.0.items, x.1.now)) found ≡ lines_from engine.now [] [] text.now) }
    ensures bytes { IfOk result (λ found. IfSome found (λ x. IsBytes x.0.items)) }
{
    let mut body = Vec::new(alloc);
    let last = push_full_lines(engine, text, &mut body)?;
    let mut start = 0;
    for (i, &byte) in last.iter().enumerate() {
        let line = &last[start..i];
        if byte != b'\n' {
            if line.len() == LINE_LEN {
                return Ok(None);
            }
            continue;
        }
        if !push_line(engine, line, &mut body)? {
            return Ok(None);
        }
        if line.len() < LINE_LEN {
            return Ok(Some((body, &last[i + 1..])));
        }
        start = i + 1;
    }
    Ok(None)
}

/// The header line that begins the text, and what follows it.
pub(crate) fn header_at<'a>(
    alloc: Global,
    text: &'a [u8],
) -> Result<Option<(AgeStanza<'a>, &'a [u8])>, AllocError>
    ensures { IfOk result (λ found. option_map (λ x. (x.0, x.1.now)) found ≡ header_read text.now) }
{
    let Some(text) = text.strip_prefix(PREFIX) else {
        return Ok(None);
    };
    let Some((mut words, behind)) = words_at(alloc, text)? else {
        return Ok(None);
    };
    if words.is_empty() {
        return Ok(None);
    }
    let tag = words.remove(0);
    Ok(Some((AgeStanza::new(tag, words, Vec::new(alloc)), behind)))
}

/// The stanza whose spelling begins the text, and what follows it.
pub(crate) fn stanza_at<'a>(
    alloc: Global,
    engine: &GeneralPurpose,
    text: &'a [u8],
) -> Result<Option<(AgeStanza<'a>, &'a [u8])>, AllocError>
    requires { IsLineEngine engine.now }
    ensures value { IfOk result (λ found. option_map (λ x. (x.0, x.1.now)) found ≡ stanza_read engine.now text.now) }
    ensures bytes { IfOk result (λ found. IfSome found (λ x. IsBytes x.0.body)) }
{
    let Some((header, lines)) = header_at(alloc, text)? else {
        return Ok(None);
    };
    let Some((body, rest)) = body_at(alloc, engine, lines)? else {
        return Ok(None);
    };
    Ok(Some((header.with_body(body), rest)))
}
