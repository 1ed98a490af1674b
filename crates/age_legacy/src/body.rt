//! The chunks of base64 behind a header line, and the body that they spell.

ghost use Rattle.std.specs.Prelude.{◌≡◌, ◌≢◌, ◌≤◌, ℕ, List, length, take, IfOk, MatchOption};
ghost use Rattle.age_format.specs.Stanza.{Stanza as Spelled, IsStanza, spelling};
ghost use Rattle.age_legacy.specs.Legacy.{AreLines, begins_character, chunks_of, is_character, run_of};

use age_format::format::ReadRefused;
use age_format::format::read::age_stanza;
use age_format::laws;
use std::alloc::{AllocError, Global};

/// A header line under which the chunks are read strictly.
const HEADER: &[u8; 5] = b"-> -\n";

/// Whether the byte is one of the 64 characters.
fn is_character(byte: u8) -> bool
    ensures { result ≡ is_character byte }
{
    matches!(byte, b'A'..=b'Z' | b'a'..=b'z' | b'0'..=b'9' | b'+' | b'/')
}

/// Whether the text begins with one of them.
fn begins_character(text: &[u8]) -> bool
    ensures { result ≡ begins_character text.now }
{
    match text {
        [] => false,
        [first, ..] => is_character(*first),
    }
}

/// How many bytes the chunks at the front of a text have.
pub(crate) fn chunks_len(text: &[u8]) -> usize
    ensures within { result ≤ length text.now }
    ensures chunks { take result text.now ≡ chunks_of text.now }
{
    if begins_character(text) {
        run_len(text)
    } else {
        0
    }
}

/// How many bytes at the front are characters, or line feeds before a character.
fn run_len(text: &[u8]) -> usize
    ensures within { result ≤ length text.now }
    ensures run { take result text.now ≡ run_of text.now }
{
    for (i, &byte) in text.iter().enumerate() {
        if is_character(byte) {
            continue;
        }
        if byte != b'\n' || !begins_character(&text[i + 1..]) {
            return i;
        }
    }
    text.len()
}

/// The body that the chunks spell, or none.
pub(crate) fn body_of(alloc: Global, chunks: &[u8]) -> Result<Option<Vec<u8>>, AllocError>
    ensures { IfOk result (λ found. MatchOption found ((body : List ℕ) → AreLines chunks.now body → ⊥) (λ body. AreLines chunks.now body.items)) }
{
    laws::one_header();
    if chunks.is_empty() {
        return Ok(None);
    }
    let mut text = Vec::from_slice(alloc, HEADER)?;
    text.extend_from_slice(chunks)?;
    text.push(b'\n')?;
    if let Some(body) = whole_body(alloc, text.as_slice())? {
        return Ok(Some(body));
    }
    // Behind a full last line stands an empty one.
    text.push(b'\n')?;
    whole_body(alloc, text.as_slice())
}

/// The body of the one stanza that the text spells, or none.
fn whole_body(alloc: Global, text: &[u8]) -> Result<Option<Vec<u8>>, AllocError>
    ensures { IfOk result (λ found. MatchOption found ((s : Spelled) → IsStanza s → text.now ≢ spelling s)
        (λ body. (s : Spelled) × IsStanza s × (text.now ≡ spelling s) × (s.body ≡ body.items))) }
{
    laws::no_spelling_begins_another();
    laws::fronts_begin_none();
    match age_stanza(alloc, text) {
        Ok((rest, stanza)) => {
            if !rest.is_empty() {
                return Ok(None);
            }
            let body = stanza.body(alloc)?;
            Ok(Some(body))
        }
        Err(ReadRefused::NoMemory) => Err(AllocError),
        Err(ReadRefused::Incomplete) => Ok(None),
        Err(ReadRefused::Error) => Ok(None),
    }
}
