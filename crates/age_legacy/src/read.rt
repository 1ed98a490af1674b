//! The legacy reader of a stanza.

ghost use Rattle.std.specs.Prelude.{IfOk, IsErrOf};
ghost use Rattle.age_format.specs.Stanza.{IsFront};
ghost use Rattle.age_legacy.specs.Legacy.{ReadsBehind, ReadsLegacy, Stands, Cut, Malformed};

use crate::body::{body_of, chunks_len};
use age_format::format::read::{age_stanza, header_line};
use age_format::format::{AgeStanza, ReadRefused};
use std::alloc::Global;

/// The stanza at the front of the input, behind what follows it. Where [`age_stanza`] gives one, or
/// answers `Incomplete`, that is the answer; else the input is read as older writers spelled it.
///
/// A header line begins it; `Error` comes where none does. Behind the line stand chunks, the longest
/// runs of base64 characters with a line feed between two of them. Where the input ends behind the
/// chunks, or behind a line feed that follows them, the answer is `Incomplete`. Where the chunks are the
/// lines of a body, of which the last may have 64 characters, a line feed ends them and the rest begins
/// behind it; `Error` comes where another byte follows. Where they are no such lines, the body is empty
/// and the rest begins behind the header line. `NoMemory` comes only where memory was refused.
pub fn legacy_age_stanza<'a>(
    alloc: Global,
    input: &'a [u8],
) -> Result<(&'a [u8], AgeStanza<'a>), ReadRefused>
    ensures read { IfOk result (λ found. ReadsLegacy input.now (Stands found.1 found.0.now)) }
    ensures incomplete { IsErrOf result ReadRefused.Incomplete → ReadsLegacy input.now Cut }
    // At a proper prefix of a spelling memory can't be short.
    ensures front { IsFront input.now → IsErrOf result ReadRefused.Incomplete }
    ensures error { IsErrOf result ReadRefused.Error → ReadsLegacy input.now Malformed }
{
    match age_stanza(alloc, input) {
        Err(ReadRefused::Error) => {}
        answer => return answer,
    }
    let Some((header, behind)) = header_line(alloc, input)? else {
        return Err(ReadRefused::Error);
    };
    stanza_behind(alloc, header, behind)
}

/// What the text behind a header line comes to.
fn stanza_behind<'a>(
    alloc: Global,
    header: AgeStanza<'a>,
    text: &'a [u8],
) -> Result<(&'a [u8], AgeStanza<'a>), ReadRefused>
    ensures read { IfOk result (λ found. ReadsBehind header.entry text.now (Stands found.1 found.0.now)) }
    ensures incomplete { IsErrOf result ReadRefused.Incomplete → ReadsBehind header.entry text.now Cut }
    ensures error { IsErrOf result ReadRefused.Error → ReadsBehind header.entry text.now Malformed }
{
    let n = chunks_len(text);
    let behind = &text[n..];
    if behind.is_empty() || behind == b"\n".as_slice() {
        return Err(ReadRefused::Incomplete);
    }
    let Some(body) = body_of(alloc, &text[..n])? else {
        return Ok((text, header));
    };
    if behind[0] != b'\n' {
        return Err(ReadRefused::Error);
    }
    Ok((&behind[1..], header.with_body(body)))
}
