//! The strict reader: what begins a text, or why nothing does.

ghost use Rattle.std.specs.Prelude.{◌≡◌, ◌≤◌, ◌<◌, ◌++◌, ◌↔◌, ◌⊎◌, ℕ, List, length, take, drop, IfOk, IfSome, IfNone, IsErrOf, IsTrue};
ghost use Rattle.std.specs.List.{AllByRecursion};
ghost use Rattle.age_format.specs.Stanza.{Stanza as Spelled, IsArbitraryString, IsFront, IsStanza, IsVisible, spelling};
ghost use Rattle.age_format.specs.Front.{IsMalformed};
ghost use Rattle.age_format.specs.Strings.{BeginsHidden, BeginsWithHeader, BeginsWithString};
ghost use Rattle.age_format.specs.declared.format.read.ReadRefused.TheVariants.{NoMemory};

use crate::format::AgeStanza;
use crate::parse::{engine, header_at, is_visible, stanza_at};
use crate::scan::{Place, Scan, Stop, scan_on};
use std::alloc::{AllocError, Global};
use thiserror::Error;

/// Why nothing was read.
#[derive(Clone, Copy, Debug, PartialEq, Eq, Error)]
pub enum ReadRefused {
    /// The text ends too early: more bytes may make it whole.
    #[error("the text ends too early")]
    Incomplete,
    /// The text begins with nothing of the kind, however it goes on.
    #[error("the text is malformed")]
    Error,
    /// Memory ran out.
    #[error("no memory")]
    NoMemory,
}

impl From<AllocError> for ReadRefused {
    ghost from_gives = { λ _ e. e ≡ NoMemory };

    fn from(_e: AllocError) -> ReadRefused {
        ReadRefused::NoMemory
    }
}

/// Whether a tag or an argument may be this: one or more bytes from 33 to 126.
pub fn is_arbitrary_string(s: &str) -> bool
    ensures { IsTrue result ↔ IsArbitraryString s.now }
{
    !s.is_empty() && run_len(s.as_bytes()) == s.len()
}

/// The longest run of bytes from 33 to 126 at the front of the input, behind what follows it.
///
/// `Incomplete` comes exactly where all bytes, or none, are such; `Error` exactly where the first isn't.
/// It takes no memory.
pub fn arbitrary_string<'a>(input: &'a [u8]) -> Result<(&'a [u8], &'a str), ReadRefused>
    ensures read { IfOk result (λ found. BeginsWithString input.now found.1.now found.0.now) }
    ensures incomplete { IsErrOf result ReadRefused.Incomplete ↔ AllByRecursion IsVisible input.now }
    ensures error { IsErrOf result ReadRefused.Error ↔ BeginsHidden input.now }
    ensures memory { IsErrOf result ReadRefused.NoMemory → ⊥ }
{
    let n = run_len(input);
    if n == input.len() {
        return Err(ReadRefused::Incomplete);
    }
    if n == 0 {
        return Err(ReadRefused::Error);
    }
    let Ok(string) = str::from_utf8(&input[..n]) else {
        unreachable!();
    };
    Ok((&input[n..], string))
}

/// The header line at the front of the input, as a stanza without a body, and what follows the line;
/// none where none begins the input. The only error is want of memory.
pub fn header_line<'a>(
    alloc: Global,
    input: &'a [u8],
) -> Result<Option<(AgeStanza<'a>, &'a [u8])>, AllocError>
    ensures read { IfOk result (λ found. IfSome found (λ x. BeginsWithHeader input.now x.0 x.1.now)) }
    ensures none { IfOk result (λ found. IfNone found ((header : Spelled) (behind : List ℕ) → BeginsWithHeader input.now header behind → ⊥)) }
{
    header_at(alloc, input)
}

/// The stanza whose spelling begins the input, behind what follows it.
///
/// `Incomplete` comes exactly where the input is a proper prefix of a spelling, which may be empty;
/// `Error` where no spelling begins the input, and it is no such prefix. `NoMemory` comes only where
/// memory for the stanza was refused, and never at a proper prefix.
pub fn age_stanza<'a>(
    alloc: Global,
    input: &'a [u8],
) -> Result<(&'a [u8], AgeStanza<'a>), ReadRefused>
    ensures read { IfOk result (λ found. IsStanza found.1 × (input.now ≡ spelling found.1 ++ found.0.now)) }
    ensures incomplete { IsErrOf result ReadRefused.Incomplete ↔ IsFront input.now }
    ensures error { IsErrOf result ReadRefused.Error → IsMalformed input.now }
{
    let start = Scan {
        seen: 0,
        place: Place::Start,
    };
    match scan_on(input, start).1 {
        Stop::Text => return Err(ReadRefused::Incomplete),
        Stop::Broken => return Err(ReadRefused::Error),
        Stop::Whole => {}
    }
    let Some((stanza, rest)) = stanza_at(alloc, &engine(), input)? else {
        return Err(ReadRefused::Error);
    };
    Ok((rest, stanza))
}

/// How many bytes from 33 to 126 stand at the front of a text.
fn run_len(text: &[u8]) -> usize
    ensures within { result ≤ length text.now }
    ensures run { AllByRecursion IsVisible (take result text.now) }
    ensures longest { (result ≡ length text.now) ⊎ BeginsHidden (drop result text.now) }
{
    for (i, &byte) in text.iter().enumerate() {
        if !is_visible(byte) {
            return i;
        }
    }
    text.len()
}
