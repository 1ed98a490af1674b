//! Human-readable parts.

ghost use Rattle.std.specs.Prelude.{◌≡◌, ◌-◌, ◌≤◌, ◌++◌, length, replicate, MatchResult, true, false};
ghost use Rattle.std.specs.Char.{is_ascii_graphic, is_ascii_lowercase, is_ascii_uppercase};
ghost use Rattle.std.specs.Cmp.{partial_equiv_from_equiv};
ghost use Rattle.std.specs.Cmp.Lexicographic.{nat_list_eq_equiv};
ghost use Rattle.std.specs.List.{list_all, list_any};
ghost use Rattle.std.specs.Str.{bytes_eq, str_to_ascii_lowercase};
ghost use Rattle.bech32_long.specs.Part.{IsLowered, is_mixed, is_part};

use crate::error::BadHrp;
use std::marker::Model;
use std::str;

/// The most bytes that a human-readable part has.
const MOST: usize = 83;

/// A human-readable part: 1 to 83 bytes from 33 to 126, without capital letters.
#[derive(Debug, Drop)]
pub struct Hrp {
    bytes: [u8; MOST],
    len: usize,
}

impl Model for Hrp {
    ghost use Rattle.std.specs.Prelude.{ℕ, List, take};
    ghost use Rattle.bech32_long.specs.private.Lowered.{IsStored};

    ghost Value = { List ℕ };

    ghost view = { λ h. take h.len h.bytes };

    ghost invariant = { λ h. IsStored h.bytes h.len };
}

impl PartialEq for Hrp {
    ghost eq = { bytes_eq };

    ghost laws = { partial_equiv_from_equiv nat_list_eq_equiv };

    fn eq(&self, other: &Hrp) -> bool {
        self.as_bytes() == other.as_bytes()
    }
}

impl Eq for Hrp {
    ghost laws = { nat_list_eq_equiv };
}

impl Hrp {
    /// The human-readable part that this text is in either case, in lower case.
    ///
    /// Refused where the length isn't 1 to 83 bytes, a byte is outside 33 to 126, or letters of both cases
    /// occur (BIP 173). No memory is taken.
    pub fn parse(text: &str) -> Result<Hrp, BadHrp>
        ensures { MatchResult result (λ hrp. (is_part text.now ≡ true) × (hrp ≡ str_to_ascii_lowercase text.now)) (λ _. is_part text.now ≡ false) }
    {
        Hrp::from_bytes(text.as_bytes())
    }

    /// The same of bytes.
    pub(crate) fn from_bytes(text: &[u8]) -> Result<Hrp, BadHrp>
        ensures { MatchResult result (λ hrp. (is_part text.now ≡ true) × (hrp ≡ str_to_ascii_lowercase text.now)) (λ _. is_part text.now ≡ false) }
    {
        if !is_part(text) {
            return Err(BadHrp);
        }
        Ok(Hrp {
            bytes: lowered(text),
            len: text.len(),
        })
    }

    /// The part in lower case, 1 to 83 bytes from 33 to 126. No memory is taken.
    pub fn as_str(&self) -> &str
        ensures value { result.now ≡ self.now }
        ensures part { IsLowered result.now }
    {
        match str::from_utf8(&self.bytes[..self.len]) {
            Ok(text) => text,
            Err(_) => unreachable!(),
        }
    }

    /// The part as bytes.
    pub(crate) fn as_bytes(&self) -> &[u8]
        ensures value { result.now ≡ self.now }
        ensures part { IsLowered result.now }
    {
        &self.bytes[..self.len]
    }
}

/// Whether ASCII letters of both cases occur.
pub(crate) fn is_mixed(text: &[u8]) -> bool
    ensures { result ≡ is_mixed text.now }
{
    has_capital(text) && has_small(text)
}

// Whether an ASCII capital letter occurs.
fn has_capital(text: &[u8]) -> bool
    ensures { result ≡ list_any is_ascii_uppercase text.now }
{
    text.iter().any(|b| b.is_ascii_uppercase())
}

// Whether an ASCII small letter occurs.
fn has_small(text: &[u8]) -> bool
    ensures { result ≡ list_any is_ascii_lowercase text.now }
{
    text.iter().any(|b| b.is_ascii_lowercase())
}

// Whether all bytes are from 33 to 126.
fn is_visible(text: &[u8]) -> bool
    ensures { result ≡ list_all is_ascii_graphic text.now }
{
    text.iter().all(|b| b.is_ascii_graphic())
}

// Whether the text is a human-readable part in either case.
fn is_part(text: &[u8]) -> bool
    ensures { result ≡ is_part text.now }
{
    1 <= text.len() && text.len() <= MOST && is_visible(text) && !is_mixed(text)
}

// The text in lower case, and zeros behind it.
fn lowered(text: &[u8]) -> [u8; MOST]
    requires { length text.now ≤ 83 }
    ensures { result ≡ str_to_ascii_lowercase text.now ++ replicate (83 - length text.now) 0 }
{
    let mut bytes = [0; MOST];
    for i in 0..text.len() {
        bytes[i] = text[i].to_ascii_lowercase();
    }
    bytes
}
