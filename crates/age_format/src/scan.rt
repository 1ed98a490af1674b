//! The scan of a growing text for the end of its first stanza. A call goes on where the last one came to.

ghost use Rattle.std.specs.Prelude.{◌≡◌, ◌==◌, ◌≤◌, if◌then◌else◌, ℕ, List, length, take, IsTrue};
ghost use Rattle.std.specs.List.{list_all};
ghost use Rattle.age_format.specs.private.Parse.{is_visible};
ghost use Rattle.age_format.specs.private.Scan.{is_character, step, scan, IsScannedTo, At, Whole, Broken};
ghost use Rattle.age_format.specs.declared.scan.Place.TheVariants.{Start, Line};
ghost use Rattle.age_format.specs.declared.scan.Step.TheVariants.{To};

use crate::parse::{LINE_LEN, is_visible};

/// How many bytes a full line of a body has, with its line feed.
const FULL_LINE_LEN: usize = 65;

/// Where in a stanza the next byte stands.
#[derive(Clone, Copy, Debug, PartialEq, Eq)]
pub enum Place {
    /// At the first byte of `-> `.
    Start,
    /// At its second byte.
    Dash,
    /// At its third byte.
    Arrow,
    /// At the first byte of a tag or an argument.
    Gap,
    /// Behind a byte of a tag or an argument.
    Word,
    /// Behind so many characters of a line of the body.
    Line(usize),
}

/// What a byte is at its place.
#[derive(Clone, Copy, Debug, PartialEq, Eq)]
pub enum Step {
    /// It leads to the next place.
    To(Place),
    /// It ends a stanza.
    End,
    /// No stanza has it there.
    Bad,
}

/// What ended a scan.
#[derive(Clone, Copy, Debug, PartialEq, Eq)]
pub enum Stop {
    /// The text did.
    Text,
    /// The end of a stanza did.
    Whole,
    /// A byte that no stanza has there did.
    Broken,
}

/// How far a text was scanned, and the place of the next byte.
#[derive(Clone, Copy, Debug, PartialEq, Eq)]
pub struct Scan {
    pub seen: usize,
    pub place: Place,
}

/// Whether the byte is one of the 64 characters.
fn is_character(byte: u8) -> bool
    ensures { result ≡ is_character byte }
{
    matches!(byte, b'A'..=b'Z' | b'a'..=b'z' | b'0'..=b'9' | b'+' | b'/')
}

/// Whether all bytes are of the 64 characters. It goes over all of them with no branch, so that the
/// compiler tests many at once.
fn are_characters(bytes: &[u8]) -> bool
    ensures { result ≡ list_all is_character bytes.now }
{
    let mut all = true;
    for &byte in bytes {
        all &= is_character(byte);
    }
    all
}

/// Whether a text begins with a full line of a body and its line feed.
fn begins_with_full_line(text: &[u8]) -> bool
    ensures { IsTrue result → (FULL_LINE_LEN ≤ length text.now) × (scan (To (Line 0)) (take FULL_LINE_LEN text.now) ≡ At (Line 0)) }
{
    if text.len() < FULL_LINE_LEN {
        return false;
    }
    text[LINE_LEN] == b'\n' && are_characters(&text[..LINE_LEN])
}

/// Whether a line of a body begins at the place.
fn begins_line(place: Place) -> bool
    ensures { IsTrue result → place ≡ Place.Line 0 }
{
    matches!(place, Place::Line(0))
}

/// What a byte of a header line is, behind another byte of a tag or an argument.
fn step_word(byte: u8) -> Step
    ensures { result ≡ step Place.Word byte }
{
    if is_visible(byte) {
        return Step::To(Place::Word);
    }
    match byte {
        b' ' => Step::To(Place::Gap),
        b'\n' => Step::To(Place::Line(0)),
        _ => Step::Bad,
    }
}

/// What a byte of a body is, behind so many characters of its line.
fn step_line(len: usize, byte: u8) -> Step
    ensures { result ≡ step (Place.Line len) byte }
{
    if byte == b'\n' {
        return if len >= LINE_LEN {
            Step::To(Place::Line(0))
        } else {
            Step::End
        };
    }
    if len >= LINE_LEN || !is_character(byte) {
        return Step::Bad;
    }
    Step::To(Place::Line(len + 1))
}

/// The step, where the byte is the one that stands there.
fn step_mark(byte: u8, mark: u8, next: Place) -> Step
    ensures { result ≡ (if byte == mark then Step.To next else Step.Bad) }
{
    if byte == mark {
        Step::To(next)
    } else {
        Step::Bad
    }
}

/// What a byte is at a place.
fn step_at(place: Place, byte: u8) -> Step
    ensures { result ≡ step place byte }
{
    match place {
        Place::Start => step_mark(byte, b'-', Place::Dash),
        Place::Dash => step_mark(byte, b'>', Place::Arrow),
        Place::Arrow => step_mark(byte, b' ', Place::Gap),
        Place::Gap if is_visible(byte) => Step::To(Place::Word),
        Place::Gap => Step::Bad,
        Place::Word => step_word(byte),
        Place::Line(len) => step_line(len, byte),
    }
}

/// Scans a text on, and answers how far the scan came and what ended it. The byte that ended it was
/// not scanned.
pub(crate) fn scan_on(text: &[u8], from: Scan) -> (Scan, Stop)
    requires { IsScannedTo text.now from.seen from.place }
    ensures seen { IsScannedTo text.now result.0.seen result.0.place }
    ensures text { result.1 ≡ Stop.Text → result.0.seen ≡ length text.now }
    ensures whole { result.1 ≡ Stop.Whole → (rest : List ℕ) × (scan (To Start) text.now ≡ Whole rest) }
    ensures broken { result.1 ≡ Stop.Broken → scan (To Start) text.now ≡ Broken }
{
    let Scan {
        mut seen,
        mut place,
    } = from;
    while seen < text.len() {
        if begins_line(place) && begins_with_full_line(&text[seen..]) {
            seen += FULL_LINE_LEN;
            continue;
        }
        match step_at(place, text[seen]) {
            Step::To(next) => {
                place = next;
                seen += 1;
            }
            Step::End => return (Scan { seen, place }, Stop::Whole),
            Step::Bad => return (Scan { seen, place }, Stop::Broken),
        }
    }
    (Scan { seen, place }, Stop::Text)
}
