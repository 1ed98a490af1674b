//! Grease, drawn from a random source.

ghost use Rattle.std.specs.Prelude.{◌≡◌, ◌≤◌, ◌++◌, ◌∷◌, [], length, map, IfOk, IfSome, IsOkAnd, IsSome, OnErr};
ghost use Rattle.std.specs.List.{AllByRecursion};
ghost use Rattle.std.specs.Option.{option_map};
ghost use Rattle.std.specs.String.{string_bytes};
ghost use Rattle.age_format.specs.Stanza.{IsBytes, IsVisible, stanza_of};
ghost use Rattle.rand_core.specs.Stream.{fill_bytes};
ghost use Rattle.age_send.specs.Grease.{drawn_number, drawn_characters, drawn_string, drawn_arguments, drawn_body, drawn_grease};
ghost use Rattle.age_send.specs.Sending.{drawn_roll};

use age_format::format::Stanza;
use rand_core::Rng;
use std::alloc::{AllocError, Global};

/// What the tag of each grease stanza ends with.
const SUFFIX: &str = "-grease";

/// How many of a hundred rolls make grease.
const CHANCE: u8 = 5;

/// The longest string of a grease stanza, in characters.
const STRING_LEN: usize = 8;

/// The longest body of a grease stanza, in bytes.
const BODY_LEN: usize = 99;

/// Draws a number from low to high.
fn draw_number<R: Rng>(rng: &mut R, low: u8, high: u8) -> u8
    requires { low ≤ high }
    ensures value { (result, R.stream rng.new) ≡ drawn_number low high (R.stream rng.old) }
    ensures low { low ≤ result }
    ensures high { result ≤ high }
{
    low + (rng.next_u32() % (u32::from(high - low) + 1)) as u8
}

/// Draws a character for each place of the buffer.
fn draw_characters<R: Rng>(rng: &mut R, buffer: &mut [u8])
    ensures value { (buffer.new, R.stream rng.new) ≡ drawn_characters (length buffer.old) (R.stream rng.old) }
    ensures each { AllByRecursion IsVisible buffer.new }
{
    for character in buffer.iter_mut() {
        *character = draw_number(rng, b'!', b'~');
    }
}

/// The text of visible characters.
fn string_of(alloc: Global, characters: &[u8]) -> Result<String, AllocError>
    requires { AllByRecursion IsVisible characters.now }
    ensures { IfOk result (λ string. string_bytes string ≡ characters.now) }
{
    let mut string = String::new(alloc);
    for &character in characters {
        string.push(char::from(character))?;
    }
    Ok(string)
}

/// Draws a character for each place of the buffer, and asks for memory for them then.
fn string_drawn<R: Rng>(alloc: Global, rng: &mut R, buffer: &mut [u8]) -> Result<String, AllocError>
    ensures value { IfOk result (λ string. string_bytes string ≡ (drawn_characters (length buffer.old) (R.stream rng.old)).0) }
    ensures rest { R.stream rng.new ≡ (drawn_characters (length buffer.old) (R.stream rng.old)).1 }
{
    draw_characters(rng, buffer);
    string_of(alloc, buffer)
}

/// Draws a string.
fn draw_string<R: Rng>(alloc: Global, rng: &mut R) -> Result<String, AllocError>
    ensures value { IfOk result (λ string. string_bytes string ≡ (drawn_string (R.stream rng.old)).0) }
    ensures rest { R.stream rng.new ≡ (drawn_string (R.stream rng.old)).1 }
{
    let mut buffer = [0; STRING_LEN];
    let length = usize::from(draw_number(rng, 1, 8));
    string_drawn(alloc, rng, &mut buffer[..length])
}

/// One string more, where there was memory for all of them.
fn with_string(
    strings: Result<Vec<String>, AllocError>,
    string: Result<String, AllocError>,
) -> Result<Vec<String>, AllocError>
    ensures { IfOk result (λ all. IsOkAnd strings (λ before. IsOkAnd string (λ last. all.items ≡ before.items ++ last ∷ []))) }
{
    let mut strings = strings?;
    strings.push(string?)?;
    Ok(strings)
}

/// Draws the arguments.
fn draw_arguments<R: Rng>(alloc: Global, rng: &mut R) -> Result<Vec<String>, AllocError>
    ensures value { IfOk result (λ args. map string_bytes args.items ≡ (drawn_arguments (R.stream rng.old)).0) }
    ensures rest { R.stream rng.new ≡ (drawn_arguments (R.stream rng.old)).1 }
{
    let count = draw_number(rng, 0, 4);
    let mut strings = Ok(Vec::new(alloc));
    for _ in 0..count {
        strings = with_string(strings, draw_string(alloc, rng));
    }
    strings
}

/// Fills the buffer, and asks for memory for its bytes then.
fn body_drawn<R: Rng>(alloc: Global, rng: &mut R, buffer: &mut [u8]) -> Result<Vec<u8>, AllocError>
    ensures value { IfOk result (λ body. body.items ≡ (fill_bytes (length buffer.old) (R.stream rng.old)).0) }
    ensures rest { R.stream rng.new ≡ (fill_bytes (length buffer.old) (R.stream rng.old)).1 }
    ensures bytes { IfOk result (λ body. IsBytes body.items) }
{
    rng.fill_bytes(buffer);
    Vec::from_slice(alloc, buffer)
}

/// Draws a body onto the front of the buffer, and asks for its memory then.
fn draw_body_onto<R: Rng>(
    alloc: Global,
    rng: &mut R,
    buffer: &mut [u8],
) -> Result<Vec<u8>, AllocError>
    requires { length buffer.old ≡ 99 }
    ensures value { IfOk result (λ body. body.items ≡ (drawn_body (R.stream rng.old)).0) }
    ensures rest { R.stream rng.new ≡ (drawn_body (R.stream rng.old)).1 }
    ensures bytes { IfOk result (λ body. IsBytes body.items) }
{
    let length = usize::from(draw_number(rng, 0, 99));
    body_drawn(alloc, rng, &mut buffer[..length])
}

/// Draws a body.
fn draw_body<R: Rng>(alloc: Global, rng: &mut R) -> Result<Vec<u8>, AllocError>
    ensures value { IfOk result (λ body. body.items ≡ (drawn_body (R.stream rng.old)).0) }
    ensures rest { R.stream rng.new ≡ (drawn_body (R.stream rng.old)).1 }
    ensures bytes { IfOk result (λ body. IsBytes body.items) }
{
    let mut buffer = [0; BODY_LEN];
    draw_body_onto(alloc, rng, &mut buffer)
}

/// Draws a tag.
fn draw_tag<R: Rng>(alloc: Global, rng: &mut R) -> Result<String, AllocError>
    ensures value { IfOk result (λ tag. string_bytes tag ≡ (drawn_string (R.stream rng.old)).0 ++ SUFFIX.now) }
    ensures rest { R.stream rng.new ≡ (drawn_string (R.stream rng.old)).1 }
{
    let mut tag = draw_string(alloc, rng)?;
    tag.push_str(SUFFIX)?;
    Ok(tag)
}

/// Draws a grease stanza: a tag of 1 to 8 characters and `-grease`, 0 to 4 arguments of 1 to 8
/// characters, and a body of 0 to 99 bytes.
///
/// `AllocError` comes at want of memory alone. All of the stanza is drawn then too, so that the random
/// source stands where it would have stood.
pub fn grease_the_joint<R: Rng>(alloc: Global, rng: &mut R) -> Result<Stanza, AllocError>
    ensures value { IfOk result (λ grease. stanza_of grease ≡ (drawn_grease (R.stream rng.old)).0) }
    ensures rest { R.stream rng.new ≡ (drawn_grease (R.stream rng.old)).1 }
    ensures bytes { IfOk result (λ grease. IsBytes grease.body.items) }
{
    let tag = draw_tag(alloc, rng);
    let args = draw_arguments(alloc, rng);
    let body = draw_body(alloc, rng);
    Ok(Stanza {
        tag: tag?,
        args: args?,
        body: body?,
    })
}

/// Rolls once: five of a hundred rolls make a grease stanza.
///
/// `AllocError` comes at want of memory alone, of a roll that makes grease. The random source stands
/// then where it would have stood.
pub fn roll<R: Rng>(alloc: Global, rng: &mut R) -> Result<Option<Stanza>, AllocError>
    ensures value { IfOk result (λ made. option_map stanza_of made ≡ (drawn_roll (R.stream rng.old)).0) }
    ensures rest { R.stream rng.new ≡ (drawn_roll (R.stream rng.old)).1 }
    ensures bytes { IfOk result (λ made. IfSome made (λ grease. IsBytes grease.body.items)) }
    ensures memory { OnErr result (IsSome (drawn_roll (R.stream rng.old)).0) }
{
    if draw_number(rng, 0, 99) >= CHANCE {
        return Ok(None);
    }
    Ok(Some(grease_the_joint(alloc, rng)?))
}
