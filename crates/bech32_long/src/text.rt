//! Characters, their values, and the separator.

ghost use Rattle.std.specs.Prelude.{◌≡◌, ◌≢◌, ◌<◌, ◌==◌, ℕ, All, IfNone, IfOk, IfSome, length, map, not, position, slice_index, true};
ghost use Rattle.std.specs.List.{list_all};
ghost use Rattle.bech32_long.specs.Text.{character, is_character, value_of};

use std::alloc::{AllocError, Global};

/// The characters of the values 0 to 31.
const ALPHABET: [u8; 32] = *b"qpzry9x8gf2tvdw0s3jn54khce6mua7l";

/// What stands between the human-readable part and the values.
pub(crate) const SEPARATOR: u8 = b'1';

/// Turns values below 32 into their characters.
pub(crate) fn write_characters(values: &mut [u8])
    requires { All (λ v. v < 32) values.old }
    ensures { values.new ≡ map character values.old }
{
    for value in values.iter_mut() {
        *value = ALPHABET[*value as usize];
    }
}

// The first place of a character.
fn place_of(characters: &[u8], c: u8) -> Option<usize>
    ensures { result ≡ position (λ a. a == c) characters.now }
{
    characters.iter().position(|a| *a == c)
}

// The value of a character in either case, and 32 for others.
fn value_of(c: u8) -> u8
    ensures value { result ≡ value_of c }
    ensures bound { result < 33 }
{
    match place_of(&ALPHABET, c.to_ascii_lowercase()) {
        Some(value) => value as u8,
        None => 32,
    }
}

/// Whether the byte is a character of the alphabet, in either case.
fn is_character(c: &u8) -> bool
    ensures { result ≡ is_character c.now }
{
    value_of(*c) < 32
}

/// The place of the first byte that is no character of the alphabet.
pub(crate) fn first_bad(text: &[u8]) -> Option<usize>
    ensures { result ≡ position (λ c. not (is_character c)) text.now }
{
    text.iter().position(|c| !is_character(c))
}

/// The values of characters of the alphabet.
pub(crate) fn values_of(alloc: Global, text: &[u8]) -> Result<Vec<u8>, AllocError>
    requires { list_all is_character text.now ≡ true }
    ensures value { IfOk result (λ values. values.items ≡ map value_of text.now) }
    ensures bound { IfOk result (λ values. All (λ v. v < 32) values.items) }
{
    text.iter().map(|c| value_of(*c)).collect(alloc)
}

/// The place of the last separator.
pub(crate) fn last_separator(text: &[u8]) -> Option<usize>
    ensures found { IfSome result (λ at. (at < length text.now) × (slice_index text.now at ≡ 49)) }
    ensures last { IfSome result (λ at. (k : ℕ) → at < k → k < length text.now → slice_index text.now k ≢ 49) }
    ensures none { IfNone result (All (λ b. b ≢ 49) text.now) }
{
    text.iter().rposition(|b| *b == SEPARATOR)
}
