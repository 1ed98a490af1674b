//! Texts written and read.

ghost use Rattle.std.specs.Prelude.{◌≡◌, ◌<◌, ◌^◌, ◌+◌, ◌∷◌, ◌++◌, [], All, IfErr, IfOk, length, map, true};
ghost use Rattle.std.specs.List.{list_all};
ghost use Rattle.std.specs.Str.{IsUtf8};
ghost use Rattle.std.specs.String.{string_bytes};
ghost use Rattle.bech32_long.specs.Answers.{IsRefusal};
ghost use Rattle.bech32_long.specs.Text.{character, checked, encoding, encoding_len, is_character, reading, value_of, Read};
ghost use Rattle.bech32_long.specs.Groups.{group_count, groups};
ghost use Rattle.bech32_long.specs.Checksum.{checksum};

use crate::checksum::{self, CHECKSUM_LEN};
use crate::error::Bech32Error;
use crate::groups::{whole_bytes, write_groups};
use crate::hrp::{Hrp, is_mixed};
use crate::text::{SEPARATOR, first_bad, last_separator, values_of, write_characters};
use std::alloc::{AllocError, Global};

/// The length of the text of a part and of `n` bytes, for an `n` below 2^60.
pub fn encoded_len(hrp: &Hrp, n: usize) -> usize
    requires { n < 2 ^ 60 }
    ensures { result ≡ encoding_len (length hrp.now) n }
{
    hrp.as_bytes().len() + 1 + (8 * n + 4) / 5 + CHECKSUM_LEN
}

/// Writes the text of a part and of bytes: the part, `1`, the bits of the bytes in groups of five, and six
/// characters of checksum, all in lower case (BIP 173).
///
/// There are fewer than 2^60 bytes, and `out` has the length that [`encoded_len`] gives. What is written is a
/// text. No memory is taken.
pub fn encode_to_slice(hrp: &Hrp, bytes: &[u8], out: &mut [u8])
    requires fits { length bytes.now < 2 ^ 60 }
    requires room { length out.old ≡ encoding_len (length hrp.now) (length bytes.now) }
    ensures value { out.new ≡ encoding hrp.now bytes.now }
    ensures text { IsUtf8 out.new }
{
    let part = hrp.as_bytes();
    let (front, data) = out.split_at_mut(part.len() + 1);
    write_front(part, front);
    write_data(part, bytes, data);
}

// Writes the part and the separator.
fn write_front(part: &[u8], front: &mut [u8])
    requires { length front.old ≡ length part.now + 1 }
    ensures { front.new ≡ part.now ++ 49 ∷ [] }
{
    let at = part.len();
    front[..at].copy_from_slice(part);
    front[at] = SEPARATOR;
}

// Writes the characters of the bytes and of their checksum.
fn write_data(part: &[u8], bytes: &[u8], out: &mut [u8])
    requires fits { length bytes.now < 2 ^ 60 }
    requires room { length out.old ≡ group_count (length bytes.now) + 6 }
    ensures { out.new ≡ map character (groups bytes.now ++ checksum part.now (groups bytes.now)) }
{
    write_values(part, bytes, out);
    write_characters(out);
}

// Writes the groups of the bytes and their checksum as values.
fn write_values(part: &[u8], bytes: &[u8], out: &mut [u8])
    requires fits { length bytes.now < 2 ^ 60 }
    requires room { length out.old ≡ group_count (length bytes.now) + 6 }
    ensures value { out.new ≡ groups bytes.now ++ checksum part.now (groups bytes.now) }
    ensures bound { All (λ v. v < 32) out.new }
{
    let at = out.len() - CHECKSUM_LEN;
    write_groups(bytes, &mut out[..at]);
    let checksum = checksum::checksum(part, &out[..at]);
    out[at..].copy_from_slice(&checksum);
}

/// The text that [`encode_to_slice`] writes. There are fewer than 2^60 bytes.
pub fn encode(alloc: Global, hrp: &Hrp, bytes: &[u8]) -> Result<String, AllocError>
    requires { length bytes.now < 2 ^ 60 }
    ensures { IfOk result (λ text. string_bytes text ≡ encoding hrp.now bytes.now) }
{
    let mut text = vec![in alloc; 0; encoded_len(hrp, bytes.len())]?;
    encode_to_slice(hrp, bytes, &mut text);
    match String::from_utf8(text) {
        Ok(text) => Ok(text),
        Err(_) => unreachable!(),
    }
}

/// The human-readable part, in lower case, and the bytes of a text in either case (BIP 173, with no limit on
/// the length). Bits behind the last whole byte are dropped unchecked.
///
/// Refused, by the first that applies: no `1` (NoSeparator); what stands before the last `1` is no
/// human-readable part (BadHrp); ASCII letters of both cases in the whole text (MixedCase); behind the last
/// `1` a byte that is no character of the alphabet, by the place of the first such byte, counted from 0
/// (BadCharacter); fewer than six characters there, or another checksum (BadChecksum).
pub fn decode(alloc: Global, text: &str) -> Result<(Hrp, Vec<u8>), Bech32Error>
    ensures read { IfOk result (λ read. reading text.now ≡ Read read.0 read.1.items) }
    ensures refused { IfErr result (IsRefusal (reading text.now)) }
{
    let text = text.as_bytes();
    let Some(at) = last_separator(text) else {
        return Err(Bech32Error::NoSeparator);
    };
    let Ok(hrp) = Hrp::from_bytes(&text[..at]) else {
        return Err(Bech32Error::BadHrp);
    };
    if is_mixed(text) {
        return Err(Bech32Error::MixedCase);
    }
    let characters = &text[at + 1..];
    if let Some(place) = first_bad(characters) {
        return Err(Bech32Error::BadCharacter(at + 1 + place));
    }
    read_characters(alloc, hrp, characters)
}

// The part, and the bytes of the characters behind the separator.
fn read_characters(
    alloc: Global,
    hrp: Hrp,
    characters: &[u8],
) -> Result<(Hrp, Vec<u8>), Bech32Error>
    requires { list_all is_character characters.now ≡ true }
    ensures read { IfOk result (λ read. checked hrp (map value_of characters.now) ≡ Read read.0 read.1.items) }
    ensures refused { IfErr result (IsRefusal (checked hrp (map value_of characters.now))) }
{
    match checked_bytes(alloc, hrp.as_bytes(), characters) {
        Ok(bytes) => Ok((hrp, bytes)),
        Err(error) => Err(error),
    }
}

// The bytes of the characters behind the separator.
fn checked_bytes(alloc: Global, part: &[u8], characters: &[u8]) -> Result<Vec<u8>, Bech32Error>
    requires { list_all is_character characters.now ≡ true }
    ensures read { IfOk result (λ bytes. checked part.now (map value_of characters.now) ≡ Read part.now bytes.items) }
    ensures refused { IfErr result (IsRefusal (checked part.now (map value_of characters.now))) }
{
    let values = values_of(alloc, characters).map_err(|_| Bech32Error::NoMemory)?;
    if values.len() < CHECKSUM_LEN || !checksum::is_checked(part, &values) {
        return Err(Bech32Error::BadChecksum);
    }
    whole_bytes(alloc, &values[..values.len() - CHECKSUM_LEN]).map_err(|_| Bech32Error::NoMemory)
}
