//! The headers of both shapes, and where a text leaves a shape.

ghost use Rattle.std.specs.Prelude.{◌≡◌, ◌+◌, ◌^◌, ◌<◌, ◌≤◌, ◌++◌, IfErr, IfOk, Some, length};
ghost use Rattle.key_der.specs.Der.{opening};
ghost use Rattle.key_der.specs.Keys.{algorithm_identifier, private_header, public_header};
ghost use Rattle.key_der.specs.Reading.{first_difference, mismatch};

use crate::identifier::{OID_SIZE, oid};
use ml_kem::ParameterSet;

/// The bytes before a key, in either shape.
pub(crate) const HEADER_SIZE: usize = 22;

/// The bytes of a seed.
pub(crate) const SEED_SIZE: usize = 64;

// Identifier octets (X.690, section 8.1.2).
const INTEGER: u8 = 0x02;

const BIT_STRING: u8 = 0x03;

const OCTET_STRING: u8 = 0x04;

const OBJECT_IDENTIFIER: u8 = 0x06;

const SEQUENCE: u8 = 0x30;

// The context-specific tag 0 in the place of an octet string's.
const IMPLICIT_0: u8 = 0x80;

// Which says that two length octets follow (X.690, section 8.1.3.5).
const TWO_LENGTH_OCTETS: u8 = 0x82;

// The bytes of an object identifier with what stands before it, and of the sequence that holds it.
const ENCODED_OID_SIZE: usize = OID_SIZE + 2;

const ALGORITHM_SIZE: usize = ENCODED_OID_SIZE + 2;

// The bytes of a seed with what stands before it.
const ENCODED_SEED_SIZE: usize = SEED_SIZE + 2;

// The contents of a private key's sequence: the version, the algorithm, and the seed in its two strings.
const PRIVATE_CONTENTS_SIZE: usize = 3 + ALGORITHM_SIZE + 2 + ENCODED_SEED_SIZE;

/// The header of a private key.
pub(crate) fn private_header<P: ParameterSet>() -> [u8; HEADER_SIZE]
    ensures { result ≡ private_header P.set }
{
    let mut header = [0; HEADER_SIZE];
    write_parts(
        &[SEQUENCE, PRIVATE_CONTENTS_SIZE as u8, INTEGER, 1, 0],
        &algorithm_identifier::<P>(),
        &[OCTET_STRING, ENCODED_SEED_SIZE as u8],
        &[IMPLICIT_0, SEED_SIZE as u8],
        &mut header,
    );
    header
}

/// The header of a public key.
pub(crate) fn public_header<P: ParameterSet>() -> [u8; HEADER_SIZE]
    ensures { result ≡ public_header P.set }
{
    // The key, and before it the number of bits of its last byte that are unused.
    let contents = P::EK_SIZE + 1;
    let mut header = [0; HEADER_SIZE];
    write_parts(
        &long_opening(SEQUENCE, ALGORITHM_SIZE + 4 + contents),
        &algorithm_identifier::<P>(),
        &long_opening(BIT_STRING, contents),
        &[0],
        &mut header,
    );
    header
}

// The algorithm identifier of a parameter set.
fn algorithm_identifier<P: ParameterSet>() -> [u8; ALGORITHM_SIZE]
    ensures { result ≡ algorithm_identifier P.set }
{
    let mut identifier = [0; ALGORITHM_SIZE];
    write_parts(
        &[SEQUENCE, ENCODED_OID_SIZE as u8],
        &[OBJECT_IDENTIFIER, OID_SIZE as u8],
        &oid::<P>(),
        &[],
        &mut identifier,
    );
    identifier
}

// What stands before contents of 256 to 65535 bytes.
fn long_opening(identifier: u8, size: usize) -> [u8; 4]
    requires long { 256 ≤ size }
    requires short { size < 2 ^ 16 }
    ensures { result ≡ opening identifier size }
{
    [
        identifier,
        TWO_LENGTH_OCTETS,
        (size / 256) as u8,
        (size % 256) as u8,
    ]
}

// Writes four texts, one behind the other.
fn write_parts(first: &[u8], second: &[u8], third: &[u8], fourth: &[u8], out: &mut [u8])
    requires { length out.old ≡ length first.now + length second.now + length third.now + length fourth.now }
    ensures { out.new ≡ first.now ++ second.now ++ third.now ++ fourth.now }
{
    let (front, back) = out.split_at_mut(first.len() + second.len());
    write_two(first, second, front);
    write_two(third, fourth, back);
}

// Writes two texts, one behind the other.
fn write_two(first: &[u8], second: &[u8], out: &mut [u8])
    requires { length out.old ≡ length first.now + length second.now }
    ensures { out.new ≡ first.now ++ second.now }
{
    let end = first.len();
    out[..end].copy_from_slice(first);
    out[end..].copy_from_slice(second);
}

/// The key of a text: the `size` bytes behind the header. Where the text has another shape, the place of
/// the first byte that isn't the header's, or else the smaller of the text's length and the due one.
pub(crate) fn key_behind<'a>(
    header: &[u8; HEADER_SIZE],
    size: usize,
    text: &'a [u8],
) -> Result<&'a [u8], usize>
    requires { size < 2 ^ 16 }
    ensures whole { IfOk result (λ key. text.now ≡ header.now ++ key.now) }
    ensures size { IfOk result (λ key. length key.now ≡ size) }
    ensures place { IfErr result (λ place. mismatch header.now size text.now ≡ Some place) }
{
    if let Some(place) = first_difference(header, text) {
        return Err(place);
    }
    let due = HEADER_SIZE + size;
    if text.len() != due {
        return Err(due.min(text.len()));
    }
    Ok(&text[HEADER_SIZE..])
}

// The first place at which both texts have a byte, and not the same one.
fn first_difference(header: &[u8], text: &[u8]) -> Option<usize>
    ensures { result ≡ first_difference header.now text.now }
{
    for i in 0..header.len().min(text.len()) {
        if header[i] != text[i] {
            return Some(i);
        }
    }
    None
}
