//! Byte strings that are short enough to need no memory.

ghost use Rattle.std.specs.Prelude.{◌≡◌, ◌+◌, ◌-◌, ◌≤◌, ◌++◌, length};
ghost use Rattle.hpke.specs.Bytes.{xor_bytes};
ghost use Rattle.hpke.specs.Nonce.{nonce_of, padded_number};

use std::marker::Model;

/// The most bytes of a short byte string: those of the longest key schedule context, which is a
/// mode and two digests.
pub const MAX_SHORT: usize = 129;

/// At most [`MAX_SHORT`] bytes.
#[derive(Drop)]
pub struct ShortBytes {
    bytes: [u8; MAX_SHORT],
    len: usize,
}

impl Model for ShortBytes {
    ghost use Rattle.std.specs.Prelude.{ℕ, List, take, ◌≤◌};
    ghost use Rattle.hpke.specs.declared.short.TheConstants.{MAX_SHORT};

    ghost Value = { List ℕ };

    ghost view = { λ short. take short.len short.bytes };

    ghost invariant = { λ short. short.len ≤ MAX_SHORT };
}

impl ShortBytes {
    /// These bytes.
    pub fn from_slice(piece: &[u8]) -> ShortBytes
        requires { length piece.now ≤ MAX_SHORT }
        ensures { result ≡ piece.now }
    {
        let mut bytes = [0; MAX_SHORT];
        bytes[..piece.len()].copy_from_slice(piece);
        ShortBytes {
            bytes,
            len: piece.len(),
        }
    }

    /// The bytes with a piece appended.
    pub fn append(&mut self, piece: &[u8])
        requires { length self.old + length piece.now ≤ MAX_SHORT }
        ensures { self.new ≡ self.old ++ piece.now }
    {
        let end = self.len + piece.len();
        self.bytes[self.len..end].copy_from_slice(piece);
        self.len = end;
    }

    /// The bytes.
    pub fn as_slice(&self) -> &[u8]
        ensures { result.now ≡ self.now }
    {
        &self.bytes[..self.len]
    }
}

/// The nonce of the message of this number under a base nonce of at least 8 bytes (RFC 9180,
/// section 5.2).
pub fn nonce(base_nonce: &ShortBytes, number: u64) -> ShortBytes
    requires long_enough { 8 ≤ length base_nonce.now }
    requires short_enough { length base_nonce.now ≤ MAX_SHORT }
    ensures value { result ≡ nonce_of base_nonce.now number }
    ensures size { length result ≡ length base_nonce.now }
{
    let base = base_nonce.as_slice();
    let padded = padded_number(base.len(), number);
    let mut bytes = [0; MAX_SHORT];
    let nonce = &mut bytes[..base.len()];
    nonce.copy_from_slice(base);
    xor_in_place(nonce, padded.as_slice());
    ShortBytes::from_slice(nonce)
}

// The number in the last 8 of this many bytes, after zeros.
fn padded_number(len: usize, number: u64) -> ShortBytes
    requires long_enough { 8 ≤ len }
    requires short_enough { len ≤ MAX_SHORT }
    ensures value { result ≡ padded_number len number }
    ensures size { length result ≡ len }
{
    let zeros = [0; MAX_SHORT];
    let mut padded = ShortBytes::from_slice(&zeros[..len - 8]);
    padded.append(&number.to_be_bytes());
    padded
}

/// XORs another byte string of the same length into this one.
pub fn xor_in_place(bytes: &mut [u8], other: &[u8])
    requires { length bytes.old ≡ length other.now }
    ensures { bytes.new ≡ xor_bytes bytes.old other.now }
{
    for i in 0..bytes.len() {
        bytes[i] ^= other[i];
    }
}
