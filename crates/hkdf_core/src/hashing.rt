//! What HMAC and HKDF ask of a hash function, and its digests.

ghost use Rattle.std.specs.Prelude.{◌≡◌, ◌<◌, ◌≤◌, ◌⊎◌, ℕ, List, [], ◌++◌, length, All};

use std::marker::Model;

/// The most bytes that a digest may have: those of SHA-512.
pub const MAX_DIGEST_SIZE: usize = 64;

/// A digest of at most [`MAX_DIGEST_SIZE`] bytes.
#[derive(Drop)]
pub struct DigestBytes {
    bytes: [u8; MAX_DIGEST_SIZE],
    len: usize,
}

impl Model for DigestBytes {
    ghost use Rattle.std.specs.Prelude.{ℕ, List, take, ◌≤◌};
    ghost use Rattle.hkdf_core.specs.declared.hashing.TheConstants.{MAX_DIGEST_SIZE};

    ghost Value = { List ℕ };

    ghost view = { λ digest. take digest.len digest.bytes };

    ghost invariant = { λ digest. digest.len ≤ MAX_DIGEST_SIZE };
}

impl DigestBytes {
    /// These bytes as a digest, for an implementation of [`HkdfHash`].
    pub fn from_slice(bytes: &[u8]) -> DigestBytes
        requires { length bytes.now ≤ MAX_DIGEST_SIZE }
        ensures { result ≡ bytes.now }
    {
        let mut digest = [0; MAX_DIGEST_SIZE];
        digest[..bytes.len()].copy_from_slice(bytes);
        DigestBytes {
            bytes: digest,
            len: bytes.len(),
        }
    }

    /// The bytes of the digest.
    pub fn as_slice(&self) -> &[u8]
        ensures { result.now ≡ self.now }
    {
        &self.bytes[..self.len]
    }
}

/// A hash function whose hasher takes a message piece by piece. `hash_of` is the function: it gives
/// each message its digest. `holds` says which message a hasher has been fed.
pub trait HkdfHash: Sized + Drop {
    ghost use Rattle.hkdf_core.specs.declared.hashing.TheConstants.{MAX_DIGEST_SIZE};

    /// The length of a digest in bytes: 1 to 64.
    const DIGEST_SIZE: usize;

    /// The length in bytes of the blocks that the function works on: 64 or 128.
    const BLOCK_SIZE: usize;

    ghost DIGEST_SIZE: { ℕ };

    ghost BLOCK_SIZE: { ℕ };

    // The digest of a message.
    ghost hash_of: { List ℕ → List ℕ };

    // The hasher has been fed this message.
    ghost holds: { Self → List ℕ → Type 0 };

    /// A hasher that has been fed nothing.
    fn start() -> Self
        ensures { holds result [] };

    /// Feeds the next piece of the message.
    fn update(&mut self, piece: &[u8])
        ensures { (message : List ℕ) → holds self.old message
            → holds self.new (message ++ piece.now) };

    /// The digest of the pieces joined: DIGEST_SIZE bytes.
    fn finish(self) -> DigestBytes
        ensures digest { (message : List ℕ) → holds self message → result ≡ hash_of message }
        ensures size { length result ≡ DIGEST_SIZE };

    ghost digest_size_in_range: { (1 ≤ DIGEST_SIZE) × (DIGEST_SIZE ≤ MAX_DIGEST_SIZE) };

    ghost block_size_is_64_or_128: { (BLOCK_SIZE ≡ 64) ⊎ (BLOCK_SIZE ≡ 128) };

    ghost digest_has_its_size: { (message : List ℕ) → length (hash_of message) ≡ DIGEST_SIZE };

    ghost digest_is_bytes: { (message : List ℕ) → All (λ byte. byte < 256) (hash_of message) };
}
