//! Authenticated encryption with associated data (RFC 9180, sections 4 and 7.3).

ghost use Rattle.std.specs.Prelude.{◌≡◌, ◌≤◌, ◌+◌, ◌↔◌, ◌++◌, ℕ, List, length, Option, None, Some, IsErr, OnOk, OnErr};
ghost use Rattle.hpke.specs.Schedule.{AeadAlgorithm};

use gcm_core::{NotAuthentic, TooLong};

/// The most bytes that a tag has.
pub const MAX_TAG_SIZE: usize = 32;

/// An AEAD under one key, with the tag apart. Contracts see a value as its key. A sealed text is the
/// ciphertext and then the tag.
pub trait BaseAead: Sized + Drop {
    /// How many bytes a key has: at most 64.
    const KEY_SIZE: usize;

    /// How many bytes a nonce has: 8 to 128.
    const NONCE_SIZE: usize;

    /// How many bytes a tag has: at most 32.
    const TAG_SIZE: usize;

    ghost KEY_SIZE: { ℕ };

    ghost NONCE_SIZE: { ℕ };

    ghost TAG_SIZE: { ℕ };

    /// The key that the value was made with.
    ghost key_of: { Self → List ℕ };

    /// What a text is sealed to under a key, nonce and associated data, or none.
    ghost seal_of: { List ℕ → List ℕ → List ℕ → List ℕ → Option (List ℕ) };

    /// What a sealed text opens to under a key, nonce and associated data, or none.
    ghost open_of: { List ℕ → List ℕ → List ℕ → List ℕ → Option (List ℕ) };

    /// The AEAD under this key of KEY_SIZE bytes.
    fn new(key: &[u8]) -> Self
        requires { length key.now ≡ KEY_SIZE }
        ensures { key_of result ≡ key.now };

    /// Seals the text in `buffer` in place: the ciphertext takes its place, and `tag` gets the tag.
    /// It takes a nonce of NONCE_SIZE bytes and a `tag` of TAG_SIZE bytes.
    ///
    /// It refuses exactly where `seal_of` is none, and leaves `buffer` and `tag` as they were.
    fn seal_in_place(
        &self,
        nonce: &[u8],
        aad: &[u8],
        buffer: &mut [u8],
        tag: &mut [u8],
    ) -> Result<(), TooLong>
        requires nonce_size { length nonce.now ≡ NONCE_SIZE }
        requires tag_size { length tag.old ≡ TAG_SIZE }
        ensures sealed { OnOk result (seal_of (key_of self.now) nonce.now aad.now buffer.old ≡ Some (buffer.new ++ tag.new)) }
        ensures refused { IsErr result ↔ (seal_of (key_of self.now) nonce.now aad.now buffer.old ≡ None) }
        ensures unchanged { OnErr result ((buffer.new ≡ buffer.old) × (tag.new ≡ tag.old)) };

    /// Opens the ciphertext in `buffer` in place: the text takes its place. It takes a nonce of
    /// NONCE_SIZE bytes and a tag of TAG_SIZE bytes.
    ///
    /// It refuses exactly where `open_of` is none, and leaves `buffer` as it was.
    fn open_in_place(
        &self,
        nonce: &[u8],
        aad: &[u8],
        buffer: &mut [u8],
        tag: &[u8],
    ) -> Result<(), NotAuthentic>
        requires nonce_size { length nonce.now ≡ NONCE_SIZE }
        requires tag_size { length tag.now ≡ TAG_SIZE }
        ensures opened { OnOk result (open_of (key_of self.now) nonce.now aad.now (buffer.old ++ tag.now) ≡ Some buffer.new) }
        ensures refused { IsErr result ↔ (open_of (key_of self.now) nonce.now aad.now (buffer.old ++ tag.now) ≡ None) }
        ensures unchanged { OnErr result (buffer.new ≡ buffer.old) };

    ghost key_size_in_range: { KEY_SIZE ≤ 64 };

    ghost nonce_size_in_range: { (8 ≤ NONCE_SIZE) × (NONCE_SIZE ≤ 128) };

    ghost tag_size_in_range: { TAG_SIZE ≤ 32 };

    // A sealed text opens to a text exactly where the text seals to it.
    ghost opens_what_was_sealed: { (key nonce aad text sealed : List ℕ)
        → (open_of key nonce aad sealed ≡ Some text) ↔ (seal_of key nonce aad text ≡ Some sealed) };

    // A sealed text is longer than the text by its tag.
    ghost sealed_size: { (key nonce aad text sealed : List ℕ) → seal_of key nonce aad text ≡ Some sealed
        → length sealed ≡ length text + TAG_SIZE };
}

/// An AEAD with its identifier.
pub trait Aead {
    /// The AEAD.
    type AeadImpl: BaseAead;

    /// The algorithm's identifier.
    const AEAD_ID: u16;

    ghost AEAD_ID: { ℕ };

    /// What the AEAD brings to a suite.
    ghost aead: { AeadAlgorithm };

    // It is made of the lengths of a key and a nonce and the identifier.
    ghost aead_is: { aead ≡ record {
      key_size = Self.AeadImpl.KEY_SIZE;
      nonce_size = Self.AeadImpl.NONCE_SIZE;
      aead_id = AEAD_ID;
    } };
}
