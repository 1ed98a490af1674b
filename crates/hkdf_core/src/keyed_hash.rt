//! HMAC: hashing for message authentication (RFC 2104).

ghost use Rattle.std.specs.Prelude.{◌≡◌, ℕ, List, [], ◌++◌, length};
ghost use Rattle.hkdf_core.specs.Hmac.{hmac, key_block};

use crate::hashing::{DigestBytes, HkdfHash};
use crate::key_block::KeyBlock;

// The byte that the pad of the inner hash repeats.
const IPAD: u8 = 0x36;

// The byte that the pad of the outer hash repeats.
const OPAD: u8 = 0x5c;

/// HMAC of a text that comes piece by piece.
#[derive(Drop)]
pub struct Hmac<T> {
    inner: T,
    outer: T,
}

impl<T: HkdfHash> Hmac<T> {
    ghost use Rattle.hkdf_core.specs.Fed.{HmacHolds};

    /// HMAC under a key of any length, with no text yet. A key that is longer than BLOCK_SIZE bytes
    /// is hashed first.
    pub fn new(key: &[u8]) -> Hmac<T>
        ensures { HmacHolds T.holds T.hash_of T.BLOCK_SIZE result key.now [] }
    {
        let block = KeyBlock::new(key);
        Hmac::with_block(&block)
    }

    // HMAC under the key of which this is the block, with no text yet.
    pub(crate) fn with_block(block: &KeyBlock<T>) -> Hmac<T>
        ensures { (key : List ℕ) → block.now ≡ key_block T.hash_of T.BLOCK_SIZE key
            → HmacHolds T.holds T.hash_of T.BLOCK_SIZE result key [] }
    {
        Hmac {
            inner: block.start_masked(IPAD),
            outer: block.start_masked(OPAD),
        }
    }

    /// Feeds the next piece of the text.
    pub fn update(&mut self, piece: &[u8])
        ensures { (key text : List ℕ) → HmacHolds T.holds T.hash_of T.BLOCK_SIZE self.old key text
            → HmacHolds T.holds T.hash_of T.BLOCK_SIZE self.new key (text ++ piece.now) }
    {
        self.inner.update(piece);
    }

    /// The HMAC of the pieces joined (RFC 2104, section 2): DIGEST_SIZE bytes.
    pub fn finalize(mut self) -> DigestBytes
        ensures code { (key text : List ℕ) → HmacHolds T.holds T.hash_of T.BLOCK_SIZE self key text
            → result ≡ hmac T.hash_of T.BLOCK_SIZE key text }
        ensures size { length result ≡ T.DIGEST_SIZE }
    {
        let digest = self.inner.finish();
        self.outer.update(digest.as_slice());
        self.outer.finish()
    }
}
