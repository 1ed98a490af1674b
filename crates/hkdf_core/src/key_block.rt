//! The key of HMAC as one block of its hash function (RFC 2104, section 2).

ghost use Rattle.std.specs.Prelude.{◌≡◌, ◌≤◌, List, ℕ, length, take};
ghost use Rattle.hkdf_core.specs.Hmac.{key_block, masked, zero_padded};

use crate::hashing::HkdfHash;
use std::marker::{Model, PhantomData};

// The longest block of a hash function in bytes: that of SHA-384 and SHA-512.
const MAX_BLOCK_SIZE: usize = 128;

// A key as one block of the hash function T. Only the first BLOCK_SIZE bytes count.
#[derive(Drop)]
pub struct KeyBlock<T: HkdfHash> {
    bytes: [u8; MAX_BLOCK_SIZE],
    hash: PhantomData<T>,
}

impl<T: HkdfHash> Model for KeyBlock<T> {
    ghost Value = { List ℕ };

    ghost view = { λ block. take T.BLOCK_SIZE block.bytes };
}

impl<T: HkdfHash> KeyBlock<T> {
    // The block of a key of any length: a longer key is hashed first.
    pub fn new(key: &[u8]) -> KeyBlock<T>
        ensures { result ≡ key_block T.hash_of T.BLOCK_SIZE key.now }
    {
        if key.len() > T::BLOCK_SIZE {
            let mut hasher = T::start();
            hasher.update(key);
            let digest = hasher.finish();
            KeyBlock::padded(digest.as_slice())
        } else {
            KeyBlock::padded(key)
        }
    }

    // A key that fits a block, with zeros appended.
    fn padded(key: &[u8]) -> KeyBlock<T>
        requires { length key.now ≤ T.BLOCK_SIZE }
        ensures { result ≡ zero_padded T.BLOCK_SIZE key.now }
    {
        let mut bytes = [0; MAX_BLOCK_SIZE];
        bytes[..key.len()].copy_from_slice(key);
        KeyBlock {
            bytes,
            hash: PhantomData,
        }
    }

    // A hasher that has been fed the block XOR the pad that repeats this byte.
    pub fn start_masked(&self, pad: u8) -> T
        ensures { T.holds result (masked pad self.now) }
    {
        let mut block = self.bytes;
        for byte in block.iter_mut() {
            *byte ^= pad;
        }
        let mut hasher = T::start();
        hasher.update(&block[..T::BLOCK_SIZE]);
        hasher
    }
}
