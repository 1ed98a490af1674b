//! AES-GCM under one key: a key schedule with its hash subkey, for keys of any length that AES has.

ghost use Rattle.std.specs.Prelude.{◌≡◌, ◌≢◌, ◌↔◌, ◌⊎◌, ◌+◌, ◌-◌, ◌*◌, ◌%◌, ◌^◌, ◌<◌, ◌≤◌, ◌++◌, ℕ, IsErr, List, None, OnErr, OnOk, Some, length, replicate, take};
ghost use Rattle.gcm_core.specs.Aes.{aes, key_expansion};
ghost use Rattle.gcm_core.specs.Gcm.{open_of, seal_of, tag_of};
ghost use Rattle.gcm_core.specs.Ghash.{polynomial_of};

use crate::aes::expand_key;
use crate::error::{NotAuthentic, TooLong};
use crate::gcm::{hash_subkey, open, seal};
use crate::hash_key::HashKey;
use std::marker::Model;

/// AES-128-GCM: keys of 16 bytes, of which come 11 round keys.
pub type AesGcm128Impl = AesGcm<16, 176>;

/// AES-256-GCM: keys of 32 bytes, of which come 15 round keys.
pub type AesGcm256Impl = AesGcm<32, 240>;

/// AES-GCM under one key of KEY_SIZE bytes, with nonces of 12 bytes and tags of 16 (NIST SP 800-38D).
/// Its round keys are N bytes, 4 · KEY_SIZE + 112. Contracts see a value as its key. No call takes
/// memory.
#[derive(Drop)]
pub struct AesGcm<const KEY_SIZE: usize, const N: usize> {
    round_keys: [u8; N],
    hash_key: HashKey,
}

impl<const KEY_SIZE: usize, const N: usize> Model for AesGcm<KEY_SIZE, N> {
    ghost Value = { List ℕ };

    ghost view = { λ s. take KEY_SIZE s.round_keys };

    ghost invariant = { λ s. (s.round_keys ≡ key_expansion (take KEY_SIZE s.round_keys))
        × (s.hash_key ≡ polynomial_of (aes (take KEY_SIZE s.round_keys) (replicate 16 0)))
        × (176 ≤ N) };
}

impl<const KEY_SIZE: usize, const N: usize> AesGcm<KEY_SIZE, N> {
    /// The AEAD under a key of 16, 24 or 32 bytes. The key schedule and the hash subkey are made here,
    /// once.
    pub fn new(key: &[u8; KEY_SIZE]) -> Self
        requires least { 16 ≤ KEY_SIZE }
        requires most { KEY_SIZE ≤ 32 }
        requires whole { KEY_SIZE % 4 ≡ 0 }
        requires room { N ≡ 4 * KEY_SIZE + 112 }
        ensures { result ≡ key.now }
    {
        let mut round_keys = [0; N];
        expand_key(key, &mut round_keys);
        let hash_key = HashKey::new(hash_subkey(&round_keys));
        AesGcm {
            round_keys,
            hash_key,
        }
    }

    /// Seals the text in `buf` in place: the ciphertext takes its place, and `tag` gets the tag
    /// (GCM-AE, section 7.1). `TooLong` comes exactly for a text longer than 2^36 - 32 bytes or
    /// associated data longer than 2^60 bytes, and leaves `buf` and `tag` as they were. A nonce
    /// is used once under a key.
    pub fn seal_in_place(
        &self,
        nonce: &[u8; 12],
        aad: &[u8],
        buf: &mut [u8],
        tag: &mut [u8; 16],
    ) -> Result<(), TooLong>
        ensures sealed { OnOk result
            (seal_of self.now nonce.now aad.now buf.old ≡ Some (buf.new ++ tag.new)) }
        ensures refused { IsErr result ↔ (seal_of self.now nonce.now aad.now buf.old ≡ None) }
        ensures too_long { IsErr result
            ↔ ((2 ^ 36 - 32 < length buf.old) ⊎ (2 ^ 60 < length aad.now)) }
        ensures unchanged { OnErr result ((buf.new ≡ buf.old) × (tag.new ≡ tag.old)) }
    {
        seal(&self.round_keys, &self.hash_key, nonce, aad, buf, tag)
    }

    /// Opens the ciphertext in `buf` in place: the text takes its place (GCM-AD, section 7.2).
    /// `NotAuthentic` comes exactly where a length passes the limit that it has in sealing, or
    /// `tag` is not the tag, and leaves `buf` as it was.
    pub fn open_in_place(
        &self,
        nonce: &[u8; 12],
        aad: &[u8],
        buf: &mut [u8],
        tag: &[u8; 16],
    ) -> Result<(), NotAuthentic>
        ensures opened { OnOk result
            (open_of self.now nonce.now aad.now (buf.old ++ tag.now) ≡ Some buf.new) }
        ensures refused { IsErr result
            ↔ (open_of self.now nonce.now aad.now (buf.old ++ tag.now) ≡ None) }
        ensures not_authentic { IsErr result
            ↔ ((2 ^ 36 - 32 < length buf.old) ⊎ (2 ^ 60 < length aad.now)
            ⊎ (tag.now ≢ tag_of (aes self.now) nonce.now aad.now buf.old)) }
        ensures unchanged { OnErr result (buf.new ≡ buf.old) }
    {
        open(&self.round_keys, &self.hash_key, nonce, aad, buf, tag)
    }
}
