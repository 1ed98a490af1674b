//! What the calls of any KEM, and of any value that is read, are refused with.

use hpke::{Deserializable, HpkeError, Kem};
use rand_chacha::ChaCha20Rng;
use rand_core::SeedableRng;
use std::alloc::Global;

/// What a derivation of keys is refused with.
pub fn derivation<K: Kem>(alloc: Global, ikm: &[u8]) -> Option<HpkeError> {
    K::derive_keypair(alloc, ikm).err()
}

/// What a value refuses bytes with.
pub fn reading<T: Deserializable + Drop>(alloc: Global, bytes: &[u8]) -> Option<HpkeError> {
    T::from_bytes(alloc, bytes).err()
}

/// What a draw of keys is refused with, and how many words of the generator are gone then.
pub fn drawing<K: Kem>(alloc: Global) -> (Option<HpkeError>, u128) {
    let mut csprng = ChaCha20Rng::from_seed([7; 32]);
    let drawn = K::gen_keypair(alloc, &mut csprng).err();
    (drawn, csprng.get_word_pos())
}
