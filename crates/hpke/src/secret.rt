//! The secret that an encapsulation gives both sides.

ghost use Rattle.std.specs.Prelude.{◌≡◌, ◌≤◌, ℕ, length};

use std::marker::{Model, PhantomData};

/// The most bytes that a secret has.
const MAX_SECRET: usize = 64;

/// How long the secrets of a KEM are.
pub trait SecretSize {
    /// How many bytes a secret has: at most 64.
    const N_SECRET: usize;

    ghost N_SECRET: { ℕ };

    /// How many bytes a secret has.
    fn secret_size() -> usize
        ensures { result ≡ N_SECRET }
    {
        Self::N_SECRET
    }

    ghost secret_within: { N_SECRET ≤ 64 };
}

/// The secret of an encapsulation by K: N_SECRET bytes.
#[derive(Drop)]
pub struct SharedSecret<K: SecretSize> {
    bytes: [u8; MAX_SECRET],
    len: usize,
    kem: PhantomData<K>,
}

impl<K: SecretSize> Model for SharedSecret<K> {
    ghost use Rattle.std.specs.Prelude.{◌≡◌, ◌≤◌, ℕ, List, take};

    ghost Value = { List ℕ };

    ghost view = { λ s. take s.len s.bytes };

    ghost invariant = { λ s. (s.len ≡ K.N_SECRET) × (s.len ≤ 64) };
}

impl<K: SecretSize> SharedSecret<K> {
    /// A secret of these N_SECRET bytes. It takes no memory.
    pub fn new(bytes: &[u8]) -> SharedSecret<K>
        requires { length bytes.now ≡ K.N_SECRET }
        ensures { result ≡ bytes.now }
    {
        let mut secret = [0; MAX_SECRET];
        secret[..bytes.len()].copy_from_slice(bytes);
        SharedSecret {
            bytes: secret,
            len: bytes.len(),
            kem: PhantomData,
        }
    }

    /// The bytes of the secret.
    pub fn as_slice(&self) -> &[u8]
        ensures bytes { result.now ≡ self.now }
        ensures size { length result.now ≡ K.N_SECRET }
    {
        &self.bytes[..self.len]
    }
}
