//! SHA-256, SHA-384 and SHA-512 as hash functions of HMAC and HKDF.

ghost use Rattle.std.specs.Prelude.{◌≡◌};
ghost use Rattle.sha2.specs.Sha256.{sha256};
ghost use Rattle.sha2.specs.Sha512.{sha384, sha512};
ghost use Rattle.sha2.specs.Hashers.{Holds256, Holds384, Holds512};

use crate::hashing::{DigestBytes, HkdfHash};
use sha2::{Digest, Sha256, Sha384, Sha512};

/// SHA-256 (FIPS 180-4, section 6.2), of the crate `sha2`. The standard has digests for messages of
/// fewer than 2^61 bytes. A longer one is taken too: its padding ends with its length in bits modulo
/// 2^64.
#[derive(Drop)]
pub struct HashSha256 {
    hasher: Sha256,
}

impl HkdfHash for HashSha256 {
    const DIGEST_SIZE: usize = 32;

    const BLOCK_SIZE: usize = 64;

    ghost DIGEST_SIZE = { 32 };

    ghost BLOCK_SIZE = { 64 };

    ghost hash_of = { sha256 };

    ghost holds = { λ hash message. Holds256 hash.hasher message };

    fn start() -> HashSha256 {
        HashSha256 {
            hasher: Sha256::new(),
        }
    }

    fn update(&mut self, piece: &[u8]) {
        self.hasher.update(piece);
    }

    fn finish(self) -> DigestBytes {
        DigestBytes::from_slice(&self.hasher.finalize())
    }

    ghost use Rattle.std.proofs.Common.{rules, refl, inl, inr};
    ghost use Rattle.sha2.proofs.Facts256.{length-sha256};
    ghost use Rattle.hkdf_core.specs.private.Digests.{sha256_is_bytes};

    ghost digest_size_in_range = { Prim.search rules };

    ghost block_size_is_64_or_128 = { inl refl };

    ghost digest_has_its_size = { length-sha256 };

    ghost digest_is_bytes = { sha256_is_bytes };
}

/// SHA-384 (FIPS 180-4, section 6.5), of the crate `sha2`. The standard has digests for messages of
/// fewer than 2^125 bytes. A longer one is taken too: its padding ends with its length in bits modulo
/// 2^128.
#[derive(Drop)]
pub struct HashSha384 {
    hasher: Sha384,
}

impl HkdfHash for HashSha384 {
    const DIGEST_SIZE: usize = 48;

    const BLOCK_SIZE: usize = 128;

    ghost DIGEST_SIZE = { 48 };

    ghost BLOCK_SIZE = { 128 };

    ghost hash_of = { sha384 };

    ghost holds = { λ hash message. Holds384 hash.hasher message };

    fn start() -> HashSha384 {
        HashSha384 {
            hasher: Sha384::new(),
        }
    }

    fn update(&mut self, piece: &[u8]) {
        self.hasher.update(piece);
    }

    fn finish(self) -> DigestBytes {
        DigestBytes::from_slice(&self.hasher.finalize())
    }

    ghost use Rattle.std.proofs.Common.{rules, refl, inl, inr};
    ghost use Rattle.sha2.proofs.Facts512.{length-sha384};
    ghost use Rattle.hkdf_core.specs.private.Digests.{sha384_is_bytes};

    ghost digest_size_in_range = { Prim.search rules };

    ghost block_size_is_64_or_128 = { inr refl };

    ghost digest_has_its_size = { length-sha384 };

    ghost digest_is_bytes = { sha384_is_bytes };
}

/// SHA-512 (FIPS 180-4, section 6.4), of the crate `sha2`. The standard has digests for messages of
/// fewer than 2^125 bytes. A longer one is taken too: its padding ends with its length in bits modulo
/// 2^128.
#[derive(Drop)]
pub struct HashSha512 {
    hasher: Sha512,
}

impl HkdfHash for HashSha512 {
    const DIGEST_SIZE: usize = 64;

    const BLOCK_SIZE: usize = 128;

    ghost DIGEST_SIZE = { 64 };

    ghost BLOCK_SIZE = { 128 };

    ghost hash_of = { sha512 };

    ghost holds = { λ hash message. Holds512 hash.hasher message };

    fn start() -> HashSha512 {
        HashSha512 {
            hasher: Sha512::new(),
        }
    }

    fn update(&mut self, piece: &[u8]) {
        self.hasher.update(piece);
    }

    fn finish(self) -> DigestBytes {
        DigestBytes::from_slice(&self.hasher.finalize())
    }

    ghost use Rattle.std.proofs.Common.{rules, refl, inl, inr};
    ghost use Rattle.sha2.proofs.Facts512.{length-sha512};
    ghost use Rattle.hkdf_core.specs.private.Digests.{sha512_is_bytes};

    ghost digest_size_in_range = { Prim.search rules };

    ghost block_size_is_64_or_128 = { inr refl };

    ghost digest_has_its_size = { length-sha512 };

    ghost digest_is_bytes = { sha512_is_bytes };
}
