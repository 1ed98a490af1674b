//! Laws of the definitions, each as the contract of a function that does nothing.

ghost use Rattle.std.specs.Prelude.{◌≡◌, ℕ, List, [], replicate};
ghost use Rattle.hkdf_core.specs.Hkdf.{extract};

use crate::derivation::MAX_OUTPUT_BLOCKS;
use crate::hashing::HkdfHash;
use crate::sha2_hashes::{HashSha256, HashSha384, HashSha512};

/// The sizes that the standards give: an output has at most 255 digests (RFC 5869, section 2.3).
pub fn most_output_blocks()
    ensures { MAX_OUTPUT_BLOCKS ≡ 255 }
{}

/// The bytes of a digest and of a block of SHA-256, SHA-384 and SHA-512 (FIPS 180-4, figure 1).
pub fn sizes_of_sha2()
    ensures sha256_digest { ⟦<HashSha256 as HkdfHash>⟧.DIGEST_SIZE ≡ 32 }
    ensures sha256_block { ⟦<HashSha256 as HkdfHash>⟧.BLOCK_SIZE ≡ 64 }
    ensures sha384_digest { ⟦<HashSha384 as HkdfHash>⟧.DIGEST_SIZE ≡ 48 }
    ensures sha384_block { ⟦<HashSha384 as HkdfHash>⟧.BLOCK_SIZE ≡ 128 }
    ensures sha512_digest { ⟦<HashSha512 as HkdfHash>⟧.DIGEST_SIZE ≡ 64 }
    ensures sha512_block { ⟦<HashSha512 as HkdfHash>⟧.BLOCK_SIZE ≡ 128 }
{}

/// No salt is DIGEST_SIZE zeros (RFC 5869, section 2.2): the empty salt extracts the same key.
pub fn empty_salt_is_zeros<T: HkdfHash>()
    ensures { (ikm : List ℕ) → extract T.hash_of T.BLOCK_SIZE [] ikm
        ≡ extract T.hash_of T.BLOCK_SIZE (replicate T.DIGEST_SIZE 0) ikm }
{}
