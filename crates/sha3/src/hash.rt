//! SHA3-256 and SHA3-512 (FIPS 202, section 6.1).

ghost use Rattle.std.specs.Prelude.{◌≡◌, ⊤, []};
ghost use Rattle.sha3.specs.Hashers.{Holds256, Holds512};
ghost use Rattle.sha3.specs.Sha3.{sha3_256, sha3_512};

use crate::sponge::Sponge;
use crate::squeeze::first_output;
use sha2::Digest;
use std::alloc::AllocError;
use std::convert::AsSlice;
use std::fmt;

/// The bits 01 behind a message that is hashed, and the first bit of the padding.
const HASH_DOMAIN: u8 = 0x06;

/// How many bytes a block of SHA3-256 has.
const RATE_256: usize = 136;

/// How many bytes a block of SHA3-512 has.
const RATE_512: usize = 72;

/// The hash function SHA3-256. No call takes memory.
#[derive(Drop)]
pub struct Sha3_256 {
    sponge: Sponge<RATE_256>,
}

impl Digest for Sha3_256 {
    type Output = [u8; 32];

    ghost holds = { λ s m. Holds256 s m };

    ghost digest_of = { λ m d. d ≡ sha3_256 m };

    ghost size = { 32 };

    fn output_size() -> usize {
        32
    }

    fn new() -> Sha3_256 {
        Sha3_256 {
            sponge: Sponge::new(),
        }
    }

    fn update<T: AsSlice<u8> + Drop>(&mut self, data: T) {
        self.sponge.update(data.as_slice());
    }

    fn finalize(self) -> [u8; 32] {
        let state = self.sponge.finish(HASH_DOMAIN);
        let mut digest = [0; 32];
        first_output::<RATE_256>(&state, &mut digest);
        digest
    }
}

impl Clone for Sha3_256 {
    ghost is_clone = { λ x y. y ≡ x };

    ghost is_infallible = { λ _. ⊤ };

    fn clone(&self) -> Result<Sha3_256, AllocError> {
        Ok(Sha3_256 {
            sponge: self.sponge.clone()?,
        })
    }
}

impl Default for Sha3_256 {
    ghost is_default = { λ s. Holds256 s [] };

    fn default() -> Sha3_256 {
        Sha3_256::new()
    }
}

impl fmt::Debug for Sha3_256 {
    fn fmt<W: fmt::Write>(&self, f: &mut fmt::Formatter<W>) -> fmt::Result {
        f.write_str("Sha3_256 { ... }")
    }
}

/// The hash function SHA3-512. No call takes memory.
#[derive(Drop)]
pub struct Sha3_512 {
    sponge: Sponge<RATE_512>,
}

impl Digest for Sha3_512 {
    type Output = [u8; 64];

    ghost holds = { λ s m. Holds512 s m };

    ghost digest_of = { λ m d. d ≡ sha3_512 m };

    ghost size = { 64 };

    fn output_size() -> usize {
        64
    }

    fn new() -> Sha3_512 {
        Sha3_512 {
            sponge: Sponge::new(),
        }
    }

    fn update<T: AsSlice<u8> + Drop>(&mut self, data: T) {
        self.sponge.update(data.as_slice());
    }

    fn finalize(self) -> [u8; 64] {
        let state = self.sponge.finish(HASH_DOMAIN);
        let mut digest = [0; 64];
        first_output::<RATE_512>(&state, &mut digest);
        digest
    }
}

impl Clone for Sha3_512 {
    ghost is_clone = { λ x y. y ≡ x };

    ghost is_infallible = { λ _. ⊤ };

    fn clone(&self) -> Result<Sha3_512, AllocError> {
        Ok(Sha3_512 {
            sponge: self.sponge.clone()?,
        })
    }
}

impl Default for Sha3_512 {
    ghost is_default = { λ s. Holds512 s [] };

    fn default() -> Sha3_512 {
        Sha3_512::new()
    }
}

impl fmt::Debug for Sha3_512 {
    fn fmt<W: fmt::Write>(&self, f: &mut fmt::Formatter<W>) -> fmt::Result {
        f.write_str("Sha3_512 { ... }")
    }
}
