//! The family of hash functions that give zeros alone.

use kem_hash::{KemHash, XOF_BLOCK_SIZE};

/// The family whose functions give zeros, whatever they are asked for.
pub struct ZeroHash;

impl KemHash for ZeroHash {
    ghost use Rattle.hostile.specs.Zeros.{zero_family};
    ghost use Rattle.hostile.specs.private.ZerosLaws.{zero_family-is_lawful};

    ghost family = { zero_family };

    fn g(_a: &[u8], _b: &[u8]) -> [u8; 64] {
        [0; 64]
    }

    fn h(_x: &[u8]) -> [u8; 32] {
        [0; 32]
    }

    fn j(_a: &[u8], _b: &[u8]) -> [u8; 32] {
        [0; 32]
    }

    fn prf2(_s: &[u8; 32], _b: u8) -> [u8; 128] {
        [0; 128]
    }

    fn prf3(_s: &[u8; 32], _b: u8) -> [u8; 192] {
        [0; 192]
    }

    fn xof_block(_rho: &[u8; 32], _a: u8, _b: u8, _n: u8) -> [u8; XOF_BLOCK_SIZE] {
        [0; XOF_BLOCK_SIZE]
    }

    ghost is_lawful = { zero_family-is_lawful };
}
