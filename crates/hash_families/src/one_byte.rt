//! The family of hash functions whose PRF repeats one byte of its secret.

use kem_hash::{KemHash, Sha2Hash, XOF_BLOCK_SIZE};

// The bytes of a secret.
const SECRET_SIZE: u8 = 32;

/// The family whose PRF repeats byte b mod 32 of its secret. So all coefficients of a polynomial of noise
/// repeat, and the products of two such polynomials grow large.
pub struct OneByteHash;

impl KemHash for OneByteHash {
    ghost use Rattle.hash_families.specs.OneByte.{one_byte_family};
    ghost use Rattle.hash_families.specs.private.OneByteLaws.{one_byte_family-is_lawful};

    ghost family = { one_byte_family };

    fn g(a: &[u8], b: &[u8]) -> [u8; 64] {
        Sha2Hash::g(a, b)
    }

    fn h(x: &[u8]) -> [u8; 32] {
        Sha2Hash::h(x)
    }

    fn j(a: &[u8], b: &[u8]) -> [u8; 32] {
        Sha2Hash::j(a, b)
    }

    fn prf2(s: &[u8; 32], b: u8) -> [u8; 128] {
        [s[(b % SECRET_SIZE) as usize]; 128]
    }

    fn prf3(s: &[u8; 32], b: u8) -> [u8; 192] {
        [s[(b % SECRET_SIZE) as usize]; 192]
    }

    fn xof_block(rho: &[u8; 32], a: u8, b: u8, n: u8) -> [u8; XOF_BLOCK_SIZE] {
        Sha2Hash::xof_block(rho, a, b, n)
    }

    ghost is_lawful = { one_byte_family-is_lawful };
}
