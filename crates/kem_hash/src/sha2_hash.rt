//! The family of hash functions that stands on SHA-2.

ghost use Rattle.std.specs.Prelude.{◌≡◌, ◌*◌, ◌/◌, ◌%◌, ◌<◌, ◌≤◌, ◌++◌, ◌∷◌, length};
ghost use Rattle.std.specs.List.{flat_map, range_with_len};
ghost use Rattle.sha2.specs.Sha256.{sha256};
ghost use Rattle.kem_hash.specs.Sha2.{prf_digest, xof_digest};

use crate::family::{KemHash, XOF_BLOCK_SIZE};
use sha2::{Digest, Sha224, Sha256, Sha512};

// The letters that begin what each function hashes: no two functions hash one text.
const LETTER_G: u8 = b'G';

const LETTER_H: u8 = b'H';

const LETTER_J: u8 = b'J';

const LETTER_P: u8 = b'P';

const LETTER_X: u8 = b'X';

// The bytes of a SHA-224 digest.
const SHA224_SIZE: usize = 28;

// The bytes of a SHA-256 digest.
const SHA256_SIZE: usize = 32;

// The digests in a block of XOF.
const BLOCK_DIGESTS: usize = 6;

/// The family of hash functions that stands on SHA-2 (FIPS 180-4). Every text begins with a letter of
/// its function, `‖` joins, and `c` is the number of a digest in one byte:
///
/// - G(x) is SHA-512(`G` ‖ x), H(x) is SHA-256(`H` ‖ x) and J(x) is SHA-256(`J` ‖ x).
/// - PRF joins SHA-256(`P` ‖ s ‖ b ‖ c) for c from 0 to 2·eta - 1.
/// - XOF joins SHA-224(`X` ‖ rho ‖ a ‖ b ‖ c) for c from 0 to 95, six of them in each block.
#[derive(Clone, Copy, Debug, Default, PartialEq, Eq)]
pub struct Sha2Hash;

impl KemHash for Sha2Hash {
    ghost use Rattle.kem_hash.specs.Sha2.{sha2_family};
    ghost use Rattle.kem_hash.specs.private.Sha2Laws.{sha2_family-is_lawful};

    ghost family = { sha2_family };

    fn g(a: &[u8], b: &[u8]) -> [u8; 64] {
        let mut hasher = Sha512::new();
        hasher.update(&[LETTER_G]);
        hasher.update(a);
        hasher.update(b);
        hasher.finalize()
    }

    fn h(x: &[u8]) -> [u8; 32] {
        sha256_of(LETTER_H, x, &[])
    }

    fn j(a: &[u8], b: &[u8]) -> [u8; 32] {
        sha256_of(LETTER_J, a, b)
    }

    fn prf2(s: &[u8; 32], b: u8) -> [u8; 128] {
        let mut out = [0; 128];
        fill_prf(s, b, &mut out);
        out
    }

    fn prf3(s: &[u8; 32], b: u8) -> [u8; 192] {
        let mut out = [0; 192];
        fill_prf(s, b, &mut out);
        out
    }

    fn xof_block(rho: &[u8; 32], a: u8, b: u8, n: u8) -> [u8; XOF_BLOCK_SIZE] {
        let mut out = [0; XOF_BLOCK_SIZE];
        fill_block(rho, a, b, n, &mut out);
        out
    }

    ghost is_lawful = { sha2_family-is_lawful };
}

// SHA-256 of a letter and two texts.
fn sha256_of(letter: u8, a: &[u8], b: &[u8]) -> [u8; SHA256_SIZE]
    ensures { result ≡ sha256 (letter ∷ a.now ++ b.now) }
{
    let mut hasher = Sha256::new();
    hasher.update(&[letter]);
    hasher.update(a);
    hasher.update(b);
    hasher.finalize()
}

// The digests of PRF, as many as fill `out`.
fn fill_prf(s: &[u8; 32], b: u8, out: &mut [u8])
    requires short { length out.old ≤ 192 }
    requires whole { length out.old % 32 ≡ 0 }
    ensures { out.new ≡ flat_map (prf_digest s.now b) (range_with_len 0 (length out.old / 32)) }
{
    for c in 0..out.len() / SHA256_SIZE {
        let start = SHA256_SIZE * c;
        let digest = sha256_of(LETTER_P, s, &[b, c as u8]);
        out[start..start + SHA256_SIZE].copy_from_slice(&digest);
    }
}

// The six digests of block `n` of XOF.
fn fill_block(rho: &[u8; 32], a: u8, b: u8, n: u8, out: &mut [u8])
    requires block { n < 16 }
    requires room { length out.old ≡ 168 }
    ensures { out.new ≡ flat_map (xof_digest rho.now a b) (range_with_len (6 * n) 6) }
{
    for k in 0..BLOCK_DIGESTS {
        let start = SHA224_SIZE * k;
        let digest = xof_digest(rho, a, b, BLOCK_DIGESTS as u8 * n + k as u8);
        out[start..start + SHA224_SIZE].copy_from_slice(&digest);
    }
}

// Digest `c` of XOF.
fn xof_digest(rho: &[u8; 32], a: u8, b: u8, c: u8) -> [u8; SHA224_SIZE]
    ensures { result ≡ xof_digest rho.now a b c }
{
    let mut hasher = Sha224::new();
    hasher.update(&[LETTER_X]);
    hasher.update(rho);
    hasher.update(&[a, b, c]);
    hasher.finalize()
}
