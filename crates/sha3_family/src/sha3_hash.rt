//! The family of hash functions that FIPS 203 names.

ghost use Rattle.std.specs.Prelude.{◌≡◌, ◌++◌, [], ◌∷◌, length};
ghost use Rattle.sha3.specs.Hashers.{Gave128};
ghost use Rattle.sha3.specs.Sha3.{shake256};

use kem_hash::{KemHash, XOF_BLOCK_SIZE};
use sha3::{
    Digest, ExtendableOutput, Sha3_256, Sha3_512, Shake128, Shake128Reader, Shake256, XofReader,
};

/// The family of hash functions of FIPS 203, section 4.1, where `‖` joins:
///
/// - G(x) is SHA3-512(x), H(x) is SHA3-256(x), and J(x) is the first 32 bytes of SHAKE256(x).
/// - PRF is the first 64·eta bytes of SHAKE256(s ‖ b).
/// - XOF is SHAKE128(rho ‖ a ‖ b), of which 2688 bytes are 16 blocks.
#[derive(Clone, Copy, Debug, Default, PartialEq, Eq)]
pub struct Sha3Hash;

impl KemHash for Sha3Hash {
    ghost use Rattle.sha3_family.specs.Sha3Family.{sha3_family};
    ghost use Rattle.sha3_family.specs.private.Sha3Laws.{sha3_family-is_lawful};

    ghost family = { sha3_family };

    fn g(a: &[u8], b: &[u8]) -> [u8; 64] {
        let mut hasher = Sha3_512::new();
        hasher.update(a);
        hasher.update(b);
        hasher.finalize()
    }

    fn h(x: &[u8]) -> [u8; 32] {
        Sha3_256::digest(x)
    }

    fn j(a: &[u8], b: &[u8]) -> [u8; 32] {
        let mut out = [0; 32];
        fill_shake256(a, b, &mut out);
        out
    }

    fn prf2(s: &[u8; 32], b: u8) -> [u8; 128] {
        let mut out = [0; 128];
        fill_prf(s, b, &mut out);
        out
    }

    fn prf3(s: &[u8; 32], b: u8) -> [u8; 192] {
        let mut out = [0; 192];
        fill_prf(s, b, &mut out);
        out
    }

    fn xof_block(rho: &[u8; 32], a: u8, b: u8, n: u8) -> [u8; XOF_BLOCK_SIZE] {
        let mut reader = xof_reader(rho, a, b);
        let mut out = [0; XOF_BLOCK_SIZE];
        for _block in 0..n {
            reader.read(&mut out);
        }
        reader.read(&mut out);
        out
    }

    fn xof_blocks(rho: &[u8; 32], a: u8, b: u8, out: &mut [u8]) {
        xof_reader(rho, a, b).read(out);
    }

    ghost is_lawful = { sha3_family-is_lawful };
}

// The first bytes of SHAKE256 of a secret and a byte, as many as `out` has.
fn fill_prf(s: &[u8; 32], b: u8, out: &mut [u8])
    ensures { out.new ≡ shake256 (s.now ++ b ∷ []) (length out.old) }
{
    fill_shake256(s, &[b], out);
}

// The first bytes of SHAKE256 of two pieces joined, as many as `out` has.
fn fill_shake256(a: &[u8], b: &[u8], out: &mut [u8])
    ensures { out.new ≡ shake256 (a.now ++ b.now) (length out.old) }
{
    let mut function = Shake256::new();
    function.update(a);
    function.update(b);
    function.finalize_xof().read(out);
}

// XOF for a seed and two bytes, of which nothing was read.
fn xof_reader(rho: &[u8; 32], a: u8, b: u8) -> Shake128Reader
    ensures { Gave128 result (rho.now ++ a ∷ b ∷ []) 0 }
{
    let mut function = Shake128::new();
    function.update(rho);
    function.update(&[a, b]);
    function.finalize_xof()
}
