//! The family of hash functions whose XOF repeats three bytes.

ghost use Rattle.std.specs.Prelude.{◌≡◌, length};
ghost use Rattle.std.specs.List.{flat_map, range_with_len};

use crate::pattern::Pattern;
use kem_hash::{KemHash, Sha2Hash, XOF_BLOCK_SIZE};
use std::marker::PhantomData;

/// The family whose XOF repeats the three bytes of a pattern 896 times, whatever it is asked for.
pub struct RepeatingHash<P: Pattern> {
    pattern: PhantomData<P>,
}

impl<P: Pattern> KemHash for RepeatingHash<P> {
    ghost use Rattle.hash_families.specs.Repeating.{repeating_family};
    ghost use Rattle.hash_families.specs.private.RepeatingLaws.{repeating_family-is_lawful};

    ghost family = { repeating_family P.bytes };

    fn g(a: &[u8], b: &[u8]) -> [u8; 64] {
        Sha2Hash::g(a, b)
    }

    fn h(x: &[u8]) -> [u8; 32] {
        Sha2Hash::h(x)
    }

    fn j(a: &[u8], b: &[u8]) -> [u8; 32] {
        Sha2Hash::j(a, b)
    }

    fn prf2(s: &[u8; 32], b: u8) -> [u8; 128] {
        Sha2Hash::prf2(s, b)
    }

    fn prf3(s: &[u8; 32], b: u8) -> [u8; 192] {
        Sha2Hash::prf3(s, b)
    }

    fn xof_block(_rho: &[u8; 32], _a: u8, _b: u8, _n: u8) -> [u8; XOF_BLOCK_SIZE] {
        let mut out = [0; XOF_BLOCK_SIZE];
        repeat::<P>(&mut out);
        out
    }

    ghost is_lawful = { repeating_family-is_lawful P.bytes P.are_bytes };
}

// Fills a block with the pattern.
fn repeat<P: Pattern>(out: &mut [u8])
    requires { length out.old ≡ 168 }
    ensures { out.new ≡ flat_map (λ i. P.bytes) (range_with_len 0 56) }
{
    for t in 0..56 {
        out[3 * t..3 * t + 3].copy_from_slice(&P::bytes());
    }
}
