//! Each call of a family.

use hash_families::{OneByteHash, RepeatingHash, SmallAndFifty};
use kem_hash::{KemHash, Sha2Hash};

// A family to ask.
type Family = RepeatingHash<SmallAndFifty>;

// Whether a block is these three bytes again and again.
fn repeats(block: &[u8; 168], pattern: [u8; 3]) -> bool {
    (0..56).all(|t| &block[3 * t..3 * t + 3] == pattern.as_slice())
}

#[test]
fn blocks_repeat_the_pattern(rt: HostRuntime) {
    for n in [0, 15] {
        assert!(rt; repeats(&Family::xof_block(&[7; 32], 1, 2, n), [0x01, 0x20, 0x03]));
    }
}

// Whether the hashes of two families are the same.
fn hashes_agree<F: KemHash, O: KemHash>() -> bool {
    F::g(b"a", b"b") == O::g(b"a", b"b")
        && F::h(b"x") == O::h(b"x")
        && F::j(b"a", b"b") == O::j(b"a", b"b")
}

// Whether PRF is the same in two families.
fn prf_agrees<F: KemHash, O: KemHash>() -> bool {
    F::prf2(&[7; 32], 1) == O::prf2(&[7; 32], 1) && F::prf3(&[7; 32], 1) == O::prf3(&[7; 32], 1)
}

// Whether the last block of XOF is the same in two families.
fn xof_agrees<F: KemHash, O: KemHash>() -> bool {
    F::xof_block(&[7; 32], 1, 2, 15) == O::xof_block(&[7; 32], 1, 2, 15)
}

#[test]
fn other_functions_are_those_of_sha_2(rt: HostRuntime) {
    assert!(rt; hashes_agree::<Family, Sha2Hash>());
    assert!(rt; prf_agrees::<Family, Sha2Hash>());
}

#[test]
fn one_byte_of_the_secret_is_repeated(rt: HostRuntime) {
    let mut s = [7; 32];
    s[3] = 9;
    assert!(rt; OneByteHash::prf2(&s, 35) == [9; 128]);
    assert!(rt; OneByteHash::prf3(&s, 35) == [9; 192]);
    assert!(rt; OneByteHash::prf3(&s, 36) == [7; 192]);
}

#[test]
fn functions_beside_prf_are_those_of_sha_2(rt: HostRuntime) {
    assert!(rt; hashes_agree::<OneByteHash, Sha2Hash>());
    assert!(rt; xof_agrees::<OneByteHash, Sha2Hash>());
}
