//! Finite fields of the integers modulo a prime, with their reductions.

ghost use Rattle.std.specs.Prelude.{◌≡◌, ◌*◌, ◌+◌, ◌-◌, ◌%◌, ◌^◌, ◌<◌, ◌≤◌, ℕ, nat_lt, if◌then◌else◌};

use std::fmt::Debug;

/// The integers modulo Q, for a Q that is at least 2 and below 2^31.
pub trait Field: Copy + Default + Debug + PartialEq + Sized {
    /// The modulus.
    const Q: u32;

    /// The modulus, for products of two numbers.
    const QL: u64;

    /// The modulus, for products of three numbers.
    const QLL: u128;

    /// How far Barrett reduction shifts, in bits.
    const BARRETT_SHIFT: usize;

    /// The multiplier of Barrett reduction: 2^BARRETT_SHIFT / Q, rounded down.
    const BARRETT_MULTIPLIER: u128;

    /// The greatest number that `barrett_reduce` takes. It is at least (Q - 1)^2.
    const BARRETT_LIMIT: u64;

    ghost Q: { ℕ };

    ghost QL: { ℕ };

    ghost QLL: { ℕ };

    ghost BARRETT_SHIFT: { ℕ };

    ghost BARRETT_MULTIPLIER: { ℕ };

    ghost BARRETT_LIMIT: { ℕ };

    /// `x` for an `x` below Q, and `x` minus Q for others: below Q where `x` is below 2·Q.
    fn small_reduce(x: u32) -> u32
        ensures { result ≡ (if nat_lt x Q then x else x - Q) };

    /// `x` modulo Q, for an `x` of at most BARRETT_LIMIT.
    fn barrett_reduce(x: u64) -> u32
        requires { x ≤ BARRETT_LIMIT }
        ensures { result ≡ x % Q };

    ghost at_least_two: { 2 ≤ Q };

    ghost sums_fit: { 2 * Q < 2 ^ 32 };

    ghost same_modulus: { (QL ≡ Q) × (QLL ≡ Q) };

    ghost products_within: { (Q - 1) * (Q - 1) ≤ BARRETT_LIMIT };
}

// The bits that Barrett reduction modulo 3329 drops before its product, which is then below 2^32 for
// every number up to BARRETT_LIMIT. The remainder stays below 2·Q.
const DROPPED_BITS: usize = 5;

/// The field of ML-KEM (FIPS 203, section 2.3).
#[derive(Clone, Copy, Debug, Default, PartialEq, Eq)]
pub struct BaseField;

impl Field for BaseField {
    const Q: u32 = 3329;

    const QL: u64 = 3329;

    const QLL: u128 = 3329;

    const BARRETT_SHIFT: usize = 24;

    const BARRETT_MULTIPLIER: u128 = 5039;

    const BARRETT_LIMIT: u64 = 22151168;

    ghost Q = { 3329 };

    ghost QL = { 3329 };

    ghost QLL = { 3329 };

    ghost BARRETT_SHIFT = { 24 };

    ghost BARRETT_MULTIPLIER = { 5039 };

    ghost BARRETT_LIMIT = { 22151168 };

    ghost use Rattle.std.proofs.Common.{rules};

    ghost at_least_two = { Prim.search rules };

    ghost sums_fit = { Prim.search rules };

    ghost same_modulus = { Prim.search rules };

    ghost products_within = { Prim.search rules };

    fn small_reduce(x: u32) -> u32 {
        small_reduce(x, Self::Q)
    }

    // In words of 32 bits: processors multiply four of them at once, but few of 64 bits.
    fn barrett_reduce(x: u64) -> u32 {
        let x = x as u32;
        let product = (x >> DROPPED_BITS) * Self::BARRETT_MULTIPLIER as u32;
        let quotient = product >> (Self::BARRETT_SHIFT - DROPPED_BITS);
        Self::small_reduce(x - quotient * Self::Q)
    }
}

/// The field of ML-DSA (FIPS 204, section 2.3).
#[derive(Clone, Copy, Debug, Default, PartialEq, Eq)]
pub struct Field8380417;

impl Field for Field8380417 {
    const Q: u32 = 8380417;

    const QL: u64 = 8380417;

    const QLL: u128 = 8380417;

    const BARRETT_SHIFT: usize = 46;

    const BARRETT_MULTIPLIER: u128 = 8396807;

    const BARRETT_LIMIT: u64 = 140462744666112;

    ghost Q = { 8380417 };

    ghost QL = { 8380417 };

    ghost QLL = { 8380417 };

    ghost BARRETT_SHIFT = { 46 };

    ghost BARRETT_MULTIPLIER = { 8396807 };

    ghost BARRETT_LIMIT = { 140462744666112 };

    ghost use Rattle.std.proofs.Common.{rules};

    ghost at_least_two = { Prim.search rules };

    ghost sums_fit = { Prim.search rules };

    ghost same_modulus = { Prim.search rules };

    ghost products_within = { Prim.search rules };

    fn small_reduce(x: u32) -> u32 {
        small_reduce(x, Self::Q)
    }

    fn barrett_reduce(x: u64) -> u32 {
        let product = u128::from(x) * Self::BARRETT_MULTIPLIER;
        let quotient = product >> Self::BARRETT_SHIFT;
        let remainder = u128::from(x) - quotient * Self::QLL;
        Self::small_reduce(remainder as u32)
    }
}

// One subtraction of `q` at most: of an `x` below `q` the difference wraps, and is the greater.
pub(crate) fn small_reduce(x: u32, q: u32) -> u32
    ensures { result ≡ (if nat_lt x q then x else x - q) }
{
    x.min(x.wrapping_sub(q))
}
