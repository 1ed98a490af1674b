//! Hints on high parts (FIPS 204, section 7.4).

ghost use Rattle.std.specs.Prelude.{◌≡◌, ◌<◌, ◌≤◌, unsigned_abs};
ghost use Rattle.dsa_ring.specs.Rounding.{make_hint, plus_signed, use_hint};

use crate::rounding::{Gamma2, decompose, high_bits};
use module_lattice::{Field, Field8380417};

/// MakeHint (algorithm 39): whether `z` changes the high part when it is added to `r` modulo 8380417,
/// for an `r` below 8380417 and a `z` from -4190208 to 4190208.
pub fn make_hint(z: i32, r: u32, gamma: Gamma2) -> bool
    requires number { r < 8380417 }
    requires magnitude { unsigned_abs z ≤ 4190208 }
    ensures { result ≡ make_hint gamma z r }
{
    high_bits(r, gamma) != high_bits(plus_signed(r, z), gamma)
}

/// UseHint (algorithm 40): the high part of `r`, or with a hint the one beside it, on the side to which
/// `r` was rounded, for an `r` below 8380417.
pub fn use_hint(hint: bool, r: u32, gamma: Gamma2) -> u32
    requires { r < 8380417 }
    ensures { result ≡ use_hint gamma hint r }
{
    let (high, low) = decompose(r, gamma);
    let count = gamma.high_count();
    if !hint {
        high
    } else if 0 < low {
        (high + 1) % count
    } else {
        (high + (count - 1)) % count
    }
}

// r + z modulo q.
fn plus_signed(r: u32, z: i32) -> u32
    requires number { r < 8380417 }
    requires magnitude { unsigned_abs z ≤ 4190208 }
    ensures value { result ≡ plus_signed r z }
    ensures within { result < 8380417 }
{
    let moved = r as i32 + z + Field8380417::Q as i32;
    moved as u32 % Field8380417::Q
}
