//! Pieces of 32 bytes: seeds, hashes and keys, taken apart, copied and joined.

ghost use Rattle.std.specs.Prelude.{◌≡◌, ◌+◌, ◌++◌, drop, length, take};

use crate::parameters::{B32, Seed};

/// The two halves of 64 bytes.
pub(crate) fn halves(bytes: &[u8; 64]) -> (B32, B32)
    ensures first { result.0 ≡ take 32 bytes.now }
    ensures second { result.1 ≡ drop 32 bytes.now }
{
    let mut first = [0; 32];
    first.copy_from_slice(&bytes[..32]);
    let mut second = [0; 32];
    second.copy_from_slice(&bytes[32..]);
    (first, second)
}

/// 32 bytes as an array.
pub(crate) fn copied(bytes: &[u8]) -> B32
    requires { length bytes.now ≡ 32 }
    ensures { result ≡ bytes.now }
{
    let mut out = [0; 32];
    out.copy_from_slice(bytes);
    out
}

/// 64 bytes of two halves.
pub(crate) fn joined(first: &B32, second: &B32) -> Seed
    ensures { result ≡ first.now ++ second.now }
{
    let mut out = [0; 64];
    write_joined(first, second, &mut out);
    out
}

// Writes two texts, one behind the other.
fn write_joined(first: &[u8], second: &[u8], out: &mut [u8])
    requires { length out.old ≡ length first.now + length second.now }
    ensures { out.new ≡ first.now ++ second.now }
{
    let end = first.len();
    out[..end].copy_from_slice(first);
    out[end..].copy_from_slice(second);
}
