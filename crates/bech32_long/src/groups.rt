//! Bytes as groups of five bits, and back.

ghost use Rattle.std.specs.Prelude.{◌≡◌, ◌<◌, ◌^◌, All, IfOk, length, slice_index};
ghost use Rattle.bech32_long.specs.Groups.{group_count, groups, whole_bytes};

use std::alloc::{AllocError, Global};

/// Writes the bits of the bytes in groups of five, the highest first. Zeros fill up the last group.
pub(crate) fn write_groups(bytes: &[u8], out: &mut [u8])
    requires fits { length bytes.now < 2 ^ 60 }
    requires room { length out.old ≡ group_count (length bytes.now) }
    ensures value { out.new ≡ groups bytes.now }
    ensures bound { All (λ v. v < 32) out.new }
{
    let mut held: u32 = 0;
    let mut count: u32 = 0;
    let mut next = 0;
    for group in out.iter_mut() {
        if count < 5 {
            held = held * 256 + byte_at(bytes, next) as u32;
            count += 8;
            next += 1;
        }
        count -= 5;
        *group = (held >> count) as u8;
        held %= 1 << count;
    }
}

// The byte at a place, and 0 behind the last.
fn byte_at(bytes: &[u8], at: usize) -> u8
    ensures { result ≡ slice_index bytes.now at }
{
    bytes.get(at).copied().unwrap_or(0)
}

/// The bits of groups of five as bytes, without the bits that make no whole byte.
pub(crate) fn whole_bytes(alloc: Global, values: &[u8]) -> Result<Vec<u8>, AllocError>
    requires { All (λ v. v < 32) values.now }
    ensures { IfOk result (λ bytes. bytes.items ≡ whole_bytes values.now) }
{
    let mut bytes = Vec::new(alloc);
    let mut held: u32 = 0;
    let mut count: u32 = 0;
    for value in values {
        held = held * 32 + *value as u32;
        count += 5;
        if count >= 8 {
            count -= 8;
            bytes.push((held >> count) as u8)?;
            held %= 1 << count;
        }
    }
    Ok(bytes)
}
