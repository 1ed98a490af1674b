//! Copying.

ghost use Rattle.age_debug.specs.Copies.{Copied};

use age_format::outside::{Failed, Sink, write_all};

/// Writes the bytes to a copy's sink, and ends at its first failure.
pub fn copy_to<T: Sink>(copy: &mut T, bytes: &[u8])
    ensures { Copied T.got T.faults T.plan copy.old copy.new bytes.now }
{
    match write_all(copy, bytes) {
        Ok(()) => {}
        Err(Failed) => {}
    }
}
