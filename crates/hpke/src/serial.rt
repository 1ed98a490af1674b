//! Values that have bytes of one length (RFC 9180, section 4).

ghost use Rattle.std.specs.Prelude.{◌≡◌, ℕ, List, length, IfOk, IfErr, OnOk};
ghost use Rattle.hpke.specs.Refusals.{IsRefusal};

use crate::error::HpkeError;
use std::alloc::{AllocError, Global};

/// A type whose values are written in bytes, of one length for all of them.
pub trait Serializable {
    /// The bytes of a value.
    ghost bytes: { Self → List ℕ };

    /// How many bytes each value has.
    ghost wire_size: { ℕ };

    /// Whether a value has these bytes.
    ghost has_value: { List ℕ → Type 0 };

    /// How many bytes each value has.
    fn size() -> usize
        ensures { result ≡ wire_size };

    /// Writes the bytes of the value, which are `size` bytes, to a buffer of that length.
    fn write_exact(&self, buffer: &mut [u8])
        requires { length buffer.old ≡ wire_size }
        ensures bytes { buffer.new ≡ bytes self.now }
        ensures valid { has_value buffer.new };

    /// The bytes of the value. The only error is want of memory.
    fn to_bytes(&self, alloc: Global) -> Result<Vec<u8>, AllocError>
        ensures bytes { IfOk result (λ encoded. encoded.items ≡ bytes self.now) }
        ensures valid { IfOk result (λ encoded. has_value encoded.items) }
        ensures size { IfOk result (λ encoded. length encoded.items ≡ wire_size) }
    {
        let mut encoded = vec![in alloc; 0; Self::size()]?;
        self.write_exact(encoded.as_mut_slice());
        Ok(encoded)
    }

    // The bytes of a value are of one length.
    ghost value_size: { (encoded : List ℕ) → has_value encoded → length encoded ≡ wire_size };
}

/// A type whose values are read from their bytes.
pub trait Deserializable: Serializable + Sized {
    /// Whether reading bytes of the right length takes memory.
    ghost takes_memory: { Type 0 };

    /// The value that has these bytes.
    ///
    /// `IncorrectInputLength` comes exactly for another length than `size`, with both lengths;
    /// then `ValidationError` exactly where no value has these bytes, or `NoMemory` in its place or
    /// in a value's, where reading takes memory.
    fn from_bytes(alloc: Global, encoded: &[u8]) -> Result<Self, HpkeError>
        ensures value { IfOk result (λ value. Self.bytes value ≡ encoded.now) }
        ensures size { OnOk result (length encoded.now ≡ Self.wire_size) }
        ensures valid { OnOk result (Self.has_value encoded.now) }
        ensures refusal { IfErr result (λ e. IsRefusal takes_memory Self.wire_size (length encoded.now)
            (Self.has_value encoded.now) e) };
}
