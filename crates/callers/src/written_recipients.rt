//! A caller of `bech32_long`.

ghost use Rattle.std.specs.Prelude.{◌≡◌, codes, IfOk};
ghost use Rattle.std.specs.String.{string_bytes};
ghost use Rattle.bech32_long.specs.Text.{encoding, reading, Read};

use bech32_long::{Hrp, encode, laws};
use std::alloc::{AllocError, Global};

/// The text of a public key, as the recipients of age are written: whoever reads it finds the key.
pub fn recipient(alloc: Global, key: &[u8; 32]) -> Result<String, AllocError>
    ensures text { IfOk result (λ text. string_bytes text ≡ encoding (codes "age") key.now) }
    ensures read { IfOk result (λ text. reading (string_bytes text) ≡ Read (codes "age") key.now) }
{
    laws::reads_what_was_written();
    match Hrp::parse("age") {
        Ok(hrp) => encode(alloc, &hrp, key),
        Err(_) => unreachable!(),
    }
}
