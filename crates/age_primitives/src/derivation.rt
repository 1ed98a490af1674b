//! Key derivation.

ghost use Rattle.std.specs.Prelude.{◌≡◌};
ghost use Rattle.sha2.specs.Sha256.{sha256};
ghost use Rattle.hkdf_core.specs.Hkdf.{extract, expand};

use hkdf_core::{HashSha256, Hkdf, InvalidLength};

/// The 32 bytes that HKDF-SHA256 derives from a salt, input keying material and a label as info string
/// (RFC 5869). The empty salt stands for no salt. No memory is taken.
pub fn hkdf(salt: &[u8], label: &[u8], ikm: &[u8]) -> [u8; 32]
    ensures { result ≡ expand sha256 64 (extract sha256 64 salt.now ikm.now) label.now 32 }
{
    let mut okm = [0; 32];
    match Hkdf::<HashSha256>::new(salt, ikm).expand(label, &mut okm) {
        Ok(()) => okm,
        Err(InvalidLength) => unreachable!(),
    }
}
