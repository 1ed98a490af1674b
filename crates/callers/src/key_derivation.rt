//! A caller of `hkdf_core`.

ghost use Rattle.std.specs.Prelude.{◌≡◌, []};
ghost use Rattle.hkdf_core.specs.Hkdf.{extract, expand};
ghost use Rattle.sha2.specs.Sha512.{sha512};

use hkdf_core::{HashSha512, Hkdf};

/// A key of 32 bytes for one purpose, from a secret that two parties share: HKDF-SHA512 without
/// salt (RFC 5869).
pub fn key_for(purpose: &[u8], secret: &[u8]) -> [u8; 32]
    ensures { result ≡ expand sha512 128 (extract sha512 128 [] secret.now) purpose.now 32 }
{
    let mut key = [0; 32];
    match Hkdf::<HashSha512>::new(&[], secret).expand(purpose, &mut key) {
        Ok(()) => key,
        Err(_) => unreachable!(),
    }
}
