//! A caller of `age_primitives`.

ghost use Rattle.std.specs.Prelude.{◌≡◌, [], Some, codes, replicate, IfOk};
ghost use Rattle.sha2.specs.Sha256.{sha256};
ghost use Rattle.gcm_core.specs.Gcm.{open_of, seal_of};
ghost use Rattle.hkdf_core.specs.Hkdf.{expand, extract};

use age_primitives::{FILE_KEY_BYTES, FileKey, aead_decrypt, aead_encrypt, hkdf};
use gcm_core::AesGcm256Impl;
use hpke::HpkeError;
use std::alloc::Global;

/// The label of the keys that file keys are sealed under.
const LABEL: &[u8] = b"file key";

/// The body of a stanza that brings a file key to whoever has the same secret: sealed under a key that is
/// derived from the secret and the salt.
pub fn wrapped(
    alloc: Global,
    file_key: &FileKey,
    salt: &[u8],
    secret: &[u8],
) -> Result<Vec<u8>, HpkeError>
    ensures { let key = expand sha256 64 (extract sha256 64 salt.now secret.now) (codes "file key") 32 in
        IfOk result (λ body. seal_of key (replicate 12 0) [] file_key.now ≡ Some body.items) }
{
    let key = hkdf(salt, LABEL, secret);
    aead_encrypt::<AesGcm256Impl>(alloc, &key, file_key.expose_secret())
}

/// The bytes of the file key that such a body holds. A body of another length than 16 bytes and a tag is
/// refused.
pub fn unwrapped(
    alloc: Global,
    body: &[u8],
    salt: &[u8],
    secret: &[u8],
) -> Result<Vec<u8>, HpkeError>
    ensures { let key = expand sha256 64 (extract sha256 64 salt.now secret.now) (codes "file key") 32 in
        IfOk result (λ text. open_of key (replicate 12 0) [] body.now ≡ Some text.items) }
{
    let key = hkdf(salt, LABEL, secret);
    aead_decrypt::<AesGcm256Impl>(alloc, &key, FILE_KEY_BYTES, body)
}
