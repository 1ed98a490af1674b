//! Sealing under keys for one use.

ghost use Rattle.std.specs.Prelude.{◌≡◌, ◌≢◌, ◌+◌, [], length, replicate, Err};
ghost use Rattle.hpke.specs.Answers.{Answers};
ghost use Rattle.hpke.specs.declared.error.HpkeError.TheVariants.{OpenError, SealError};

use gcm_core::{NotAuthentic, TooLong};
use hpke::{BaseAead, HpkeError};
use std::alloc::Global;

/// How many bytes a nonce has.
const NONCE_SIZE: usize = 12;

/// The most bytes that a tag has.
const MAX_TAG_SIZE: usize = 32;

/// Seals a text under a key that is used once: the ciphertext and then the tag, under 12 zero bytes as
/// nonce and without associated data.
///
/// `SealError` comes exactly where the text is too long for the AEAD; `NoMemory` is free.
pub fn aead_encrypt<A: BaseAead>(
    alloc: Global,
    key: &[u8; 32],
    plaintext: &[u8],
) -> Result<Vec<u8>, HpkeError>
    requires key_size { A.KEY_SIZE ≡ 32 }
    requires nonce_size { A.NONCE_SIZE ≡ 12 }
    ensures { Answers (λ sealed. sealed.items) SealError result (A.seal_of key.now (replicate 12 0) [] plaintext.now) }
{
    let mut sealed = Vec::from_slice(alloc, plaintext)?;
    let mut bytes = [0; MAX_TAG_SIZE];
    let tag = &mut bytes[..A::TAG_SIZE];
    match A::new(key).seal_in_place(&[0; NONCE_SIZE], &[], sealed.as_mut_slice(), tag) {
        Ok(()) => {}
        Err(TooLong) => return Err(HpkeError::SealError),
    }
    sealed.extend_from_slice(tag)?;
    Ok(sealed)
}

/// Opens a text of `size` bytes that [`aead_encrypt`] sealed under this key.
///
/// `OpenError` comes exactly where the ciphertext's length isn't `size` and that of a tag, for which no
/// memory is taken, or where it doesn't open; `NoMemory` is free where the length is right. That the size is
/// known keeps a ciphertext from opening under many keys.
pub fn aead_decrypt<A: BaseAead>(
    alloc: Global,
    key: &[u8; 32],
    size: usize,
    ciphertext: &[u8],
) -> Result<Vec<u8>, HpkeError>
    requires key_size { A.KEY_SIZE ≡ 32 }
    requires nonce_size { A.NONCE_SIZE ≡ 12 }
    ensures other_size { length ciphertext.now ≢ size + A.TAG_SIZE → result ≡ Err OpenError }
    ensures opened { length ciphertext.now ≡ size + A.TAG_SIZE
        → Answers (λ text. text.items) OpenError result (A.open_of key.now (replicate 12 0) [] ciphertext.now) }
{
    if ciphertext.len() < A::TAG_SIZE || ciphertext.len() - A::TAG_SIZE != size {
        return Err(HpkeError::OpenError);
    }
    let (body, tag) = ciphertext.split_at(ciphertext.len() - A::TAG_SIZE);
    let mut text = Vec::from_slice(alloc, body)?;
    match A::new(key).open_in_place(&[0; NONCE_SIZE], &[], text.as_mut_slice(), tag) {
        Ok(()) => Ok(text),
        Err(NotAuthentic) => Err(HpkeError::OpenError),
    }
}
