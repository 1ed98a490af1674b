//! Tags, apart from the ciphertexts that they authenticate.

ghost use Rattle.std.specs.Prelude.{◌≡◌, length, replicate};
ghost use Rattle.hpke.specs.Bytes.{IsTag};

use crate::aead::{Aead, BaseAead, MAX_TAG_SIZE};
use crate::error::HpkeError;
use crate::serial::{Deserializable, Serializable};
use std::alloc::{AllocError, Global};
use std::marker::{Model, PhantomData};

/// The tag of a ciphertext under the AEAD A: TAG_SIZE bytes, which contracts see.
#[derive(Drop)]
pub struct AeadTag<A: Aead> {
    bytes: [u8; MAX_TAG_SIZE],
    aead: PhantomData<A>,
}

impl<A: Aead> Model for AeadTag<A> {
    ghost use Rattle.std.specs.Prelude.{ℕ, List, take};

    ghost Value = { List ℕ };

    ghost view = { λ tag. take A.AeadImpl.TAG_SIZE tag.bytes };
}

impl<A: Aead> AeadTag<A> {
    /// The tag of these TAG_SIZE bytes.
    pub(crate) fn from_slice(piece: &[u8]) -> AeadTag<A>
        requires { length piece.now ≡ A.AeadImpl.TAG_SIZE }
        ensures { result ≡ piece.now }
    {
        let mut bytes = [0; MAX_TAG_SIZE];
        bytes[..A::AeadImpl::TAG_SIZE].copy_from_slice(piece);
        AeadTag {
            bytes,
            aead: PhantomData,
        }
    }

    /// The bytes of the tag.
    pub(crate) fn as_slice(&self) -> &[u8]
        ensures bytes { result.now ≡ self.now }
        ensures size { length result.now ≡ A.AeadImpl.TAG_SIZE }
    {
        &self.bytes[..A::AeadImpl::TAG_SIZE]
    }
}

impl<A: Aead> Clone for AeadTag<A> {
    ghost use Rattle.std.specs.Prelude.{◌≡◌, ⊤};

    ghost is_clone = { λ tag clone. clone ≡ tag };

    ghost is_infallible = { λ _. ⊤ };

    fn clone(&self) -> Result<AeadTag<A>, AllocError> {
        Ok(AeadTag {
            bytes: self.bytes,
            aead: PhantomData,
        })
    }
}

impl<A: Aead> Default for AeadTag<A> {
    /// The tag of zeros.
    fn default() -> AeadTag<A>
        ensures { result ≡ replicate A.AeadImpl.TAG_SIZE 0 }
    {
        AeadTag {
            bytes: [0; MAX_TAG_SIZE],
            aead: PhantomData,
        }
    }
}

impl<A: Aead> Serializable for AeadTag<A> {
    ghost bytes = { λ tag. tag };

    ghost wire_size = { A.AeadImpl.TAG_SIZE };

    ghost has_value = { IsTag A.AeadImpl.TAG_SIZE };

    fn size() -> usize {
        A::AeadImpl::TAG_SIZE
    }

    fn write_exact(&self, buffer: &mut [u8]) {
        buffer.copy_from_slice(self.as_slice());
    }

    ghost value_size = { λ _ is. is.0 };
}

impl<A: Aead> Deserializable for AeadTag<A> {
    ghost takes_memory = { ⊥ };

    fn from_bytes(_alloc: Global, encoded: &[u8]) -> Result<AeadTag<A>, HpkeError> {
        if encoded.len() != A::AeadImpl::TAG_SIZE {
            return Err(HpkeError::IncorrectInputLength(A::AeadImpl::TAG_SIZE, encoded.len()));
        }
        Ok(AeadTag::from_slice(encoded))
    }
}
