//! Contexts that only export secrets (RFC 9180, section 7.3).

use crate::aead::{Aead, BaseAead};
use gcm_core::{NotAuthentic, TooLong};

/// How many bytes the nonce has that the key schedule makes, and that nothing reads.
const EMPTY_NONCE_SIZE: usize = 128;

/// The AEAD of a context that only exports: it seals nothing and opens nothing.
pub struct ExportOnlyAead;

impl Aead for ExportOnlyAead {
    type AeadImpl = EmptyAeadImpl;

    const AEAD_ID: u16 = 0xFFFF;

    ghost AEAD_ID = { 0xFFFF };

    ghost use Rattle.std.proofs.Common.{refl};

    ghost aead = { record { key_size = 0; nonce_size = 128; aead_id = 0xFFFF } };

    ghost aead_is = { refl };
}

/// An AEAD without a key that refuses each text.
#[derive(Drop)]
pub struct EmptyAeadImpl;

impl BaseAead for EmptyAeadImpl {
    ghost use Rattle.std.specs.Prelude.{[], None};

    const KEY_SIZE: usize = 0;

    const NONCE_SIZE: usize = EMPTY_NONCE_SIZE;

    const TAG_SIZE: usize = 0;

    ghost KEY_SIZE = { 0 };

    ghost NONCE_SIZE = { 128 };

    ghost TAG_SIZE = { 0 };

    ghost key_of = { λ _. [] };

    ghost seal_of = { λ _ _ _ _. None };

    ghost open_of = { λ _ _ _ _. None };

    fn new(_key: &[u8]) -> EmptyAeadImpl {
        EmptyAeadImpl
    }

    fn seal_in_place(
        &self,
        _nonce: &[u8],
        _aad: &[u8],
        _buffer: &mut [u8],
        _tag: &mut [u8],
    ) -> Result<(), TooLong> {
        Err(TooLong)
    }

    fn open_in_place(
        &self,
        _nonce: &[u8],
        _aad: &[u8],
        _buffer: &mut [u8],
        _tag: &[u8],
    ) -> Result<(), NotAuthentic> {
        Err(NotAuthentic)
    }

    ghost use Rattle.std.proofs.Common.{rules};
    ghost use Rattle.std.proofs.lemmas.Option.{none-some};

    ghost key_size_in_range = { Prim.search rules };

    ghost nonce_size_in_range = { Prim.search rules };

    ghost tag_size_in_range = { Prim.search rules };

    ghost opens_what_was_sealed = { λ _ _ _ text sealed.
        (λ opened. absurd (none-some text opened), λ made. absurd (none-some sealed made)) };

    ghost sealed_size = { λ _ _ _ _ sealed made. absurd (none-some sealed made) };
}
