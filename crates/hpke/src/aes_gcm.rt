//! AES-GCM as AEADs of HPKE (RFC 9180, section 7.3).

ghost use Rattle.std.specs.Prelude.{◌≡◌, length};

use crate::aead::{Aead, BaseAead};
use gcm_core::{AesGcm128Impl, AesGcm256Impl, NotAuthentic, TooLong};

/// How many bytes a key of AES-128-GCM has.
const AES_128_KEY_SIZE: usize = 16;

/// How many bytes a key of AES-256-GCM has.
const AES_256_KEY_SIZE: usize = 32;

/// How many bytes a nonce has.
const GCM_NONCE_SIZE: usize = 12;

/// How many bytes a tag has.
const GCM_TAG_SIZE: usize = 16;

/// AES-128-GCM (NIST SP 800-38D).
pub struct AesGcm128;

impl Aead for AesGcm128 {
    type AeadImpl = AesGcm128Impl;

    const AEAD_ID: u16 = 1;

    ghost AEAD_ID = { 1 };

    ghost use Rattle.std.proofs.Common.{refl};

    ghost aead = { record { key_size = 16; nonce_size = 12; aead_id = 1 } };

    ghost aead_is = { refl };
}

impl BaseAead for AesGcm128Impl {
    ghost use Rattle.gcm_core.specs.Gcm.{seal_of, open_of};

    const KEY_SIZE: usize = AES_128_KEY_SIZE;

    const NONCE_SIZE: usize = GCM_NONCE_SIZE;

    const TAG_SIZE: usize = GCM_TAG_SIZE;

    ghost KEY_SIZE = { 16 };

    ghost NONCE_SIZE = { 12 };

    ghost TAG_SIZE = { 16 };

    ghost key_of = { λ aead. aead };

    ghost seal_of = { seal_of };

    ghost open_of = { open_of };

    fn new(key: &[u8]) -> AesGcm128Impl {
        let mut bytes = [0; AES_128_KEY_SIZE];
        bytes.copy_from_slice(key);
        AesGcm128Impl::new(&bytes)
    }

    fn seal_in_place(
        &self,
        nonce: &[u8],
        aad: &[u8],
        buffer: &mut [u8],
        tag: &mut [u8],
    ) -> Result<(), TooLong> {
        let mut code = [0; GCM_TAG_SIZE];
        AesGcm128Impl::seal_in_place(self, &gcm_nonce(nonce), aad, buffer, &mut code)?;
        tag.copy_from_slice(&code);
        Ok(())
    }

    fn open_in_place(
        &self,
        nonce: &[u8],
        aad: &[u8],
        buffer: &mut [u8],
        tag: &[u8],
    ) -> Result<(), NotAuthentic> {
        let mut code = [0; GCM_TAG_SIZE];
        code.copy_from_slice(tag);
        AesGcm128Impl::open_in_place(self, &gcm_nonce(nonce), aad, buffer, &code)
    }

    ghost use Rattle.std.proofs.Common.{rules};
    ghost use Rattle.gcm_core.proofs.SealingLaws.{open_of-seal_of, length-seal_of};

    ghost key_size_in_range = { Prim.search rules };

    ghost nonce_size_in_range = { Prim.search rules };

    ghost tag_size_in_range = { Prim.search rules };

    ghost opens_what_was_sealed = { open_of-seal_of };

    ghost sealed_size = { length-seal_of };
}

/// AES-256-GCM (NIST SP 800-38D).
pub struct AesGcm256;

impl Aead for AesGcm256 {
    type AeadImpl = AesGcm256Impl;

    const AEAD_ID: u16 = 2;

    ghost AEAD_ID = { 2 };

    ghost use Rattle.std.proofs.Common.{refl};

    ghost aead = { record { key_size = 32; nonce_size = 12; aead_id = 2 } };

    ghost aead_is = { refl };
}

impl BaseAead for AesGcm256Impl {
    ghost use Rattle.gcm_core.specs.Gcm.{seal_of, open_of};

    const KEY_SIZE: usize = AES_256_KEY_SIZE;

    const NONCE_SIZE: usize = GCM_NONCE_SIZE;

    const TAG_SIZE: usize = GCM_TAG_SIZE;

    ghost KEY_SIZE = { 32 };

    ghost NONCE_SIZE = { 12 };

    ghost TAG_SIZE = { 16 };

    ghost key_of = { λ aead. aead };

    ghost seal_of = { seal_of };

    ghost open_of = { open_of };

    fn new(key: &[u8]) -> AesGcm256Impl {
        let mut bytes = [0; AES_256_KEY_SIZE];
        bytes.copy_from_slice(key);
        AesGcm256Impl::new(&bytes)
    }

    fn seal_in_place(
        &self,
        nonce: &[u8],
        aad: &[u8],
        buffer: &mut [u8],
        tag: &mut [u8],
    ) -> Result<(), TooLong> {
        let mut code = [0; GCM_TAG_SIZE];
        AesGcm256Impl::seal_in_place(self, &gcm_nonce(nonce), aad, buffer, &mut code)?;
        tag.copy_from_slice(&code);
        Ok(())
    }

    fn open_in_place(
        &self,
        nonce: &[u8],
        aad: &[u8],
        buffer: &mut [u8],
        tag: &[u8],
    ) -> Result<(), NotAuthentic> {
        let mut code = [0; GCM_TAG_SIZE];
        code.copy_from_slice(tag);
        AesGcm256Impl::open_in_place(self, &gcm_nonce(nonce), aad, buffer, &code)
    }

    ghost use Rattle.std.proofs.Common.{rules};
    ghost use Rattle.gcm_core.proofs.SealingLaws.{open_of-seal_of, length-seal_of};

    ghost key_size_in_range = { Prim.search rules };

    ghost nonce_size_in_range = { Prim.search rules };

    ghost tag_size_in_range = { Prim.search rules };

    ghost opens_what_was_sealed = { open_of-seal_of };

    ghost sealed_size = { length-seal_of };
}

// A nonce from its bytes.
fn gcm_nonce(nonce: &[u8]) -> [u8; GCM_NONCE_SIZE]
    requires { length nonce.now ≡ 12 }
    ensures { result ≡ nonce.now }
{
    let mut bytes = [0; GCM_NONCE_SIZE];
    bytes.copy_from_slice(nonce);
    bytes
}
