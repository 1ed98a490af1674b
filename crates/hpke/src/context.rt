//! The contexts that a setup gives both sides (RFC 9180, sections 5.1 and 5.2).

ghost use Rattle.std.specs.Prelude.{◌≡◌, ◌≤◌, ◌<◌, ◌*◌, ◌↔◌, ◌∷◌, ◌++◌, length, Some, Err, IfErr, IsErr, OnOk, OnErr};
ghost use Rattle.hpke.specs.Answers.{Answers, AnswersExactly};
ghost use Rattle.hpke.specs.Messages.{NumberedAnswers, NumberedExactly, used};
ghost use Rattle.hpke.specs.Nonce.{nonce_of, number_after};
ghost use Rattle.hpke.specs.declared.error.HpkeError.TheVariants.{KdfOutputTooLong, OpenError, SealError};
ghost use Rattle.hpke.specs.Schedule.{export_of, schedule, suite_id, suite_of};

use crate::aead::{Aead, BaseAead, MAX_TAG_SIZE};
use crate::error::HpkeError;
use crate::kdf::{Kdf, LabeledExpand, expand_short, hpke_suite_id, labeled_extract};
use crate::kem::Kem;
use crate::short::{ShortBytes, nonce};
use crate::tag::AeadTag;
use gcm_core::{NotAuthentic, TooLong};
use hkdf_core::{DigestBytes, Hkdf, HkdfHash, InvalidLength, MAX_DIGEST_SIZE, MAX_OUTPUT_BLOCKS};
use std::alloc::Global;
use std::marker::{Model, PhantomData};

/// What the contexts of both sides hold. Contracts see the key, the base nonce, the exporter secret
/// and the number of the next message, or none once the last number was used.
#[derive(Drop)]
pub struct AeadCtx<A: Aead, D: Kdf, K> {
    encryptor: A::AeadImpl,
    base_nonce: ShortBytes,
    exporter_secret: ShortBytes,
    number: Option<u64>,
    kdf: PhantomData<D>,
    kem: PhantomData<K>,
}

impl<A: Aead, D: Kdf, K> Model for AeadCtx<A, D, K> {
    ghost use Rattle.std.specs.Prelude.{◌≡◌, length};
    ghost use Rattle.hpke.specs.Schedule.{Context};

    ghost Value = { Context };

    ghost view = { λ ctx. record {
      key = A.AeadImpl.key_of ctx.encryptor;
      base_nonce = ctx.base_nonce;
      exporter_secret = ctx.exporter_secret;
      next = ctx.number;
    } };

    ghost invariant = { λ ctx. (length ctx.base_nonce ≡ A.AeadImpl.NONCE_SIZE)
        × (length ctx.exporter_secret ≡ D.HashImpl.DIGEST_SIZE) };
}

impl<A: Aead, D: Kdf, K> AeadCtx<A, D, K> {
    // The number of the next message.
    fn number(&self) -> Option<u64>
        ensures { result ≡ self.now.next }
    {
        self.number
    }

    // The context once this number, its next one, was used.
    fn raise(&mut self, number: u64)
        ensures { self.new ≡ record self.old { next = number_after number } }
    {
        self.number = number.checked_add(1);
    }

    // The nonce of the message of this number.
    fn nonce(&self, number: u64) -> ShortBytes
        ensures value { result ≡ nonce_of self.now.base_nonce number }
        ensures size { length result ≡ A.AeadImpl.NONCE_SIZE }
    {
        nonce(&self.base_nonce, number)
    }

    // Seals a text in place under this number, and gives its tag. `SealError` comes exactly where
    // `seal_of` is none, and leaves the text as it was.
    fn seal_in_place(
        &self,
        number: u64,
        buffer: &mut [u8],
        aad: &[u8],
    ) -> Result<AeadTag<A>, HpkeError>
        ensures value { AnswersExactly (λ tag. buffer.new ++ tag) SealError result
            (A.AeadImpl.seal_of self.now.key (nonce_of self.now.base_nonce number) aad.now buffer.old) }
        ensures unchanged { OnErr result (buffer.new ≡ buffer.old) }
    {
        let nonce = self.nonce(number);
        let mut bytes = [0; MAX_TAG_SIZE];
        let tag = &mut bytes[..A::AeadImpl::TAG_SIZE];
        match self
            .encryptor
            .seal_in_place(nonce.as_slice(), aad, buffer, tag)
        {
            Ok(()) => Ok(AeadTag::from_slice(tag)),
            Err(TooLong) => Err(HpkeError::SealError),
        }
    }

    // Opens a ciphertext in place under this number, by its tag. `OpenError` comes exactly where
    // `open_of` is none, and leaves the ciphertext as it was.
    fn open_in_place(
        &self,
        number: u64,
        buffer: &mut [u8],
        aad: &[u8],
        tag: &[u8],
    ) -> Result<(), HpkeError>
        requires { length tag.now ≡ A.AeadImpl.TAG_SIZE }
        ensures value { AnswersExactly (λ _. buffer.new) OpenError result
            (A.AeadImpl.open_of self.now.key (nonce_of self.now.base_nonce number) aad.now (buffer.old ++ tag.now)) }
        ensures unchanged { OnErr result (buffer.new ≡ buffer.old) }
    {
        let nonce = self.nonce(number);
        match self
            .encryptor
            .open_in_place(nonce.as_slice(), aad, buffer, tag)
        {
            Ok(()) => Ok(()),
            Err(NotAuthentic) => Err(HpkeError::OpenError),
        }
    }

    // The text sealed under this number, with its tag. `SealError` comes exactly where `seal_of` is
    // none.
    fn seal_at(
        &self,
        alloc: Global,
        number: u64,
        plaintext: &[u8],
        aad: &[u8],
    ) -> Result<Vec<u8>, HpkeError>
        ensures { Answers (λ sealed. sealed.items) SealError result
            (A.AeadImpl.seal_of self.now.key (nonce_of self.now.base_nonce number) aad.now plaintext.now) }
    {
        let mut sealed = Vec::from_slice(alloc, plaintext)?;
        let tag = self.seal_in_place(number, sealed.as_mut_slice(), aad)?;
        sealed.extend_from_slice(tag.as_slice())?;
        Ok(sealed)
    }

    // The text that this one, with its tag, opens to under this number. `OpenError` comes exactly
    // where `open_of` is none.
    fn open_at(
        &self,
        alloc: Global,
        number: u64,
        ciphertext: &[u8],
        aad: &[u8],
    ) -> Result<Vec<u8>, HpkeError>
        requires { A.AeadImpl.TAG_SIZE ≤ length ciphertext.now }
        ensures { Answers (λ text. text.items) OpenError result
            (A.AeadImpl.open_of self.now.key (nonce_of self.now.base_nonce number) aad.now ciphertext.now) }
    {
        let (body, tag) = ciphertext.split_at(ciphertext.len() - A::AeadImpl::TAG_SIZE);
        let mut text = Vec::from_slice(alloc, body)?;
        self.open_in_place(number, text.as_mut_slice(), aad, tag)?;
        Ok(text)
    }

    // The same context at this number.
    fn with_number(self, number: u64) -> AeadCtx<A, D, K>
        ensures { result ≡ record self { next = Some number } }
    {
        AeadCtx {
            number: Some(number),
            ..self
        }
    }
}

impl<A: Aead, D: Kdf, K: Kem> AeadCtx<A, D, K> {
    // Fills `out_buf` with the secret that the context exports (RFC 9180, section 5.3).
    fn export(&self, exporter_ctx: &[u8], out_buf: &mut [u8]) -> Result<(), HpkeError>
        ensures too_long { IsErr result ↔ (MAX_OUTPUT_BLOCKS * D.HashImpl.DIGEST_SIZE < length out_buf.old) }
        ensures error { IfErr result (λ e. e ≡ KdfOutputTooLong) }
        ensures output { OnOk result (out_buf.new ≡ export_of (suite_of K.KEM_ID D.kdf A.aead) self.now exporter_ctx.now (length out_buf.old)) }
        ensures unchanged { OnErr result (out_buf.new ≡ out_buf.old) }
    {
        let suite_id = context_suite_id::<A, D, K>();
        let hkdf = Hkdf::<D::HashImpl>::from_prk(self.exporter_secret.as_slice());
        match hkdf.labeled_expand(&suite_id, b"sec", exporter_ctx, out_buf) {
            Ok(()) => Ok(()),
            Err(InvalidLength) => Err(HpkeError::KdfOutputTooLong),
        }
    }
}

/// A sender's context. Contracts see the key, the base nonce, the exporter secret and the number of
/// the next message, or none once the last number was used.
#[derive(Drop)]
pub struct AeadCtxS<A: Aead, D: Kdf, K> {
    ctx: AeadCtx<A, D, K>,
}

impl<A: Aead, D: Kdf, K> Model for AeadCtxS<A, D, K> {
    ghost use Rattle.hpke.specs.Schedule.{Context};

    ghost Value = { Context };

    ghost view = { λ sender. sender.ctx };
}

impl<A: Aead, D: Kdf, K> AeadCtxS<A, D, K> {
    pub(crate) fn new(ctx: AeadCtx<A, D, K>) -> AeadCtxS<A, D, K>
        ensures { result ≡ ctx }
    {
        AeadCtxS { ctx }
    }

    /// The same context at this number, as the number of the next message: `u64::MAX` too counts as
    /// not used.
    pub fn with_number(self, n: u64) -> AeadCtxS<A, D, K>
        ensures { result ≡ record self { next = Some n } }
    {
        AeadCtxS {
            ctx: self.ctx.with_number(n),
        }
    }

    /// The number of the next message, or none once the last number, `u64::MAX`, was used.
    pub fn number(&self) -> Option<u64>
        ensures { result ≡ self.now.next }
    {
        self.ctx.number()
    }

    /// Seals a text under the next number: the ciphertext and then the tag (RFC 9180, section 5.2).
    ///
    /// `MessageLimitReached` comes exactly where number `u64::MAX` was used, then `SealError` exactly
    /// where `seal_of` is none; `NoMemory` is free. A refused call leaves the context as it was.
    pub fn seal(
        &mut self,
        alloc: Global,
        plaintext: &[u8],
        aad: &[u8],
    ) -> Result<Vec<u8>, HpkeError>
        ensures value { NumberedAnswers (λ sealed. sealed.items) SealError result self.old.next
            (λ number. A.AeadImpl.seal_of self.old.key (nonce_of self.old.base_nonce number) aad.now plaintext.now) }
        ensures used { OnOk result (self.new ≡ used self.old) }
        ensures refused { OnErr result (self.new ≡ self.old) }
    {
        let Some(number) = self.ctx.number() else {
            return Err(HpkeError::MessageLimitReached);
        };
        let sealed = self.ctx.seal_at(alloc, number, plaintext, aad)?;
        self.ctx.raise(number);
        Ok(sealed)
    }

    /// Seals a text in place under the next number, and gives its tag apart (RFC 9180, section 5.2).
    /// It takes no memory.
    ///
    /// `MessageLimitReached` comes exactly where number `u64::MAX` was used, then `SealError` exactly
    /// where `seal_of` is none. A refused call leaves the context and the text as they were.
    pub fn seal_in_place_detached(
        &mut self,
        plaintext: &mut [u8],
        aad: &[u8],
    ) -> Result<AeadTag<A>, HpkeError>
        ensures value { NumberedExactly (λ tag. plaintext.new ++ tag) SealError result self.old.next
            (λ number. A.AeadImpl.seal_of self.old.key (nonce_of self.old.base_nonce number) aad.now plaintext.old) }
        ensures used { OnOk result (self.new ≡ used self.old) }
        ensures refused { OnErr result ((self.new ≡ self.old) × (plaintext.new ≡ plaintext.old)) }
    {
        let Some(number) = self.ctx.number() else {
            return Err(HpkeError::MessageLimitReached);
        };
        let tag = self.ctx.seal_in_place(number, plaintext, aad)?;
        self.ctx.raise(number);
        Ok(tag)
    }
}

impl<A: Aead, D: Kdf, K: Kem> AeadCtxS<A, D, K> {
    /// Fills `out_buf` with the secret that both sides' contexts export under this exporter context
    /// (RFC 9180, section 5.3). It takes no memory and uses no number.
    ///
    /// `KdfOutputTooLong` comes exactly for an output of more than 255 digests, which then stays as it
    /// was.
    pub fn export(&self, exporter_ctx: &[u8], out_buf: &mut [u8]) -> Result<(), HpkeError>
        ensures too_long { IsErr result ↔ (MAX_OUTPUT_BLOCKS * D.HashImpl.DIGEST_SIZE < length out_buf.old) }
        ensures error { IfErr result (λ e. e ≡ KdfOutputTooLong) }
        ensures output { OnOk result (out_buf.new ≡ export_of (suite_of K.KEM_ID D.kdf A.aead) self.now exporter_ctx.now (length out_buf.old)) }
        ensures unchanged { OnErr result (out_buf.new ≡ out_buf.old) }
    {
        self.ctx.export(exporter_ctx, out_buf)
    }
}

/// A recipient's context. Contracts see the key, the base nonce, the exporter secret and the number
/// of the next message, or none once the last number was used.
#[derive(Drop)]
pub struct AeadCtxR<A: Aead, D: Kdf, K> {
    ctx: AeadCtx<A, D, K>,
}

impl<A: Aead, D: Kdf, K> Model for AeadCtxR<A, D, K> {
    ghost use Rattle.hpke.specs.Schedule.{Context};

    ghost Value = { Context };

    ghost view = { λ recipient. recipient.ctx };
}

impl<A: Aead, D: Kdf, K> AeadCtxR<A, D, K> {
    pub(crate) fn new(ctx: AeadCtx<A, D, K>) -> AeadCtxR<A, D, K>
        ensures { result ≡ ctx }
    {
        AeadCtxR { ctx }
    }

    /// The same context at this number, as the number of the next message: `u64::MAX` too counts as
    /// not used.
    pub fn with_number(self, n: u64) -> AeadCtxR<A, D, K>
        ensures { result ≡ record self { next = Some n } }
    {
        AeadCtxR {
            ctx: self.ctx.with_number(n),
        }
    }

    /// The number of the next message, or none once the last number, `u64::MAX`, was used.
    pub fn number(&self) -> Option<u64>
        ensures { result ≡ self.now.next }
    {
        self.ctx.number()
    }

    /// Opens a ciphertext that its tag follows, under the next number (RFC 9180, section 5.2).
    ///
    /// `OpenError` comes first for a text shorter than a tag; then `MessageLimitReached` exactly where
    /// number `u64::MAX` was used; then `OpenError` exactly where `open_of` is none; `NoMemory` is free
    /// for a text that isn't shorter than a tag. A refused call leaves the context as it was.
    pub fn open(
        &mut self,
        alloc: Global,
        ciphertext: &[u8],
        aad: &[u8],
    ) -> Result<Vec<u8>, HpkeError>
        ensures short { length ciphertext.now < A.AeadImpl.TAG_SIZE → result ≡ Err OpenError }
        ensures value { A.AeadImpl.TAG_SIZE ≤ length ciphertext.now
            → NumberedAnswers (λ text. text.items) OpenError result self.old.next
            (λ number. A.AeadImpl.open_of self.old.key (nonce_of self.old.base_nonce number) aad.now ciphertext.now) }
        ensures used { OnOk result (self.new ≡ used self.old) }
        ensures refused { OnErr result (self.new ≡ self.old) }
    {
        if ciphertext.len() < A::AeadImpl::TAG_SIZE {
            return Err(HpkeError::OpenError);
        }
        let Some(number) = self.ctx.number() else {
            return Err(HpkeError::MessageLimitReached);
        };
        let text = self.ctx.open_at(alloc, number, ciphertext, aad)?;
        self.ctx.raise(number);
        Ok(text)
    }

    /// Opens a ciphertext in place under the next number, by its tag (RFC 9180, section 5.2). It takes
    /// no memory.
    ///
    /// `MessageLimitReached` comes exactly where number `u64::MAX` was used, then `OpenError` exactly
    /// where `open_of` is none. A refused call leaves the context and the ciphertext as they were.
    pub fn open_in_place_detached(
        &mut self,
        ciphertext: &mut [u8],
        aad: &[u8],
        tag: &AeadTag<A>,
    ) -> Result<(), HpkeError>
        ensures value { NumberedExactly (λ _. ciphertext.new) OpenError result self.old.next
            (λ number. A.AeadImpl.open_of self.old.key (nonce_of self.old.base_nonce number) aad.now (ciphertext.old ++ tag.now)) }
        ensures used { OnOk result (self.new ≡ used self.old) }
        ensures refused { OnErr result ((self.new ≡ self.old) × (ciphertext.new ≡ ciphertext.old)) }
    {
        let Some(number) = self.ctx.number() else {
            return Err(HpkeError::MessageLimitReached);
        };
        self.ctx
            .open_in_place(number, ciphertext, aad, tag.as_slice())?;
        self.ctx.raise(number);
        Ok(())
    }
}

impl<A: Aead, D: Kdf, K: Kem> AeadCtxR<A, D, K> {
    /// Fills `out_buf` with the secret that both sides' contexts export under this exporter context
    /// (RFC 9180, section 5.3). It takes no memory and uses no number.
    ///
    /// `KdfOutputTooLong` comes exactly for an output of more than 255 digests, which then stays as it
    /// was.
    pub fn export(&self, exporter_ctx: &[u8], out_buf: &mut [u8]) -> Result<(), HpkeError>
        ensures too_long { IsErr result ↔ (MAX_OUTPUT_BLOCKS * D.HashImpl.DIGEST_SIZE < length out_buf.old) }
        ensures error { IfErr result (λ e. e ≡ KdfOutputTooLong) }
        ensures output { OnOk result (out_buf.new ≡ export_of (suite_of K.KEM_ID D.kdf A.aead) self.now exporter_ctx.now (length out_buf.old)) }
        ensures unchanged { OnErr result (out_buf.new ≡ out_buf.old) }
    {
        self.ctx.export(exporter_ctx, out_buf)
    }
}

/// The context that the key schedule gives, at number 0 (RFC 9180, section 5.1).
pub fn derive_enc_ctx<A: Aead, D: Kdf, K: Kem>(
    mode: u8,
    shared_secret: &[u8],
    info: &[u8],
    psk: &[u8],
    psk_id: &[u8],
) -> AeadCtx<A, D, K>
    ensures value { result ≡ schedule (suite_of K.KEM_ID D.kdf A.aead) mode shared_secret.now info.now psk.now psk_id.now }
    ensures number { result.next ≡ Some 0 }
{
    let suite_id = context_suite_id::<A, D, K>();
    let (psk_id_hash, _) = labeled_extract::<D>(&[], &suite_id, b"psk_id_hash", psk_id);
    let (info_hash, _) = labeled_extract::<D>(&[], &suite_id, b"info_hash", info);
    let context = schedule_context(mode, &psk_id_hash, &info_hash);
    let (_, secret) = labeled_extract::<D>(shared_secret, &suite_id, b"secret", psk);
    let info = context.as_slice();
    let key = expand_short(&secret, &suite_id, b"key", info, A::AeadImpl::KEY_SIZE);
    AeadCtx {
        encryptor: A::AeadImpl::new(key.as_slice()),
        base_nonce: expand_short(
            &secret,
            &suite_id,
            b"base_nonce",
            info,
            A::AeadImpl::NONCE_SIZE,
        ),
        exporter_secret: expand_short(&secret, &suite_id, b"exp", info, D::HashImpl::DIGEST_SIZE),
        number: Some(0),
        kdf: PhantomData,
        kem: PhantomData,
    }
}

// The suite of a context (RFC 9180, section 5.1).
fn context_suite_id<A: Aead, D: Kdf, K: Kem>() -> [u8; 10]
    ensures { result ≡ suite_id (suite_of K.KEM_ID D.kdf A.aead) }
{
    hpke_suite_id(K::KEM_ID, D::KDF_ID, A::AEAD_ID)
}

// The context of the key schedule: the mode and the hashes of both texts.
fn schedule_context(mode: u8, psk_id_hash: &DigestBytes, info_hash: &DigestBytes) -> ShortBytes
    requires psk_id_size { length psk_id_hash.now ≤ MAX_DIGEST_SIZE }
    requires info_size { length info_hash.now ≤ MAX_DIGEST_SIZE }
    ensures { result ≡ mode ∷ psk_id_hash.now ++ info_hash.now }
{
    let mut context = ShortBytes::from_slice(&[mode]);
    context.append(psk_id_hash.as_slice());
    context.append(info_hash.as_slice());
    context
}
