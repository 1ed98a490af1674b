//! What is made of a number of messages: the messages, the seed of a random source, and the mail's text.

ghost use Rattle.std.specs.Prelude.{◌≡◌, ◌≢◌, ◌≤◌, ◌⊎◌, ℕ, IfErr, IfOk, OnOk, None, Some};
ghost use Rattle.age_format.specs.Outside.{Wrote};
ghost use Rattle.ml_kem.specs.Keys.{Key, key_of, rho_part};
ghost use Rattle.ml_kem.specs.Matrix.{matrix};
ghost use Rattle.ml_kem.specs.Parameters.{ml_kem_768};
ghost use Rattle.kem_mail.specs.Sent.{mail_text};
ghost use Rattle.generated_mail.specs.Made.{generated_message, generated_messages, generated_sealer, generated_seed};

use age_format::outside::{MemSink, Sink};
use hpke::{AesGcm256, HkdfSha256};
use kem_hash::KemHash;
use kem_mail::{MailError, MessageList, SealMailError, seal_mail};
use ml_kem::{B32, DecapsulationKey, EncapsulationKey, MlKem768, Seed};
use rand_core::Rng;
use std::alloc::{AllocError, Global};

/// The seed of the random source.
pub fn seed_of(count: u64) -> B32
    ensures { result ≡ generated_seed count }
{
    let mut seed = [0; 32];
    seed[..8].copy_from_slice(&count.to_le_bytes());
    seed
}

// The message of a number.
fn message_of(alloc: Global, i: u64) -> Result<Vec<u8>, AllocError>
    ensures { IfOk result (λ message. message.items ≡ generated_message i) }
{
    let message = vec![in alloc; (i % 256) as u8; (i % 97) as usize]?;
    Ok(message)
}

// So many messages.
fn messages_of(alloc: Global, count: u64) -> Result<MessageList, AllocError>
    requires { count ≤ 2000 }
    ensures { IfOk result (λ messages. messages ≡ generated_messages count) }
{
    let mut messages = Vec::new(alloc);
    for i in 0..count {
        let message = message_of(alloc, i)?;
        messages.push(message)?;
    }
    Ok(MessageList::from_vecs(messages))
}

// What was refused where a key and all messages can be sealed.
fn refusal_of(error: SealMailError) -> MailError
    requires has_matrix { error ≢ SealMailError.XofExhausted }
    requires sealed { (number : ℕ) → error ≢ SealMailError.SealError number }
    ensures { result ≡ MailError.NoMemory }
{
    match error {
        SealMailError::NoMemory | SealMailError::WriteFault => MailError::NoMemory,
        SealMailError::XofExhausted => unreachable!(),
        SealMailError::SealError(_) => unreachable!(),
    }
}

// Seals so many messages to a key and sends the mail, as a random source draws it. A fault of the sink is want of
// memory.
fn send_to_memory<H: KemHash, R: Rng, W: Sink>(
    alloc: Global,
    key: &EncapsulationKey<MlKem768, H>,
    count: u64,
    rng: &mut R,
    out: &mut W,
) -> Result<(), MailError>
    requires few { count ≤ 2000 }
    requires has_matrix { matrix H.family ml_kem_768.k (rho_part ml_kem_768 key.now) ≢ None }
    ensures sent { OnOk result (Wrote W.got W.faults W.plan out.old out.new (mail_text (generated_sealer H.family key.now) (generated_messages count) (R.stream rng.old))) }
    ensures refused { IfErr result (λ e. e ≡ MailError.NoMemory) }
{
    let messages = messages_of(alloc, count)?;
    match seal_mail::<MlKem768, H, HkdfSha256, AesGcm256, R, W>(
        alloc,
        key,
        &[],
        &messages,
        rng,
        out,
    ) {
        Ok(()) => Ok(()),
        Err(error) => Err(refusal_of(error)),
    }
}

// The text of the mail of so many messages to a key, as a random source draws it.
fn sealed_text<H: KemHash, R: Rng>(
    alloc: Global,
    key: &EncapsulationKey<MlKem768, H>,
    count: u64,
    rng: &mut R,
) -> Result<Vec<u8>, MailError>
    requires few { count ≤ 2000 }
    requires has_matrix { matrix H.family ml_kem_768.k (rho_part ml_kem_768 key.now) ≢ None }
    ensures text { IfOk result (λ text. text.items ≡ mail_text (generated_sealer H.family key.now) (generated_messages count) (R.stream rng.old)) }
    ensures refused { IfErr result (λ e. e ≡ MailError.NoMemory) }
{
    let mut sink = MemSink::new(alloc, Vec::new(alloc));
    send_to_memory::<H, R, MemSink>(alloc, key, count, rng, &mut sink)?;
    let text = sink.bytes().to_vec(alloc)?;
    Ok(text)
}

/// The text of the mail of so many messages to the key of a seed, as a random source draws it.
pub fn text_of<H: KemHash, R: Rng>(
    alloc: Global,
    seed: &Seed,
    count: u64,
    rng: &mut R,
) -> Result<Vec<u8>, MailError>
    requires few { count ≤ 2000 }
    ensures text { IfOk result (λ text. (key : Key) × (key_of ml_kem_768 H.family seed.now ≡ Some key)
        × (text.items ≡ mail_text (generated_sealer H.family key.ek) (generated_messages count) (R.stream rng.old))) }
    ensures refused { IfErr result (λ e. (e ≡ MailError.NoMemory)
        ⊎ ((e ≡ MailError.XofExhausted) × (key_of ml_kem_768 H.family seed.now ≡ None))) }
{
    let key = DecapsulationKey::<MlKem768, H>::from_seed(alloc, seed)?;
    sealed_text::<H, R>(alloc, key.encapsulation_key(), count, rng)
}
