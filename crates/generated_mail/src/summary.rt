//! What is told of a mail that is made of a number of messages.

ghost use Rattle.std.specs.Prelude.{◌≡◌, ◌≤◌, ◌<◌, ◌^◌, ◌⊎◌, ◌∷◌, [], Err, IfErr, IfOk, Ok, length, sum_by, codes, decimal};
ghost use Rattle.hex.specs.Hex.{encode_lower};
ghost use Rattle.age_format.specs.Outside.{Writes};
ghost use Rattle.generated_mail.specs.Made.{generated_seed, source_stream};
ghost use Rattle.generated_mail.specs.Told.{Generates, summary_lines, value_line};

use crate::making::{seed_of, text_of};
use age_format::outside::{CleanSource, Failed, Sink, write_all};
use hpke::{AesGcm256, HkdfSha256};
use itoa::Buffer;
use kem_hash::KemHash;
use kem_mail::{MailError, MessageList, open_mail};
use ml_kem::{B32, MlKem768};
use rand_chacha::ChaCha20Rng;
use rand_core::{Rng, SeedableRng};
use std::alloc::Global;

// The most bytes of the mail that are read.
const BUDGET: u64 = 16_777_216;

/// What is told: how many messages were opened, the sum of their lengths, the length of the mail's text, and H of
/// the text.
#[derive(Clone, Copy, Debug, PartialEq, Eq)]
pub struct Summary {
    pub messages: u64,
    pub bytes: u128,
    pub mail: u64,
    pub digest: B32,
}

// The length of a message.
fn len_of(message: &[u8]) -> u64
    ensures value { result ≡ length message.now }
    ensures bound { result < 2 ^ 64 }
{
    message.len() as u64
}

// The sum of the lengths of messages.
fn total_len(messages: &MessageList) -> u128
    ensures { result ≡ sum_by length messages.now }
{
    let mut total: u128 = 0;
    for i in 0..messages.len() {
        let message = messages.get(i).unwrap();
        total += len_of(message) as u128;
    }
    total
}

// Makes, seals, opens and sums up a mail of so many messages, as a random source draws it.
fn drawn_summary<H: KemHash, R: Rng>(
    alloc: Global,
    count: u64,
    rng: &mut R,
) -> Result<Summary, MailError>
    requires few { count ≤ 2000 }
    requires drawn { R.stream rng.old ≡ source_stream (generated_seed count) }
    ensures told { IfOk result (λ s. Generates H.family count (Ok (summary_lines s.messages s.bytes s.mail s.digest ∷ []))) }
    ensures refused { IfErr result (λ e. (e ≡ MailError.NoMemory) ⊎ Generates H.family count (Err e)) }
{
    let mut seed = [0; 64];
    rng.fill_bytes(&mut seed);
    let text = text_of::<H, R>(alloc, &seed, count, rng)?;
    let mail = text.len() as u64;
    let digest = H::h(&text);
    let mut src = CleanSource::new(text);
    let opened = open_mail::<MlKem768, H, HkdfSha256, AesGcm256, CleanSource>(
        alloc,
        &seed,
        &[],
        &mut src,
        BUDGET,
    )?;
    Ok(Summary {
        messages: opened.len() as u64,
        bytes: total_len(&opened),
        mail,
        digest,
    })
}

/// Makes a mail of so many messages, at most 2000, seals it to a key that is made too, opens it again, and sums up
/// what was opened.
///
/// The random source is `ChaCha20Rng`, seeded with the number in 8 bytes, the low byte first, and 24 zeros. The
/// first 64 bytes that it gives are the seed of a key of ML-KEM-768. Message i has i mod 97 bytes, each i mod 256.
/// The same source draws the mail, with empty info, under HKDF-SHA256 and AES-256-GCM; 16777216 bytes of it are
/// read at most.
///
/// An error is the first that applies: `XofExhausted` where the drawn seed gives no key, or what the mail comes to
/// if it doesn't open. `NoMemory` is free, and `ReadFault` never comes.
pub fn summary_of<H: KemHash>(alloc: Global, count: u64) -> Result<Summary, MailError>
    requires { count ≤ 2000 }
    ensures told { IfOk result (λ s. Generates H.family count (Ok (summary_lines s.messages s.bytes s.mail s.digest ∷ []))) }
    ensures refused { IfErr result (λ e. (e ≡ MailError.NoMemory) ⊎ Generates H.family count (Err e)) }
{
    let mut rng = ChaCha20Rng::from_seed(seed_of(count));
    drawn_summary::<H, ChaCha20Rng>(alloc, count, &mut rng)
}

// Writes a line of a name and a value.
fn write_value<W: Sink>(out: &mut W, name: &[u8], value: &[u8]) -> Result<(), Failed>
    ensures { Writes W.got W.faults W.plan out.old out.new result (value_line name.now value.now) }
{
    write_all(out, name)?;
    write_all(out, b" ")?;
    write_all(out, value)?;
    write_all(out, b"\n")
}

// The same of a number in decimal.
fn write_number<W: Sink>(out: &mut W, name: &[u8], number: u128) -> Result<(), Failed>
    ensures { Writes W.got W.faults W.plan out.old out.new result (value_line name.now (decimal number)) }
{
    let mut buffer = Buffer::new();
    write_value(out, name, buffer.format(number).as_bytes())
}

// The same of 32 bytes in digits.
fn write_digits<W: Sink>(out: &mut W, name: &[u8], bytes: &B32) -> Result<(), Failed>
    ensures { Writes W.got W.faults W.plan out.old out.new result (value_line name.now (encode_lower bytes.now)) }
{
    let mut digits = [0; 64];
    let Ok(()) = hex::encode_to_slice(bytes, &mut digits) else {
        unreachable!();
    };
    write_value(out, name, &digits)
}

/// Writes the four lines of what is told: `messages`, `bytes` and `mail` with their numbers in decimal, and
/// `digest` with the hash in 64 lower-case hexadecimal digits. It takes no memory.
pub fn write_summary<W: Sink>(out: &mut W, summary: &Summary) -> Result<(), Failed>
    ensures { Writes W.got W.faults W.plan out.old out.new result
        (summary_lines summary.now.messages summary.now.bytes summary.now.mail summary.now.digest) }
{
    write_number(out, b"messages", summary.messages as u128)?;
    write_number(out, b"bytes", summary.bytes)?;
    write_number(out, b"mail", summary.mail as u128)?;
    write_digits(out, b"digest", &summary.digest)
}
