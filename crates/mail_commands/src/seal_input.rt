//! The input of `seal`, read one byte a call, up to the end of the source.

ghost use Rattle.std.specs.Prelude.{◌≡◌, ◌≤◌, ◌<◌, ◌+◌, ◌*◌, ◌^◌, ℕ, List, [], All, IfErr, IfOk, IfSome, IsErrOf, OnOk, Some, length};
ghost use Rattle.age_format.specs.Outside.{Rose};
ghost use Rattle.kem_mail.specs.Taken.{Lost};
ghost use Rattle.mail_commands.specs.Input.{IsMessages, IsSealInput, IsSealText, most_messages};
ghost use Rattle.mail_commands.specs.private.InputParts.{OpenTaken};
ghost use Rattle.mail_commands.specs.private.SealParts.{Tail, FromSource, FromInfo, HoldsFromSource, HoldsFromInfo};

use crate::error::RunError;
use crate::input::{INFO_DIGITS, behind_bytes, line_or_end, next_byte, next_line, none_in_front};
use age_format::outside::Source;
use kem_mail::{MailError, MessageList};
use ml_kem::B32;
use std::alloc::Global;

// How many digits spell the seed of a random source.
const SOURCE_DIGITS: usize = 64;

// How many bytes the line of a random source's seed has.
const SOURCE_LINE_LEN: u64 = 65;

// The most digits that spell a message.
const MESSAGE_DIGITS: usize = 65536;

// The most messages of an input.
const MOST_MESSAGES: usize = 4096;

/// The input of `seal`: whom a mail is sealed to, with what info, by what random source, and the messages.
#[derive(Drop)]
pub struct SealInput {
    pub key: Vec<u8>,
    pub info: Vec<u8>,
    pub source: B32,
    pub messages: MessageList,
}

// How many bytes a line of these bytes' digits has.
fn line_len(bytes: &[u8]) -> u64
    requires { length bytes.now < 2 ^ 32 }
    ensures { result ≡ 2 * length bytes.now + 1 }
{
    2 * bytes.len() as u64 + 1
}

// The lines of the messages, up to the end of the source.
fn next_messages<S: Source>(alloc: Global, src: &mut S) -> Result<MessageList, RunError>
    ensures taken { Lost (S.left src.old) (S.left src.new) (OpenTaken (Tail most_messages) (λ t messages. IsMessages most_messages t messages) result) }
    ensures whole { OnOk result (IfSome (S.left src.old) (λ text. S.left src.new ≡ Some [])) }
    ensures ended { IsErrOf result RunError.Ended → IfSome (S.left src.old) (λ text. S.left src.new ≡ Some []) }
    ensures read_fault { IsErrOf result (RunError.Mail MailError.ReadFault) → Rose (S.faults src.old) (S.faults src.new) }
    ensures short { IfOk result (λ messages. All (λ message. length message ≤ 32768) messages) }
    ensures place { IfErr result (λ e. (place : ℕ) → e ≡ RunError.Place place → place < 2 ^ 32) }
    ensures no_fault { (IsErrOf result (RunError.Mail MailError.ReadFault) → ⊥) → S.faults src.new ≡ S.faults src.old }
    ensures faults { S.faults src.old ≤ S.faults src.new }
{
    let mut messages = Vec::new(alloc);
    let mut count: u64 = 0;
    while messages.len() < MOST_MESSAGES {
        match line_or_end(alloc, src, 0, MESSAGE_DIGITS) {
            Ok(Some(message)) => {
                count += line_len(&message);
                messages.push(message)?;
            }
            Ok(None) => return Ok(MessageList::from_vecs(messages)),
            Err(error) => return Err(behind_bytes(count, error)),
        }
    }
    match next_byte(src) {
        Ok(_) => Err(RunError::Place(count)),
        Err(error) => {
            none_in_front(error, 0)?;
            Ok(MessageList::from_vecs(messages))
        }
    }
}

// The input from the line of the random source on, behind a key and an info.
fn next_from_source<S: Source>(
    alloc: Global,
    src: &mut S,
    key: Vec<u8>,
    info: Vec<u8>,
) -> Result<SealInput, RunError>
    ensures taken { Lost (S.left src.old) (S.left src.new) (OpenTaken FromSource (λ t made. HoldsFromSource t made.source made.messages) result) }
    ensures kept { IfOk result (λ made. (made.key.items ≡ key.items) × (made.info.items ≡ info.items)) }
    ensures whole { OnOk result (IfSome (S.left src.old) (λ text. S.left src.new ≡ Some [])) }
    ensures ended { IsErrOf result RunError.Ended → IfSome (S.left src.old) (λ text. S.left src.new ≡ Some []) }
    ensures read_fault { IsErrOf result (RunError.Mail MailError.ReadFault) → Rose (S.faults src.old) (S.faults src.new) }
    ensures short { IfOk result (λ made. All (λ message. length message ≤ 32768) made.messages) }
    ensures place { IfErr result (λ e. (place : ℕ) → e ≡ RunError.Place place → place < 2 ^ 33) }
    ensures no_fault { (IsErrOf result (RunError.Mail MailError.ReadFault) → ⊥) → S.faults src.new ≡ S.faults src.old }
    ensures faults { S.faults src.old ≤ S.faults src.new }
{
    let bytes = next_line(alloc, src, SOURCE_DIGITS, SOURCE_DIGITS)?;
    let mut source = [0; 32];
    source.copy_from_slice(&bytes);
    match next_messages(alloc, src) {
        Ok(messages) => Ok(SealInput {
            key,
            info,
            source,
            messages,
        }),
        Err(error) => Err(behind_bytes(SOURCE_LINE_LEN, error)),
    }
}

// The input from the line of the info on, behind a key.
fn next_from_info<S: Source>(
    alloc: Global,
    src: &mut S,
    key: Vec<u8>,
) -> Result<SealInput, RunError>
    ensures taken { Lost (S.left src.old) (S.left src.new) (OpenTaken FromInfo (λ t made. HoldsFromInfo t made.info.items made.source made.messages) result) }
    ensures kept { IfOk result (λ made. made.key.items ≡ key.items) }
    ensures whole { OnOk result (IfSome (S.left src.old) (λ text. S.left src.new ≡ Some [])) }
    ensures ended { IsErrOf result RunError.Ended → IfSome (S.left src.old) (λ text. S.left src.new ≡ Some []) }
    ensures read_fault { IsErrOf result (RunError.Mail MailError.ReadFault) → Rose (S.faults src.old) (S.faults src.new) }
    ensures short { IfOk result (λ made. All (λ message. length message ≤ 32768) made.messages) }
    ensures place { IfErr result (λ e. (place : ℕ) → e ≡ RunError.Place place → place < 2 ^ 34) }
    ensures no_fault { (IsErrOf result (RunError.Mail MailError.ReadFault) → ⊥) → S.faults src.new ≡ S.faults src.old }
    ensures faults { S.faults src.old ≤ S.faults src.new }
{
    let info = next_line(alloc, src, 0, INFO_DIGITS)?;
    let count = line_len(&info);
    match next_from_source(alloc, src, key, info) {
        Ok(input) => Ok(input),
        Err(error) => Err(behind_bytes(count, error)),
    }
}

/// The input of `seal` to a key of so many bytes.
pub fn next_seal_input<S: Source>(
    alloc: Global,
    src: &mut S,
    key_size: usize,
) -> Result<SealInput, RunError>
    requires { key_size < 2 ^ 16 }
    ensures taken { Lost (S.left src.old) (S.left src.new) (OpenTaken (IsSealText key_size)
        (λ t made. IsSealInput key_size t made.key.items made.info.items made.source made.messages) result) }
    ensures whole { OnOk result (IfSome (S.left src.old) (λ text. S.left src.new ≡ Some [])) }
    ensures ended { IsErrOf result RunError.Ended → IfSome (S.left src.old) (λ text. S.left src.new ≡ Some []) }
    ensures read_fault { IsErrOf result (RunError.Mail MailError.ReadFault) → Rose (S.faults src.old) (S.faults src.new) }
    ensures short { IfOk result (λ made. All (λ message. length message ≤ 32768) made.messages) }
    ensures no_fault { (IsErrOf result (RunError.Mail MailError.ReadFault) → ⊥) → S.faults src.new ≡ S.faults src.old }
    ensures faults { S.faults src.old ≤ S.faults src.new }
{
    let key = next_line(alloc, src, 2 * key_size, 2 * key_size)?;
    let count = line_len(&key);
    match next_from_info(alloc, src, key) {
        Ok(input) => Ok(input),
        Err(error) => Err(behind_bytes(count, error)),
    }
}
