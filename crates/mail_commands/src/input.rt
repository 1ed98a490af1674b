//! The inputs of the commands, read one byte a call, so that nothing behind them is taken.

ghost use Rattle.std.specs.Prelude.{◌≡◌, ◌≤◌, ◌<◌, ◌+◌, ◌*◌, ◌%◌, ◌↔◌, ℕ, List, [], None, Ok, IfErr, IfOk, IfSome, IsErrOf, IsTrue, Some, length, ◌^◌, ◌⊎◌};
ghost use Rattle.std.specs.List.{AllPass};
ghost use Rattle.hex.specs.Hex.{decode_of, is_hex_digit};
ghost use Rattle.age_format.specs.Outside.{Rose};
ghost use Rattle.mail_commands.specs.Input.{IsHead, IsHeadText, IsLine, IsLineText, IsSeedLine, seed_digits};
ghost use Rattle.kem_mail.specs.Taken.{Lost};
ghost use Rattle.mail_commands.specs.private.InputParts.{ByteTaken, InputTaken, LineOrEnd, behind};

use crate::error::RunError;
use age_format::outside::{Failed, Source};
use hex::FromHexError;
use kem_mail::MailError;
use ml_kem::Seed;
use std::alloc::Global;

// How many digits spell a seed.
const SEED_DIGITS: usize = 128;

/// The most digits that spell an info.
pub const INFO_DIGITS: usize = 8192;

// How many bytes the line of a seed has.
const SEED_LINE_LEN: u64 = 129;

/// The head of a mail: a seed, and what a mail is bound to beside its key.
#[derive(Drop)]
pub struct Head {
    pub seed: Seed,
    pub info: Vec<u8>,
}

/// The next byte of a source.
pub fn next_byte<S: Source>(src: &mut S) -> Result<u8, RunError>
    ensures taken { Lost (S.left src.old) (S.left src.new) (ByteTaken result) }
    ensures ended { IsErrOf result RunError.Ended → IfSome (S.left src.old) (λ text. S.left src.new ≡ Some []) }
    ensures read_fault { IsErrOf result (RunError.Mail MailError.ReadFault) → Rose (S.faults src.old) (S.faults src.new) }
    ensures refused { IfErr result (λ e. (e ≡ RunError.Ended) ⊎ (e ≡ RunError.Mail MailError.ReadFault)) }
    ensures no_fault { (IsErrOf result (RunError.Mail MailError.ReadFault) → ⊥) → S.faults src.new ≡ S.faults src.old }
    ensures faults { S.faults src.old ≤ S.faults src.new }
{
    let mut byte = [0];
    match src.read(&mut byte) {
        Ok(0) => Err(RunError::Ended),
        Ok(_) => Ok(byte[0]),
        Err(Failed) => Err(RunError::Mail(MailError::ReadFault)),
    }
}

// The bytes that an even number of digits spell.
fn decoded(alloc: Global, digits: &[u8]) -> Result<Vec<u8>, RunError>
    requires digits { AllPass is_hex_digit digits.now }
    requires even { length digits.now % 2 ≡ 0 }
    ensures value { IfOk result (λ bytes. decode_of digits.now ≡ Ok bytes.items) }
    ensures memory { IfErr result (λ e. e ≡ RunError.Mail MailError.NoMemory) }
{
    match hex::decode(alloc, digits) {
        Ok(bytes) => Ok(bytes),
        Err(_) => Err(RunError::Mail(MailError::NoMemory)),
    }
}

/// What is answered where no byte came behind so many of a line: none in front of it, and else the same refusal.
pub fn none_in_front(error: RunError, count: usize) -> Result<Option<Vec<u8>>, RunError>
    ensures none { IfOk result (λ line. (line ≡ None) × (count ≡ 0) × (error ≡ RunError.Ended)) }
    ensures refused { IfErr result (λ e. (e ≡ error) × (error ≡ RunError.Ended → count ≡ 0 → ⊥)) }
{
    match error {
        RunError::Ended if count == 0 => Ok(None),
        other => Err(other),
    }
}

/// The bytes of the next line of digits: an even number of them, from `least` to `most`. None: the source had
/// ended in front of the line.
pub fn line_or_end<S: Source>(
    alloc: Global,
    src: &mut S,
    least: usize,
    most: usize,
) -> Result<Option<Vec<u8>>, RunError>
    requires range { least ≤ most }
    requires even { most % 2 ≡ 0 }
    requires small { most < 2 ^ 32 }
    ensures taken { Lost (S.left src.old) (S.left src.new) (LineOrEnd least most (λ bytes. bytes.items) result) }
    ensures ended { IsErrOf result RunError.Ended ⊎ (result ≡ Ok None) → IfSome (S.left src.old) (λ text. S.left src.new ≡ Some []) }
    ensures read_fault { IsErrOf result (RunError.Mail MailError.ReadFault) → Rose (S.faults src.old) (S.faults src.new) }
    ensures place { IfErr result (λ e. (place : ℕ) → e ≡ RunError.Place place → place ≤ most) }
    ensures sized { IfOk result (λ line. IfSome line (λ bytes. (least ≤ 2 * length bytes.items) × (2 * length bytes.items ≤ most))) }
    ensures no_fault { (IsErrOf result (RunError.Mail MailError.ReadFault) → ⊥) → S.faults src.new ≡ S.faults src.old }
    ensures faults { S.faults src.old ≤ S.faults src.new }
{
    let mut digits = Vec::new(alloc);
    loop {
        let count = digits.len();
        let byte = match next_byte(src) {
            Ok(byte) => byte,
            Err(error) => return none_in_front(error, count),
        };
        if byte == b'\n' && count >= least && count % 2 == 0 {
            let bytes = decoded(alloc, &digits)?;
            return Ok(Some(bytes));
        }
        if count >= most || !byte.is_ascii_hexdigit() {
            return Err(RunError::Place(count as u64));
        }
        digits.push(byte)?;
    }
}

/// The same, where a line is due.
pub fn next_line<S: Source>(
    alloc: Global,
    src: &mut S,
    least: usize,
    most: usize,
) -> Result<Vec<u8>, RunError>
    requires range { least ≤ most }
    requires even { most % 2 ≡ 0 }
    requires small { most < 2 ^ 32 }
    ensures taken { Lost (S.left src.old) (S.left src.new) (InputTaken (IsLineText least most)
        (λ t bytes. IsLine least most t bytes.items) result) }
    ensures ended { IsErrOf result RunError.Ended → IfSome (S.left src.old) (λ text. S.left src.new ≡ Some []) }
    ensures read_fault { IsErrOf result (RunError.Mail MailError.ReadFault) → Rose (S.faults src.old) (S.faults src.new) }
    ensures place { IfErr result (λ e. (place : ℕ) → e ≡ RunError.Place place → place ≤ most) }
    ensures sized { IfOk result (λ bytes. (least ≤ 2 * length bytes.items) × (2 * length bytes.items ≤ most)) }
    ensures no_fault { (IsErrOf result (RunError.Mail MailError.ReadFault) → ⊥) → S.faults src.new ≡ S.faults src.old }
    ensures faults { S.faults src.old ≤ S.faults src.new }
{
    match line_or_end(alloc, src, least, most)? {
        Some(bytes) => Ok(bytes),
        None => Err(RunError::Ended),
    }
}

/// The line of a seed.
pub fn next_seed<S: Source>(alloc: Global, src: &mut S) -> Result<Seed, RunError>
    ensures taken { Lost (S.left src.old) (S.left src.new) (InputTaken (IsLineText seed_digits seed_digits) (λ t seed. IsSeedLine t seed) result) }
    ensures ended { IsErrOf result RunError.Ended → IfSome (S.left src.old) (λ text. S.left src.new ≡ Some []) }
    ensures read_fault { IsErrOf result (RunError.Mail MailError.ReadFault) → Rose (S.faults src.old) (S.faults src.new) }
    ensures no_fault { (IsErrOf result (RunError.Mail MailError.ReadFault) → ⊥) → S.faults src.new ≡ S.faults src.old }
    ensures faults { S.faults src.old ≤ S.faults src.new }
{
    let bytes = next_line(alloc, src, SEED_DIGITS, SEED_DIGITS)?;
    let mut seed = [0; 64];
    seed.copy_from_slice(&bytes);
    Ok(seed)
}

/// The same refusal of an input that stands behind so many bytes.
pub fn behind_bytes(count: u64, error: RunError) -> RunError
    requires small { count < 2 ^ 32 }
    requires place { (place : ℕ) → error ≡ RunError.Place place → place < 2 ^ 40 }
    ensures { result ≡ behind count error }
{
    match error {
        RunError::Place(place) => RunError::Place(count + place),
        other => other,
    }
}

/// The head of a mail.
pub fn next_head<S: Source>(alloc: Global, src: &mut S) -> Result<Head, RunError>
    ensures taken { Lost (S.left src.old) (S.left src.new) (InputTaken IsHeadText
        (λ t head. IsHead t head.seed head.info.items) result) }
    ensures ended { IsErrOf result RunError.Ended → IfSome (S.left src.old) (λ text. S.left src.new ≡ Some []) }
    ensures read_fault { IsErrOf result (RunError.Mail MailError.ReadFault) → Rose (S.faults src.old) (S.faults src.new) }
    ensures no_fault { (IsErrOf result (RunError.Mail MailError.ReadFault) → ⊥) → S.faults src.new ≡ S.faults src.old }
    ensures faults { S.faults src.old ≤ S.faults src.new }
{
    let seed = next_seed(alloc, src)?;
    match next_line(alloc, src, 0, INFO_DIGITS) {
        Ok(info) => Ok(Head { seed, info }),
        Err(error) => Err(behind_bytes(SEED_LINE_LEN, error)),
    }
}
