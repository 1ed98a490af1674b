//! A run of the program.

ghost use Rattle.std.specs.Prelude.{◌≡◌, ◌≢◌, ◌≤◌, ◌⊎◌, ◌∷◌, ℕ, List, [], map, Err, IfSome};
ghost use Rattle.std.specs.String.{string_bytes};
ghost use Rattle.age_format.specs.Outside.{Rose, Gains, GainsPart};
ghost use Rattle.ml_kem.specs.Keys.{key_of};
ghost use Rattle.mail_commands.specs.Command.{IsCommand, Spells, greatest_count, parameters, kdf_algorithm, aead_algorithm, aead_open, input_word};
ghost use Rattle.mail_commands.specs.Due.{Due, IsAnswer, key_verdict, outcome_status};
ghost use Rattle.mail_commands.specs.Lines.{error_line, no_command_line};
ghost use Rattle.kem_mail.specs.Mail.{Verdict};
ghost use Rattle.kem_mail.specs.Sent.{AreStanzas};
ghost use Rattle.kem_mail.specs.Taken.{Lost};
ghost use Rattle.generated_mail.specs.Told.{summary_lines};
ghost use Rattle.mail_commands.specs.Taken.{MostTakes, Takes};
ghost use Rattle.mail_commands.specs.Run.{CameTo, IsTold, Ran, RanGen};
ghost use Rattle.kem_mail.specs.private.Answers.{Judges};
ghost use Rattle.mail_commands.specs.private.Opening.{IsOpened};
ghost use Rattle.mail_commands.specs.private.Sealing.{IsSealTold};
ghost use Rattle.mail_commands.specs.private.Telling.{lines_output};

use crate::command::{AeadName, Command, KdfName, SetName, SuiteName, command_of};
use crate::error::RunError;
use crate::input::{Head, next_head, next_seed};
use crate::lines::write_error;
use crate::seal_input::next_seal_input;
use crate::sealing::{SealFault, key_size, seal_suite};
use age_format::outside::{Failed, Sink, Source};
use generated_mail::{Summary, summary_of, write_summary};
use hpke::{AesGcm128, AesGcm256, HkdfSha256, HkdfSha384, HkdfSha512, Kdf};
use kem_hash::KemHash;
use kem_mail::{MailError, MessageList, SealMailError, open_mail};
use ml_kem::{DecapsulationKey, MlKem512, MlKem768, MlKem1024, ParameterSet, Seed};
use output_lines::{ItemList, write_fault_line, write_lines};
use std::alloc::Global;

// The status of a run that did what its command says.
const DONE: u8 = 0;

// The status of a run whose words spell no command.
const NO_COMMAND: u8 = 2;

// The status of a run whose input, mail or key is at fault.
const REFUSED: u8 = 3;

// The status of a run whose source failed.
const READ_FAULT: u8 = 4;

// The status of a run whose sink failed.
const WRITE_FAULT: u8 = 5;

// The status of a run that found no memory.
const NO_MEMORY: u8 = 6;

// Opens the mail behind a head, by a set, a KDF and an AEAD.
fn open_aead<P: ParameterSet, H: KemHash, D: Kdf, S: Source>(
    alloc: Global,
    aead: AeadName,
    head: &Head,
    src: &mut S,
    budget: u64,
) -> Result<MessageList, MailError>
    ensures opened { IsOpened P.set H.family D.kdf (aead_algorithm aead) (aead_open aead) head.now.seed head.now.info.items budget
        (S.left src.old) (S.left src.new) (S.faults src.old) (S.faults src.new) result }
    ensures faults { S.faults src.old ≤ S.faults src.new }
{
    match aead {
        AeadName::Aes128 => {
            open_mail::<P, H, D, AesGcm128, S>(alloc, &head.seed, &head.info, src, budget)
        }
        AeadName::Aes256 => {
            open_mail::<P, H, D, AesGcm256, S>(alloc, &head.seed, &head.info, src, budget)
        }
    }
}

// The same by the names of the KDF and the AEAD.
fn open_kdf<P: ParameterSet, H: KemHash, S: Source>(
    alloc: Global,
    kdf: KdfName,
    aead: AeadName,
    head: &Head,
    src: &mut S,
    budget: u64,
) -> Result<MessageList, MailError>
    ensures opened { IsOpened P.set H.family (kdf_algorithm kdf) (aead_algorithm aead) (aead_open aead) head.now.seed head.now.info.items budget
        (S.left src.old) (S.left src.new) (S.faults src.old) (S.faults src.new) result }
    ensures faults { S.faults src.old ≤ S.faults src.new }
{
    match kdf {
        KdfName::Sha256 => open_aead::<P, H, HkdfSha256, S>(alloc, aead, head, src, budget),
        KdfName::Sha384 => open_aead::<P, H, HkdfSha384, S>(alloc, aead, head, src, budget),
        KdfName::Sha512 => open_aead::<P, H, HkdfSha512, S>(alloc, aead, head, src, budget),
    }
}

// The same by the name of a suite.
fn open_suite<H: KemHash, S: Source>(
    alloc: Global,
    suite: SuiteName,
    head: &Head,
    src: &mut S,
    budget: u64,
) -> Result<MessageList, MailError>
    ensures opened { IsOpened (parameters suite.set) H.family (kdf_algorithm suite.kdf) (aead_algorithm suite.aead) (aead_open suite.aead)
        head.now.seed head.now.info.items budget (S.left src.old) (S.left src.new) (S.faults src.old) (S.faults src.new) result }
    ensures faults { S.faults src.old ≤ S.faults src.new }
{
    let (kdf, aead) = (suite.kdf, suite.aead);
    match suite.set {
        SetName::Set512 => open_kdf::<MlKem512, H, S>(alloc, kdf, aead, head, src, budget),
        SetName::Set768 => open_kdf::<MlKem768, H, S>(alloc, kdf, aead, head, src, budget),
        SetName::Set1024 => open_kdf::<MlKem1024, H, S>(alloc, kdf, aead, head, src, budget),
    }
}

// The encapsulation key of a seed.
fn public_key<P: ParameterSet, H: KemHash>(alloc: Global, seed: &Seed) -> Result<Vec<u8>, MailError>
    ensures { Judges (λ bytes. bytes.items ∷ []) result (key_verdict (key_of P.set H.family seed.now)) }
{
    let key = DecapsulationKey::<P, H>::from_seed(alloc, seed)?;
    let bytes = key.encapsulation_key().to_bytes()?;
    Ok(bytes)
}

// The same by the name of a set.
fn public_key_of<H: KemHash>(alloc: Global, set: SetName, seed: &Seed) -> Result<Vec<u8>, MailError>
    ensures { Judges (λ bytes. bytes.items ∷ []) result (key_verdict (key_of (parameters set) H.family seed.now)) }
{
    match set {
        SetName::Set512 => public_key::<MlKem512, H>(alloc, seed),
        SetName::Set768 => public_key::<MlKem768, H>(alloc, seed),
        SetName::Set1024 => public_key::<MlKem1024, H>(alloc, seed),
    }
}

// What `open` ends with: the messages of the mail, or why there are none.
fn opened_items<H: KemHash, S: Source>(
    alloc: Global,
    suite: SuiteName,
    budget: u64,
    src: &mut S,
) -> Result<ItemList, RunError>
    ensures came { CameTo H.family (Command.Open suite budget) (S.left src.old) (S.left src.new) (S.faults src.old) (S.faults src.new) result }
    ensures faults { S.faults src.old ≤ S.faults src.new }
{
    let head = next_head(alloc, src)?;
    let messages = open_suite::<H, S>(alloc, suite, &head, src, budget)?;
    Ok(ItemList::from_vecs(messages.into_vecs()))
}

// What `key` ends with: the encapsulation key, or why there is none.
fn key_items<H: KemHash, S: Source>(
    alloc: Global,
    set: SetName,
    src: &mut S,
) -> Result<ItemList, RunError>
    ensures came { CameTo H.family (Command.Key set) (S.left src.old) (S.left src.new) (S.faults src.old) (S.faults src.new) result }
    ensures faults { S.faults src.old ≤ S.faults src.new }
{
    let seed = next_seed(alloc, src)?;
    let key = public_key_of::<H>(alloc, set, &seed)?;
    let mut items = ItemList::new(alloc);
    items.push(key)?;
    Ok(items)
}

// Answers the status of a run of a command that wrote no items, and writes the line that is due for it.
fn refuse<W: Sink>(out: &mut W, command: Command, error: RunError) -> u8
    ensures { IsTold W.got W.faults W.plan out.old out.new result (outcome_status (Err error)) (error_line (input_word command) error) }
{
    match error {
        RunError::Mail(MailError::NoMemory) => NO_MEMORY,
        RunError::Mail(MailError::ReadFault) => READ_FAULT,
        other => match write_error(out, command, other) {
            Ok(()) => REFUSED,
            Err(Failed) => WRITE_FAULT,
        },
    }
}

// Writes the lines of what a command ended with, and answers the status of the run.
fn tell<W: Sink>(out: &mut W, command: Command, outcome: Result<ItemList, RunError>) -> u8
    ensures { IsTold W.got W.faults W.plan out.old out.new result (outcome_status outcome) (lines_output command outcome) }
{
    match outcome {
        Ok(items) => match write_lines(out, &items) {
            Ok(()) => DONE,
            Err(Failed) => WRITE_FAULT,
        },
        Err(error) => refuse(out, command, error),
    }
}

// Answers the status of a run of `seal` whose input was read, and writes the line that is due where it sealed
// nothing.
fn tell_sealed<W: Sink>(out: &mut W, suite: SuiteName, sealed: Result<(), SealFault>) -> u8
    requires { (number : ℕ) → sealed ≡ Err (SealFault.Mail (SealMailError.SealError number)) → ⊥ }
    ensures { IsSealTold W.got W.faults W.plan out.old out.new result sealed }
{
    match sealed {
        Ok(()) => DONE,
        Err(SealFault::InvalidKey) => refuse(out, Command::Seal(suite), RunError::InvalidKey),
        Err(SealFault::Mail(SealMailError::XofExhausted)) => refuse(
            out,
            Command::Seal(suite),
            RunError::Mail(MailError::XofExhausted),
        ),
        Err(SealFault::Mail(SealMailError::WriteFault)) => WRITE_FAULT,
        Err(SealFault::Mail(SealMailError::NoMemory)) => NO_MEMORY,
        Err(SealFault::Mail(SealMailError::SealError(_))) => unreachable!(),
    }
}

// Runs `seal`, and answers the status.
fn run_seal<H: KemHash, S: Source, W: Sink>(
    alloc: Global,
    suite: SuiteName,
    src: &mut S,
    out: &mut W,
) -> u8
    ensures ran { Ran H.family (Command.Seal suite) (S.left src.old) (S.left src.new) (S.faults src.old) (S.faults src.new)
        W.got W.faults W.plan out.old out.new result }
    ensures faults { S.faults src.old ≤ S.faults src.new }
{
    match next_seal_input(alloc, src, key_size(suite.set)) {
        Ok(input) => {
            let sealed = seal_suite::<H, W>(alloc, suite, &input, out);
            tell_sealed(out, suite, sealed)
        }
        Err(error) => refuse(out, Command::Seal(suite), error),
    }
}

// Writes what `gen` summed up, and answers the status of the run.
fn tell_summary<W: Sink>(out: &mut W, summary: &Summary) -> u8
    ensures { IsTold W.got W.faults W.plan out.old out.new result 0
        (summary_lines summary.now.messages summary.now.bytes summary.now.mail summary.now.digest) }
{
    match write_summary(out, summary) {
        Ok(()) => DONE,
        Err(Failed) => WRITE_FAULT,
    }
}

// Runs `gen`, and answers the status.
fn run_gen<H: KemHash, W: Sink>(alloc: Global, count: u64, out: &mut W) -> u8
    requires { count ≤ greatest_count }
    ensures { RanGen H.family count W.got W.faults W.plan out.old out.new result }
{
    match summary_of::<H>(alloc, count) {
        Ok(summary) => tell_summary(out, &summary),
        Err(error) => refuse(out, Command::Gen(count), RunError::Mail(error)),
    }
}

// Runs a command, and answers the status.
fn run_command<H: KemHash, S: Source, W: Sink>(
    alloc: Global,
    command: Command,
    src: &mut S,
    out: &mut W,
) -> u8
    requires { IsCommand command }
    ensures ran { Ran H.family command (S.left src.old) (S.left src.new) (S.faults src.old) (S.faults src.new)
        W.got W.faults W.plan out.old out.new result }
    ensures unread { (count : ℕ) → command ≡ Command.Gen count → src.new ≡ src.old }
    ensures told { (count : ℕ) → command ≡ Command.Gen count → RanGen H.family count W.got W.faults W.plan out.old out.new result }
    ensures faults { S.faults src.old ≤ S.faults src.new }
{
    match command {
        Command::Open(suite, budget) => {
            let outcome = opened_items::<H, S>(alloc, suite, budget, src);
            tell(out, command, outcome)
        }
        Command::Key(set) => {
            let outcome = key_items::<H, S>(alloc, set, src);
            tell(out, command, outcome)
        }
        Command::Seal(suite) => run_seal::<H, S, W>(alloc, suite, src, out),
        Command::Gen(count) => run_gen::<H, W>(alloc, count, out),
    }
}

// Writes the line of words that spell no command, and answers the status of the run.
fn tell_no_command<W: Sink>(out: &mut W) -> u8
    ensures { IsTold W.got W.faults W.plan out.old out.new result 2 no_command_line }
{
    match write_fault_line(out, b"words", &[]) {
        Ok(()) => NO_COMMAND,
        Err(Failed) => WRITE_FAULT,
    }
}

/// Runs the program: does what its words say over a source, and writes to a sink. The answer is the status.
///
/// The words are one of these, where SET is `512`, `768` or `1024`, KDF is `sha256`, `sha384` or `sha512`,
/// AEAD is `aes128` or `aes256`, and BUDGET is a decimal number from 1 to 16777216:
///
/// - `open SET KDF AEAD BUDGET`. The source begins with a head: 128 hexadecimal digits, the seed; a line
///   feed; an even number of digits up to 8192, the info; a line feed. A mail follows, of which BUDGET bytes
///   are read at most. Its messages are written, one line of lower-case digits each.
/// - `seal SET KDF AEAD`. The source is, to its end, the digits of an encapsulation key, an info as in a head, 64
///   digits, the seed of `ChaCha20Rng`, and at most 4096 messages of at most 65536 digits each, every one with a
///   line feed. The mail is written that the random source draws.
/// - `gen N`, where N is a decimal number from 0 to 2000. Nothing is read. A mail of N messages is made, sealed and
///   opened again, and four lines are written: `messages`, `bytes` and `mail` with how many messages were opened,
///   the sum of their lengths, and the length of the mail's text, and `digest` with the text's hash in digits.
/// - `key SET`. The source begins with 128 hexadecimal digits, the seed, and a line feed. The encapsulation
///   key of the seed is written in lower-case digits, with a line feed.
///
/// Status 0: that was written. 2: the words are others, and `! words` was written. 3: the input, the key or
/// the mail is at fault, and the line of the fault was written: `! head PLACE` for the byte at a place, from
/// 0, that can't stand there, `! head ended`, of `seal` `! input PLACE`, `! input ended` and `! InvalidKey`, or
/// the name of a [`MailError`] with its numbers. 4: the source failed, and nothing was written. 5: the sink
/// failed, and a front of what is due was written. 6: memory ran out, and nothing was written, or by `seal` whole
/// stanzas, a front of what is due.
pub fn mail_main<H: KemHash, S: Source, W: Sink>(
    alloc: Global,
    words: &[String],
    src: &mut S,
    out: &mut W,
) -> u8
    // What was written is what is due.
    ensures answered { IfSome (S.left src.old) (λ text. IsAnswer result → (output : List ℕ)
        × Due H.family (map string_bytes words.now) text result output × Gains (W.got out.old) (W.got out.new) output) }
    ensures fault_told { result ≡ 3 → (command : Command) × Spells (map string_bytes words.now) command × (error : RunError)
        × (outcome_status (Err error) ≡ 3) × Gains (W.got out.old) (W.got out.new) (error_line (input_word command) error) }

    // A fault of the source, exactly where its count rose, with nothing written; and what was taken before it.
    ensures read_fault { result ≡ 4 → Rose (S.faults src.old) (S.faults src.new) × Gains (W.got out.old) (W.got out.new) [] }
    ensures no_read_fault { result ≢ 4 → S.faults src.new ≡ S.faults src.old }
    ensures read_part { result ≡ 4 → (command : Command) × Spells (map string_bytes words.now) command
        × Lost (S.left src.old) (S.left src.new) (Takes H.family command (Err (RunError.Mail MailError.ReadFault))) }

    // A fault of the sink, exactly where its count rose, with a front of what is due.
    ensures write_fault { result ≡ 5 → Rose (W.faults out.old) (W.faults out.new) }
    ensures no_write_fault { result ≢ 5 → W.faults out.new ≡ W.faults out.old }
    ensures write_part { IfSome (S.left src.old) (λ text. result ≡ 5 → (status : ℕ) × (output : List ℕ)
        × Due H.family (map string_bytes words.now) text status output × GainsPart (W.got out.old) (W.got out.new) output) }

    // Want of memory, and nothing written; by `seal` a front of what is due, which is whole stanzas.
    ensures memory { result ≡ 6 → ((suite : SuiteName) → Spells (map string_bytes words.now) (Command.Seal suite) → ⊥)
        → Gains (W.got out.old) (W.got out.new) [] }
    ensures memory_part { IfSome (S.left src.old) (λ text. result ≡ 6 → Gains (W.got out.old) (W.got out.new) []
        ⊎ ((status : ℕ) × (output : List ℕ) × Due H.family (map string_bytes words.now) text status output × GainsPart (W.got out.old) (W.got out.new) output)) }
    ensures memory_whole { result ≡ 6 → (written : List ℕ) × AreStanzas written × Gains (W.got out.old) (W.got out.new) written }

    // The words alone decide on status 2 and its line, whatever the source tells, and then nothing is read.
    ensures command { result ≡ 2 → (command : Command) → Spells (map string_bytes words.now) command → ⊥ }
    ensures no_command { ((command : Command) → Spells (map string_bytes words.now) command → ⊥) → (result ≡ 2) ⊎ (result ≡ 5) }
    ensures command_line { result ≡ 2 → Gains (W.got out.old) (W.got out.new) no_command_line }
    ensures unread { ((command : Command) → Spells (map string_bytes words.now) command → ⊥) → src.new ≡ src.old }

    // `gen` reads nothing, and so what it tells, or a front of it, doesn't hang on what the source tells.
    ensures unread_by_gen { (count : ℕ) → Spells (map string_bytes words.now) (Command.Gen count) → (src.new ≡ src.old) × (result ≢ 4) }
    ensures told_by_gen { (count : ℕ) → Spells (map string_bytes words.now) (Command.Gen count)
        → RanGen H.family count W.got W.faults W.plan out.old out.new result }

    // What is due comes, where neither source nor sink fails, unless memory runs out.
    ensures complete { IfSome (S.left src.old) (λ text. (status : ℕ) (output : List ℕ)
        → Due H.family (map string_bytes words.now) text status output → (Rose (S.faults src.old) (S.faults src.new) → ⊥)
        → (Rose (W.faults out.old) (W.faults out.new) → ⊥) → (result ≡ status) ⊎ (result ≡ 6)) }

    // What a command ended with, which was told: it decides on what was taken, and whether the source is at its end.
    ensures taken { (command : Command) → Spells (map string_bytes words.now) command
        → Ran H.family command (S.left src.old) (S.left src.new) (S.faults src.old) (S.faults src.new)
        W.got W.faults W.plan out.old out.new result }
    // So nothing is taken behind the byte that decides on the input, and of a mail at most the budget.
    ensures within { (command : Command) → Spells (map string_bytes words.now) command
        → Lost (S.left src.old) (S.left src.new) (MostTakes command) }

    ensures no_other { IsAnswer result ⊎ ((result ≡ 4) ⊎ ((result ≡ 5) ⊎ (result ≡ 6))) }
    ensures source_faults { S.faults src.old ≤ S.faults src.new }
    ensures sink_faults { W.faults out.old ≤ W.faults out.new }
    ensures plan { W.plan out.new ≡ W.plan out.old }
{
    let Some(command) = command_of(words) else {
        return tell_no_command(out);
    };
    run_command::<H, S, W>(alloc, command, src, out)
}
