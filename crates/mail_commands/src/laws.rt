//! Laws of the definitions, each as the contract of a function that does nothing, and the headline,
//! each time as the contract of a run.

ghost use Rattle.std.specs.Prelude.{◌≡◌, ◌≢◌, ◌⊎◌, ℕ, List, [], ◌∷◌, ◌++◌, true, map, codes, Err, IfSome};
ghost use Rattle.std.specs.String.{string_bytes};
ghost use Rattle.kem_hash.specs.Family.{Family};
ghost use Rattle.age_format.specs.Outside.{Rose, Gains, GainsPart};
ghost use Rattle.mail_commands.specs.Command.{Spells, words_of, greatest_budget, greatest_count};
ghost use Rattle.mail_commands.specs.Due.{Due, HoldsMail, IsAnswer};
ghost use Rattle.mail_commands.specs.Input.{IsHeadText, IsSealInput, seed_digits, most_info_digits, source_digits, most_message_digits, most_messages};
ghost use Rattle.output_lines.specs.Lines.{lines};
ghost use Rattle.mail_commands.specs.Lines.{error_line, no_command_line};
ghost use Rattle.kem_mail.specs.Mail.{SameBodies};
ghost use Rattle.kem_mail.specs.Sent.{AreStanzas};
ghost use Rattle.kem_mail.specs.Taken.{Lost};
ghost use Rattle.mail_commands.specs.Taken.{Takes};

use crate::command::{AeadName, Command, KdfName, SetName, SuiteName};
use crate::error::RunError;
use crate::run::mail_main;
use age_format::outside::{CleanSource, MemSink, Sink, Source};
use kem_hash::KemHash;
use kem_mail::MailError;
use std::alloc::Global;

/// Nothing else is owed: no words and text have two due statuses, or two due outputs, and a status that is
/// due is 0, 2 or 3.
pub fn one_due()
    ensures status { (family : Family) (words : List (List ℕ)) (text : List ℕ) (one other : ℕ) (output another : List ℕ)
        → Due family words text one output → Due family words text other another → one ≡ other }
    ensures output { (family : Family) (words : List (List ℕ)) (text : List ℕ) (one other : ℕ) (output another : List ℕ)
        → Due family words text one output → Due family words text other another → output ≡ another }
    ensures answer { (family : Family) (words : List (List ℕ)) (text : List ℕ) (status : ℕ) (output : List ℕ)
        → Due family words text status output → IsAnswer status }
{}

/// Something is owed: no words and text are without a due status and output.
pub fn some_due()
    ensures { (family : Family) (words : List (List ℕ)) (text : List ℕ)
        → ((status : ℕ) (output : List ℕ) → Due family words text status output → ⊥) → ⊥ }
{}

/// Behind one head the same is due for mails whose `kem` bodies are the same in order, and whose `msg` bodies are.
pub fn same_bodies()
    ensures { (family : Family) (suite : SuiteName) (budget limit : ℕ) (words others : List (List ℕ)) (head text other : List ℕ)
        (status : ℕ) (output : List ℕ) → Spells words (Command.Open suite budget) → Spells others (Command.Open suite limit)
        → IsHeadText head → SameBodies text budget other limit
        → Due family words (head ++ text) status output → Due family others (head ++ other) status output }
{}

/// An input of `seal` has one reading: it holds one key, one info, one seed of a random source and one list of
/// messages.
pub fn one_seal_input()
    ensures key { (size : ℕ) (text key info source other : List ℕ) (messages : List (List ℕ)) (info_of source_of : List ℕ) (messages_of : List (List ℕ))
        → IsSealInput size text key info source messages → IsSealInput size text other info_of source_of messages_of → key ≡ other }
    ensures info { (size : ℕ) (text key info source other : List ℕ) (messages : List (List ℕ)) (key_of source_of : List ℕ) (messages_of : List (List ℕ))
        → IsSealInput size text key info source messages → IsSealInput size text key_of other source_of messages_of → info ≡ other }
    ensures source { (size : ℕ) (text key info source other : List ℕ) (messages : List (List ℕ)) (key_of info_of : List ℕ) (messages_of : List (List ℕ))
        → IsSealInput size text key info source messages → IsSealInput size text key_of info_of other messages_of → source ≡ other }
    ensures messages { (size : ℕ) (text key info source : List ℕ) (messages other : List (List ℕ)) (key_of info_of source_of : List ℕ)
        → IsSealInput size text key info source messages → IsSealInput size text key_of info_of source_of other → messages ≡ other }
{}

/// The words of commands, and the limits of what they read.
pub fn worked_words()
    ensures smallest { let suite : SuiteName = record { set = SetName.Set512; kdf = KdfName.Sha256; aead = AeadName.Aes128 } in
        words_of (Command.Open suite 1) ≡ codes "open" ∷ codes "512" ∷ codes "sha256" ∷ codes "aes128" ∷ codes "1" ∷ [] }
    ensures middle { let suite : SuiteName = record { set = SetName.Set768; kdf = KdfName.Sha384; aead = AeadName.Aes256 } in
        words_of (Command.Open suite 1490) ≡ codes "open" ∷ codes "768" ∷ codes "sha384" ∷ codes "aes256" ∷ codes "1490" ∷ [] }
    ensures greatest { let suite : SuiteName = record { set = SetName.Set1024; kdf = KdfName.Sha512; aead = AeadName.Aes256 } in
        words_of (Command.Open suite greatest_budget) ≡ codes "open" ∷ codes "1024" ∷ codes "sha512" ∷ codes "aes256" ∷ codes "16777216" ∷ [] }
    ensures key { words_of (Command.Key SetName.Set768) ≡ codes "key" ∷ codes "768" ∷ [] }
    ensures seal { let suite : SuiteName = record { set = SetName.Set512; kdf = KdfName.Sha512; aead = AeadName.Aes128 } in
        words_of (Command.Seal suite) ≡ codes "seal" ∷ codes "512" ∷ codes "sha512" ∷ codes "aes128" ∷ [] }
    ensures smallest_gen { words_of (Command.Gen 0) ≡ codes "gen" ∷ codes "0" ∷ [] }
    ensures greatest_gen { words_of (Command.Gen greatest_count) ≡ codes "gen" ∷ codes "2000" ∷ [] }
    ensures budget { greatest_budget ≡ 16777216 }
    ensures seed { seed_digits ≡ 128 }
    ensures info { most_info_digits ≡ 8192 }
    ensures source { source_digits ≡ 64 }
    ensures message { most_message_digits ≡ 65536 }
    ensures messages { most_messages ≡ 4096 }
{}

/// The lines of a run, each worked by hand.
pub fn worked_lines()
    ensures items { lines ((0 ∷ 255 ∷ 26 ∷ []) ∷ [] ∷ []) ≡ codes "00ff1a" ++ 10 ∷ 10 ∷ [] }
    ensures no_command { no_command_line ≡ codes "! words" ++ 10 ∷ [] }
    ensures place { error_line (codes "head") (RunError.Place 128) ≡ codes "! head 128" ++ 10 ∷ [] }
    ensures ended { error_line (codes "head") RunError.Ended ≡ codes "! head ended" ++ 10 ∷ [] }
    ensures input_place { error_line (codes "input") (RunError.Place 2369) ≡ codes "! input 2369" ++ 10 ∷ [] }
    ensures input_ended { error_line (codes "input") RunError.Ended ≡ codes "! input ended" ++ 10 ∷ [] }
    ensures invalid_key { error_line (codes "input") RunError.InvalidKey ≡ codes "! InvalidKey" ++ 10 ∷ [] }
    ensures no_key { error_line (codes "head") (RunError.Mail MailError.XofExhausted) ≡ codes "! XofExhausted" ++ 10 ∷ [] }
    ensures invalid_data { error_line (codes "head") (RunError.Mail MailError.InvalidData) ≡ codes "! InvalidData" ++ 10 ∷ [] }
    ensures unexpected_eof { error_line (codes "head") (RunError.Mail MailError.UnexpectedEof) ≡ codes "! UnexpectedEof" ++ 10 ∷ [] }
    ensures too_much { error_line (codes "head") (RunError.Mail MailError.TooMuch) ≡ codes "! TooMuch" ++ 10 ∷ [] }
    ensures not_one_kem { error_line (codes "head") (RunError.Mail (MailError.NotOneKem 2)) ≡ codes "! NotOneKem 2" ++ 10 ∷ [] }
    ensures length { error_line (codes "head") (RunError.Mail (MailError.IncorrectInputLength 1088 7)) ≡ codes "! IncorrectInputLength 1088 7" ++ 10 ∷ [] }
    ensures open_error { error_line (codes "head") (RunError.Mail (MailError.OpenError 0)) ≡ codes "! OpenError 0" ++ 10 ∷ [] }
{}

/// The headline: an `open` run ends with status 0 only where its source begins with a head and a mail that
/// opens under the suite of its words, with exactly that mail's messages written in order, one line each.
/// Each other status but 6 comes only by its cause, and a head and such a mail without a fault of source or
/// sink give status 0, with that written, or 6 for want of memory.
pub fn headline<H: KemHash, S: Source, W: Sink>(
    alloc: Global,
    words: &[String],
    src: &mut S,
    out: &mut W,
) -> u8
    ensures opened { (suite : SuiteName) (budget : ℕ) → Spells (map string_bytes words.now) (Command.Open suite budget)
        → IfSome (S.left src.old) (λ text. result ≡ 0 → (messages : List (List ℕ)) × HoldsMail H.family suite budget text messages
        × Gains (W.got out.old) (W.got out.new) (lines messages)) }
    ensures no_command { result ≡ 2 → ((command : Command) → Spells (map string_bytes words.now) command → ⊥)
        × Gains (W.got out.old) (W.got out.new) no_command_line }

    // The one fault of the input, the key or the mail that is due, by its line; and so there is no such mail.
    ensures refused { IfSome (S.left src.old) (λ text. result ≡ 3 → (output : List ℕ)
        × Due H.family (map string_bytes words.now) text 3 output × Gains (W.got out.old) (W.got out.new) output) }
    ensures no_mail { (suite : SuiteName) (budget : ℕ) → Spells (map string_bytes words.now) (Command.Open suite budget)
        → IfSome (S.left src.old) (λ text. result ≡ 3 → (messages : List (List ℕ)) → HoldsMail H.family suite budget text messages → ⊥) }
    // Exactly where the source failed, with nothing written; what was taken is then a part of the input, or a
    // head whose seed gives a key and the front of a mail without a whole `done`.
    ensures read_fault { result ≡ 4 → Rose (S.faults src.old) (S.faults src.new) × Gains (W.got out.old) (W.got out.new) [] }
    ensures read_fault_told { result ≢ 4 → S.faults src.new ≡ S.faults src.old }
    ensures read_part { result ≡ 4 → (command : Command) × Spells (map string_bytes words.now) command
        × Lost (S.left src.old) (S.left src.new) (Takes H.family command (Err (RunError.Mail MailError.ReadFault))) }

    // Exactly where the sink failed, with a part of what is due, from its front.
    ensures write_fault { result ≡ 5 → Rose (W.faults out.old) (W.faults out.new) }
    ensures write_fault_told { result ≢ 5 → W.faults out.new ≡ W.faults out.old }
    ensures write_part { IfSome (S.left src.old) (λ text. result ≡ 5 → (status : ℕ) × (output : List ℕ)
        × Due H.family (map string_bytes words.now) text status output × GainsPart (W.got out.old) (W.got out.new) output) }

    // Nothing was written; `seal` alone may have written a part of what is due, which is whole stanzas.
    ensures memory { result ≡ 6 → ((suite : SuiteName) → Spells (map string_bytes words.now) (Command.Seal suite) → ⊥)
        → Gains (W.got out.old) (W.got out.new) [] }
    ensures memory_whole { result ≡ 6 → (written : List ℕ) × AreStanzas written × Gains (W.got out.old) (W.got out.new) written }
    ensures no_other { IsAnswer result ⊎ ((result ≡ 4) ⊎ ((result ≡ 5) ⊎ (result ≡ 6))) }
    ensures complete { (suite : SuiteName) (budget : ℕ) → Spells (map string_bytes words.now) (Command.Open suite budget)
        → IfSome (S.left src.old) (λ text. (messages : List (List ℕ)) → HoldsMail H.family suite budget text messages
        → (Rose (S.faults src.old) (S.faults src.new) → ⊥) → (Rose (W.faults out.old) (W.faults out.new) → ⊥)
        → ((result ≡ 0) × Gains (W.got out.old) (W.got out.new) (lines messages)) ⊎ (result ≡ 6)) }
{
    mail_main::<H, S, W>(alloc, words, src, out)
}

/// The headline over memory: a source that never fails, and a sink none of whose writes is to fail, as
/// [`MemSink::fail_at`] tells, so that it fails for want of memory alone. A head and a mail are then opened,
/// and exactly the mail's messages written, unless memory runs out: for the run, or for the sink, which then
/// tells it.
pub fn headline_over_memory<H: KemHash>(
    alloc: Global,
    words: &[String],
    src: &mut CleanSource,
    out: &mut MemSink,
) -> u8
    requires no_plan { out.old.fail_at ≡ [] }
    ensures opened { (suite : SuiteName) (budget : ℕ) → Spells (map string_bytes words.now) (Command.Open suite budget)
        → result ≡ 0 → (messages : List (List ℕ)) × HoldsMail H.family suite budget src.old messages × (out.new.got ≡ out.old.got ++ lines messages) }
    ensures complete { (suite : SuiteName) (budget : ℕ) (messages : List (List ℕ)) → Spells (map string_bytes words.now) (Command.Open suite budget)
        → HoldsMail H.family suite budget src.old messages → (result ≡ 0) ⊎ ((result ≡ 6) ⊎ ((result ≡ 5) × (out.new.ran_out ≡ true))) }
    ensures no_read_fault { result ≡ 4 → ⊥ }
    ensures write_fault { result ≡ 5 → out.new.ran_out ≡ true }
{
    let status = mail_main::<H, CleanSource, MemSink>(alloc, words, src, out);
    let _ran_out = out.ran_out();
    status
}
