//! Opening a mail.

ghost use Rattle.std.specs.Prelude.{◌≡◌, ◌≢◌, ◌≤◌, ◌<◌, ◌^◌, ◌+◌, ◌⊎◌, ℕ, List, [], length, map, codes, Some, None, Ok, Err, Option, IfOk, IfErr, IfNone, IfSome, IsTrue, IsErrOf, OnOk};
ghost use Rattle.std.specs.Option.{option_copied};
ghost use Rattle.age_format.specs.Outside.{Rose};
ghost use Rattle.age_format.specs.Stanza.{stanza_of};
ghost use Rattle.hpke.specs.Schedule.{Context, suite_of};
ghost use Rattle.kem_mail.specs.Mail.{Opener, Opens, IsVerdict, Verdict, bodies, judged_bodies, open_at, opened, opener_of};
ghost use Rattle.kem_mail.specs.Taken.{Lost, IsTaken};
ghost use Rattle.kem_mail.specs.private.Answers.{IsKeyOf, Judges};
ghost use Rattle.kem_mail.specs.private.Causes.{ComesOf};
ghost use Rattle.kem_mail.specs.private.Opening.{IsRead, ReadTaken};

use crate::error::MailError;
use crate::list::MessageList;
use age_format::format::Stanza;
use age_format::outside::Source;
use age_format::{PhaseError, StanzaReader};
use hpke::{Aead, AeadCtxR, Deserializable, HpkeError, Kdf, Kem, OpModeR, setup_receiver};
use std::alloc::Global;

// The tag of the stanza whose body is the encapsulated key.
pub(crate) const KEM_TAG: &str = "kem";

// The tag of the stanzas whose bodies are sealed messages.
pub(crate) const MESSAGE_TAG: &str = "msg";

// The tag of the stanza that ends a mail.
const DONE_TAG: &str = "done";

// Why a mail isn't read, by the refusal of its reader, which writes nothing and gets no reply.
fn refusal(phase: PhaseError) -> MailError
    requires no_write_fault { phase ≢ PhaseError.WriteFault }
    requires no_unexpected_reply { (tag : _) → phase ≢ PhaseError.UnexpectedReply tag }
    ensures { ComesOf phase result }
{
    match phase {
        PhaseError::NoMemory => MailError::NoMemory,
        PhaseError::ReadFault => MailError::ReadFault,
        PhaseError::InvalidData => MailError::InvalidData,
        PhaseError::UnexpectedEof => MailError::UnexpectedEof,
        PhaseError::TooMuch => MailError::TooMuch,
        PhaseError::WriteFault | PhaseError::UnexpectedReply(_) => unreachable!(),
    }
}

// The stanzas of a source before the first that ends a mail, among the first `budget` bytes.
fn stanzas_before_done<S: Source>(
    alloc: Global,
    src: &mut S,
    budget: u64,
) -> Result<Vec<Stanza>, MailError>
    ensures read { IfSome (S.left src.old) (λ text. IsRead (λ stanzas. map stanza_of stanzas.items) text budget result) }
    ensures refused { IfErr result (λ e. (phase : PhaseError) × ComesOf phase e) }
    ensures read_fault { IsErrOf result MailError.ReadFault → Rose (S.faults src.old) (S.faults src.new) }
    ensures taken { Lost (S.left src.old) (S.left src.new) (ReadTaken budget result) }
    ensures ended { IsErrOf result MailError.UnexpectedEof → IfSome (S.left src.old) (λ text. S.left src.new ≡ Some []) }
    ensures no_fault { (IsErrOf result MailError.ReadFault → ⊥) → S.faults src.new ≡ S.faults src.old }
    ensures faults { S.faults src.old ≤ S.faults src.new }
{
    let mut reader = StanzaReader::new(alloc, budget);
    let mut stanzas = Vec::new(alloc);
    loop {
        let stanza = match reader.receive_from(src) {
            Ok(stanza) => stanza,
            Err(phase) => return Err(refusal(phase)),
        };
        if stanza.has_tag(DONE_TAG) {
            return Ok(stanzas);
        }
        stanzas.push(stanza)?;
    }
}

// The body of the one stanza that holds an encapsulated key.
fn key_body(stanzas: &[Stanza]) -> Result<&[u8], MailError>
    ensures { IsKeyOf (λ body. body.now) (bodies (codes "kem") (map stanza_of stanzas.now)) result }
{
    let mut count: u64 = 0;
    let mut found: &[u8] = &[];
    for stanza in stanzas {
        if stanza.has_tag(KEM_TAG) {
            count += 1;
            found = stanza.body.as_slice();
        }
    }
    if count == 1 {
        Ok(found)
    } else {
        Err(MailError::NotOneKem(count))
    }
}

// The encapsulated key that has these bytes. It is refused for another length than its own alone.
fn key_from<K: Kem>(alloc: Global, encoded: &[u8]) -> Result<K::EncappedKey, MailError>
    ensures bytes { IfOk result (λ key. K.EncappedKey.bytes key ≡ encoded.now) }
    ensures size { OnOk result (length encoded.now ≡ K.EncappedKey.wire_size) }
    ensures refused { IfErr result (λ e. (e ≡ MailError.NoMemory) ⊎
        ((e ≡ MailError.IncorrectInputLength K.EncappedKey.wire_size (length encoded.now)) × (length encoded.now ≢ K.EncappedKey.wire_size))) }
{
    match K::EncappedKey::from_bytes(alloc, encoded) {
        Ok(key) => Ok(key),
        Err(HpkeError::IncorrectInputLength(expected, given)) => {
            Err(MailError::IncorrectInputLength(expected, given))
        }
        Err(_) => Err(MailError::NoMemory),
    }
}

// Opens the sealed messages of a list of stanzas, in order.
fn open_messages<A: Aead, D: Kdf, K: Kem>(
    alloc: Global,
    ctx: &mut AeadCtxR<A, D, K>,
    stanzas: &[Stanza],
) -> Result<MessageList, MailError>
    requires { ctx.old.next ≡ Some 0 }
    ensures { Judges (λ messages. messages) result
        (opened (open_at A.AeadImpl.open_of ctx.old) 0 (bodies (codes "msg") (map stanza_of stanzas.now))) }
{
    let mut messages = MessageList::new(alloc);
    for stanza in stanzas {
        if stanza.has_tag(MESSAGE_TAG) {
            match ctx.open(alloc, stanza.body.as_slice(), &[]) {
                Ok(text) => messages.push(text)?,
                Err(HpkeError::OpenError) => {
                    return Err(MailError::OpenError(messages.len() as u64));
                }
                Err(_) => return Err(MailError::NoMemory),
            }
        }
    }
    Ok(messages)
}

// What a list of stanzas comes to for the holder of a private key.
fn judge<'a, K: Kem, D: Kdf, A: Aead>(
    alloc: Global,
    sk: &'a K::PrivateKey,
    info: &[u8],
    stanzas: &[Stanza],
) -> Result<MessageList, MailError>
    ensures judged { let opener : Opener = opener_of (suite_of K.KEM_ID D.kdf A.aead) info.now K.EncappedKey.wire_size
        (K.decap_of (K.PrivateKey.bytes sk.now) None) A.AeadImpl.open_of in Judges (λ messages. messages) result
        (judged_bodies opener (bodies (codes "kem") (map stanza_of stanzas.now)) (bodies (codes "msg") (map stanza_of stanzas.now))) }
    ensures has_key { result ≢ Err MailError.XofExhausted }
{
    let encoded = key_body(stanzas)?;
    let key = key_from::<K>(alloc, encoded)?;
    let mut ctx = match setup_receiver::<A, D, K>(alloc, &OpModeR::Base, sk, &key, info) {
        Ok(ctx) => ctx,
        Err(_) => return Err(MailError::NoMemory),
    };
    open_messages(alloc, &mut ctx, stanzas)
}

/// Opens the mail that the first `budget` bytes of a source hold, with a private key of any KEM, in mode
/// Base of HPKE (RFC 9180, section 5).
///
/// Stanzas are taken up to the first tagged `done`. Exactly one of them is tagged `kem`, and its body
/// has the length of an encapsulated key. The bodies of those tagged `msg` are the sealed messages,
/// which open in order, without associated data. Other tags, arguments, the order of `kem` and `msg`
/// and what stands behind `done` are free.
///
/// The refusals are judged in this order. `ReadFault`: the source failed before a whole `done` was read.
/// `InvalidData`: the bytes are no stanzas. `UnexpectedEof`: the source ended before a whole `done`.
/// `TooMuch`: the budget did. `NotOneKem`: with the number of stanzas tagged `kem`.
/// `IncorrectInputLength`: with the length of an encapsulated key and that of the body. `OpenError`: with
/// the number, from 0, of the first sealed message that doesn't open. `XofExhausted` never comes.
///
/// At most `budget` bytes are taken, and at most 4095 behind the first `done`. `NoMemory` is free: it may
/// come in the place of any answer.
pub fn open_with<K: Kem, D: Kdf, A: Aead, S: Source>(
    alloc: Global,
    sk: &K::PrivateKey,
    info: &[u8],
    src: &mut S,
    budget: u64,
) -> Result<MessageList, MailError>
    ensures verdict { let opener : Opener = opener_of (suite_of K.KEM_ID D.kdf A.aead) info.now K.EncappedKey.wire_size
        (K.decap_of (K.PrivateKey.bytes sk.now) None) A.AeadImpl.open_of in
        IfSome (S.left src.old) (λ text. IsVerdict result → Opens opener text budget result) }

    // A mail whose source doesn't fail comes to its verdict, unless memory runs out.
    ensures complete { let opener : Opener = opener_of (suite_of K.KEM_ID D.kdf A.aead) info.now K.EncappedKey.wire_size
        (K.decap_of (K.PrivateKey.bytes sk.now) None) A.AeadImpl.open_of in
        IfSome (S.left src.old) (λ text. (verdict : Verdict) → Opens opener text budget verdict
        → (Rose (S.faults src.old) (S.faults src.new) → ⊥) → (result ≡ verdict) ⊎ (result ≡ Err MailError.NoMemory)) }
    // The first fault of the source is the answer, and nothing is read behind it.
    ensures read_fault { IsErrOf result MailError.ReadFault → Rose (S.faults src.old) (S.faults src.new) }
    ensures has_key { result ≢ Err MailError.XofExhausted }

    // What was taken, and what of it held at each refusal.
    ensures taken { Lost (S.left src.old) (S.left src.new) (IsTaken budget result) }
    ensures ended { IsErrOf result MailError.UnexpectedEof → IfSome (S.left src.old) (λ text. S.left src.new ≡ Some []) }
    ensures no_fault { (IsErrOf result MailError.ReadFault → ⊥) → S.faults src.new ≡ S.faults src.old }
    ensures faults { S.faults src.old ≤ S.faults src.new }
{
    let stanzas = stanzas_before_done(alloc, src, budget)?;
    judge::<K, D, A>(alloc, sk, info, &stanzas)
}
