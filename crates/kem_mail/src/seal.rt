//! Sealing a mail.

ghost use Rattle.std.specs.Prelude.{◌≡◌, ◌≢◌, ◌<◌, ◌^◌, ◌+◌, ◌⊎◌, ℕ, List, [], ◌∷◌, map, None, Some, Ok, Err, IfOk, IfErr, OnOk};
ghost use Rattle.rand_core.specs.Stream.{fill_bytes};
ghost use Rattle.age_format.specs.Outside.{Wrote};
ghost use Rattle.age_format.specs.Stanza.{IsArbitraryString};
ghost use Rattle.hpke.specs.Messages.{used};
ghost use Rattle.hpke.specs.Schedule.{suite_of};
ghost use Rattle.ml_kem.specs.Keys.{rho_part};
ghost use Rattle.ml_kem.specs.Matrix.{matrix};
ghost use Rattle.age_send.specs.Grease.{GivesBytes};
ghost use Rattle.age_send.specs.Sending.{done};
ghost use Rattle.kem_mail.specs.Sealing.{Sealer, key_stanza, lattice_sealer, message_stanza, seal_at, sealed, sealed_stanzas, sealer_of, unsealed};
ghost use Rattle.kem_mail.specs.SenderText.{IsSenderText};
ghost use Rattle.kem_mail.specs.Sent.{AreStanzas, SealsMail, Untouched, mail_text};
ghost use Rattle.kem_mail.specs.private.Causes.{of_send};
ghost use Rattle.kem_mail.specs.private.Sends.{Sends};

use crate::error::SealMailError;
use crate::list::MessageList;
use crate::open::{KEM_TAG, MESSAGE_TAG};
use age_format::PhaseError;
use age_format::outside::Sink;
use age_send::{finish_to, send_to};
use hpke::{
    Aead, AeadCtxS, HpkeError, Kdf, Kem, LatticeKem, LatticePublicKey, OpModeS, Serializable,
    setup_sender,
};
use kem_hash::KemHash;
use ml_kem::{EncapsulationKey, KemError, ParameterSet};
use rand_core::Rng;
use std::alloc::Global;

// What a send came to, for a mail.
fn sent(outcome: Result<(), PhaseError>) -> Result<(), SealMailError>
    ensures { result ≡ of_send outcome }
{
    match outcome {
        Ok(()) => Ok(()),
        Err(PhaseError::WriteFault) => Err(SealMailError::WriteFault),
        Err(_) => Err(SealMailError::NoMemory),
    }
}

// Sends a stanza without arguments.
fn send_body<R: Rng, W: Sink>(
    alloc: Global,
    tag: &str,
    body: &[u8],
    rng: &mut R,
    out: &mut W,
) -> Result<(), SealMailError>
    requires { IsArbitraryString tag.now }
    ensures { Sends W.got W.faults W.plan out.old out.new (record { tag = tag.now; args = []; body = body.now } ∷ [])
        (R.stream rng.old) (R.stream rng.new) None result }
{
    sent(send_to(alloc, out, rng, tag, &[], body))
}

// Sends the stanza that ends a mail.
fn send_done<R: Rng, W: Sink>(alloc: Global, rng: &mut R, out: &mut W) -> Result<(), SealMailError>
    ensures { Sends W.got W.faults W.plan out.old out.new (done ∷ []) (R.stream rng.old) (R.stream rng.new) None result }
{
    sent(finish_to(alloc, out, rng))
}

// Sends the stanza of an encapsulated key.
fn send_key<K: Kem, R: Rng, W: Sink>(
    alloc: Global,
    key: &K::EncappedKey,
    rng: &mut R,
    out: &mut W,
) -> Result<(), SealMailError>
    ensures { Sends W.got W.faults W.plan out.old out.new (key_stanza (K.EncappedKey.bytes key.now) ∷ [])
        (R.stream rng.old) (R.stream rng.new) None result }
{
    match key.to_bytes(alloc) {
        Ok(encoded) => send_body(alloc, KEM_TAG, encoded.as_slice(), rng, out),
        Err(_) => Err(SealMailError::NoMemory),
    }
}

// Seals a message as the next number of the context, which is this one, and sends its stanza.
fn send_message<A: Aead, D: Kdf, K: Kem, R: Rng, W: Sink>(
    alloc: Global,
    ctx: &mut AeadCtxS<A, D, K>,
    number: u64,
    message: &[u8],
    rng: &mut R,
    out: &mut W,
) -> Result<(), SealMailError>
    requires { ctx.old.next ≡ Some number }
    ensures sends { let meaning = seal_at A.AeadImpl.seal_of ctx.old in
        Sends W.got W.faults W.plan out.old out.new (map message_stanza (sealed meaning number (message.now ∷ [])))
        (R.stream rng.old) (R.stream rng.new) (unsealed meaning number (message.now ∷ [])) result }
    ensures used { OnOk result (ctx.new ≡ used ctx.old) }
{
    match ctx.seal(alloc, message, &[]) {
        Ok(sealed) => send_body(alloc, MESSAGE_TAG, sealed.as_slice(), rng, out),
        Err(HpkeError::SealError) => Err(SealMailError::SealError(number)),
        Err(_) => Err(SealMailError::NoMemory),
    }
}

// Seals the messages under the numbers of a context from 0 on, and sends their stanzas.
fn send_messages<A: Aead, D: Kdf, K: Kem, R: Rng, W: Sink>(
    alloc: Global,
    ctx: &mut AeadCtxS<A, D, K>,
    messages: &MessageList,
    rng: &mut R,
    out: &mut W,
) -> Result<(), SealMailError>
    requires { ctx.old.next ≡ Some 0 }
    ensures { let meaning = seal_at A.AeadImpl.seal_of ctx.old in
        Sends W.got W.faults W.plan out.old out.new (map message_stanza (sealed meaning 0 messages.now))
        (R.stream rng.old) (R.stream rng.new) (unsealed meaning 0 messages.now) result }
{
    for i in 0..messages.len() {
        let message = messages.get(i).unwrap();
        send_message(alloc, ctx, i as u64, message, rng, out)?;
    }
    Ok(())
}

// Sends the stanzas of a mail: its encapsulated key, its messages, sealed in the context, and `done`.
fn send_mail<A: Aead, D: Kdf, K: Kem, R: Rng, W: Sink>(
    alloc: Global,
    key: &K::EncappedKey,
    ctx: &mut AeadCtxS<A, D, K>,
    messages: &MessageList,
    rng: &mut R,
    out: &mut W,
) -> Result<(), SealMailError>
    requires { ctx.old.next ≡ Some 0 }
    ensures { let meaning = seal_at A.AeadImpl.seal_of ctx.old in
        Sends W.got W.faults W.plan out.old out.new (key_stanza (K.EncappedKey.bytes key.now) ∷ sealed_stanzas meaning messages.now)
        (R.stream rng.old) (R.stream rng.new) (unsealed meaning 0 messages.now) result }
{
    send_key::<K, R, W>(alloc, key, rng, out)?;
    send_messages(alloc, ctx, messages, rng, out)?;
    send_done(alloc, rng, out)
}

// Seals a mail to a public key of any KEM and sends it. Where nothing can be encapsulated to the key by the
// 32 bytes that are drawn first, nothing is written.
fn seal_with<K: Kem, D: Kdf, A: Aead, R: Rng, W: Sink>(
    alloc: Global,
    pk: &K::PublicKey,
    info: &[u8],
    messages: &MessageList,
    rng: &mut R,
    out: &mut W,
) -> Result<(), SealMailError>
    ensures sealed { let sealer : Sealer = sealer_of (suite_of K.KEM_ID D.kdf A.aead) info.now
        (K.encap_of (K.PublicKey.bytes pk.now) None) A.AeadImpl.seal_of in result ≢ Err SealMailError.XofExhausted
        → SealsMail W.got W.faults W.plan out.old out.new sealer messages.now (R.stream rng.old) (R.stream rng.new) result }
    ensures has_key { result ≡ Err SealMailError.XofExhausted
        → K.encap_of (K.PublicKey.bytes pk.now) None (fill_bytes 32 (R.stream rng.old)).0 ≡ None }
{
    match setup_sender::<A, D, K, R>(alloc, &OpModeS::Base, pk, info, rng) {
        Ok(made) => {
            let (key, mut ctx) = made;
            send_mail(alloc, &key, &mut ctx, messages, rng, out)
        }
        Err(HpkeError::EncapError) => Err(SealMailError::XofExhausted),
        Err(_) => Err(SealMailError::NoMemory),
    }
}

// A copy of the key, where something can be encapsulated to it. Nothing is drawn: whether a key takes an
// encapsulation doesn't depend on the bytes that one draws, so zeros tell it.
fn judged_key<P: ParameterSet, H: KemHash>(
    ek: &EncapsulationKey<P, H>,
) -> Result<LatticePublicKey<P, H>, SealMailError>
    ensures copy { IfOk result (λ pk. pk ≡ ek.now) }
    ensures has_key { OnOk result (matrix H.family P.set.k (rho_part P.set ek.now) ≢ None) }
    ensures no_key { IfErr result (λ e. (e ≡ SealMailError.NoMemory)
        ⊎ ((e ≡ SealMailError.XofExhausted) × (matrix H.family P.set.k (rho_part P.set ek.now) ≡ None))) }
{
    match ek.encapsulate_deterministic(&[0; 32]) {
        Ok(_) => {}
        Err(KemError::XofExhausted) => return Err(SealMailError::XofExhausted),
        Err(KemError::NoMemory) => return Err(SealMailError::NoMemory),
    }
    match ek.try_clone() {
        Ok(copy) => Ok(LatticePublicKey::new(copy)),
        Err(_) => Err(SealMailError::NoMemory),
    }
}

/// Seals messages to a lattice key in mode Base of HPKE (RFC 9180, section 5), and sends them as a mail: the
/// encapsulated key under the tag `kem`, each message, sealed without associated data under its number from
/// 0 on, under `msg`, and `done`; before each of these stanzas the grease of two rolls.
///
/// 32 bytes are drawn for the encapsulated key, and then the rolls, each right before its grease is written.
/// `XofExhausted` comes exactly where a sample of the key's matrix is none, before anything is drawn or
/// written. `SealError` comes with the number of the first message that can't be sealed; the stanzas before
/// it were sent whole. `WriteFault` comes where the sink failed, and a part of the mail, from its front, was
/// written. `NoMemory` is free: whole stanzas of the mail were written, from its front, or nothing.
pub fn seal_mail<P: ParameterSet, H: KemHash, D: Kdf, A: Aead, R: Rng, W: Sink>(
    alloc: Global,
    ek: &EncapsulationKey<P, H>,
    info: &[u8],
    messages: &MessageList,
    rng: &mut R,
    out: &mut W,
) -> Result<(), SealMailError>
    ensures sealed { let sealer : Sealer = lattice_sealer P.set H.family D.kdf A.aead A.AeadImpl.seal_of ek.now info.now in
        SealsMail W.got W.faults W.plan out.old out.new sealer messages.now (R.stream rng.old) (R.stream rng.new) result }
    // What was written is a sender's text, and its other stanzas are grease.
    ensures sender_text { let sealer : Sealer = lattice_sealer P.set H.family D.kdf A.aead A.AeadImpl.seal_of ek.now info.now in
        OnOk result (IsSenderText sealer messages.now (fill_bytes 32 (R.stream rng.old)).0 (mail_text sealer messages.now (R.stream rng.old))) }
    // Where memory ran out, what was written is whole stanzas, if what the random source gives are bytes.
    ensures memory { GivesBytes (R.stream rng.old) → result ≡ Err SealMailError.NoMemory
        → (written : List ℕ) × AreStanzas written × Wrote W.got W.faults W.plan out.old out.new written }

    // The key alone decides whether there is a mail, and without one nothing is drawn or written.
    ensures has_key { result ≡ Err SealMailError.XofExhausted → matrix H.family P.set.k (rho_part P.set ek.now) ≡ None }
    ensures no_key { matrix H.family P.set.k (rho_part P.set ek.now) ≡ None
        → (result ≡ Err SealMailError.XofExhausted) ⊎ (result ≡ Err SealMailError.NoMemory) }
    ensures untouched { let sealer : Sealer = lattice_sealer P.set H.family D.kdf A.aead A.AeadImpl.seal_of ek.now info.now in
        matrix H.family P.set.k (rho_part P.set ek.now) ≡ None
        → Untouched W.got W.faults W.plan out.old out.new sealer messages.now (R.stream rng.old) (R.stream rng.new) }
{
    let pk = judged_key(ek)?;
    seal_with::<LatticeKem<P, H>, D, A, R, W>(alloc, &pk, info, messages, rng, out)
}
