//! Sends: the grease of two rolls, and a stanza.

ghost use Rattle.std.specs.Prelude.{◌≡◌, ◌⊎◌, map, IfErr, IsErrOf, IsOk, OnErr, OnOk};
ghost use Rattle.std.specs.List.{AllByRecursion};
ghost use Rattle.std.specs.String.{string_bytes};
ghost use Rattle.age_format.specs.Stanza.{IsArbitraryString, stanza_of};
ghost use Rattle.age_send.specs.Sending.{AfterGrease, RanOutInFirst, SendFailed, SendRanOut, Sent, done, sent_text, stanza_with, under_command};
ghost use Rattle.age_send.specs.private.Rolling.{GreaseFailed, Greased, RollFailed, Rolled};

use crate::grease::roll;
use crate::write::{write_parts, write_under_command};
use age_format::PhaseError;
use age_format::format::Stanza;
use age_format::outside::{Failed, Sink};
use rand_core::Rng;
use std::alloc::Global;

/// Rolls once, and writes the grease stanza that was made.
fn send_roll<W: Sink, G: Rng>(alloc: Global, sink: &mut W, rng: &mut G) -> Result<(), PhaseError>
    ensures sent { OnOk result (Rolled W.got W.faults W.plan sink.old sink.new (G.stream rng.old) (G.stream rng.new)) }
    ensures write_fault { IsErrOf result PhaseError.WriteFault
        → RollFailed W.got W.faults W.plan sink.old sink.new (G.stream rng.old) (G.stream rng.new) }
    ensures memory { IsErrOf result PhaseError.NoMemory
        → RanOutInFirst W.got W.faults W.plan sink.old sink.new (G.stream rng.old) (G.stream rng.new) }
    ensures no_other { IfErr result (λ e. (e ≡ PhaseError.WriteFault) ⊎ (e ≡ PhaseError.NoMemory)) }
{
    let made = roll(alloc, rng)?;
    match made {
        None => Ok(()),
        Some(grease) => phase(write_parts(
            sink,
            grease.tag.as_str(),
            grease.args.as_slice(),
            grease.body.as_slice(),
        )),
    }
}

/// Rolls twice.
fn send_grease<W: Sink, G: Rng>(alloc: Global, sink: &mut W, rng: &mut G) -> Result<(), PhaseError>
    ensures sent { OnOk result (Greased W.got W.faults W.plan sink.old sink.new (G.stream rng.old) (G.stream rng.new)) }
    ensures write_fault { IsErrOf result PhaseError.WriteFault
        → GreaseFailed W.got W.faults W.plan sink.old sink.new (G.stream rng.old) (G.stream rng.new) }
    ensures memory { IsErrOf result PhaseError.NoMemory
        → SendRanOut W.got W.faults W.plan sink.old sink.new (G.stream rng.old) (G.stream rng.new) }
    ensures no_other { IfErr result (λ e. (e ≡ PhaseError.WriteFault) ⊎ (e ≡ PhaseError.NoMemory)) }
{
    send_roll(alloc, sink, rng)?;
    send_roll(alloc, sink, rng)
}

/// A failed write ends the phase.
fn phase(written: Result<(), Failed>) -> Result<(), PhaseError>
    ensures ok { OnOk written (IsOk result) }
    ensures err { OnErr written (result ≡ Err PhaseError.WriteFault) }
{
    match written {
        Ok(()) => Ok(()),
        Err(Failed) => Err(PhaseError::WriteFault),
    }
}

/// Rolls twice for grease, and writes each stanza that is made as soon as it is drawn; then writes the
/// stanza with the command as its tag and the metadata as its arguments.
///
/// `WriteFault` comes where the sink failed; a part of the text, from its front, was written. `NoMemory`
/// comes at want of memory for grease alone; whole stanzas alone were written then.
pub fn send_to<W: Sink, G: Rng>(
    alloc: Global,
    sink: &mut W,
    rng: &mut G,
    command: &str,
    metadata: &[String],
    body: &[u8],
) -> Result<(), PhaseError>
    requires command { IsArbitraryString command.now }
    requires metadata { AllByRecursion IsArbitraryString (map string_bytes metadata.now) }
    ensures sent { OnOk result
        (Sent W.got W.faults W.plan sink.old sink.new (stanza_with command.now (map string_bytes metadata.now) body.now) (G.stream rng.old) (G.stream rng.new)) }
    ensures stanzas { let sent = stanza_with command.now (map string_bytes metadata.now) body.now in
        OnOk result (AfterGrease (sent_text sent (G.stream rng.old)) sent) }
    ensures write_fault { IsErrOf result PhaseError.WriteFault
        → SendFailed W.got W.faults W.plan sink.old sink.new (stanza_with command.now (map string_bytes metadata.now) body.now) (G.stream rng.old) (G.stream rng.new) }
    ensures memory { IsErrOf result PhaseError.NoMemory
        → SendRanOut W.got W.faults W.plan sink.old sink.new (G.stream rng.old) (G.stream rng.new) }
    ensures no_other { IfErr result (λ e. (e ≡ PhaseError.WriteFault) ⊎ (e ≡ PhaseError.NoMemory)) }
{
    send_grease(alloc, sink, rng)?;
    phase(write_parts(sink, command, metadata, body))
}

/// Sends a stanza under a command, as `send_to` sends one: its tag is the command, and its arguments are
/// the metadata, the stanza's tag and the stanza's arguments.
pub fn send_stanza_to<W: Sink, G: Rng>(
    alloc: Global,
    sink: &mut W,
    rng: &mut G,
    command: &str,
    metadata: &[String],
    stanza: &Stanza,
) -> Result<(), PhaseError>
    requires command { IsArbitraryString command.now }
    requires metadata { AllByRecursion IsArbitraryString (map string_bytes metadata.now) }
    requires tag { IsArbitraryString (string_bytes stanza.now.tag) }
    requires args { AllByRecursion IsArbitraryString (map string_bytes stanza.now.args.items) }
    ensures sent { OnOk result
        (Sent W.got W.faults W.plan sink.old sink.new (under_command command.now (map string_bytes metadata.now) (stanza_of stanza.now)) (G.stream rng.old) (G.stream rng.new)) }
    ensures stanzas { let sent = under_command command.now (map string_bytes metadata.now) (stanza_of stanza.now) in
        OnOk result (AfterGrease (sent_text sent (G.stream rng.old)) sent) }
    ensures write_fault { IsErrOf result PhaseError.WriteFault
        → SendFailed W.got W.faults W.plan sink.old sink.new (under_command command.now (map string_bytes metadata.now) (stanza_of stanza.now)) (G.stream rng.old) (G.stream rng.new) }
    ensures memory { IsErrOf result PhaseError.NoMemory
        → SendRanOut W.got W.faults W.plan sink.old sink.new (G.stream rng.old) (G.stream rng.new) }
    ensures no_other { IfErr result (λ e. (e ≡ PhaseError.WriteFault) ⊎ (e ≡ PhaseError.NoMemory)) }
{
    send_grease(alloc, sink, rng)?;
    phase(write_under_command(sink, command, metadata, stanza))
}

/// Ends a phase: rolls twice for grease, as `send_to` does, and writes the stanza `done`, without
/// arguments and body.
pub fn finish_to<W: Sink, G: Rng>(
    alloc: Global,
    sink: &mut W,
    rng: &mut G,
) -> Result<(), PhaseError>
    ensures sent { OnOk result (Sent W.got W.faults W.plan sink.old sink.new done (G.stream rng.old) (G.stream rng.new)) }
    ensures stanzas { OnOk result (AfterGrease (sent_text done (G.stream rng.old)) done) }
    ensures write_fault { IsErrOf result PhaseError.WriteFault
        → SendFailed W.got W.faults W.plan sink.old sink.new done (G.stream rng.old) (G.stream rng.new) }
    ensures memory { IsErrOf result PhaseError.NoMemory
        → SendRanOut W.got W.faults W.plan sink.old sink.new (G.stream rng.old) (G.stream rng.new) }
    ensures no_other { IfErr result (λ e. (e ≡ PhaseError.WriteFault) ⊎ (e ≡ PhaseError.NoMemory)) }
{
    send_to(alloc, sink, rng, "done", &[], &[])
}
