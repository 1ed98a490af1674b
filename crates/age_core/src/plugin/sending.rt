//! Phases in which stanzas are sent to the other side and no reply is awaited.

ghost use Rattle.std.specs.Prelude.{◌≡◌, ◌⊎◌, map, IfErr, IsErrOf, OnOk};
ghost use Rattle.std.specs.List.{AllByRecursion};
ghost use Rattle.std.specs.String.{string_bytes};
ghost use Rattle.age_format.specs.Stanza.{IsArbitraryString, stanza_of};
ghost use Rattle.age_send.specs.Sending.{AfterGrease, Sent, SendFailed, SendRanOut, done, sent_text, stanza_with, under_command};

use super::Connection;
use age_format::PhaseError;
use age_format::format::Stanza;
use age_format::outside::{Sink, Source};
use age_send::{finish_to, send_stanza_to, send_to};
use rand_core::Rng;

/// A phase that sends over a connection, with grease from a random source.
///
/// It can't be dropped: it is spent by [`UnidirSend::finish`] or by [`UnidirSend::abandon`].
pub struct UnidirSend<'a, R, W, G> {
    connection: &'a mut Connection<R, W>,
    rng: &'a mut G,
}

impl<R: Source, W: Sink> Connection<R, W> {
    ghost use Rattle.age_core.specs.Sending.{connection_of, rng_of, Holds};

    /// A phase that sends over this connection. It takes no memory, and nothing is written yet.
    pub fn unidir_send<'a, G: Rng>(&'a mut self, rng: &'a mut G) -> UnidirSend<'a, R, W, G>
        ensures connection { connection_of result ≡ self.entry.now }
        ensures rng { rng_of result ≡ rng.entry.now }
        ensures holds { Holds result self.entry rng.entry }
    {
        UnidirSend {
            connection: self,
            rng,
        }
    }
}

impl<'a, R: Source, W: Sink, G: Rng> UnidirSend<'a, R, W, G> {
    ghost use Rattle.age_core.specs.Connecting.{source_of, sink_of, held_by};
    ghost use Rattle.age_core.specs.Sending.{connection_of, rng_of, HoldSame};

    /// Rolls twice for grease, then sends a stanza with the command as its tag and the metadata as its
    /// arguments, by [`send_to`], whose refusals, and what is written and drawn at each, are those of
    /// this call.
    pub fn send(
        &mut self,
        command: &str,
        metadata: &[String],
        body: &[u8],
    ) -> Result<(), PhaseError>
        requires command { IsArbitraryString command.now }
        requires metadata { AllByRecursion IsArbitraryString (map string_bytes metadata.now) }
        ensures sent { OnOk result (Sent W.got W.faults W.plan (sink_of (connection_of self.old)) (sink_of (connection_of self.new))
            (stanza_with command.now (map string_bytes metadata.now) body.now) (G.stream (rng_of self.old)) (G.stream (rng_of self.new))) }
        ensures stanzas { let sent = stanza_with command.now (map string_bytes metadata.now) body.now in
            OnOk result (AfterGrease (sent_text sent (G.stream (rng_of self.old))) sent) }
        ensures write_fault { IsErrOf result PhaseError.WriteFault
            → SendFailed W.got W.faults W.plan (sink_of (connection_of self.old)) (sink_of (connection_of self.new))
            (stanza_with command.now (map string_bytes metadata.now) body.now) (G.stream (rng_of self.old)) (G.stream (rng_of self.new)) }
        ensures memory { IsErrOf result PhaseError.NoMemory
            → SendRanOut W.got W.faults W.plan (sink_of (connection_of self.old)) (sink_of (connection_of self.new))
            (G.stream (rng_of self.old)) (G.stream (rng_of self.new)) }
        ensures no_other { IfErr result (λ e. (e ≡ PhaseError.WriteFault) ⊎ (e ≡ PhaseError.NoMemory)) }

        // The source, and what was read and not given, stay as they are.
        ensures source { source_of (connection_of self.new) ≡ source_of (connection_of self.old) }
        ensures held { held_by (connection_of self.new) ≡ held_by (connection_of self.old) }
        ensures holds { HoldSame self.old self.new }
    {
        let connection = &mut *self.connection;
        send_to(
            connection.alloc,
            &mut connection.sink,
            self.rng,
            command,
            metadata,
            body,
        )
    }

    /// Sends a stanza under a command, as [`UnidirSend::send`] sends one: its tag is the command, and its
    /// arguments are the metadata, the stanza's tag and the stanza's arguments.
    pub fn send_stanza(
        &mut self,
        command: &str,
        metadata: &[String],
        stanza: &Stanza,
    ) -> Result<(), PhaseError>
        requires command { IsArbitraryString command.now }
        requires metadata { AllByRecursion IsArbitraryString (map string_bytes metadata.now) }
        requires tag { IsArbitraryString (string_bytes stanza.now.tag) }
        requires args { AllByRecursion IsArbitraryString (map string_bytes stanza.now.args.items) }
        ensures sent { OnOk result (Sent W.got W.faults W.plan (sink_of (connection_of self.old)) (sink_of (connection_of self.new))
            (under_command command.now (map string_bytes metadata.now) (stanza_of stanza.now)) (G.stream (rng_of self.old)) (G.stream (rng_of self.new))) }
        ensures stanzas { let sent = under_command command.now (map string_bytes metadata.now) (stanza_of stanza.now) in
            OnOk result (AfterGrease (sent_text sent (G.stream (rng_of self.old))) sent) }
        ensures write_fault { IsErrOf result PhaseError.WriteFault
            → SendFailed W.got W.faults W.plan (sink_of (connection_of self.old)) (sink_of (connection_of self.new))
            (under_command command.now (map string_bytes metadata.now) (stanza_of stanza.now)) (G.stream (rng_of self.old)) (G.stream (rng_of self.new)) }
        ensures memory { IsErrOf result PhaseError.NoMemory
            → SendRanOut W.got W.faults W.plan (sink_of (connection_of self.old)) (sink_of (connection_of self.new))
            (G.stream (rng_of self.old)) (G.stream (rng_of self.new)) }
        ensures no_other { IfErr result (λ e. (e ≡ PhaseError.WriteFault) ⊎ (e ≡ PhaseError.NoMemory)) }

        // The source, and what was read and not given, stay as they are.
        ensures source { source_of (connection_of self.new) ≡ source_of (connection_of self.old) }
        ensures held { held_by (connection_of self.new) ≡ held_by (connection_of self.old) }
        ensures holds { HoldSame self.old self.new }
    {
        let connection = &mut *self.connection;
        send_stanza_to(
            connection.alloc,
            &mut connection.sink,
            self.rng,
            command,
            metadata,
            stanza,
        )
    }

    /// Ends the phase: rolls twice for grease, then sends `done`, by [`finish_to`], whose refusals, and
    /// what is written and drawn at each, are those of this call. No reply to `done` is awaited.
    pub fn finish(self) -> Result<(), PhaseError>
        ensures sent { OnOk result (Sent W.got W.faults W.plan (sink_of (connection_of self.entry)) (sink_of self.exit.0.now)
            done (G.stream (rng_of self.entry)) (G.stream self.exit.1.0.now)) }
        ensures stanzas { OnOk result (AfterGrease (sent_text done (G.stream (rng_of self.entry))) done) }
        ensures write_fault { IsErrOf result PhaseError.WriteFault
            → SendFailed W.got W.faults W.plan (sink_of (connection_of self.entry)) (sink_of self.exit.0.now)
            done (G.stream (rng_of self.entry)) (G.stream self.exit.1.0.now) }
        ensures memory { IsErrOf result PhaseError.NoMemory
            → SendRanOut W.got W.faults W.plan (sink_of (connection_of self.entry)) (sink_of self.exit.0.now)
            (G.stream (rng_of self.entry)) (G.stream self.exit.1.0.now) }
        ensures no_other { IfErr result (λ e. (e ≡ PhaseError.WriteFault) ⊎ (e ≡ PhaseError.NoMemory)) }

        // The source, and what was read and not given, stay as they are.
        ensures source { source_of self.exit.0.now ≡ source_of (connection_of self.entry) }
        ensures held { held_by self.exit.0.now ≡ held_by (connection_of self.entry) }
    {
        let UnidirSend { connection, rng } = self;
        finish_to(connection.alloc, &mut connection.sink, rng)
    }

    /// Ends the phase without a `done`: nothing is written, and nothing drawn.
    pub fn abandon(self)
        ensures connection { self.exit.0.now ≡ connection_of self.entry }
        ensures rng { self.exit.1.0.now ≡ rng_of self.entry }
    {
        let UnidirSend {
            connection: _,
            rng: _,
        } = self;
    }
}
