//! Phases in which stanzas are sent to the other side, and each awaits a reply.

ghost use Rattle.std.specs.Prelude.{◌≡◌, List, [], ◌∷◌, map, IfErr, IfOk, IsSome, OnErr, OnOk};
ghost use Rattle.std.specs.List.{AllByRecursion};
ghost use Rattle.std.specs.Option.{option_to_list};
ghost use Rattle.std.specs.String.{string_bytes};
ghost use Rattle.age_format.specs.Stanza.{Stanza as Spelled, IsArbitraryString, stanza_of};
ghost use Rattle.age_send.specs.Sending.{done, drawn_roll, second_roll, stanza_with, under_command};
ghost use Rattle.age_core.specs.Asking.{Says};

use super::reply::{DONE_TAG, FAIL_TAG, OK_TAG, UNSUPPORTED_TAG};
use super::{Connection, Error, Result};
use age_format::PhaseError;
use age_format::format::Stanza;
use age_format::outside::{Sink, Source};
use age_send::roll;
use age_send::write::WriteFault;
use rand_core::Rng;

/// What a call comes to that ends a phase or goes on with it.
type Outcome<T> = std::result::Result<T, PhaseError>;

/// A phase that sends over a connection, with grease from a random source, and awaits a reply to each
/// stanza that it sends.
///
/// It can't be dropped: it is spent by [`BidirSend::finish`] or by [`BidirSend::abandon`].
pub struct BidirSend<'a, R, W, G> {
    connection: &'a mut Connection<R, W>,
    rng: &'a mut G,
}

impl<R: Source, W: Sink> Connection<R, W> {
    ghost use Rattle.age_core.specs.Connecting.{source_of, sink_of, held_by};
    ghost use Rattle.age_core.specs.Asking.{connection_of, rng_of, Holds, grease_of, Conversed, StopsBehind, Stops};

    /// A phase that sends over this connection and awaits replies. It takes no memory, and nothing is
    /// written yet.
    pub fn bidir_send<'a, G: Rng>(&'a mut self, rng: &'a mut G) -> BidirSend<'a, R, W, G>
        ensures connection { connection_of result ≡ self.entry.now }
        ensures rng { rng_of result ≡ rng.entry.now }
        ensures holds { Holds result self.entry rng.entry }
    {
        BidirSend {
            connection: self,
            rng,
        }
    }

    /// Sends a stanza and receives the reply.
    fn ask(&mut self, tag: &str, args: &[String], body: &[u8]) -> Outcome<Stanza>
        requires tag { IsArbitraryString tag.now }
        requires args { AllByRecursion IsArbitraryString (map string_bytes args.now) }
        ensures heard { let sent : List Spelled = stanza_with tag.now (map string_bytes args.now) body.now ∷ [] in
            IfOk result (λ reply. Conversed R.left R.faults W.got W.faults W.plan self.old self.new sent (stanza_of reply ∷ [])) }
        ensures stops { let sent : List Spelled = stanza_with tag.now (map string_bytes args.now) body.now ∷ [] in
            IfErr result (StopsBehind R.left R.faults W.got W.faults W.plan self.old self.new [] sent sent []) }
    {
        match self.write(tag, args, body) {
            Ok(()) => {}
            Err(WriteFault) => return Err(PhaseError::WriteFault),
        }
        let reply = self.receive()?;
        Ok(reply)
    }

    /// Sends a stanza under a command and receives the reply.
    fn ask_under(&mut self, command: &str, metadata: &[String], stanza: &Stanza) -> Outcome<Stanza>
        requires command { IsArbitraryString command.now }
        requires metadata { AllByRecursion IsArbitraryString (map string_bytes metadata.now) }
        requires tag { IsArbitraryString (string_bytes stanza.now.tag) }
        requires args { AllByRecursion IsArbitraryString (map string_bytes stanza.now.args.items) }
        ensures heard { let sent : List Spelled = under_command command.now (map string_bytes metadata.now) (stanza_of stanza.now) ∷ [] in
            IfOk result (λ reply. Conversed R.left R.faults W.got W.faults W.plan self.old self.new sent (stanza_of reply ∷ [])) }
        ensures stops { let sent : List Spelled = under_command command.now (map string_bytes metadata.now) (stanza_of stanza.now) ∷ [] in
            IfErr result (StopsBehind R.left R.faults W.got W.faults W.plan self.old self.new [] sent sent []) }
    {
        match self.write_under(command, metadata, stanza) {
            Ok(()) => {}
            Err(WriteFault) => return Err(PhaseError::WriteFault),
        }
        let reply = self.receive()?;
        Ok(reply)
    }

    /// Rolls once, sends the grease stanza that was made, and drops the reply.
    fn ask_roll<G: Rng>(&mut self, rng: &mut G) -> Outcome<()>
        ensures heard { let made : List Spelled = option_to_list (drawn_roll (G.stream rng.old)).0 in
            OnOk result ((replies : List Spelled) × Conversed R.left R.faults W.got W.faults W.plan self.old self.new made replies) }
        ensures stops { let made : List Spelled = option_to_list (drawn_roll (G.stream rng.old)).0 in
            IfErr result (StopsBehind R.left R.faults W.got W.faults W.plan self.old self.new made made made []) }
        ensures made { OnErr result (IsSome (drawn_roll (G.stream rng.old)).0) }
        ensures rest { G.stream rng.new ≡ (drawn_roll (G.stream rng.old)).1 }
    {
        let made = roll(self.alloc, rng)?;
        match made {
            None => Ok(()),
            Some(grease) => {
                self.ask(
                    grease.tag.as_str(),
                    grease.args.as_slice(),
                    grease.body.as_slice(),
                )?;
                Ok(())
            }
        }
    }

    /// Rolls twice, and sends each grease stanza that was made before the next roll.
    fn ask_grease<G: Rng>(&mut self, rng: &mut G) -> Outcome<()>
        ensures heard { OnOk result ((replies : List Spelled) × Conversed R.left R.faults W.got W.faults W.plan self.old self.new (grease_of (G.stream rng.old)) replies) }
        ensures rest { OnOk result (G.stream rng.new ≡ (second_roll (G.stream rng.old)).1) }
        ensures stops { let grease : List Spelled = grease_of (G.stream rng.old) in
            IfErr result (Stops R.left R.faults W.got W.faults W.plan self.old self.new (G.stream rng.old) (G.stream rng.new) grease grease grease) }
    {
        self.ask_roll(rng)?;
        self.ask_roll(rng)?;
        Ok(())
    }
}

/// What the reply to a command says.
fn said(reply: Stanza) -> Result<Stanza>
    ensures { Says (stanza_of reply) result }
{
    if reply.has_tag(OK_TAG) {
        return Ok(Ok(reply));
    }
    if reply.has_tag(FAIL_TAG) {
        return Ok(Err(Error::Fail));
    }
    if reply.has_tag(UNSUPPORTED_TAG) {
        return Ok(Err(Error::Unsupported));
    }
    let Stanza {
        tag,
        args: _,
        body: _,
    } = reply;
    Err(PhaseError::UnexpectedReply(tag))
}

impl<'a, R: Source, W: Sink, G: Rng> BidirSend<'a, R, W, G> {
    ghost use Rattle.age_core.specs.Asking.{connection_of, rng_of, HoldSame, grease_of, due, Asks, Finishes, Stops};

    /// Rolls twice for grease, then sends a stanza with the command as its tag and the metadata as its
    /// arguments, and awaits one reply to each stanza that it sends, before the next roll. The replies to
    /// grease are dropped, whatever they say.
    ///
    /// The reply to the command is given where its tag is `ok`; the inner error is `Fail` or
    /// `Unsupported` where its tag is `fail` or `unsupported`, and `UnexpectedReply` comes, with the tag,
    /// at any other. The refusals are those of [`Connection::receive`], `WriteFault` where the sink
    /// failed, and `NoMemory` at want of memory for grease too. The call ends at a refusal: what was due
    /// behind it is not sent. It may be followed by further calls.
    pub fn send(&mut self, command: &str, metadata: &[String], body: &[u8]) -> Result<Stanza>
        requires command { IsArbitraryString command.now }
        requires metadata { AllByRecursion IsArbitraryString (map string_bytes metadata.now) }
        ensures asked { Asks R.left R.faults W.got W.faults W.plan (connection_of self.old) (connection_of self.new) (G.stream (rng_of self.old)) (G.stream (rng_of self.new))
            (stanza_with command.now (map string_bytes metadata.now) body.now) result }
        ensures holds { HoldSame self.old self.new }
    {
        self.connection.ask_grease(self.rng)?;
        let reply = self.connection.ask(command, metadata, body)?;
        said(reply)
    }

    /// Sends a stanza under a command, as [`BidirSend::send`] sends one: its tag is the command, and its
    /// arguments are the metadata, the stanza's tag and the stanza's arguments.
    pub fn send_stanza(
        &mut self,
        command: &str,
        metadata: &[String],
        stanza: &Stanza,
    ) -> Result<Stanza>
        requires command { IsArbitraryString command.now }
        requires metadata { AllByRecursion IsArbitraryString (map string_bytes metadata.now) }
        requires tag { IsArbitraryString (string_bytes stanza.now.tag) }
        requires args { AllByRecursion IsArbitraryString (map string_bytes stanza.now.args.items) }
        ensures asked { Asks R.left R.faults W.got W.faults W.plan (connection_of self.old) (connection_of self.new) (G.stream (rng_of self.old)) (G.stream (rng_of self.new))
            (under_command command.now (map string_bytes metadata.now) (stanza_of stanza.now)) result }
        ensures holds { HoldSame self.old self.new }
    {
        self.connection.ask_grease(self.rng)?;
        let reply = self.connection.ask_under(command, metadata, stanza)?;
        said(reply)
    }

    /// Ends the phase: rolls twice for grease, as [`BidirSend::send`] does, and sends `done`, to which no
    /// reply is awaited. Where the grease was refused no `done` is sent.
    pub fn finish(self) -> Outcome<()>
        ensures finished { OnOk result (Finishes R.left R.faults W.got W.faults W.plan (connection_of self.entry) self.exit.0.now (G.stream (rng_of self.entry)) (G.stream self.exit.1.0.now)) }
        ensures stops { let grease : List Spelled = grease_of (G.stream (rng_of self.entry)) in
            IfErr result (Stops R.left R.faults W.got W.faults W.plan (connection_of self.entry) self.exit.0.now (G.stream (rng_of self.entry)) (G.stream self.exit.1.0.now)
            grease (due done (G.stream (rng_of self.entry))) grease) }
    {
        let BidirSend { connection, rng } = self;
        connection.ask_grease(rng)?;
        match connection.write(DONE_TAG, &[], &[]) {
            Ok(()) => {}
            Err(WriteFault) => return Err(PhaseError::WriteFault),
        }
        Ok(())
    }

    /// Ends the phase without a `done`: nothing is written, nothing drawn, and nothing received.
    pub fn abandon(self)
        ensures connection { self.exit.0.now ≡ connection_of self.entry }
        ensures rng { self.exit.1.0.now ≡ rng_of self.entry }
    {
        let BidirSend {
            connection: _,
            rng: _,
        } = self;
    }
}
