//! Commands that are received one at a time, and the reply that each of them is owed.

ghost use Rattle.std.specs.Prelude.{◌≡◌, List, [], map, IfOk, IfErr, is_ok, codes};
ghost use Rattle.std.specs.List.{AllByRecursion};
ghost use Rattle.std.specs.Option.{option_copied, unwrap_or};
ghost use Rattle.std.specs.String.{string_bytes};
ghost use Rattle.age_format.specs.Outside.{WritesWhole};
ghost use Rattle.age_format.specs.Stanza.{IsArbitraryString, stanza_of, spelling};
ghost use Rattle.age_send.specs.Sending.{stanza_with, under_command};
ghost use Rattle.age_core.specs.Replies.{is_among};

use super::Connection;
use age_format::PhaseError;
use age_format::format::Stanza;
use age_format::outside::{Sink, Source};
use age_send::write::{WriteFault, age_stanza, age_stanza_under};
use std::marker::Model;
use std::result::Result;
use thiserror::Error;

/// The tag of the stanza that ends a phase.
pub(super) const DONE_TAG: &str = "done";

/// The tag of the reply to a command that was done.
pub(super) const OK_TAG: &str = "ok";

/// The tag of the reply to a command that failed.
pub(super) const FAIL_TAG: &str = "fail";

/// The tag of the reply to a command that isn't known.
pub(super) const UNSUPPORTED_TAG: &str = "unsupported";

/// Why no command was given.
#[derive(Debug, PartialEq, Eq, Error, Drop)]
pub enum NoCommand {
    /// The other side ended the phase.
    #[error("the phase is done")]
    Done,
    /// The phase ended before its `done`.
    #[error("{0}")]
    Refused(PhaseError),
}

impl From<PhaseError> for NoCommand {
    ghost use Rattle.age_core.specs.declared.plugin.reply.NoCommand.TheVariants.{Refused};

    ghost from_gives = { λ e refused. refused ≡ Refused e };

    fn from(e: PhaseError) -> NoCommand {
        NoCommand::Refused(e)
    }
}

/// The reply that a command is owed. It is spent by one of its calls, which writes it.
pub struct Reply<'c, R, W> {
    connection: &'c mut Connection<R, W>,
}

/// What writing a reply came to. It is spent by [`Response::result`].
pub struct Response {
    written: Result<(), WriteFault>,
}

impl Model for Response {
    ghost use Rattle.std.specs.Prelude.{Bool, is_ok};

    ghost Value = { Bool };

    ghost view = { λ response. is_ok response.written };
}

impl Response {
    /// Whether the whole of the reply was written; `WriteFault` comes exactly where it wasn't.
    pub fn result(self) -> Result<(), WriteFault>
        ensures { is_ok result ≡ self }
    {
        let Response { written } = self;
        written
    }
}

/// Whether the tag of a stanza is one of these commands.
pub(super) fn has_tag_among(stanza: &Stanza, commands: &[String]) -> bool
    ensures { let tags = map string_bytes commands.now in result ≡ is_among tags (stanza_of stanza.now) }
{
    for command in commands {
        if stanza.has_tag(command.as_str()) {
            return true;
        }
    }
    false
}

impl<R: Source, W: Sink> Connection<R, W> {
    ghost use Rattle.std.specs.Borrow.{sem, RestsIfErr};
    ghost use Rattle.age_core.specs.contracts.plugin.connection.Connection.{the_row};
    ghost use Rattle.age_core.specs.Connecting.{source_of, sink_of, held_by};
    ghost use Rattle.age_core.specs.Replies.{unsupported_reply, Responds};
    ghost use Rattle.age_core.specs.Replying.{connection_of};
    ghost use Rattle.age_core.specs.Exchanges.{GivesCommand, GivesNone, NextUnread};

    /// Writes a stanza.
    pub(super) fn write(
        &mut self,
        tag: &str,
        metadata: &[String],
        body: &[u8],
    ) -> Result<(), WriteFault>
        requires tag { IsArbitraryString tag.now }
        requires metadata { AllByRecursion IsArbitraryString (map string_bytes metadata.now) }
        ensures written { WritesWhole W.got W.faults W.plan (sink_of self.old) (sink_of self.new) result (spelling (stanza_with tag.now (map string_bytes metadata.now) body.now)) }
        ensures source { source_of self.new ≡ source_of self.old }
        ensures held { held_by self.new ≡ held_by self.old }
    {
        age_stanza(&mut self.sink, tag, metadata, body)
    }

    /// Writes a stanza under a command.
    pub(super) fn write_under(
        &mut self,
        command: &str,
        metadata: &[String],
        stanza: &Stanza,
    ) -> Result<(), WriteFault>
        requires command { IsArbitraryString command.now }
        requires metadata { AllByRecursion IsArbitraryString (map string_bytes metadata.now) }
        requires tag { IsArbitraryString (string_bytes stanza.now.tag) }
        requires args { AllByRecursion IsArbitraryString (map string_bytes stanza.now.args.items) }
        ensures written { WritesWhole W.got W.faults W.plan (sink_of self.old) (sink_of self.new) result (spelling (under_command command.now (map string_bytes metadata.now) (stanza_of stanza.now))) }
        ensures source { source_of self.new ≡ source_of self.old }
        ensures held { held_by self.new ≡ held_by self.old }
    {
        age_stanza_under(&mut self.sink, command, metadata, stanza)
    }

    /// Writes the reply to a stanza that isn't known.
    pub(super) fn reply_unsupported(&mut self) -> Result<(), WriteFault>
        ensures written { WritesWhole W.got W.faults W.plan (sink_of self.old) (sink_of self.new) result (spelling unsupported_reply) }
        ensures source { source_of self.new ≡ source_of self.old }
        ensures held { held_by self.new ≡ held_by self.old }
    {
        self.write(UNSUPPORTED_TAG, &[], &[])
    }

    /// The next stanza whose tag is one of these commands. Stanzas before it are passed over, each
    /// answered by `unsupported` before the next is received.
    fn pass_over(&mut self, commands: &[String]) -> Result<Stanza, NoCommand>
        ensures given { IfOk result (λ stanza. GivesCommand R.left R.faults W.got W.faults W.plan self.old self.new (map string_bytes commands.now) (stanza_of stanza)) }
        ensures none { GivesNone R.left R.faults W.got W.faults W.plan self.old self.new (map string_bytes commands.now) result }
        ensures unread { NextUnread R.left R.faults W.got W.faults W.plan self.old self.new (map string_bytes commands.now) }
    {
        loop {
            let stanza = self.receive()?;
            if stanza.has_tag(DONE_TAG) {
                return Err(NoCommand::Done);
            }
            if has_tag_among(&stanza, commands) {
                return Ok(stanza);
            }
            match self.reply_unsupported() {
                Ok(()) => {}
                Err(WriteFault) => return Err(NoCommand::Refused(PhaseError::WriteFault)),
            }
        }
    }

    /// The next command of the other side, and the reply that it is owed. A stanza whose tag is none of
    /// these commands is answered by `unsupported` and passed over, before more is received.
    ///
    /// `Done` comes at a stanza tagged `done`, also where a command has that tag; what follows it stays
    /// held, and the next call goes on from there. `Refused` comes with the refusals of
    /// [`Connection::receive`], when each stanza that was taken has been answered, and with `WriteFault`
    /// where the sink failed in an `unsupported`. The stanzas that were taken are gone.
    pub fn next_command(
        &mut self,
        commands: &[String],
    ) -> Result<(Stanza, Reply<'_, R, W>), NoCommand>
        // What stands where there is no command.
        ensures* none { sem 𝓛 (RestsIfErr (the_row R.row W.row) self.entry (λ found. (connection_of found.1).ghost_name) result
            (λ now. GivesNone R.left R.faults W.got W.faults W.plan self.old now (map string_bytes commands.now) result
            × NextUnread R.left R.faults W.got W.faults W.plan self.old now (map string_bytes commands.now))) }
        // The connection behind a command, which the reply holds.
        ensures given { IfOk result (λ found. GivesCommand R.left R.faults W.got W.faults W.plan self.old (connection_of found.1).now (map string_bytes commands.now) (stanza_of found.0)) }
        ensures unread { IfOk result (λ found. NextUnread R.left R.faults W.got W.faults W.plan self.old (connection_of found.1).now (map string_bytes commands.now)) }
        ensures same_reference { IfOk result (λ found. (connection_of found.1).ghost_name ≡ self.entry.ghost_name) }
    {
        let stanza = self.pass_over(commands)?;
        Ok((stanza, Reply { connection: self }))
    }
}

impl<R: Source, W: Sink> Reply<'_, R, W> {
    ghost use Rattle.age_core.specs.Connecting.{source_of, sink_of, held_by};
    ghost use Rattle.age_core.specs.Replies.{ok_reply, fail_reply, Responds};
    ghost use Rattle.age_core.specs.Replying.{connection_of};

    /// Replies `ok`, with a body, which is empty where there is none. It takes no memory.
    pub fn ok(self, body: Option<&[u8]>) -> Response
        ensures written { Responds W.got W.faults W.plan (sink_of (connection_of self.entry).now) (sink_of self.exit.0.now) result (ok_reply [] (unwrap_or (option_copied body.entry) [])) }
        ensures source { source_of self.exit.0.now ≡ source_of (connection_of self.entry).now }
        ensures held { held_by self.exit.0.now ≡ held_by (connection_of self.entry).now }
    {
        self.ok_with_metadata(&[], body)
    }

    /// Replies `ok`, with these arguments and a body, which is empty where there is none. It takes no
    /// memory.
    pub fn ok_with_metadata(self, metadata: &[String], body: Option<&[u8]>) -> Response
        requires { AllByRecursion IsArbitraryString (map string_bytes metadata.now) }
        ensures written { Responds W.got W.faults W.plan (sink_of (connection_of self.entry).now) (sink_of self.exit.0.now) result (ok_reply (map string_bytes metadata.now) (unwrap_or (option_copied body.entry) [])) }
        ensures source { source_of self.exit.0.now ≡ source_of (connection_of self.entry).now }
        ensures held { held_by self.exit.0.now ≡ held_by (connection_of self.entry).now }
    {
        let Reply { connection } = self;
        let body = match body {
            None => &[],
            Some(bytes) => bytes,
        };
        Response {
            written: connection.write(OK_TAG, metadata, body),
        }
    }

    /// Replies `fail`. It takes no memory.
    pub fn fail(self) -> Response
        ensures written { Responds W.got W.faults W.plan (sink_of (connection_of self.entry).now) (sink_of self.exit.0.now) result fail_reply }
        ensures source { source_of self.exit.0.now ≡ source_of (connection_of self.entry).now }
        ensures held { held_by self.exit.0.now ≡ held_by (connection_of self.entry).now }
    {
        let Reply { connection } = self;
        Response {
            written: connection.write(FAIL_TAG, &[], &[]),
        }
    }
}
