//! Phases in which each stanza of one side has a reply of the other.

ghost use Rattle.std.specs.Prelude.{◌≡◌, true, List, map, IfErr, OnOk};
ghost use Rattle.std.specs.Fn.{CalledAt, TakesAt};
ghost use Rattle.std.specs.String.{string_bytes};
ghost use Rattle.age_format.specs.Outside.{WritesWhole};
ghost use Rattle.age_format.specs.Stanza.{stanza_of, spelling};
ghost use Rattle.age_format.specs.Reading.{StandsBeforeDone};

use super::Connection;
use super::reply::{DONE_TAG, FAIL_TAG, OK_TAG, has_tag_among};
use age_format::PhaseError;
use age_format::format::Stanza;
use age_format::outside::{Sink, Source};
use age_send::write::WriteFault;
use std::result::Result;

/// What a handler answers to a command.
#[derive(Debug, PartialEq, Eq, Drop)]
pub enum Answer {
    /// It was done, and this is the body of the reply.
    Ok(Vec<u8>),
    /// It was done, and these are the arguments and the body of the reply. The arguments are one or
    /// more bytes from 33 to 126.
    OkWith(Vec<String>, Vec<u8>),
    /// It failed.
    Fail,
}

impl<R: Source, W: Sink> Connection<R, W> {
    ghost use Rattle.age_format.specs.Stanza.{Stanza as Stanza-spelled};
    ghost use Rattle.age_core.specs.Connecting.{source_of, sink_of, held_by};
    ghost use Rattle.age_core.specs.Replies.{is_among, reply_of, IsAnswer, IsReply, MayAnswer, MayAnswerAt};
    ghost use Rattle.age_core.specs.Exchanges.{AnswersPhase, PhaseRefused};

    /// Writes the reply that is an answer.
    fn answer(&mut self, answer: Answer) -> Result<(), WriteFault>
        requires { IsAnswer answer }
        ensures written { WritesWhole W.got W.faults W.plan (sink_of self.old) (sink_of self.new) result (spelling (reply_of answer)) }
        ensures source { source_of self.new ≡ source_of self.old }
        ensures held { held_by self.new ≡ held_by self.old }
    {
        match answer {
            Answer::Ok(body) => self.write(OK_TAG, &[], body.as_slice()),
            Answer::OkWith(metadata, body) => {
                self.write(OK_TAG, metadata.as_slice(), body.as_slice())
            }
            Answer::Fail => self.write(FAIL_TAG, &[], &[]),
        }
    }

    /// Writes the reply to a stanza: what the handler answers to a command, and `unsupported` to another.
    fn respond<F: FnMut(&Stanza) -> Answer>(
        &mut self,
        commands: &[String],
        handler: &mut F,
        stanza: &Stanza,
    ) -> Result<(), WriteFault>
        requires { is_among (map string_bytes commands.now) (stanza_of stanza.now) ≡ true → MayAnswerAt (TakesAt F.FnMut) (CalledAt F.FnMut) handler.old stanza.now }
        ensures written { (reply : Stanza-spelled) × IsReply (CalledAt F.FnMut) (map string_bytes commands.now) handler.old stanza.now reply handler.new
            × WritesWhole W.got W.faults W.plan (sink_of self.old) (sink_of self.new) result (spelling reply) }
        ensures source { source_of self.new ≡ source_of self.old }
        ensures held { held_by self.new ≡ held_by self.old }
    {
        if has_tag_among(stanza, commands) {
            let given = handler(stanza);
            return self.answer(given);
        }
        self.reply_unsupported()
    }

    /// Answers the stanzas of the other side up to the first tagged `done`, each before the next is
    /// received: the handler is called at a stanza whose tag is one of these commands, and its answer is
    /// the reply; the reply to another is `unsupported`. `done` ends the phase also where a command has
    /// that tag.
    ///
    /// The refusals are those of [`Connection::receive`], which come when each stanza that was taken has
    /// its reply, and `WriteFault`, where the sink failed in a reply. The stanzas that were taken before a
    /// refusal are gone, and what follows them stays held.
    pub fn bidir_receive<F: FnMut(&Stanza) -> Answer + Drop>(
        &mut self,
        commands: &[String],
        mut handler: F,
    ) -> Result<(), PhaseError>
        // The handler is called at stanzas of its commands alone, and its answers have a spelling.
        requires { MayAnswer (TakesAt F.FnMut) (CalledAt F.FnMut) (map string_bytes commands.now) handler }
        ensures done { OnOk result (AnswersPhase R.left R.faults W.got W.faults W.plan self.old self.new (CalledAt F.FnMut) (map string_bytes commands.now) handler) }
        ensures refused { IfErr result (PhaseRefused R.left R.faults W.got W.faults W.plan self.old self.new (CalledAt F.FnMut) (map string_bytes commands.now) handler) }
        // Where a whole phase is held, nothing is read.
        ensures unread { (stanzas : List Stanza-spelled) → StandsBeforeDone (held_by self.old).bytes stanzas → source_of self.new ≡ source_of self.old }
    {
        loop {
            let stanza = self.receive()?;
            if stanza.has_tag(DONE_TAG) {
                return Ok(());
            }
            match self.respond(commands, &mut handler, &stanza) {
                Ok(()) => {}
                Err(WriteFault) => return Err(PhaseError::WriteFault),
            }
        }
    }
}
