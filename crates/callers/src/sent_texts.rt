//! A caller of `age_send`.

ghost use Rattle.std.specs.Prelude.{◌++◌, [], codes, OnOk};
ghost use Rattle.age_format.specs.Outside.{Wrote};
ghost use Rattle.age_send.specs.Sending.{done, second_roll, sent_text, stanza_with};

use age_format::PhaseError;
use age_format::outside::Sink;
use age_send::{finish_to, send_to};
use rand_core::Rng;
use std::alloc::Global;

/// Sends a text as a stanza tagged `text`, and ends the phase: what is written is the text of both sends,
/// each with the grease that the random source fixes.
pub fn send_text<W: Sink, G: Rng>(
    alloc: Global,
    sink: &mut W,
    rng: &mut G,
    text: &str,
) -> Result<(), PhaseError>
    ensures { let stream = G.stream rng.old in OnOk result (Wrote W.got W.faults W.plan sink.old sink.new
        (sent_text (stanza_with (codes "text") [] text.now) stream ++ sent_text done (second_roll stream).1)) }
{
    send_to(alloc, sink, rng, "text", &[], text.as_bytes())?;
    finish_to(alloc, sink, rng)
}
