//! A caller of `age_format`.

ghost use Rattle.std.specs.Prelude.{[], ◌∷◌, codes, IfOk};
ghost use Rattle.age_format.specs.Outside.{Writes};
ghost use Rattle.age_format.specs.Stanza.{Stanza as Spelled, stanza_of, spelling};
ghost use Rattle.age_format.specs.Receiving.{Held, Receives, fresh};

use age_format::format::Stanza;
use age_format::outside::{Failed, Sink, Source, write_all};
use age_format::{PhaseError, StanzaReader, laws};
use std::alloc::Global;

/// Ends a phase: exactly the spelling of `done` is written, or at a fault a part of it.
pub fn end_phase<W: Sink>(sink: &mut W) -> Result<(), Failed>
    ensures { let done : Spelled = record { tag = codes "done"; args = []; body = [] } in
        Writes W.got W.faults W.plan sink.old sink.new result (spelling done) }
{
    laws::worked_spellings();
    write_all(sink, b"-> done\n\n")
}

/// The first stanza of a source, of which so many bytes are read at most.
pub fn first_stanza<S: Source>(
    alloc: Global,
    source: &mut S,
    budget: u64,
) -> Result<Stanza, PhaseError>
    ensures { IfOk result (λ stanza. (now : Held)
        × Receives (fresh budget) now (S.left source.old) (S.left source.new) (stanza_of stanza ∷ [])) }
{
    let mut reader = StanzaReader::new(alloc, budget);
    let stanza = reader.receive_from(source)?;
    Ok(stanza)
}
