//! A connection to the other side: what it sends is received, and what goes to it is sent.

ghost use Rattle.std.specs.Prelude.{◌≡◌, ◌≤◌, ◌<◌, ◌++◌, ◌⊎◌, ℕ, List, [], ◌∷◌, length, Some, IfOk, IfSome, IsErrOf, OnOk, OnErr};
ghost use Rattle.age_format.specs.Outside.{Rose};
ghost use Rattle.age_format.specs.Stanza.{Stanza as Spelled, IsStanza, IsFront, stanza_of, spelling};
ghost use Rattle.age_format.specs.Front.{BeginsNone, IsMalformed};
ghost use Rattle.age_format.specs.Receiving.{Receives, fresh};

use age_format::format::Stanza;
use age_format::outside::{Sink, Source, StdSink, StdSource};
use age_format::{PhaseError, StanzaReader};
use std::alloc::Global;
use std::io::{Read, Write};

/// A source, a sink, and a reader of the stanzas that come from the source.
#[derive(Drop)]
pub struct Connection<R, W> {
    pub(super) alloc: Global,
    source: R,
    pub(super) sink: W,
    reader: StanzaReader,
}

impl<R: Source, W: Sink> Connection<R, W> {
    ghost use Rattle.age_core.specs.Connecting.{source_of, sink_of, held_by};

    /// A connection that holds nothing and may read so many bytes. It takes no memory.
    pub fn new(alloc: Global, source: R, sink: W, budget: u64) -> Connection<R, W>
        ensures source { source_of result ≡ source }
        ensures sink { sink_of result ≡ sink }
        ensures held { held_by result ≡ fresh budget }
    {
        Connection {
            alloc,
            source,
            sink,
            reader: StanzaReader::new(alloc, budget),
        }
    }

    /// The source and the sink as they are. What was read and not given is lost.
    pub fn into_parts(self) -> (R, W)
        ensures source { result.0 ≡ source_of self }
        ensures sink { result.1 ≡ sink_of self }
    {
        let Connection {
            alloc: _,
            source,
            sink,
            reader: _,
        } = self;
        (source, sink)
    }

    /// The next stanza, by [`StanzaReader::receive_from`], whose refusals, `NoMemory` among them, and
    /// whose rests are those of this call.
    pub fn receive(&mut self) -> std::result::Result<Stanza, PhaseError>
        ensures given { IfOk result (λ stanza. Receives (held_by self.old) (held_by self.new)
            (R.left (source_of self.old)) (R.left (source_of self.new)) (stanza_of stanza ∷ [])) }
        // Nothing was read, or at most 4095 bytes are held behind the stanza.
        ensures behind { OnOk result (((source_of self.new ≡ source_of self.old) × ((held_by self.new).budget ≡ (held_by self.old).budget))
            ⊎ (length (held_by self.new).bytes ≤ 4095)) }
        // Nor are more held behind one that had to be read where a refusal, for want of memory, leaves it held.
        ensures behind_refusal { OnErr result (BeginsNone (held_by self.old).bytes → (stanza : Spelled) (rest : List ℕ) → IsStanza stanza
            → (held_by self.new).bytes ≡ spelling stanza ++ rest → length rest ≤ 4095) }
        // What is no proper prefix of a spelling is enough, and nothing is read.
        ensures unread { (IsFront (held_by self.old).bytes → ⊥) → source_of self.new ≡ source_of self.old }
        ensures unpaid { (IsFront (held_by self.old).bytes → ⊥) → (held_by self.new).budget ≡ (held_by self.old).budget }

        // What was read before a refusal is held.
        ensures kept { OnErr result (Receives (held_by self.old) (held_by self.new)
            (R.left (source_of self.old)) (R.left (source_of self.new)) []) }
        ensures read_fault { IsErrOf result PhaseError.ReadFault → Rose (R.faults (source_of self.old)) (R.faults (source_of self.new))
            × IsFront (held_by self.new).bytes × (0 < (held_by self.new).budget) }
        ensures no_fault { (IsErrOf result PhaseError.ReadFault → ⊥) → R.faults (source_of self.new) ≡ R.faults (source_of self.old) }
        ensures no_write_fault { IsErrOf result PhaseError.WriteFault → ⊥ }
        ensures no_unexpected_reply { (tag : _) → IsErrOf result (PhaseError.UnexpectedReply tag) → ⊥ }
        ensures invalid_data { IsErrOf result PhaseError.InvalidData → IsMalformed (held_by self.new).bytes }
        ensures unexpected_eof { IsErrOf result PhaseError.UnexpectedEof → IsFront (held_by self.new).bytes × (0 < (held_by self.new).budget)
            × IfSome (R.left (source_of self.old)) (λ text. R.left (source_of self.new) ≡ Some []) }
        ensures too_much { IsErrOf result PhaseError.TooMuch → IsFront (held_by self.new).bytes × ((held_by self.new).budget ≡ 0) }
        ensures faults { R.faults (source_of self.old) ≤ R.faults (source_of self.new) }
        ensures sink { sink_of self.new ≡ sink_of self.old }
    {
        self.reader.receive_from(&mut self.source)
    }
}

impl<I: Read, O: Write> Connection<StdSource<I>, StdSink<O>> {
    ghost use Rattle.age_core.specs.Connecting.{source_of, sink_of, held_by};

    /// A connection over a reader and a writer, as standard input and output, which may read so many
    /// bytes. It takes no memory.
    pub fn accept(
        alloc: Global,
        input: StdSource<I>,
        output: StdSink<O>,
        budget: u64,
    ) -> Connection<StdSource<I>, StdSink<O>>
        ensures source { source_of result ≡ input }
        ensures sink { sink_of result ≡ output }
        ensures held { held_by result ≡ fresh budget }
    {
        Connection::new(alloc, input, output, budget)
    }
}
