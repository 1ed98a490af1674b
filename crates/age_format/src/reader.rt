//! Stanzas from a source, one at a time, within a budget.

ghost use Rattle.std.specs.Prelude.{◌≡◌, ◌≤◌, ◌<◌, ◌+◌, ◌++◌, ◌⊎◌, ℕ, List, [], ◌∷◌, length, take, drop, Some, IfOk, IfErr, IfSome, IsErrOf, OnOk, OnErr};
ghost use Rattle.age_format.specs.Outside.{Rose};
ghost use Rattle.age_format.specs.Stanza.{Stanza as Spelled, IsBytes, IsStanza, IsFront, stanza_of, spelling};
ghost use Rattle.age_format.specs.Front.{BeginsNone, IsMalformed};
ghost use Rattle.age_format.specs.Receiving.{Receives, Took, fresh};

use crate::error::PhaseError;
use crate::format::Stanza;
use crate::outside::{Failed, Source};
use crate::parse::{engine, stanza_at};
use crate::scan::{Place, Scan, Stop, scan_on};
use base64::engine::general_purpose::GeneralPurpose;
use std::alloc::{AllocError, Global};
use std::marker::Model;

/// The most bytes that are asked of a source at once.
const PIECE_LEN: usize = 4096;

/// A reader of stanzas. It holds what it read and didn't give yet.
///
/// No byte but those of a last line is looked for the end of a stanza twice, and none is moved twice:
/// what was given is dropped when the next piece is read.
#[derive(Drop)]
pub struct StanzaReader {
    alloc: Global,
    engine: GeneralPurpose,
    buffer: Vec<u8>,
    given: usize,
    scan: Scan,
    budget: u64,
}

impl Model for StanzaReader {
    ghost use Rattle.std.specs.Prelude.{drop};
    ghost use Rattle.age_format.specs.Receiving.{Held};
    ghost use Rattle.age_format.specs.private.Scan.{IsScanned};

    ghost Value = { Held };

    ghost view = { λ r. record { bytes = drop r.given r.buffer.items; budget = r.budget } };

    ghost invariant = { λ r. IsScanned r.buffer.items r.given r.engine r.scan.seen r.scan.place };
}

/// What the bytes that are held come to.
enum Look {
    /// A stanza stands at their front.
    Stanza(Stanza),
    /// They are a part of one.
    Front,
    /// No stanza begins so.
    Malformed,
}

impl StanzaReader {
    /// A reader that holds nothing and may read so many bytes. It takes no memory.
    pub fn new(alloc: Global, budget: u64) -> StanzaReader
        ensures { result ≡ fresh budget }
    {
        StanzaReader {
            alloc,
            engine: engine(),
            buffer: Vec::new(alloc),
            given: 0,
            scan: Scan {
                seen: 0,
                place: Place::Start,
            },
            budget,
        }
    }

    /// Takes the stanza at the front of what is held, where one stands there. The only error is want
    /// of memory, which leaves everything as it was.
    fn look(&mut self) -> Result<Look, AllocError>
        ensures stanza { IfOk result (λ look. (stanza : _) → look ≡ Look.Stanza stanza → IsStanza (stanza_of stanza)
            × (self.old.bytes ≡ spelling (stanza_of stanza) ++ self.new.bytes)) }
        ensures front { IfOk result (λ look. look ≡ Look.Front → IsFront self.old.bytes × (self.new.bytes ≡ self.old.bytes)) }
        ensures malformed { IfOk result (λ look. look ≡ Look.Malformed → IsMalformed self.old.bytes × (self.new.bytes ≡ self.old.bytes)) }
        ensures memory { OnErr result (self.new.bytes ≡ self.old.bytes) }
        ensures budget { self.new.budget ≡ self.old.budget }
    {
        let held = behind(&self.buffer, self.given);
        let (scan, stop) = scan_on(held, self.scan);
        self.scan = scan;
        match stop {
            Stop::Text => return Ok(Look::Front),
            Stop::Broken => return Ok(Look::Malformed),
            Stop::Whole => {}
        }
        let Some((read, rest)) = stanza_at(self.alloc, &self.engine, held)? else {
            return Ok(Look::Malformed);
        };
        let stanza = read.to_stanza(self.alloc)?;
        self.given = self.buffer.len() - rest.len();
        self.scan = Scan {
            seen: 0,
            place: Place::Start,
        };
        Ok(Look::Stanza(stanza))
    }

    /// Reads a piece behind what is held. Whatever it answers, what was read is held.
    fn read_piece<S: Source>(&mut self, source: &mut S) -> Result<(), PhaseError>
        ensures read { OnOk result ((bytes : List ℕ) × (self.new.bytes ≡ self.old.bytes ++ bytes) × (length bytes ≤ PIECE_LEN)
            × (0 < length bytes) × (self.old.budget ≡ self.new.budget + length bytes) × Took (S.left source.old) (S.left source.new) bytes) }
        ensures unread { OnErr result ((self.new ≡ self.old) × Took (S.left source.old) (S.left source.new) []) }
        ensures read_fault { IsErrOf result PhaseError.ReadFault → Rose (S.faults source.old) (S.faults source.new) × (0 < self.old.budget) }
        ensures no_fault { (IsErrOf result PhaseError.ReadFault → ⊥) → S.faults source.new ≡ S.faults source.old }
        ensures no_write_fault { IsErrOf result PhaseError.WriteFault → ⊥ }
        ensures no_unexpected_reply { (tag : _) → IsErrOf result (PhaseError.UnexpectedReply tag) → ⊥ }
        ensures invalid_data { IsErrOf result PhaseError.InvalidData → ⊥ }
        ensures unexpected_eof { IsErrOf result PhaseError.UnexpectedEof → (0 < self.old.budget)
            × IfSome (S.left source.old) (λ text. S.left source.new ≡ Some []) }
        ensures too_much { IsErrOf result PhaseError.TooMuch → self.old.budget ≡ 0 }
        ensures faults { S.faults source.old ≤ S.faults source.new }
    {
        if self.budget == 0 {
            return Err(PhaseError::TooMuch);
        }
        drop_front(&mut self.buffer, self.given);
        self.given = 0;
        let most = self.budget.min(PIECE_LEN as u64) as usize;
        let n = read_behind(source, &mut self.buffer, most, self.budget)?;
        if n == 0 {
            return Err(PhaseError::UnexpectedEof);
        }
        self.budget -= n as u64;
        Ok(())
    }

    /// The next stanza: the one whose spelling begins what is held, followed by what the source
    /// gives. What follows it stays held.
    ///
    /// The source is read only where what is held is a proper prefix of a spelling, at most 4096
    /// bytes at once and at most the budget that is left; so a stanza that came is given before more
    /// is waited for. Each refusal leaves held what was read:
    ///
    /// `ReadFault`: a read failed. What is held is a proper prefix of a spelling, and the next call
    /// reads on. `InvalidData`: what is held begins no stanza, and so it is at each later call.
    /// `UnexpectedEof`: the source ended. `TooMuch`: the budget is used up. `NoMemory`: memory for what
    /// is read or for the stanza was refused, and the next call goes on from there.
    pub fn receive_from<S: Source>(&mut self, source: &mut S) -> Result<Stanza, PhaseError>
        ensures given { IfOk result (λ stanza. Receives self.old self.new (S.left source.old) (S.left source.new) (stanza_of stanza ∷ [])) }
        // Nothing was read, or at most 4095 bytes are held behind the stanza.
        ensures behind { OnOk result (((source.new ≡ source.old) × (self.new.budget ≡ self.old.budget)) ⊎ (length self.new.bytes ≤ 4095)) }
        // Nor are more held behind one that had to be read where a refusal, for want of memory, leaves it held.
        ensures behind_refusal { OnErr result (BeginsNone self.old.bytes → (stanza : Spelled) (rest : List ℕ) → IsStanza stanza
            → self.new.bytes ≡ spelling stanza ++ rest → length rest ≤ 4095) }
        // What is no proper prefix of a spelling is enough, and nothing is read.
        ensures unread { (IsFront self.old.bytes → ⊥) → source.new ≡ source.old }
        ensures unpaid { (IsFront self.old.bytes → ⊥) → self.new.budget ≡ self.old.budget }

        // What was read before a refusal is held.
        ensures kept { OnErr result (Receives self.old self.new (S.left source.old) (S.left source.new) []) }
        ensures read_fault { IsErrOf result PhaseError.ReadFault → Rose (S.faults source.old) (S.faults source.new)
            × IsFront self.new.bytes × (0 < self.new.budget) }
        // So the first fault of the source is the answer, and nothing is read behind it.
        ensures no_fault { (IsErrOf result PhaseError.ReadFault → ⊥) → S.faults source.new ≡ S.faults source.old }
        ensures no_write_fault { IsErrOf result PhaseError.WriteFault → ⊥ }
        ensures no_unexpected_reply { (tag : _) → IsErrOf result (PhaseError.UnexpectedReply tag) → ⊥ }
        ensures invalid_data { IsErrOf result PhaseError.InvalidData → IsMalformed self.new.bytes }
        ensures unexpected_eof { IsErrOf result PhaseError.UnexpectedEof → IsFront self.new.bytes × (0 < self.new.budget)
            × IfSome (S.left source.old) (λ text. S.left source.new ≡ Some []) }
        ensures too_much { IsErrOf result PhaseError.TooMuch → IsFront self.new.bytes × (self.new.budget ≡ 0) }
        ensures faults { S.faults source.old ≤ S.faults source.new }
    {
        loop {
            match self.look()? {
                Look::Stanza(stanza) => return Ok(stanza),
                Look::Malformed => return Err(PhaseError::InvalidData),
                Look::Front => self.read_piece(source)?,
            }
        }
    }
}

/// What stands behind so many bytes.
fn behind(buffer: &Vec<u8>, count: usize) -> &[u8]
    requires { count ≤ length buffer.now.items }
    ensures value { result.now ≡ drop count buffer.now.items }
    ensures bytes { IsBytes result.now }
{
    &buffer[count..]
}

/// Drops so many bytes from the front.
fn drop_front(buffer: &mut Vec<u8>, count: usize)
    requires { count ≤ length buffer.old.items }
    ensures { buffer.new.items ≡ drop count buffer.old.items }
{
    let rest = buffer.len() - count;
    buffer.rotate_left(count);
    buffer.truncate(rest);
}

/// Reads once, at most so many bytes, behind what the buffer holds, and answers their number. There is
/// room for them before they are read.
fn read_behind<S: Source>(
    source: &mut S,
    buffer: &mut Vec<u8>,
    most: usize,
    budget: u64,
) -> Result<usize, PhaseError>
    requires some { 0 < most }
    requires piece { most ≤ PIECE_LEN }
    requires afforded { most ≤ budget }
    ensures read { IfOk result (λ n. (bytes : List ℕ) × (buffer.new.items ≡ buffer.old.items ++ bytes) × (length bytes ≡ n)
        × (n ≤ most) × Took (S.left source.old) (S.left source.new) bytes) }
    ensures ended { IfOk result (λ n. n ≡ 0 → IfSome (S.left source.old) (λ text. S.left source.new ≡ Some [])) }
    ensures unread { OnErr result ((buffer.new.items ≡ buffer.old.items) × (S.left source.new ≡ S.left source.old)) }
    ensures refused { IfErr result (λ e. ((e ≡ PhaseError.NoMemory) × (S.faults source.new ≡ S.faults source.old))
        ⊎ ((e ≡ PhaseError.ReadFault) × Rose (S.faults source.old) (S.faults source.new))) }
    ensures no_fault { OnOk result (S.faults source.new ≡ S.faults source.old) }
    ensures faults { S.faults source.old ≤ S.faults source.new }
{
    buffer.reserve(most)?;
    let mut piece = [0; PIECE_LEN];
    let n = read_once(source, &mut piece[..most], budget)?;
    match buffer.extend_from_slice(&piece[..n]) {
        Ok(()) => Ok(n),
        Err(_) => unreachable!(),
    }
}

/// Reads once, to the front of a piece that isn't empty, and that is no longer than the budget.
fn read_once<S: Source>(source: &mut S, piece: &mut [u8], budget: u64) -> Result<usize, PhaseError>
    requires some { 0 < length piece.old }
    requires afforded { length piece.old ≤ budget }
    ensures count { IfOk result (λ n. n ≤ length piece.old) }
    ensures read { IfOk result (λ n. Took (S.left source.old) (S.left source.new) (take n piece.new)) }
    ensures ended { IfOk result (λ n. n ≡ 0 → IfSome (S.left source.old) (λ text. S.left source.new ≡ Some [])) }
    ensures unread { OnErr result (S.left source.new ≡ S.left source.old) }
    ensures refused { IfErr result (λ e. (e ≡ PhaseError.ReadFault) × Rose (S.faults source.old) (S.faults source.new)) }
    ensures no_fault { OnOk result (S.faults source.new ≡ S.faults source.old) }
    ensures faults { S.faults source.old ≤ S.faults source.new }
{
    match source.read(piece) {
        Ok(n) => Ok(n),
        Err(Failed) => Err(PhaseError::ReadFault),
    }
}
