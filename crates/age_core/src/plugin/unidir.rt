//! Phases in which one side sends commands, and the other takes them.

ghost use Rattle.std.specs.Prelude.{◌≡◌, ◌<◌, ◌≤◌, ◌⊎◌, List, [], ◌∷◌, ◌++◌, length, map, Some, None, true, Result as Res, IfOk, IfSome, IsErrOf, OnOk, OnErr, MatchOption};
ghost use Rattle.std.specs.Option.{option_copied};
ghost use Rattle.age_format.specs.declared.format.Stanza.{Stanza as Held-Stanza};
ghost use Rattle.age_format.specs.Outside.{Rose};
ghost use Rattle.age_format.specs.Stanza.{Stanza as Stanza-spelled, IsFront, stanza_of};
ghost use Rattle.age_format.specs.Front.{IsMalformed};
ghost use Rattle.age_format.specs.Reading.{IsDone, NoneDone, StandsBeforeDone};
ghost use Rattle.age_format.specs.Receiving.{Receives};
ghost use Rattle.age_core.specs.Phases.{Commands, Answers, AnswersIfAsked, is_command, for_a, for_b, for_c, for_d, ComesTo, MayTake, Ran};
ghost use Rattle.age_core.specs.private.Tags.{commands_of};

use super::Connection;
use age_format::PhaseError;
use age_format::format::Stanza;
use age_format::outside::{Sink, Source};
use std::alloc::{AllocError, Global};
use std::result::Result;

/// The tag of the stanza that ends a phase.
const DONE_TAG: &str = "done";

/// What the commands of a phase came to.
///
/// For each it is the list of the values that its closure gave, or, where one of its answers was an
/// error, the list of its errors. A command that was left out has none.
#[derive(Drop)]
pub struct UnidirAnswer<A, B, C, D, E> {
    pub a: Result<Vec<A>, Vec<E>>,
    pub b: Result<Vec<B>, Vec<E>>,
    pub c: Option<Result<Vec<C>, Vec<E>>>,
    pub d: Option<Result<Vec<D>, Vec<E>>>,
}

/// The answers of a command: the values, or the errors alone.
type Outcome<T, E> = Result<Vec<T>, Vec<E>>;

/// Adds an answer to those of a command.
fn add<T: Drop, E: Drop>(
    alloc: Global,
    outcome: Outcome<T, E>,
    answer: Result<T, E>,
) -> Result<Outcome<T, E>, AllocError>
    ensures { IfOk result (λ now. (answers : List (Res T E)) → ComesTo outcome answers → ComesTo now (answers ++ answer ∷ [])) }
{
    match (outcome, answer) {
        (Ok(mut values), Ok(value)) => {
            values.push(value)?;
            Ok(Ok(values))
        }
        (Ok(_), Err(error)) => {
            let mut errors = Vec::new(alloc);
            errors.push(error)?;
            Ok(Err(errors))
        }
        (Err(errors), Ok(_)) => Ok(Err(errors)),
        (Err(mut errors), Err(error)) => {
            errors.push(error)?;
            Ok(Err(errors))
        }
    }
}

/// Gives a stanza to a command's closure.
fn give<T: Drop, E: Drop, F: FnMut(Stanza) -> Result<T, E>>(
    alloc: Global,
    on: &mut F,
    outcome: Outcome<T, E>,
    stanza: Stanza,
) -> Result<Outcome<T, E>, AllocError>
    requires { F.pre on.old stanza }
    ensures { IfOk result (λ now. (f : F) (stanzas : List Held-Stanza) → Ran F.step f stanzas outcome on.old → Ran F.step f (stanzas ++ stanza ∷ []) now on.new) }
{
    let answer = on(stanza);
    add(alloc, outcome, answer)
}

/// The tags of the commands of a phase, of which the last two may be left out.
#[derive(Clone, Copy)]
struct Tags<'t> {
    a: &'t str,
    b: &'t str,
    c: Option<&'t str>,
    d: Option<&'t str>,
}

/// The closures of a phase, and what their answers come to so far.
#[derive(Drop)]
struct Running<A, B, C, D, E, F, G, H, I> {
    on_a: F,
    on_b: G,
    on_c: H,
    on_d: I,
    a: Outcome<A, E>,
    b: Outcome<B, E>,
    c: Outcome<C, E>,
    d: Outcome<D, E>,
}

/// Whether a stanza has the tag of a command that may be left out.
fn is_for(stanza: &Stanza, command: Option<&str>) -> bool
    ensures { result ≡ is_command (option_copied command.entry) stanza.now }
{
    match command {
        None => false,
        Some(tag) => stanza.has_tag(tag),
    }
}

/// Gives a stanza to the first command whose tag it has; a stanza of another tag is passed over.
fn take<A: Drop, B: Drop, C: Drop, D: Drop, E: Drop, F, G, H, I>(
    alloc: Global,
    tags: Tags<'_>,
    running: Running<A, B, C, D, E, F, G, H, I>,
    stanza: Stanza,
) -> Result<Running<A, B, C, D, E, F, G, H, I>, AllocError>
where
    F: FnMut(Stanza) -> Result<A, E> + Drop,
    G: FnMut(Stanza) -> Result<B, E> + Drop,
    H: FnMut(Stanza) -> Result<C, E> + Drop,
    I: FnMut(Stanza) -> Result<D, E> + Drop,
    requires on_a { is_command (Some (commands_of tags).a) stanza ≡ true → F.pre running.on_a stanza }
    requires on_b { is_command (Some (commands_of tags).b) stanza ≡ true → G.pre running.on_b stanza }
    requires on_c { is_command (commands_of tags).c stanza ≡ true → H.pre running.on_c stanza }
    requires on_d { is_command (commands_of tags).d stanza ≡ true → I.pre running.on_d stanza }
    ensures a { IfOk result (λ now. (f : F) (stanzas : List Held-Stanza) → Ran F.step f stanzas running.a running.on_a
        → Ran F.step f (stanzas ++ for_a (commands_of tags.entry) (stanza ∷ [])) now.a now.on_a) }
    ensures b { IfOk result (λ now. (g : G) (stanzas : List Held-Stanza) → Ran G.step g stanzas running.b running.on_b
        → Ran G.step g (stanzas ++ for_b (commands_of tags.entry) (stanza ∷ [])) now.b now.on_b) }
    ensures c { IfOk result (λ now. (h : H) (stanzas : List Held-Stanza) → Ran H.step h stanzas running.c running.on_c
        → Ran H.step h (stanzas ++ for_c (commands_of tags.entry) (stanza ∷ [])) now.c now.on_c) }
    ensures d { IfOk result (λ now. (i : I) (stanzas : List Held-Stanza) → Ran I.step i stanzas running.d running.on_d
        → Ran I.step i (stanzas ++ for_d (commands_of tags.entry) (stanza ∷ [])) now.d now.on_d) }
{
    let Running {
        mut on_a,
        mut on_b,
        mut on_c,
        mut on_d,
        mut a,
        mut b,
        mut c,
        mut d,
    } = running;
    if stanza.has_tag(tags.a) {
        a = give(alloc, &mut on_a, a, stanza)?;
    } else if stanza.has_tag(tags.b) {
        b = give(alloc, &mut on_b, b, stanza)?;
    } else if is_for(&stanza, tags.c) {
        c = give(alloc, &mut on_c, c, stanza)?;
    } else if is_for(&stanza, tags.d) {
        d = give(alloc, &mut on_d, d, stanza)?;
    }
    Ok(Running {
        on_a,
        on_b,
        on_c,
        on_d,
        a,
        b,
        c,
        d,
    })
}

/// The answers of a command that may be left out.
fn asked<T: Drop, E: Drop>(command: Option<&str>, outcome: Outcome<T, E>) -> Option<Outcome<T, E>>
    ensures { MatchOption (option_copied command.entry) (result ≡ None) (λ _. result ≡ Some outcome) }
{
    match command {
        None => None,
        Some(_) => Some(outcome),
    }
}

impl<R: Source, W: Sink> Connection<R, W> {
    ghost use Rattle.age_core.specs.Connecting.{source_of, sink_of, held_by};

    /// Takes the stanzas of the other side up to the first tagged `done`, and gives each to the
    /// closure of the first command whose tag it has. Stanzas of other tags are passed over, and
    /// `done` ends the phase also where a command has that tag. The closure of a command of none is never
    /// called.
    ///
    /// The refusals are those of [`Connection::receive`], and `NoMemory` comes also where the answers of
    /// a command find no memory. The stanzas that were taken before a refusal
    /// are gone, and what follows them stays held.
    pub fn unidir_receive<A: Drop, B: Drop, C: Drop, D: Drop, E: Drop, F, G, H, I>(
        &mut self,
        command_a: &str,
        on_a: F,
        command_b: &str,
        on_b: G,
        command_c: Option<&str>,
        on_c: H,
        command_d: Option<&str>,
        on_d: I,
    ) -> Result<UnidirAnswer<A, B, C, D, E>, PhaseError>
    where
        F: FnMut(Stanza) -> Result<A, E> + Drop,
        G: FnMut(Stanza) -> Result<B, E> + Drop,
        H: FnMut(Stanza) -> Result<C, E> + Drop,
        I: FnMut(Stanza) -> Result<D, E> + Drop,
        // Each closure is called at stanzas of its command alone, and that of a command of none not at all.
        requires on_a { MayTake F.pre F.step (Some command_a.now) on_a }
        requires on_b { MayTake G.pre G.step (Some command_b.now) on_b }
        requires on_c { MayTake H.pre H.step (option_copied command_c) on_c }
        requires on_d { MayTake I.pre I.step (option_copied command_d) on_d }
        // The stanzas before the first `done` went to the commands, and what follows it stays held.
        ensures done { let tags : Commands = record { a = command_a.now; b = command_b.now; c = option_copied command_c.entry; d = option_copied command_d.entry } in
            IfOk result (λ answer. (stanzas : List Held-Stanza) × (last : Held-Stanza)
            × Receives (held_by self.old) (held_by self.new) (R.left (source_of self.old)) (R.left (source_of self.new)) (map stanza_of stanzas ++ stanza_of last ∷ [])
            × NoneDone (map stanza_of stanzas) × IsDone (stanza_of last)
            × Answers F.step on_a (for_a tags stanzas) answer.a
            × Answers G.step on_b (for_b tags stanzas) answer.b
            × AnswersIfAsked H.step on_c tags.c (for_c tags stanzas) answer.c
            × AnswersIfAsked I.step on_d tags.d (for_d tags stanzas) answer.d) }
        // Nothing was read, or at most 4095 bytes are held behind the `done`.
        ensures behind { OnOk result (((source_of self.new ≡ source_of self.old) × ((held_by self.new).budget ≡ (held_by self.old).budget))
            ⊎ (length (held_by self.new).bytes ≤ 4095)) }
        // Where a whole phase is held, nothing is read.
        ensures unread { (stanzas : List Stanza-spelled) → StandsBeforeDone (held_by self.old).bytes stanzas → source_of self.new ≡ source_of self.old }

        // Before a refusal there was no `done`, and what follows the stanzas that were taken is held.
        ensures refused { OnErr result ((stanzas : List Stanza-spelled) × NoneDone stanzas
            × Receives (held_by self.old) (held_by self.new) (R.left (source_of self.old)) (R.left (source_of self.new)) stanzas) }
        ensures read_fault { IsErrOf result PhaseError.ReadFault → Rose (R.faults (source_of self.old)) (R.faults (source_of self.new))
            × IsFront (held_by self.new).bytes × (0 < (held_by self.new).budget) }
        ensures no_fault { (IsErrOf result PhaseError.ReadFault → ⊥) → R.faults (source_of self.new) ≡ R.faults (source_of self.old) }
        ensures no_write_fault { IsErrOf result PhaseError.WriteFault → ⊥ }
        ensures no_unexpected_reply { (tag : _) → IsErrOf result (PhaseError.UnexpectedReply tag) → ⊥ }
        ensures invalid_data { IsErrOf result PhaseError.InvalidData → IsMalformed (held_by self.new).bytes }
        ensures unexpected_eof { IsErrOf result PhaseError.UnexpectedEof → IsFront (held_by self.new).bytes × (0 < (held_by self.new).budget)
            × IfSome (R.left (source_of self.old)) (λ text. R.left (source_of self.new) ≡ Some []) }
        ensures too_much { IsErrOf result PhaseError.TooMuch → IsFront (held_by self.new).bytes × ((held_by self.new).budget ≡ 0) }
        ensures faults { R.faults (source_of self.old) ≤ R.faults (source_of self.new) }
        ensures sink { sink_of self.new ≡ sink_of self.old }
    {
        let alloc = self.alloc;
        let mut running = Running {
            on_a,
            on_b,
            on_c,
            on_d,
            a: Ok(Vec::new(alloc)),
            b: Ok(Vec::new(alloc)),
            c: Ok(Vec::new(alloc)),
            d: Ok(Vec::new(alloc)),
        };
        loop {
            let stanza = self.receive()?;
            if stanza.has_tag(DONE_TAG) {
                let Running { a, b, c, d, .. } = running;
                return Ok(UnidirAnswer {
                    a,
                    b,
                    c: asked(command_c, c),
                    d: asked(command_d, d),
                });
            }
            let tags = Tags {
                a: command_a,
                b: command_b,
                c: command_c,
                d: command_d,
            };
            running = take(alloc, tags, running, stanza)?;
        }
    }
}
