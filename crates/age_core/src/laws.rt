//! Laws of the definitions, each as the contract of a function that does nothing.

ghost use Rattle.std.specs.Prelude.{◌≡◌, ◌⊎◌, ℕ, ◌+◌, List, [], ◌∷◌, ◌++◌, length, take, codes, Option, Some};
ghost use Rattle.age_format.specs.Stanza.{Stanza, IsFront, spelling};
ghost use Rattle.age_format.specs.Front.{IsMalformed};
ghost use Rattle.age_format.specs.Reading.{IsDone};
ghost use Rattle.age_format.specs.Receiving.{Held, Receives};
ghost use Rattle.age_core.specs.Replies.{ok_reply, fail_reply, unsupported_reply, IsCommand, ArePassedOver, StandsNext};

use crate::plugin::{IDENTITY_V1, RECIPIENT_V1};

/// The names of the state machines of plugins.
pub fn state_machines()
    ensures identity { IDENTITY_V1.now ≡ codes "identity-v1" }
    ensures recipient { RECIPIENT_V1.now ≡ codes "recipient-v1" }
{}

/// The stanza that ends a call of `next_command` is one: no text has two that are passed over and come next.
pub fn one_next()
    ensures { (commands : List (List ℕ)) (text : List ℕ) (one other : StandsNext commands text)
        → (one.passed ≡ other.passed) × (one.last ≡ other.last) × (one.rest ≡ other.rest) }
{}

/// What receiving comes to up to a command or a `done` is what stands next in what was held, followed by
/// what the source told, within the budget and the length of what was held; and where receiving is refused
/// without a fault, none stands there. So a call of `next_command` answers `Done` exactly where a `done` stands next.
pub fn receiving_finds_the_next()
    ensures found { (commands : List (List ℕ)) (before now : Held) (text : List ℕ) (left : Option (List ℕ)) (passed : List Stanza) (last : Stanza)
        → Receives before now (Some text) left (passed ++ last ∷ []) → ArePassedOver commands passed → IsDone last ⊎ IsCommand commands last
        → (next : StandsNext commands (take (before.budget + length before.bytes) (before.bytes ++ text))) × (next.passed ≡ passed) × (next.last ≡ last) }
    ensures invalid_data { (commands : List (List ℕ)) (before now : Held) (text : List ℕ) (left : Option (List ℕ)) (passed : List Stanza)
        → Receives before now (Some text) left passed → ArePassedOver commands passed → IsMalformed now.bytes
        → StandsNext commands (take (before.budget + length before.bytes) (before.bytes ++ text)) → ⊥ }
    ensures unexpected_eof { (commands : List (List ℕ)) (before now : Held) (text : List ℕ) (left : Option (List ℕ)) (passed : List Stanza)
        → Receives before now (Some text) left passed → ArePassedOver commands passed → IsFront now.bytes → left ≡ Some []
        → StandsNext commands (take (before.budget + length before.bytes) (before.bytes ++ text)) → ⊥ }
    ensures too_much { (commands : List (List ℕ)) (before now : Held) (text : List ℕ) (left : Option (List ℕ)) (passed : List Stanza)
        → Receives before now (Some text) left passed → ArePassedOver commands passed → IsFront now.bytes → now.budget ≡ 0
        → StandsNext commands (take (before.budget + length before.bytes) (before.bytes ++ text)) → ⊥ }
{}

/// The three replies and what spells them, worked by hand.
pub fn worked_replies()
    ensures ok { spelling (ok_reply [] []) ≡ codes "-> ok" ++ 10 ∷ 10 ∷ [] }
    ensures metadata { spelling (ok_reply (codes "m" ∷ []) (codes "x")) ≡ codes "-> ok m" ++ 10 ∷ codes "eA" ++ 10 ∷ [] }
    ensures fail { spelling fail_reply ≡ codes "-> fail" ++ 10 ∷ 10 ∷ [] }
    ensures unsupported { spelling unsupported_reply ≡ codes "-> unsupported" ++ 10 ∷ 10 ∷ [] }
{}
