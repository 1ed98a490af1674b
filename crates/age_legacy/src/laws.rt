//! Laws of the legacy reading, each as the contract of a function that does nothing.

ghost use Rattle.std.specs.Prelude.{◌≡◌, ℕ, ◌∷◌, ◌++◌, ◌↔◌, List, [], true, codes};
ghost use Rattle.age_format.specs.Front.{IsCharacter};
ghost use Rattle.age_legacy.specs.Legacy.{Reading, ReadsLegacy, behind_chunks, chunks_of, is_character};

/// No text has two legacy readings.
pub fn one_reading()
    ensures { (text : List ℕ) (one other : Reading) → ReadsLegacy text one → ReadsLegacy text other → one ≡ other }
{
    age_format::laws::no_spelling_begins_another();
    age_format::laws::fronts_begin_none();
    age_format::laws::one_header();
}

/// No text is without one.
pub fn some_reading()
    ensures { (text : List ℕ) → ((reading : Reading) → ReadsLegacy text reading → ⊥) → ⊥ }
{}

/// Three texts and their chunks, worked by hand: two with a line feed between them, up to an empty line; one
/// up to a sign of padding; none where the text begins with a line feed.
pub fn worked_chunks()
    ensures two { chunks_of (codes "AA" ++ 10 ∷ codes "+/9" ++ 10 ∷ 10 ∷ codes "A") ≡ codes "AA" ++ 10 ∷ codes "+/9" }
    ensures behind { behind_chunks (codes "AA" ++ 10 ∷ codes "+/9" ++ 10 ∷ 10 ∷ codes "A") ≡ 10 ∷ 10 ∷ codes "A" }
    ensures one { chunks_of (codes "az==") ≡ codes "az" }
    ensures fed { chunks_of (10 ∷ codes "A") ≡ [] }
{}

/// The 64 characters of base64, and no other byte.
pub fn characters()
    ensures { (b : ℕ) → (is_character b ≡ true) ↔ IsCharacter b }
{}
