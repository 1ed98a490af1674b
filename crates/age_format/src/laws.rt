//! Laws of the definitions, each as the contract of a function that does nothing.

ghost use Rattle.std.specs.Prelude.{◌≡◌, ℕ, ◌+◌, ◌-◌, ◌^◌, ◌<◌, List, [], ◌∷◌, ◌++◌, ◌↔◌, length, codes, replicate, Option, Some};
ghost use Rattle.age_format.specs.Outside.{last_count, Rose, GainsPart, Lacks};
ghost use Rattle.age_format.specs.Stanza.{Stanza, IsStanza, IsFront, IsVisible, alphabet, body_lines, spelling};
ghost use Rattle.age_format.specs.Strings.{BeginsWithHeader};
ghost use Rattle.age_format.specs.Front.{BeginsNone, IsFrontByCases, IsMalformed};
ghost use Rattle.age_format.specs.Receiving.{Held, Receives, Took, fresh};
ghost use Rattle.age_format.specs.Reading.{HasNoDone, IsDone, NoneDone, Reading, Reads, StandsBeforeDone, Before_done, Invalid_data, Unexpected_eof, Too_much};

/// Counts of faults at their edges: a count rises by one, and stands still at 2 ^ 64 - 1.
pub fn worked_counts()
    ensures last { last_count ≡ 2 ^ 64 - 1 }
    ensures risen { Rose 4 5 }
    ensures stands { Rose 4 4 → ⊥ }
    ensures at_last { Rose last_count last_count }
    ensures before_last { Rose (last_count - 1) (last_count - 1) → ⊥ }
{}

/// A sink that holds `a` and gets a part of `bcd`: it holds `abc`, and not `ac`. It lacks some of `bcd` then,
/// and none where it holds `abcd`.
pub fn worked_parts()
    ensures part { GainsPart (Some (codes "a")) (Some (codes "abc")) (codes "bcd") }
    ensures no_part { GainsPart (Some (codes "a")) (Some (codes "ac")) (codes "bcd") → ⊥ }
    ensures lacks { Lacks (Some (codes "a")) (Some (codes "abc")) (codes "bcd") }
    ensures whole { Lacks (Some (codes "a")) (Some (codes "abcd")) (codes "bcd") → ⊥ }
{}

/// A tag and an argument may hold the bytes from 33 to 126.
pub fn visible_bytes()
    ensures first { IsVisible 33 × (IsVisible 32 → ⊥) }
    ensures last { IsVisible 126 × (IsVisible 127 → ⊥) }
{}

/// The 64 characters of base64: the capital letters, the small ones, the digits, `+` and `/`.
pub fn characters()
    ensures { alphabet ≡ codes "ABCDEFGHIJKLMNOPQRSTUVWXYZ" ++ codes "abcdefghijklmnopqrstuvwxyz" ++ codes "0123456789" ++ codes "+/" }
{}

/// A line of a body has 64 characters: 48 bytes fill one, and an empty line follows; 49 begin a second.
pub fn worked_lines()
    ensures full { body_lines (replicate 48 0) ≡ replicate 64 65 ++ 10 ∷ 10 ∷ [] }
    ensures longer { body_lines (replicate 49 0) ≡ replicate 64 65 ++ 10 ∷ 65 ∷ 65 ∷ 10 ∷ [] }
{}

/// No spelling begins another: what two stanzas spell at the front of one text is one stanza.
pub fn no_spelling_begins_another()
    ensures stanzas { (s t : Stanza) (more rest : List ℕ) → IsStanza s → IsStanza t
        → spelling s ++ more ≡ spelling t ++ rest → s ≡ t }
    ensures rests { (s t : Stanza) (more rest : List ℕ) → IsStanza s → IsStanza t
        → spelling s ++ more ≡ spelling t ++ rest → more ≡ rest }
{}

/// No spelling begins a front: so each text has one answer of the strict reader, a stanza, a front or
/// neither.
pub fn fronts_begin_none()
    ensures { (text : List ℕ) → IsFront text → BeginsNone text }
{}

/// What the strict reader takes for a stanza is the stanza's spelling: written again, it is what was
/// consumed.
pub fn what_is_read_is_consumed()
    ensures { (text consumed rest : List ℕ) (s : Stanza) → text ≡ consumed ++ rest → text ≡ spelling s ++ rest → consumed ≡ spelling s }
{}

/// No text begins with two header lines.
pub fn one_header()
    ensures { (text : List ℕ) (one other : Stanza) (behind rest : List ℕ) → BeginsWithHeader text one behind
        → BeginsWithHeader text other rest → (one ≡ other) × (behind ≡ rest) }
{}

/// The proper prefixes of spellings are the three cases of the format: a part of `-> `; `-> ` and a
/// header line that hasn't ended; a whole header line, full lines and 0 to 64 characters.
pub fn fronts()
    ensures { (text : List ℕ) → IsFront text ↔ IsFrontByCases text }
{}

/// Malformed bytes that are held give no stanza, whatever is read behind them; and where nothing is paid,
/// which is so there (`unpaid` of `receive_from`), they stay held as they are. So behind an `InvalidData` each
/// call answers `InvalidData`, or want of memory: what every other answer says of the bytes isn't so.
pub fn malformed_bytes_stay()
    ensures none_given { (before now : Held) (left_before left_now : Option (List ℕ)) (stanzas : List Stanza)
        → IsMalformed before.bytes → Receives before now left_before left_now stanzas → stanzas ≡ [] }
    ensures same { (before now : Held) (left_before left_now : Option (List ℕ)) (stanzas : List Stanza)
        → IsMalformed before.bytes → Receives before now left_before left_now stanzas
        → now.budget ≡ before.budget → now.bytes ≡ before.bytes }
{}

/// No text has two readings.
pub fn one_reading()
    ensures { (text : List ℕ) (budget : ℕ) (one other : Reading)
        → Reads text budget one → Reads text budget other → one ≡ other }
{}

/// No text is without a reading.
pub fn some_reading()
    ensures { (text : List ℕ) (budget : ℕ)
        → ((reading : Reading) → Reads text budget reading → ⊥) → ⊥ }
{}

/// The stanzas before a first `done` are one list, and a text that has them is no text without one.
pub fn one_first_done()
    ensures one { (text : List ℕ) (stanzas others : List Stanza) → StandsBeforeDone text stanzas
        → StandsBeforeDone text others → stanzas ≡ others }
    ensures or_none { (text rest : List ℕ) (stanzas : List Stanza) → StandsBeforeDone text stanzas
        → HasNoDone text rest → ⊥ }
{}

/// Three stanzas and what spells them, worked by hand.
pub fn worked_spellings()
    ensures done { spelling (record { tag = codes "done"; args = []; body = [] }) ≡ codes "-> done" ++ 10 ∷ 10 ∷ [] }
    ensures test { spelling (record { tag = codes "test"; args = codes "foo" ∷ []; body = codes "bar" })
        ≡ codes "-> test foo" ++ 10 ∷ codes "YmFy" ++ 10 ∷ [] }
    ensures zeros { spelling (record { tag = codes "kem"; args = []; body = replicate 32 0 })
        ≡ codes "-> kem" ++ 10 ∷ replicate 43 65 ++ 10 ∷ [] }
{}

/// The four ends of a reading, worked by hand: a `done`, bytes that no stanza has, a text that ends
/// within the budget, and a budget that ends.
pub fn worked_readings()
    ensures before_done { Reads (codes "-> done" ++ 10 ∷ 10 ∷ codes "x") 9 (Before_done []) }
    ensures invalid_data { Reads (codes "-> x" ++ 10 ∷ codes "/" ++ 10 ∷ []) 100 Invalid_data }
    ensures unexpected_eof { Reads (codes "-> done" ++ 10 ∷ []) 9 Unexpected_eof }
    ensures too_much { Reads (codes "-> done" ++ 10 ∷ 10 ∷ []) 8 Too_much }
{}

/// Runs of receiving join: the stanzas of one, and then those of the next.
pub fn receiving_joins()
    ensures { (one two three : Held) (left mid right : Option (List ℕ)) (stanzas others : List Stanza)
        → Receives one two left mid stanzas → Receives two three mid right others → Receives one three left right (stanzas ++ others) }
{}

/// What receiving comes to up to a first `done`, or up to a refusal, is the reading of what was held,
/// followed by what the source told, within the budget and the length of what was held. It doesn't
/// depend on the pieces in which the source gave its bytes.
pub fn receiving_is_reading()
    ensures before_done { (before now : Held) (text : List ℕ) (left : Option (List ℕ)) (stanzas : List Stanza) (last : Stanza)
        → Receives before now (Some text) left (stanzas ++ last ∷ []) → NoneDone stanzas → IsDone last
        → Reads (before.bytes ++ text) (before.budget + length before.bytes) (Before_done stanzas) }
    ensures invalid_data { (before now : Held) (text : List ℕ) (left : Option (List ℕ)) (stanzas : List Stanza)
        → Receives before now (Some text) left stanzas → NoneDone stanzas → IsMalformed now.bytes
        → Reads (before.bytes ++ text) (before.budget + length before.bytes) Invalid_data }
    ensures unexpected_eof { (before now : Held) (text : List ℕ) (left : Option (List ℕ)) (stanzas : List Stanza)
        → Receives before now (Some text) left stanzas → NoneDone stanzas → IsFront now.bytes → 0 < now.budget → left ≡ Some []
        → Reads (before.bytes ++ text) (before.budget + length before.bytes) Unexpected_eof }
    ensures too_much { (before now : Held) (text : List ℕ) (left : Option (List ℕ)) (stanzas : List Stanza)
        → Receives before now (Some text) left stanzas → NoneDone stanzas → IsFront now.bytes → now.budget ≡ 0
        → Reads (before.bytes ++ text) (before.budget + length before.bytes) Too_much }
    // Before a fault of the source there was no whole `done`.
    ensures read_fault { (before now : Held) (left left_now : Option (List ℕ)) (stanzas : List Stanza)
        → Receives before now left left_now stanzas → NoneDone stanzas → IsFront now.bytes
        → (taken : List ℕ) × Took left left_now taken × (before.budget ≡ now.budget + length taken) × HasNoDone (before.bytes ++ taken) now.bytes }
{}

/// The same from a reader that has read nothing: the reading of the told bytes within the budget.
pub fn receiving_from_fresh_is_reading()
    ensures before_done { (budget : ℕ) (now : Held) (text : List ℕ) (left : Option (List ℕ)) (stanzas : List Stanza) (last : Stanza)
        → Receives (fresh budget) now (Some text) left (stanzas ++ last ∷ []) → NoneDone stanzas → IsDone last
        → Reads text budget (Before_done stanzas) }
    ensures invalid_data { (budget : ℕ) (now : Held) (text : List ℕ) (left : Option (List ℕ)) (stanzas : List Stanza)
        → Receives (fresh budget) now (Some text) left stanzas → NoneDone stanzas → IsMalformed now.bytes
        → Reads text budget Invalid_data }
    ensures unexpected_eof { (budget : ℕ) (now : Held) (text : List ℕ) (left : Option (List ℕ)) (stanzas : List Stanza)
        → Receives (fresh budget) now (Some text) left stanzas → NoneDone stanzas → IsFront now.bytes → 0 < now.budget → left ≡ Some []
        → Reads text budget Unexpected_eof }
    ensures too_much { (budget : ℕ) (now : Held) (text : List ℕ) (left : Option (List ℕ)) (stanzas : List Stanza)
        → Receives (fresh budget) now (Some text) left stanzas → NoneDone stanzas → IsFront now.bytes → now.budget ≡ 0
        → Reads text budget Too_much }
{}
