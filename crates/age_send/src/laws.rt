//! Laws of the definitions, each as the contract of a function that does nothing.

ghost use Rattle.std.specs.Prelude.{◌≡◌, ◌≢◌, ◌+◌, ◌%◌, ◌^◌, [], ◌∷◌, ◌++◌, codes};
ghost use Rattle.rand_core.specs.Stream.{Stream, next_u32};
ghost use Rattle.rand_core.specs.Steps.{stream_of, steps_u32};
ghost use Rattle.age_format.specs.Stanza.{Stanza, IsStanza};
ghost use Rattle.age_send.specs.Grease.{GivesBytes, IsGrease, drawn_grease};
ghost use Rattle.age_send.specs.Sending.{AfterGrease, done, second_roll, sent_text, stanza_with};

/// No grease stanza has the tag of a mail's stanzas.
pub fn grease_tags()
    ensures done { (s : Stanza) → IsGrease s → s.tag ≢ codes "done" }
    ensures kem { (s : Stanza) → IsGrease s → s.tag ≢ codes "kem" }
    ensures msg { (s : Stanza) → IsGrease s → s.tag ≢ codes "msg" }
{}

/// What a send writes is the spellings of grease stanzas, none or more, and of the stanza that is sent.
pub fn sent_stanzas()
    ensures { (sent : Stanza) (stream : Stream) → IsStanza sent → GivesBytes stream → AfterGrease (sent_text sent stream) sent }
{}

/// A grease stanza of the words 5, 6, 7 and so on, worked by hand: it takes those up to 33.
pub fn worked_grease()
    ensures stanza { let counting : Stream = stream_of (steps_u32 (λ n. (n, (n + 1) % 2 ^ 32))) 5 in
        (drawn_grease counting).0 ≡ record {
          tag = codes "'()*+,-grease";
          args = codes "/01234" ∷ codes "6789:" ∷ [];
          body = 27 ∷ 0 ∷ 0 ∷ 0 ∷ 28 ∷ 0 ∷ 0 ∷ 0 ∷ 29 ∷ 0 ∷ 0 ∷ 0 ∷ 30 ∷ 0 ∷ 0 ∷ 0 ∷ 31 ∷ 0 ∷ 0 ∷ 0 ∷ 32 ∷ 0 ∷ 0 ∷ 0 ∷ 33 ∷ 0 ∷ [];
        } }
    ensures rest { let counting : Stream = stream_of (steps_u32 (λ n. (n, (n + 1) % 2 ^ 32))) 5 in
        (next_u32 (drawn_grease counting).1).0 ≡ 34 }
{}

/// Sends of such words, worked by hand: a roll makes grease below 5, and not from 5 on.
pub fn worked_sends()
    ensures bare { let counting : Stream = stream_of (steps_u32 (λ n. (n, (n + 1) % 2 ^ 32))) 5 in
        sent_text (stanza_with (codes "test") (codes "foo" ∷ []) (codes "bar")) counting ≡ codes "-> test foo" ++ 10 ∷ codes "YmFy" ++ 10 ∷ [] }
    ensures greased { let counting : Stream = stream_of (steps_u32 (λ n. (n, (n + 1) % 2 ^ 32))) 4 in
        sent_text done counting ≡ codes "-> '()*+,-grease /01234 6789:" ++ 10 ∷ codes "GwAAABwAAAAdAAAAHgAAAB8AAAAgAAAAIQA" ++ 10 ∷ codes "-> done" ++ 10 ∷ 10 ∷ [] }
    ensures rest { let counting : Stream = stream_of (steps_u32 (λ n. (n, (n + 1) % 2 ^ 32))) 4 in
        (next_u32 (second_roll counting).1).0 ≡ 35 }
{}
