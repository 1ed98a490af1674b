//! Laws of the definitions, each as the contract of a function that does nothing.

ghost use Rattle.std.specs.Prelude.{◌≡◌, ◌++◌, ◌∷◌, ℕ, List, [], length, replicate, sum_by, codes};
ghost use Rattle.kem_hash.specs.Family.{Family};
ghost use Rattle.kem_mail.specs.Mail.{IsVerdict, Verdict};
ghost use Rattle.generated_mail.specs.Made.{generated_message, generated_messages, generated_seed};
ghost use Rattle.generated_mail.specs.Told.{Generates, summary_lines};

/// One thing is told for a number of messages, and it is neither want of memory nor a fault of a source.
pub fn one_told()
    ensures same { (family : Family) (count : ℕ) (one other : Verdict) → Generates family count one → Generates family count other → one ≡ other }
    ensures verdict { (family : Family) (count : ℕ) (told : Verdict) → Generates family count told → IsVerdict told }
    ensures some { (family : Family) (count : ℕ) → ((told : Verdict) → Generates family count told → ⊥) → ⊥ }
{}

/// What is made and told, worked by hand.
pub fn worked_mails()
    ensures seed { generated_seed 1000 ≡ 232 ∷ 3 ∷ replicate 30 0 }
    ensures first { generated_messages 3 ≡ [] ∷ (1 ∷ []) ∷ (2 ∷ 2 ∷ []) ∷ [] }
    ensures message { generated_message 303 ≡ replicate 12 47 }
    ensures round { sum_by length (generated_messages 97) ≡ 4656 }
    ensures lines { summary_lines 10 45 1893 (7 ∷ 254 ∷ []) ≡ codes "messages 10" ++ (10 ∷ codes "bytes 45") ++ (10 ∷ codes "mail 1893") ++ (10 ∷ codes "digest 07fe") ++ 10 ∷ [] }
{}
