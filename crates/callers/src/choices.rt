//! A caller of `ct_choice`.

ghost use Rattle.std.specs.Prelude.{◌≡◌, ◌⊎◌, ◌≤◌};

use ct_choice::Choice;

/// The greater of two numbers, with no branch on them.
pub fn greater(a: u64, b: u64) -> u64
    ensures first { a ≤ result }
    ensures second { b ≤ result }
    ensures one { (result ≡ a) ⊎ (result ≡ b) }
{
    Choice::from_u64_lt(a, b).select_u64(a, b)
}
