//! What holds of the definitions of this crate.

ghost use Rattle.std.specs.Prelude.{◌≡◌, ◌*◌, ◌++◌, [], ◌∷◌, List, ℕ};
ghost use Rattle.sha3.specs.Sha3.{sha3_256, sha3_512, shake128, shake256};
ghost use Rattle.sha3_family.specs.Sha3Family.{sha3_family};

/// What each function of the family gives (FIPS 203, section 4.1): SHAKE128 and SHAKE256 with lengths in
/// bytes, and the bytes behind a seed in this order.
pub fn sha3_functions()
    ensures g { (x : List ℕ) → sha3_family.g_of x ≡ sha3_512 x }
    ensures h { (x : List ℕ) → sha3_family.h_of x ≡ sha3_256 x }
    ensures j { (x : List ℕ) → sha3_family.j_of x ≡ shake256 x 32 }
    ensures prf { (eta : ℕ) (s : List ℕ) (b : ℕ) → sha3_family.prf_of eta s b ≡ shake256 (s ++ b ∷ []) (64 * eta) }
    ensures xof { (rho : List ℕ) (a b : ℕ) → sha3_family.xof_of rho a b ≡ shake128 (rho ++ a ∷ b ∷ []) 2688 }
{}
