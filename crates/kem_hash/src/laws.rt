//! What holds of the definitions of this crate.

ghost use Rattle.std.specs.Prelude.{◌≡◌, ◌*◌, ◌++◌, [], ◌∷◌, List, ℕ};
ghost use Rattle.std.specs.List.{flat_map, range_with_len};
ghost use Rattle.sha2.specs.Sha256.{sha224, sha256};
ghost use Rattle.sha2.specs.Sha512.{sha512};
ghost use Rattle.kem_hash.specs.Family.{xof_size};
ghost use Rattle.kem_hash.specs.Sha2.{sha2_family};

/// What each function of the family that stands on SHA-2 hashes: its letter in ASCII (47 is G, 48 H, 4A J,
/// 50 P and 58 X in hexadecimal), and behind it the inputs in this order.
pub fn sha2_texts()
    ensures g { (x : List ℕ) → sha2_family.g_of x ≡ sha512 (0x47 ∷ x) }
    ensures h { (x : List ℕ) → sha2_family.h_of x ≡ sha256 (0x48 ∷ x) }
    ensures j { (x : List ℕ) → sha2_family.j_of x ≡ sha256 (0x4A ∷ x) }
    ensures prf { (eta : ℕ) (s : List ℕ) (b : ℕ)
        → sha2_family.prf_of eta s b ≡ flat_map (λ c. sha256 (0x50 ∷ s ++ b ∷ c ∷ [])) (range_with_len 0 (2 * eta)) }
    ensures xof { (rho : List ℕ) (a b : ℕ)
        → sha2_family.xof_of rho a b ≡ flat_map (λ c. sha224 (0x58 ∷ rho ++ a ∷ b ∷ c ∷ [])) (range_with_len 0 96) }
{}

/// The output of XOF is 16 blocks of 168 bytes.
pub fn xof_sizes()
    ensures { xof_size ≡ 16 * 168 }
{}
