//! What holds of the definitions that the contracts of this crate cite.

ghost use Rattle.std.specs.Prelude.{◌≡◌, ◌<◌, ◌≤◌, ℕ, List, [], ◌∷◌, All, length, map, replicate, take};
ghost use Rattle.std.specs.List.{range_with_len};
ghost use Rattle.sha3.specs.Keccak.{keccak_f, offset_at, offsets, round_constant, round_constants};
ghost use Rattle.sha3.specs.Sha3.{sha3_256, sha3_512, shake128, shake256};

/// The offsets of rho are those of its rule, modulo 64 (FIPS 202, section 3.2.2).
pub fn offsets_by_rule()
    ensures { offsets ≡ map offset_at (range_with_len 0 25) }
{}

/// The constants of the rounds are those that the register gives (FIPS 202, section 3.2.5).
pub fn round_constants_by_rule()
    ensures { round_constants ≡ map round_constant (range_with_len 0 24) }
{}

/// How many bytes the digests and outputs have.
pub fn lengths()
    ensures sha3_256 { (m : List ℕ) → length (sha3_256 m) ≡ 32 }
    ensures sha3_512 { (m : List ℕ) → length (sha3_512 m) ≡ 64 }
    ensures shake128 { (m : List ℕ) (d : ℕ) → length (shake128 m d) ≡ d }
    ensures shake256 { (m : List ℕ) (d : ℕ) → length (shake256 m d) ≡ d }
{}

/// Each element of a digest or an output is a byte.
pub fn bytes()
    ensures sha3_256 { (m : List ℕ) → All (λ x. x < 256) (sha3_256 m) }
    ensures sha3_512 { (m : List ℕ) → All (λ x. x < 256) (sha3_512 m) }
    ensures shake128 { (m : List ℕ) (d : ℕ) → All (λ x. x < 256) (shake128 m d) }
    ensures shake256 { (m : List ℕ) (d : ℕ) → All (λ x. x < 256) (shake256 m d) }
{}

/// Fewer bytes of an output are the front of more.
pub fn outputs_are_fronts()
    ensures shake128 { (m : List ℕ) (d e : ℕ) → d ≤ e → take d (shake128 m e) ≡ shake128 m d }
    ensures shake256 { (m : List ℕ) (d e : ℕ) → d ≤ e → take d (shake256 m e) ≡ shake256 m d }
{}

/// The state of zeros after the permutation Keccak-f[1600], lane by lane: the first of the test vectors of
/// the Keccak team (FIPS 202, section 3.4).
pub fn worked_permutation()
    ensures { keccak_f (replicate 25 0) ≡ (0xf1258f7940e1dde7 ∷ 0x84d5ccf933c0478a ∷ 0xd598261ea65aa9ee ∷ 0xbd1547306f80494d ∷ 0x8b284e056253d057
        ∷ 0xff97a42d7f8e6fd4 ∷ 0x90fee5a0a44647c4 ∷ 0x8c5bda0cd6192e76 ∷ 0xad30a6f71b19059c ∷ 0x30935ab7d08ffc64
        ∷ 0xeb5aa93f2317d635 ∷ 0xa9a6e6260d712103 ∷ 0x81a57c16dbcf555f ∷ 0x43b831cd0347c826 ∷ 0x1f22f1a11a5569f
        ∷ 0x5e5635a21d9ae61 ∷ 0x64befef28cc970f2 ∷ 0x613670957bc46611 ∷ 0xb87c5a554fd00ecb ∷ 0x8c3ee88a1ccf32c8
        ∷ 0x940c7922ae3a2614 ∷ 0x1841f924a2c509e4 ∷ 0x16f53526e70465c2 ∷ 0x75f644e97f30a13b ∷ 0xeaf1ff7b5ceca249 ∷ []) }
{}
