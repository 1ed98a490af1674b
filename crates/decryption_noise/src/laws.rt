//! What noise is, and what it decides: each bit of a message, the message and the shared key.
//!
//! Each law is for every family of hash functions, every seed that has a key and every coins `r`, honest or
//! not.

ghost use Rattle.std.specs.Prelude.{◌≡◌, ◌≢◌, ◌+◌, ◌-◌, ◌<◌, ◌≤ℤ◌, ◌↔◌, ◌++◌, ℕ, All, List, [], ◌∷◌, Result, Some, length, map, neg_ℤ, pos, slice_index_or, take};
ghost use Rattle.std.specs.Int.{int_rem_euclid};
ghost use Rattle.std.specs.List.{flat_map};
ghost use Rattle.kem_hash.specs.Family.{AreBytes, Family};
ghost use Rattle.module_lattice.specs.Bits.{byte_bit};
ghost use Rattle.module_lattice.specs.Ring.{difference, plus, product, sum};
ghost use Rattle.module_lattice.specs.Vectors.{dot_product, vector_sum};
ghost use Rattle.ml_kem.specs.Answers.{Answers};
ghost use Rattle.ml_kem.specs.Encapsulation.{decaps, encaps, key_and_coins};
ghost use Rattle.ml_kem.specs.Encryption.{compressed, decompressed, decrypt, encrypt, rounded_u, rounded_v};
ghost use Rattle.ml_kem.specs.Expanded.{key_of_seed};
ghost use Rattle.ml_kem.specs.Keys.{Key, key_of};
ghost use Rattle.ml_kem.specs.Parameters.{IsSet, Parameters, ml_kem_512, q};
ghost use Rattle.ml_kem.specs.Rounding.{compress, decompress};
ghost use Rattle.ml_kem.specs.declared.error.KemError.{KemError};
ghost use Rattle.decryption_noise.specs.Noise.{AllInside, IsInside, centred, change, change_of_u, change_of_v, honest_coins, noise_modulo, noise_of, randomness, unrounded_u, unrounded_v};
ghost use Rattle.decryption_noise.specs.Worked.{worked_family, worked_key, worked_message, worked_noise};

/// Worked values: numbers about the middle, centred; what rounding to each width of a set changes; and a
/// whole noise at ML-KEM-512, by an independent model.
pub fn worked_values()
    ensures centred { map centred (0 ∷ 1 ∷ 1664 ∷ 1665 ∷ 3328 ∷ []) ≡ pos 0 ∷ pos 1 ∷ pos 1664 ∷ neg_ℤ (pos 1664) ∷ neg_ℤ (pos 1) ∷ [] }
    ensures change_4 { change 4 (0 ∷ 1 ∷ 103 ∷ 104 ∷ 832 ∷ 833 ∷ 1664 ∷ 3225 ∷ 3328 ∷ []) ≡ 0 ∷ 3328 ∷ 3226 ∷ 3225 ∷ 0 ∷ 3328 ∷ 1 ∷ 104 ∷ 1 ∷ [] }
    ensures change_5 { change 5 (0 ∷ 1 ∷ 103 ∷ 104 ∷ 832 ∷ 833 ∷ 1664 ∷ 3225 ∷ 3328 ∷ []) ≡ 0 ∷ 3328 ∷ 1 ∷ 0 ∷ 0 ∷ 3328 ∷ 1 ∷ 0 ∷ 1 ∷ [] }
    ensures change_10 { change 10 (0 ∷ 1 ∷ 2 ∷ 103 ∷ 832 ∷ 833 ∷ 1664 ∷ 3225 ∷ 3328 ∷ []) ≡ 0 ∷ 3328 ∷ 1 ∷ 1 ∷ 0 ∷ 3328 ∷ 1 ∷ 0 ∷ 1 ∷ [] }
    ensures change_11 { change 11 (0 ∷ 1 ∷ 2 ∷ 103 ∷ 832 ∷ 833 ∷ 1664 ∷ 3225 ∷ 3328 ∷ []) ≡ 0 ∷ 1 ∷ 0 ∷ 3328 ∷ 0 ∷ 3328 ∷ 1 ∷ 0 ∷ 3328 ∷ [] }
    ensures noise { noise_modulo ml_kem_512 worked_family worked_key worked_message [] ≡ worked_noise }
{}

/// A number below q, centred, is from -1664 to 1664, and the same modulo q.
pub fn centred_numbers()
    ensures least { (x : ℕ) → x < q → neg_ℤ (pos 1664) ≤ℤ centred x }
    ensures most { (x : ℕ) → x < q → centred x ≤ℤ pos 1664 }
    ensures modulo { (x : ℕ) → x < q → int_rem_euclid (centred x) (pos q) ≡ pos x }
{}

/// The ciphertext under the key of a seed is u and v, rounded, and what a decryption reads of it is u + cu
/// and v + cv.
pub fn ciphertexts_are_rounded()
    ensures ciphertext { (set : Parameters) (family : Family) (seed m r : List ℕ) (key : Key) → key_of set family seed ≡ Some key
        → let drawn = randomness set family r in
        encrypt set family key.ek m r ≡ Some (flat_map (compressed set.du) (unrounded_u set key drawn) ++ compressed set.dv (unrounded_v key drawn m)) }
    ensures u { (set : Parameters) (family : Family) (seed m r c : List ℕ) (key : Key) → IsSet set → key_of set family seed ≡ Some key
        → encrypt set family key.ek m r ≡ Some c → let drawn = randomness set family r in
        rounded_u set c ≡ vector_sum q (unrounded_u set key drawn) (change_of_u set key drawn) }
    ensures v { (set : Parameters) (family : Family) (seed m r c : List ℕ) (key : Key) → IsSet set → key_of set family seed ≡ Some key → length m ≡ 32
        → encrypt set family key.ek m r ≡ Some c → let drawn = randomness set family r in
        rounded_v set c ≡ sum q (unrounded_v key drawn m) (change_of_v set key drawn m) }
{}

/// v' - s·u' is Decompress_1 of the bits of the message and the noise, modulo q. Noise has 256 coefficients,
/// each from -1664 to 1664.
pub fn noise_stands_beside_the_message()
    ensures identity { (set : Parameters) (family : Family) (seed m r c : List ℕ) (key : Key) → IsSet set → key_of set family seed ≡ Some key → length m ≡ 32
        → encrypt set family key.ek m r ≡ Some c
        → difference q (rounded_v set c) (dot_product q (product q) key.s (rounded_u set c)) ≡ sum q (decompressed 1 m) (noise_modulo set family key m r) }
    ensures size { (set : Parameters) (family : Family) (m r : List ℕ) (key : Key) → length m ≡ 32 → length (noise_of set family key m r) ≡ 256 }
    ensures within { (set : Parameters) (family : Family) (m r : List ℕ) (key : Key) → length m ≡ 32
        → All (λ x. (neg_ℤ (pos 1664) ≤ℤ x) × (x ≤ℤ pos 1664)) (noise_of set family key m r) }
{}

/// The two intervals. A bit, and a number that stands beside it modulo q, are rounded to the bit exactly
/// where the number, centred, is inside; and the numbers at the ends and one beyond them, also by their
/// roundings.
pub fn intervals()
    ensures exactly { (b x : ℕ) → b < 2 → x < q → (compress 1 (plus q (decompress 1 b) x) ≡ b) ↔ IsInside b (centred x) }
    ensures inside { IsInside 0 (pos 832) × IsInside 0 (neg_ℤ (pos 832)) × IsInside 1 (pos 831) × IsInside 1 (neg_ℤ (pos 832)) }
    ensures outside { (IsInside 0 (pos 833) → ⊥) × (IsInside 0 (neg_ℤ (pos 833)) → ⊥) × (IsInside 1 (pos 832) → ⊥) × (IsInside 1 (neg_ℤ (pos 833)) → ⊥) }
    ensures zero { map (λ x. compress 1 (plus q (decompress 1 0) x)) (832 ∷ 833 ∷ (q - 832) ∷ (q - 833) ∷ []) ≡ 0 ∷ 1 ∷ 0 ∷ 1 ∷ [] }
    ensures one { map (λ x. compress 1 (plus q (decompress 1 1) x)) (831 ∷ 832 ∷ (q - 832) ∷ (q - 833) ∷ []) ≡ 1 ∷ 0 ∷ 1 ∷ 0 ∷ [] }
{}

/// Decryption sees the noise: bit i of what is decrypted is bit i of the message exactly where coefficient
/// i of the noise is inside. So the message is decrypted exactly where all are.
pub fn decrypts_exactly_inside()
    ensures bit { (set : Parameters) (family : Family) (seed m r c : List ℕ) (key : Key) → IsSet set → key_of set family seed ≡ Some key → length m ≡ 32
        → encrypt set family key.ek m r ≡ Some c → (i : ℕ) → i < 256
        → (byte_bit (decrypt set key.s c) i ≡ byte_bit m i) ↔ IsInside (byte_bit m i) (slice_index_or (noise_of set family key m r) i (pos 0)) }
    ensures message { (set : Parameters) (family : Family) (seed m r c : List ℕ) (key : Key) → IsSet set → key_of set family seed ≡ Some key → AreBytes 32 m
        → encrypt set family key.ek m r ≡ Some c → (decrypt set key.s c ≡ m) ↔ AllInside m (noise_of set family key m r) }
{}

/// Decapsulation of what Encaps made of a message. Where all of the noise is inside, it gives the shared key
/// of Encaps; else the message that is decrypted is a wrong one. Whatever it is, decapsulation gives the key
/// of that message where encrypting it again gives the ciphertext, and J of z and the ciphertext where it
/// doesn't.
pub fn decapsulates_inside()
    ensures inside { (set : Parameters) (family : Family) (seed m c shared : List ℕ) (key : Key) → IsSet set → key_of set family seed ≡ Some key → AreBytes 32 m
        → encaps set family key.ek m ≡ Some (c, shared) → AllInside m (noise_of set family key m (honest_coins family key.ek m))
        → decaps set family key.s key.ek key.z c ≡ Some shared }
    ensures wrong { (set : Parameters) (family : Family) (seed m c shared : List ℕ) (key : Key) → IsSet set → key_of set family seed ≡ Some key → AreBytes 32 m
        → encaps set family key.ek m ≡ Some (c, shared) → (AllInside m (noise_of set family key m (honest_coins family key.ek m)) → ⊥)
        → decrypt set key.s c ≢ m }
    ensures taken { (set : Parameters) (family : Family) (seed c : List ℕ) (key : Key) → key_of set family seed ≡ Some key
        → let m = decrypt set key.s c in encrypt set family key.ek m (honest_coins family key.ek m) ≡ Some c
        → decaps set family key.s key.ek key.z c ≡ Some (take 32 (key_and_coins family key.ek m)) }
    ensures rejected { (set : Parameters) (family : Family) (seed c : List ℕ) (key : Key) → key_of set family seed ≡ Some key
        → let m = decrypt set key.s c in encrypt set family key.ek m (honest_coins family key.ek m) ≢ Some c
        → decaps set family key.s key.ek key.z c ≡ Some (family.j_of (key.z ++ c)) }
{}

/// What `DecapsulationKey::decapsulate` answers for the key of a seed and an honest ciphertext: where all of
/// the noise is inside, the shared key of the encapsulation, or want of memory.
pub fn decapsulate_answers_the_shared_key()
    ensures { (set : Parameters) (family : Family) (seed m c shared : List ℕ) (key : Key) (answer : Result (List ℕ) KemError) → IsSet set
        → key_of set family seed ≡ Some key → AreBytes 32 m → encaps set family key.ek m ≡ Some (c, shared)
        → let noise = noise_of set family key m (honest_coins family key.ek m) in AllInside m noise
        → let secret = key_of_seed seed key in Answers (λ k. k) answer (decaps set family secret.s secret.ek secret.z c)
        → Answers (λ k. k) answer (Some shared) }
{}
