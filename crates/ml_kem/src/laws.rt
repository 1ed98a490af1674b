//! What holds of the definitions that the contracts of this crate cite.

ghost use Rattle.std.specs.Prelude.{◌≡◌, ◌+◌, ◌*◌, ◌^◌, ◌<◌, ◌≤◌, ℕ, [], ◌∷◌, All, IsTrue, None, Some, length, map, take};
ghost use Rattle.std.specs.List.{flat_map, range_with_len};
ghost use Rattle.kem_hash.specs.Family.{Family, IsLawful};
ghost use Rattle.module_lattice.specs.Ring.{IsPolynomial, power_of_x};
ghost use Rattle.ml_kem.specs.Expanded.{IsExpandedKey, SecretKey, expanded_form, key_of_expanded, same_key};
ghost use Rattle.ml_kem.specs.Encryption.{u_size};
ghost use Rattle.ml_kem.specs.Keys.{IsEncapsulationKey, vector_size};
ghost use Rattle.ml_kem.specs.Parameters.{IsSet, Parameters, ml_kem_512, ml_kem_768, ml_kem_1024, q};
ghost use Rattle.ml_kem.specs.Rounding.{compress, decompress};
ghost use Rattle.ml_kem.specs.Samples.{accepted, candidates, cbd, cbd_coefficient, sample};
ghost use Rattle.lattice_transform.specs.Transform.{transform};

/// The modulus (FIPS 203, section 2.3), and the table of parameter sets (section 8, tables 2 and 3).
pub fn parameter_sets()
    ensures modulus { q ≡ 3329 }
    ensures set_512 { ml_kem_512 ≡ record { k = 2; eta1 = 3; eta2 = 2; du = 10; dv = 4; ek_size = 800; ct_size = 768; dk_size = 1632 } }
    ensures set_768 { ml_kem_768 ≡ record { k = 3; eta1 = 2; eta2 = 2; du = 10; dv = 4; ek_size = 1184; ct_size = 1088; dk_size = 2400 } }
    ensures set_1024 { ml_kem_1024 ≡ record { k = 4; eta1 = 2; eta2 = 2; du = 11; dv = 5; ek_size = 1568; ct_size = 1568; dk_size = 3168 } }
{}

/// Worked transforms: that of X is (0, 1) in each pair, and that of X^2 begins with the pairs (17, 0)
/// and (3312, 0).
pub fn worked_transforms()
    ensures of_x { transform (power_of_x 1) ≡ flat_map (λ i. 0 ∷ 1 ∷ []) (range_with_len 0 128) }
    ensures of_square { take 4 (transform (power_of_x 2)) ≡ 17 ∷ 0 ∷ 3312 ∷ 0 ∷ [] }
{}

/// Worked roundings, at each width that a set or a message has: numbers about the quarters of q to the
/// nearest, and the least, the middle and the greatest number of each width back.
pub fn worked_roundings()
    ensures compress_1 { map (compress 1) (0 ∷ 832 ∷ 833 ∷ 1664 ∷ 1665 ∷ 2496 ∷ 2497 ∷ 3328 ∷ []) ≡ 0 ∷ 0 ∷ 1 ∷ 1 ∷ 1 ∷ 1 ∷ 0 ∷ 0 ∷ [] }
    ensures compress_4 { map (compress 4) (0 ∷ 832 ∷ 833 ∷ 1664 ∷ 1665 ∷ 2496 ∷ 2497 ∷ 3328 ∷ []) ≡ 0 ∷ 4 ∷ 4 ∷ 8 ∷ 8 ∷ 12 ∷ 12 ∷ 0 ∷ [] }
    ensures compress_5 { map (compress 5) (0 ∷ 832 ∷ 833 ∷ 1664 ∷ 1665 ∷ 2496 ∷ 2497 ∷ 3328 ∷ []) ≡ 0 ∷ 8 ∷ 8 ∷ 16 ∷ 16 ∷ 24 ∷ 24 ∷ 0 ∷ [] }
    ensures compress_10 { map (compress 10) (0 ∷ 832 ∷ 833 ∷ 1664 ∷ 1665 ∷ 2496 ∷ 2497 ∷ 3328 ∷ []) ≡ 0 ∷ 256 ∷ 256 ∷ 512 ∷ 512 ∷ 768 ∷ 768 ∷ 0 ∷ [] }
    ensures compress_11 { map (compress 11) (0 ∷ 832 ∷ 833 ∷ 1664 ∷ 1665 ∷ 2496 ∷ 2497 ∷ 3328 ∷ []) ≡ 0 ∷ 512 ∷ 512 ∷ 1024 ∷ 1024 ∷ 1536 ∷ 1536 ∷ 2047 ∷ [] }
    ensures decompress_1 { map (decompress 1) (0 ∷ 1 ∷ []) ≡ 0 ∷ 1665 ∷ [] }
    ensures decompress_4 { map (decompress 4) (0 ∷ 1 ∷ 8 ∷ 15 ∷ []) ≡ 0 ∷ 208 ∷ 1665 ∷ 3121 ∷ [] }
    ensures decompress_5 { map (decompress 5) (0 ∷ 1 ∷ 16 ∷ 31 ∷ []) ≡ 0 ∷ 104 ∷ 1665 ∷ 3225 ∷ [] }
    ensures decompress_10 { map (decompress 10) (0 ∷ 1 ∷ 512 ∷ 1023 ∷ []) ≡ 0 ∷ 3 ∷ 1665 ∷ 3326 ∷ [] }
    ensures decompress_11 { map (decompress 11) (0 ∷ 1 ∷ 1024 ∷ 2047 ∷ []) ≡ 0 ∷ 2 ∷ 1665 ∷ 3327 ∷ [] }
{}

/// What was decompressed compresses to the same bits.
pub fn compresses_what_was_decompressed()
    ensures { (d y : ℕ) → 1 ≤ d → d ≤ 11 → y < 2 ^ d → compress d (decompress d y) ≡ y }
{}

/// Worked samples: three bytes hold two numbers, of which 3329 isn't taken; 256 numbers are a sample, and
/// 254 are none; and noise of each width, whose bits are counted from the lowest of each byte.
pub fn worked_samples()
    ensures candidates { candidates (0x01 ∷ 0x0d ∷ 0xd0 ∷ 0x01 ∷ 0x20 ∷ 0x03 ∷ 0xff ∷ 0xff ∷ []) ≡ 3329 ∷ 3328 ∷ 1 ∷ 50 ∷ [] }
    ensures accepted { accepted (0x01 ∷ 0x0d ∷ 0xd0 ∷ []) ≡ 3328 ∷ [] }
    ensures enough { sample (flat_map (λ i. 0x01 ∷ 0x20 ∷ 0x03 ∷ []) (range_with_len 0 128)) ≡ Some (flat_map (λ i. 1 ∷ 50 ∷ []) (range_with_len 0 128)) }
    ensures few { sample (flat_map (λ i. 0x01 ∷ 0x20 ∷ 0x03 ∷ []) (range_with_len 0 127)) ≡ None }
    ensures noise_2 { cbd 2 (flat_map (λ i. 0x3c ∷ []) (range_with_len 0 128)) ≡ flat_map (λ i. 3327 ∷ 2 ∷ []) (range_with_len 0 128) }
    ensures noise_3 { map (cbd_coefficient 3 (0x48 ∷ 0xc2 ∷ 0xee ∷ [])) (range_with_len 0 4) ≡ 3328 ∷ 0 ∷ 3328 ∷ 3328 ∷ [] }
{}

/// The expanded form of a key passes the checks, and the key that is read from it equals the first.
pub fn reads_its_own_expanded_form()
    ensures accepted { (set : Parameters) (family : Family) (key : SecretKey) → IsSet set → IsLawful family → length key.s_hat ≡ set.k
        → All (IsPolynomial 3329) key.s_hat → IsEncapsulationKey set key.ek → length key.z ≡ 32 → IsExpandedKey set family (expanded_form family key) }
    ensures equal { (set : Parameters) (family : Family) (key : SecretKey) → IsLawful family → length key.s_hat ≡ set.k
        → All (IsPolynomial 3329) key.s_hat → IsEncapsulationKey set key.ek → length key.z ≡ 32
        → IsTrue (same_key (key_of_expanded set (expanded_form family key)) key) }
{}

/// What the lengths of each set are made of: an encapsulation key has 384 bytes a polynomial and 32 more,
/// a ciphertext 32 bytes a bit that is kept, those of u first, and an expanded form the bytes of s, the
/// encapsulation key, its hash and z.
pub fn lengths()
    ensures key { (set : Parameters) → IsSet set → set.ek_size ≡ 384 * set.k + 32 }
    ensures vector { (set : Parameters) → vector_size set ≡ 384 * set.k }
    ensures ciphertext { (set : Parameters) → IsSet set → set.ct_size ≡ 32 * (set.du * set.k + set.dv) }
    ensures u { (set : Parameters) → u_size set ≡ 32 * set.du * set.k }
    ensures expanded { (set : Parameters) → IsSet set → set.dk_size ≡ 384 * set.k + set.ek_size + 32 + 32 }
{}
