//! What holds of the transform, of its inverse, and of hints.

ghost use Rattle.std.specs.Prelude.{◌≡◌, ◌+◌, ◌-◌, ◌*◌, ◌/◌, ◌%◌, ◌^◌, ◌<◌, ◌≤◌, ◌⊎◌, ◌+ℤ◌, ◌≤ℤ◌, Bool, List, ℕ, ℤ, negsuc, pos, unsigned_abs};
ghost use Rattle.module_lattice.specs.Ring.{IsPolynomial, product, sum};
ghost use Rattle.dsa_ring.specs.declared.rounding.Gamma2.{Gamma2};
ghost use Rattle.dsa_ring.specs.Layers.{layers, inverse_layers};
ghost use Rattle.dsa_ring.specs.Rounding.{gamma2, high_bits, high_count, low_bits, make_hint, plus_signed, power2round_high, power2round_low, use_hint};
ghost use Rattle.dsa_ring.specs.Transform.{inverse_transform, place_products, root, transform};

/// Eight layers of butterflies make the transform, and eight layers from the last, with the factor
/// 8347681, its inverse.
pub fn layers_are_the_transform()
    ensures transform { (f : List ℕ) → IsPolynomial 8380417 f → layers f ≡ transform f }
    ensures inverse { (h : List ℕ) → IsPolynomial 8380417 h → inverse_layers h ≡ inverse_transform h }
{}

/// The transform and its inverse undo each other, on all polynomials.
pub fn transforms_undo_each_other()
    ensures inverse { (f : List ℕ) → IsPolynomial 8380417 f → inverse_transform (transform f) ≡ f }
    ensures transform { (h : List ℕ) → IsPolynomial 8380417 h → transform (inverse_transform h) ≡ h }
{}

/// The transform and its inverse give 256 numbers below q, whatever they are given.
pub fn transforms_are_polynomials()
    ensures transform { (f : List ℕ) → IsPolynomial 8380417 (transform f) }
    ensures inverse { (h : List ℕ) → IsPolynomial 8380417 (inverse_transform h) }
{}

/// The transform takes a polynomial at the roots h(0) to h(255) of X^256 + 1, which all differ. They are
/// powers of 1753, a primitive 512th root of 1, since its 256th power is q - 1 (FIPS 204, section 2.5).
/// 8347681 is 1/256 (section 7.5, algorithm 42).
pub fn roots_of_unity()
    ensures primitive { 1753 ^ 256 % 8380417 ≡ 8380416 }
    ensures roots { (i : ℕ) → i < 256 → root i ^ 256 % 8380417 ≡ 8380416 }
    ensures differ { (i k : ℕ) → i < 256 → k < 256 → root i ≡ root k → i ≡ k }
    ensures factor { 8347681 * 256 % 8380417 ≡ 1 }
{}

/// The transform of a sum is the sum of the transforms.
pub fn transform_keeps_sums()
    ensures { (f g : List ℕ) → IsPolynomial 8380417 f → IsPolynomial 8380417 g
        → transform (sum 8380417 f g) ≡ sum 8380417 (transform f) (transform g) }
{}

/// The transform of a product modulo X^256 + 1 is the products of the transforms place by place, and
/// these undo to the product. So the transform is an isomorphism of rings.
pub fn products_are_place_products()
    ensures transform { (f g : List ℕ) → transform (product 8380417 f g) ≡ place_products (transform f) (transform g) }
    ensures inverse { (f g : List ℕ) → inverse_transform (place_products (transform f) (transform g)) ≡ product 8380417 f g }
{}

/// gamma2 is (q - 1)/88 or (q - 1)/32, and its high parts are (q - 1)/(2·gamma2) (FIPS 204, section 4).
pub fn parameters()
    ensures q88 { gamma2 Gamma2.Q88 ≡ (8380417 - 1) / 88 }
    ensures q32 { gamma2 Gamma2.Q32 ≡ (8380417 - 1) / 32 }
    ensures counts { (gamma : Gamma2) → high_count gamma ≡ (8380417 - 1) / (2 * gamma2 gamma) }
{}

/// Power2Round and Decompose split a number into parts that make it up again. Where the low part of
/// Decompose was made one less, they make it up modulo q (FIPS 204, section 7.4).
pub fn parts_make_up_numbers()
    ensures power2round { (r : ℕ) → pos r ≡ pos (power2round_high r * 2 ^ 13) +ℤ power2round_low r }
    ensures decompose { (gamma : Gamma2) (r : ℕ) → r < 8380417
        → (pos r ≡ pos (high_bits gamma r * (2 * gamma2 gamma)) +ℤ low_bits gamma r)
        ⊎ ((high_bits gamma r ≡ 0) × (pos r ≡ pos 8380417 +ℤ low_bits gamma r)) }
{}

/// How large parts are: those of Power2Round have 10 bits and, as 2^12 less the low part, 13; high
/// parts of Decompose are below their number, also after a hint, and low parts are of magnitude at most
/// gamma2.
pub fn parts_are_bounded()
    ensures power2round_high { (r : ℕ) → r < 8380417 → power2round_high r < 2 ^ 10 }
    ensures power2round_low { (r : ℕ) → (negsuc 4094 ≤ℤ power2round_low r) × (power2round_low r ≤ℤ pos 4096) }
    ensures high { (gamma : Gamma2) (r : ℕ) → r < 8380417 → high_bits gamma r < high_count gamma }
    ensures low { (gamma : Gamma2) (r : ℕ) → r < 8380417 → unsigned_abs (low_bits gamma r) ≤ gamma2 gamma }
    ensures hinted { (gamma : Gamma2) (hint : Bool) (r : ℕ) → r < 8380417 → use_hint gamma hint r < high_count gamma }
{}

/// A hint recovers the high part of r + z from r alone, where z is of magnitude at most gamma2 (FIPS
/// 204, section 7.4).
pub fn hints_recover_high_bits()
    ensures { (gamma : Gamma2) (r : ℕ) (z : ℤ) → r < 8380417 → unsigned_abs z ≤ gamma2 gamma
        → use_hint gamma (make_hint gamma z r) r ≡ high_bits gamma (plus_signed r z) }
{}
