//! What holds of the fields, of elements, of products and of packed numbers.

ghost use Rattle.std.specs.Prelude.{◌≡◌, ◌+◌, ◌-◌, ◌*◌, ◌/◌, ◌%◌, ◌^◌, ◌<◌, ◌≤◌, ◌++◌, ℕ, All, List, length, map, take, drop, slice_index};
ghost use Rattle.std.specs.Int.{bit_at};
ghost use Rattle.std.specs.List.{flat_map};
ghost use Rattle.module_lattice.specs.Bits.{byte_bit};
ghost use Rattle.module_lattice.specs.Groups.{decode12, decoded_each, groups, ungroup};
ghost use Rattle.module_lattice.specs.Pairs.{pair_products};
ghost use Rattle.module_lattice.specs.Ring.{IsPolynomial, plus, minus, negated, times, power_of_x, product};
ghost use Rattle.module_lattice.specs.Worked.{worked_f, worked_g, worked_product, transform_of_f, transform_of_g, transform_of_product};

use crate::elem::Elem;
use crate::field::{BaseField, Field, Field8380417};

/// The moduli are those of the standards (FIPS 203, section 2.3: 2^8·13 + 1; FIPS 204, section 2.3:
/// 2^23 - 2^13 + 1). Each multiplier of a reduction is 2 to the shift over the modulus, rounded down,
/// and each limit is 2·(Q - 1)^2.
pub fn moduli()
    ensures base_modulus { ⟦<BaseField as Field>⟧.Q ≡ 3329 }
    ensures base_shift { ⟦<BaseField as Field>⟧.BARRETT_SHIFT ≡ 24 }
    ensures base_multiplier { ⟦<BaseField as Field>⟧.BARRETT_MULTIPLIER ≡ 2 ^ 24 / 3329 }
    ensures base_limit { ⟦<BaseField as Field>⟧.BARRETT_LIMIT ≡ 2 * 3328 ^ 2 }
    ensures modulus { ⟦<Field8380417 as Field>⟧.Q ≡ 8380417 }
    ensures shift { ⟦<Field8380417 as Field>⟧.BARRETT_SHIFT ≡ 46 }
    ensures multiplier { ⟦<Field8380417 as Field>⟧.BARRETT_MULTIPLIER ≡ 2 ^ 46 / 8380417 }
    ensures limit { ⟦<Field8380417 as Field>⟧.BARRETT_LIMIT ≡ 2 * 8380416 ^ 2 }
{}

/// Addition and multiplication of elements commute and associate, and multiplication distributes
/// over addition.
pub fn elements_are_a_ring<F: Field>(a: Elem<F>, b: Elem<F>, c: Elem<F>)
    ensures plus_commutes { plus F.Q a b ≡ plus F.Q b a }
    ensures plus_associates { plus F.Q (plus F.Q a b) c ≡ plus F.Q a (plus F.Q b c) }
    ensures times_commutes { times F.Q a b ≡ times F.Q b a }
    ensures times_associates { times F.Q (times F.Q a b) c ≡ times F.Q a (times F.Q b c) }
    ensures times_distributes { times F.Q a (plus F.Q b c) ≡ plus F.Q (times F.Q a b) (times F.Q a c) }
{}

/// Zero and one are neutral, and subtraction undoes addition.
pub fn elements_have_zero_and_one<F: Field>(a: Elem<F>, b: Elem<F>)
    ensures zero { plus F.Q a 0 ≡ a }
    ensures one { times F.Q a 1 ≡ a }
    ensures minus_itself { minus F.Q a a ≡ 0 }
    ensures minus_undoes_plus { minus F.Q (plus F.Q a b) b ≡ a }
    ensures minus_is_plus_negated { minus F.Q a b ≡ plus F.Q a (negated F.Q b) }
{
    let _ = a.get();
    let _ = b.get();
}

/// A product by X^k, for a k below 256, turns the coefficients by k places, and those that pass the
/// end change their sign, since X^256 is -1 (FIPS 203, section 2.3).
pub fn powers_of_x()
    ensures { (q k : ℕ) (f : List ℕ) → IsPolynomial q f → k < 256
        → product q f (power_of_x k) ≡ map (negated q) (drop (256 - k) f) ++ take (256 - k) f }
{}

/// The product of two polynomials modulo X^256 + 1, and that of their transforms, are those of an
/// independent model.
pub fn worked_products()
    ensures product { product 3329 worked_f worked_g ≡ worked_product }
    ensures pairs { pair_products transform_of_f transform_of_g ≡ transform_of_product }
{}

/// Bit d·i + j of packed bytes is bit j of number i, where the numbers make whole bytes (FIPS 203,
/// section 4.2.1).
pub fn packed_bits()
    ensures groups { (d : ℕ) (values : List ℕ) (i j : ℕ) → d * length values % 8 ≡ 0
        → i < length values → j < d
        → byte_bit (groups d values) (d * i + j) ≡ bit_at (slice_index values i) j }
    ensures ungroup { (d : ℕ) (bytes : List ℕ) (i j : ℕ) → 1 ≤ d → 8 * length bytes % d ≡ 0
        → i < length (ungroup d bytes) → j < d
        → bit_at (slice_index (ungroup d bytes) i) j ≡ byte_bit bytes (d * i + j) }
{}

/// Packing and unpacking keep how many bits there are, and make bytes and numbers of `d` bits.
pub fn packed_sizes()
    ensures groups { (d : ℕ) (values : List ℕ) → d * length values % 8 ≡ 0
        → 8 * length (groups d values) ≡ d * length values }
    ensures bytes { (d : ℕ) (values : List ℕ) → All (λ x. x < 2 ^ 8) (groups d values) }
    ensures ungroup { (d : ℕ) (bytes : List ℕ) → 1 ≤ d → 8 * length bytes % d ≡ 0
        → d * length (ungroup d bytes) ≡ 8 * length bytes }
    ensures numbers { (d : ℕ) (bytes : List ℕ) → All (λ x. x < 2 ^ d) (ungroup d bytes) }
{}

/// Numbers that make whole bytes are what their bytes unpack to, at 12 bits too if they are below q.
pub fn unpacks_what_was_packed()
    ensures ungroup { (d : ℕ) (values : List ℕ) → 1 ≤ d → d * length values % 8 ≡ 0
        → All (λ x. x < 2 ^ d) values → ungroup d (groups d values) ≡ values }
    ensures decode12 { (q : ℕ) (values : List ℕ) → 12 * length values % 8 ≡ 0
        → All (λ x. x < 2 ^ 12) values → All (λ x. x < q) values
        → decode12 q (groups 12 values) ≡ values }
{}

/// Bytes that make whole numbers are what their numbers pack to.
pub fn packs_what_was_unpacked()
    ensures { (d : ℕ) (bytes : List ℕ) → 1 ≤ d → 8 * length bytes % d ≡ 0
        → All (λ x. x < 2 ^ 8) bytes → groups d (ungroup d bytes) ≡ bytes }
{}

/// Polynomials that were written one after another, `d` bits for each coefficient, are read back.
pub fn decodes_what_was_encoded()
    ensures { (q d : ℕ) (fs : List (List ℕ)) → 1 ≤ d → All (IsPolynomial q) fs
        → All (λ f. All (λ x. x < 2 ^ d) f) fs
        → decoded_each q d (length fs) (flat_map (groups d) fs) ≡ fs }
{}
