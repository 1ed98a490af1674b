//! What holds of the transform and of its inverse, and of compression.

ghost use Rattle.std.specs.Prelude.{◌≡◌, ◌+◌, ◌*◌, ◌/◌, ◌%◌, ◌^◌, ◌<◌, ◌≤◌, List, ℕ};
ghost use Rattle.module_lattice.specs.Pairs.{pair_products};
ghost use Rattle.module_lattice.specs.Ring.{IsPolynomial, product, sum};
ghost use Rattle.module_lattice.specs.Worked.{worked_f, worked_g, worked_product, transform_of_f, transform_of_g, transform_of_product};
ghost use Rattle.lattice_transform.specs.Layers.{layers, inverse_layers};
ghost use Rattle.lattice_transform.specs.Transform.{transform, inverse_transform};

/// The transform and its inverse undo each other, on all polynomials.
pub fn transforms_undo_each_other()
    ensures inverse { (f : List ℕ) → IsPolynomial 3329 f → inverse_transform (transform f) ≡ f }
    ensures transform { (h : List ℕ) → IsPolynomial 3329 h → transform (inverse_transform h) ≡ h }
{}

/// What the transform and its inverse make are polynomials, lists of 256 numbers below 3329, whatever
/// list they are made of.
pub fn transforms_are_polynomials()
    ensures transform { (f : List ℕ) → IsPolynomial 3329 (transform f) }
    ensures inverse { (h : List ℕ) → IsPolynomial 3329 (inverse_transform h) }
{}

/// The transform of a sum is the sum of the transforms.
pub fn transform_keeps_sums()
    ensures { (f g : List ℕ) → IsPolynomial 3329 f → IsPolynomial 3329 g
        → transform (sum 3329 f g) ≡ sum 3329 (transform f) (transform g) }
{}

/// The transform of a product modulo X^256 + 1 is the products of the pairs of the transforms, and these
/// undo to the product. So the transform is an isomorphism of rings onto 128 factors modulo X^2 - g(i).
pub fn products_are_pair_products()
    ensures transform { (f g : List ℕ) → transform (product 3329 f g) ≡ pair_products (transform f) (transform g) }
    ensures inverse { (f g : List ℕ) → inverse_transform (pair_products (transform f) (transform g)) ≡ product 3329 f g }
{}

/// The transforms of three polynomials are those of an independent model, which undo to them.
pub fn worked_transforms()
    ensures of_f { transform worked_f ≡ transform_of_f }
    ensures of_g { transform worked_g ≡ transform_of_g }
    ensures of_product { transform worked_product ≡ transform_of_product }
    ensures inverse { inverse_transform transform_of_product ≡ worked_product }
{}

/// Seven layers of butterflies make the transform, and seven layers from the last, with the factor
/// 3303, its inverse.
pub fn layers_are_the_transform()
    ensures transform { (f : List ℕ) → IsPolynomial 3329 f → layers f ≡ transform f }
    ensures inverse { (h : List ℕ) → IsPolynomial 3329 h → inverse_layers h ≡ inverse_transform h }
{}

/// Compression to `d` bits (FIPS 203, section 4.2.1) by a multiplier in place of a division: 5160669 is
/// 2^34 over 3329, rounded down.
pub fn compression_by_multiplier()
    ensures multiplier { 5160669 ≡ 2 ^ 34 / 3329 }
    ensures value { (d x : ℕ) → d ≤ 11 → x < 3329
        → (x * 2 ^ d + 1665) * 5160669 / 2 ^ 34 % 2 ^ d ≡ (2 ^ (d + 1) * x + 3329) / (2 * 3329) % 2 ^ d }
{}
