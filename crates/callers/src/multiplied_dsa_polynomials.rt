//! A caller of `dsa_ring`.

ghost use Rattle.std.specs.Prelude.{◌≡◌};
ghost use Rattle.module_lattice.specs.Ring.{product};

use dsa_ring::{dsa_multiply, dsa_ntt, dsa_ntt_inverse, laws};
use module_lattice::{Field8380417, Polynomial};

/// The product of two polynomials modulo X^256 + 1 and 8380417, by their transforms.
pub fn multiply(
    f: &Polynomial<Field8380417>,
    g: &Polynomial<Field8380417>,
) -> Polynomial<Field8380417>
    ensures { result ≡ product 8380417 f.now g.now }
{
    laws::products_are_place_products();
    dsa_ntt_inverse(&dsa_multiply(&dsa_ntt(f), &dsa_ntt(g)))
}
