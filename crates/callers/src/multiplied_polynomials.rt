//! A caller of `lattice_transform`.

ghost use Rattle.std.specs.Prelude.{◌≡◌};
ghost use Rattle.module_lattice.specs.Ring.{product};

use lattice_transform::{laws, ntt, ntt_inverse};
use module_lattice::{BaseField, Polynomial};

/// The product of two polynomials modulo X^256 + 1 and 3329, by their transforms.
pub fn multiply(f: &Polynomial<BaseField>, g: &Polynomial<BaseField>) -> Polynomial<BaseField>
    ensures { result ≡ product 3329 f.now g.now }
{
    laws::products_are_pair_products();
    ntt_inverse(&(&ntt(f) * &ntt(g)))
}
