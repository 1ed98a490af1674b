//! Products of numbers, and in the transform domain.

ghost use Rattle.std.specs.Prelude.{◌≡◌};
ghost use Rattle.module_lattice.specs.Ring.{times};
ghost use Rattle.dsa_ring.specs.Transform.{place_products};

use module_lattice::{Elem, Field, Field8380417, NttPolynomial};

// 2^54 / 8380417, rounded down.
const MULTIPLIER: u64 = 2149582593;

/// a·b modulo 8380417.
///
/// The quotient, which is exact or one less, is made of the upper 32 bits of the product, so that each
/// multiplication takes 32 bits and a compiler can make several at once.
#[inline(always)]
pub(crate) fn product(a: Elem<Field8380417>, b: Elem<Field8380417>) -> Elem<Field8380417>
    ensures { result ≡ times 8380417 a b }
{
    let x = u64::from(a.get()) * u64::from(b.get());
    let upper = (x >> 14) as u32;
    let quotient = (u64::from(upper) * MULTIPLIER) >> 40;
    let remainder = (x - quotient * Field8380417::QL) as u32;
    Elem::new(Field8380417::small_reduce(remainder))
}

/// The product in the transform domain, place by place: MultiplyNTT (FIPS 204, section 7.6, algorithm
/// 45). It takes no memory.
pub fn dsa_multiply(
    a: &NttPolynomial<Field8380417>,
    b: &NttPolynomial<Field8380417>,
) -> NttPolynomial<Field8380417>
    ensures { result ≡ place_products a.now b.now }
{
    let mut values = [0; 256];
    for i in 0..256 {
        values[i] = product(a.coefficient(i), b.coefficient(i)).get();
    }
    NttPolynomial::new(values)
}
