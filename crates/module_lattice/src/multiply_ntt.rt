//! Products in the transform domain.

ghost use Rattle.std.specs.Prelude.{◌≡◌, ◌+◌, ◌*◌, ◌%◌, ◌<◌, ℕ, List, All, length};
ghost use Rattle.module_lattice.specs.Ring.{IsPolynomial};
ghost use Rattle.module_lattice.specs.Pairs.{gamma, pair_product};
ghost use Rattle.module_lattice.specs.Vectors.{dot_product};

use crate::coefficients::DEGREE;
use crate::elem::Elem;
use crate::field::{BaseField, Field};
use crate::ntt_polynomial::NttPolynomial;
use crate::product_sums::ProductSums;
use std::ops::Mul;

/// How many pairs a polynomial has.
pub(crate) const PAIRS: usize = DEGREE / 2;

// g(i) = 17^(2·BitRev7(i) + 1) modulo 3329, at place i.
const GAMMAS: [u32; PAIRS] = [
    17, 3312, 2761, 568, 583, 2746, 2649, 680, 1637, 1692, 723, 2606, 2288, 1041, 1100, 2229, 1409,
    1920, 2662, 667, 3281, 48, 233, 3096, 756, 2573, 2156, 1173, 3015, 314, 3050, 279, 1703, 1626,
    1651, 1678, 2789, 540, 1789, 1540, 1847, 1482, 952, 2377, 1461, 1868, 2687, 642, 939, 2390,
    2308, 1021, 2437, 892, 2388, 941, 733, 2596, 2337, 992, 268, 3061, 641, 2688, 1584, 1745, 2298,
    1031, 2037, 1292, 3220, 109, 375, 2954, 2549, 780, 2090, 1239, 1645, 1684, 1063, 2266, 319,
    3010, 2773, 556, 757, 2572, 2099, 1230, 561, 2768, 2466, 863, 2594, 735, 2804, 525, 1092, 2237,
    403, 2926, 1026, 2303, 1143, 2186, 2150, 1179, 2775, 554, 886, 2443, 1722, 1607, 1212, 2117,
    1874, 1455, 1029, 2300, 2110, 1219, 2935, 394, 885, 2444, 2154, 1175,
];

/// Fields with a multiplication in the transform domain.
pub trait MultiplyNtt: Field {
    // The product of two lists of 256 numbers below Q.
    ghost product_of: { List ℕ → List ℕ → List ℕ };

    /// The product of two polynomials.
    fn multiply_ntt(lhs: &NttPolynomial<Self>, rhs: &NttPolynomial<Self>) -> NttPolynomial<Self>
        ensures { result ≡ product_of lhs.now rhs.now };

    /// The sum of the products, item by item, of two lists of one length: zero for length 0.
    fn dot(lhs: &[NttPolynomial<Self>], rhs: &[NttPolynomial<Self>]) -> NttPolynomial<Self>
        requires { length rhs.now ≡ length lhs.now }
        ensures { result ≡ dot_product Self.Q product_of lhs.now rhs.now }
    {
        let mut sum = NttPolynomial::default();
        for i in 0..lhs.len() {
            sum.add_assign(&Self::multiply_ntt(&lhs[i], &rhs[i]));
        }
        sum
    }

    ghost product_is: { (f g : List ℕ) → IsPolynomial Self.Q f → IsPolynomial Self.Q g → IsPolynomial Self.Q (product_of f g) };
}

/// The products of the 128 pairs (FIPS 203, section 4.3.1).
impl MultiplyNtt for BaseField {
    ghost use Rattle.module_lattice.specs.Pairs.{pair_products};

    ghost product_of = { pair_products };

    ghost use Rattle.module_lattice.specs.private.PairLaws.{IsPolynomial-pair_products};

    ghost product_is = { IsPolynomial-pair_products };

    fn multiply_ntt(
        lhs: &NttPolynomial<BaseField>,
        rhs: &NttPolynomial<BaseField>,
    ) -> NttPolynomial<BaseField> {
        let mut out = [0; DEGREE];
        for i in 0..PAIRS {
            let pair = pair_product(lhs, rhs, i);
            out[2 * i] = pair[0];
            out[2 * i + 1] = pair[1];
        }
        NttPolynomial::new(out)
    }

    fn dot(
        lhs: &[NttPolynomial<BaseField>],
        rhs: &[NttPolynomial<BaseField>],
    ) -> NttPolynomial<BaseField> {
        let mut sums = ProductSums::default();
        for i in 0..rhs.len() {
            sums.add_product(&lhs[i], &rhs[i]);
        }
        sums.reduce()
    }
}

impl<F: MultiplyNtt> Mul<&NttPolynomial<F>> for &NttPolynomial<F> {
    type Output = NttPolynomial<F>;

    ghost mul_gives = { λ a b r. r ≡ F.product_of a.now b.now };

    fn mul(self, rhs: &NttPolynomial<F>) -> NttPolynomial<F> {
        F::multiply_ntt(self, rhs)
    }
}

// The two numbers of pair `i` of the product, for an `i` below 128.
fn pair_product(
    lhs: &NttPolynomial<BaseField>,
    rhs: &NttPolynomial<BaseField>,
    i: usize,
) -> [u32; 2]
    requires { i < 128 }
    ensures value { result ≡ pair_product lhs.now rhs.now i }
    ensures within { All (λ x. x < 3329) result }
{
    let (a0, a1) = (lhs.coefficient(2 * i), lhs.coefficient(2 * i + 1));
    let (b0, b1) = (rhs.coefficient(2 * i), rhs.coefficient(2 * i + 1));
    let constant = sum_of_products(a0, b0, a1 * b1, gamma(i));
    let linear = sum_of_products(a0, b1, a1, b0);
    [constant.get(), linear.get()]
}

// a·b + c·d, which is reduced once.
fn sum_of_products(
    a: Elem<BaseField>,
    b: Elem<BaseField>,
    c: Elem<BaseField>,
    d: Elem<BaseField>,
) -> Elem<BaseField>
    ensures { result ≡ (a * b + c * d) % 3329 }
{
    let first = a.get() * b.get();
    let second = c.get() * d.get();
    Elem::new(BaseField::barrett_reduce(u64::from(first + second)))
}

/// g(i): the product of pair `i` is modulo X^2 - g(i).
pub(crate) fn gamma(i: usize) -> Elem<BaseField>
    requires { i < 128 }
    ensures { result ≡ gamma i }
{
    Elem::new(GAMMAS[i])
}
