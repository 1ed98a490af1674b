//! Lists of 256 numbers below Q, which hold polynomials.

ghost use Rattle.std.specs.Prelude.{◌≡◌, ◌<◌, List, All};
ghost use Rattle.std.specs.Bool.{IsTrue};
ghost use Rattle.module_lattice.specs.Ring.{IsPolynomial, sum, difference, negation, multiple};

use crate::elem::Elem;
use crate::field::Field;

/// How many coefficients a polynomial has.
pub(crate) const DEGREE: usize = 256;

/// The sums, place by place.
pub(crate) fn add<F: Field>(f: &[u32; DEGREE], g: &[u32; DEGREE]) -> [u32; DEGREE]
    requires first { IsPolynomial F.Q f.now }
    requires second { IsPolynomial F.Q g.now }
    ensures value { result ≡ sum F.Q f.now g.now }
    ensures within { IsPolynomial F.Q result }
{
    let mut out = [0; DEGREE];
    for i in 0..DEGREE {
        out[i] = (Elem::<F>::new(f[i]) + Elem::new(g[i])).get();
    }
    out
}

/// Adds the numbers of `g` to those of `f` in their place.
pub(crate) fn add_to<F: Field>(f: &mut [u32; DEGREE], g: &[u32; DEGREE])
    requires first { IsPolynomial F.Q f.old }
    requires second { IsPolynomial F.Q g.now }
    ensures value { f.new ≡ sum F.Q f.old g.now }
    ensures within { IsPolynomial F.Q f.new }
{
    for i in 0..DEGREE {
        f[i] = (Elem::<F>::new(f[i]) + Elem::new(g[i])).get();
    }
}

/// The differences, place by place.
pub(crate) fn sub<F: Field>(f: &[u32; DEGREE], g: &[u32; DEGREE]) -> [u32; DEGREE]
    requires first { IsPolynomial F.Q f.now }
    requires second { IsPolynomial F.Q g.now }
    ensures value { result ≡ difference F.Q f.now g.now }
    ensures within { IsPolynomial F.Q result }
{
    let mut out = [0; DEGREE];
    for i in 0..DEGREE {
        out[i] = (Elem::<F>::new(f[i]) - Elem::new(g[i])).get();
    }
    out
}

/// The numbers with the sign changed.
pub(crate) fn neg<F: Field>(f: &[u32; DEGREE]) -> [u32; DEGREE]
    requires { IsPolynomial F.Q f.now }
    ensures value { result ≡ negation F.Q f.now }
    ensures within { IsPolynomial F.Q result }
{
    let mut out = [0; DEGREE];
    for i in 0..DEGREE {
        out[i] = (-Elem::<F>::new(f[i])).get();
    }
    out
}

/// The numbers times `by`.
pub(crate) fn scale<F: Field>(by: Elem<F>, f: &[u32; DEGREE]) -> [u32; DEGREE]
    requires { IsPolynomial F.Q f.now }
    ensures value { result ≡ multiple F.Q by f.now }
    ensures within { IsPolynomial F.Q result }
{
    let mut out = [0; DEGREE];
    for i in 0..DEGREE {
        out[i] = (by * Elem::new(f[i])).get();
    }
    out
}
