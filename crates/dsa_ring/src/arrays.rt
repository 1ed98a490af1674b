//! The transform and its inverse, over arrays (FIPS 204, section 7.5, algorithms 41 and 42).

ghost use Rattle.std.specs.Prelude.{◌≡◌, ◌+◌, ◌*◌, ◌/◌, ◌<◌, ◌≤◌, List, ℕ};
ghost use Rattle.module_lattice.specs.Ring.{IsPolynomial, butterfly, multiple};
ghost use Rattle.dsa_ring.specs.Layers.{butterflies, inverse_butterflies, inverse_butterfly, inverse_layer, layer};
ghost use Rattle.dsa_ring.specs.Transform.{inverse_transform, transform};

use crate::layers::BUTTERFLIES;
use crate::products::product;
use crate::zetas::zeta;
use module_lattice::{Elem, Field8380417, NttPolynomial, Polynomial};

// The coefficients of a polynomial.
const DEGREE: usize = 256;

// 1/256 modulo 8380417.
const INVERSE_OF_256: u32 = 8347681;

/// The transform of a polynomial, in eight layers. It takes no memory.
pub fn dsa_ntt(f: &Polynomial<Field8380417>) -> NttPolynomial<Field8380417>
    ensures { result ≡ transform f.now }
{
    let mut values = f.into_array();
    make_layer(&mut values, 128);
    make_layer(&mut values, 64);
    make_layer(&mut values, 32);
    make_layer(&mut values, 16);
    make_layer(&mut values, 8);
    make_layer(&mut values, 4);
    make_layer(&mut values, 2);
    make_layer(&mut values, 1);
    NttPolynomial::new(values)
}

/// The polynomial whose transform this is: eight layers from the last, and then the factor 8347681. It
/// takes no memory.
pub fn dsa_ntt_inverse(f: &NttPolynomial<Field8380417>) -> Polynomial<Field8380417>
    ensures { result ≡ inverse_transform f.now }
{
    let mut values = numbers(f);
    undo_layer(&mut values, 1);
    undo_layer(&mut values, 2);
    undo_layer(&mut values, 4);
    undo_layer(&mut values, 8);
    undo_layer(&mut values, 16);
    undo_layer(&mut values, 32);
    undo_layer(&mut values, 64);
    undo_layer(&mut values, 128);
    Polynomial::new(scaled(&values))
}

// The numbers of a polynomial in the transform domain.
fn numbers(f: &NttPolynomial<Field8380417>) -> [u32; DEGREE]
    ensures value { result ≡ f.now }
    ensures polynomial { IsPolynomial 8380417 result }
{
    let mut values = [0; DEGREE];
    for i in 0..DEGREE {
        values[i] = f.coefficient(i).get();
    }
    values
}

// The numbers times 1/256.
fn scaled(values: &[u32; DEGREE]) -> [u32; DEGREE]
    requires { IsPolynomial 8380417 values.now }
    ensures value { result ≡ multiple 8380417 8347681 values.now }
    ensures polynomial { IsPolynomial 8380417 result }
{
    let mut out = [0; DEGREE];
    for i in 0..DEGREE {
        out[i] = product(Elem::new(INVERSE_OF_256), Elem::new(values[i])).get();
    }
    out
}

// One layer, whose butterflies join places `half` apart.
fn make_layer(values: &mut [u32; DEGREE], half: usize)
    requires low { 1 ≤ half }
    requires whole { half * (128 / half) ≡ 128 }
    requires polynomial { IsPolynomial 8380417 values.old }
    ensures value { values.new ≡ layer half values.old }
    ensures polynomial { IsPolynomial 8380417 values.new }
{
    for group in 0..BUTTERFLIES / half {
        make_group(values, half, group);
    }
}

// The butterflies of one group of a layer, which turn by one zeta: places that lie side by side join
// places that do, so that several butterflies can be made at once.
#[inline(always)]
fn make_group(values: &mut [u32; DEGREE], half: usize, group: usize)
    requires low { 1 ≤ half }
    requires whole { half * (128 / half) ≡ 128 }
    requires place { group < 128 / half }
    requires polynomial { IsPolynomial 8380417 values.old }
    ensures value { (f : List ℕ) → values.old ≡ butterflies half (half * group) f
        → values.new ≡ butterflies half (half * group + half) f }
    ensures polynomial { IsPolynomial 8380417 values.new }
{
    let first = 2 * (half * group);
    let turn = zeta(BUTTERFLIES / half + group);
    for j in 0..half {
        butterfly(values, first + j, first + j + half, turn);
    }
}

// The layer that undoes it, up to a factor of 2. Its zetas go downwards.
fn undo_layer(values: &mut [u32; DEGREE], half: usize)
    requires low { 1 ≤ half }
    requires whole { half * (128 / half) ≡ 128 }
    requires polynomial { IsPolynomial 8380417 values.old }
    ensures value { values.new ≡ inverse_layer half values.old }
    ensures polynomial { IsPolynomial 8380417 values.new }
{
    for group in 0..BUTTERFLIES / half {
        undo_group(values, half, group);
    }
}

// The butterflies of one of its groups.
#[inline(always)]
fn undo_group(values: &mut [u32; DEGREE], half: usize, group: usize)
    requires low { 1 ≤ half }
    requires whole { half * (128 / half) ≡ 128 }
    requires place { group < 128 / half }
    requires polynomial { IsPolynomial 8380417 values.old }
    ensures value { (f : List ℕ) → values.old ≡ inverse_butterflies half (half * group) f
        → values.new ≡ inverse_butterflies half (half * group + half) f }
    ensures polynomial { IsPolynomial 8380417 values.new }
{
    let first = 2 * (half * group);
    let turn = zeta(2 * (BUTTERFLIES / half) - 1 - group);
    for j in 0..half {
        inverse_butterfly(values, first + j, first + j + half, turn);
    }
}

// a + zeta·b at `i`, and a - zeta·b at `j`.
fn butterfly(values: &mut [u32; DEGREE], i: usize, j: usize, zeta: Elem<Field8380417>)
    requires first { i < 256 }
    requires second { j < 256 }
    requires polynomial { IsPolynomial 8380417 values.old }
    ensures value { values.new ≡ butterfly 8380417 i j zeta values.old }
    ensures polynomial { IsPolynomial 8380417 values.new }
{
    let a = Elem::<Field8380417>::new(values[i]);
    let turned = product(zeta, Elem::new(values[j]));
    values[i] = (a + turned).get();
    values[j] = (a - turned).get();
}

// a + b at `i`, and zeta·(b - a) at `j`.
fn inverse_butterfly(values: &mut [u32; DEGREE], i: usize, j: usize, zeta: Elem<Field8380417>)
    requires first { i < 256 }
    requires second { j < 256 }
    requires polynomial { IsPolynomial 8380417 values.old }
    ensures value { values.new ≡ inverse_butterfly i j zeta values.old }
    ensures polynomial { IsPolynomial 8380417 values.new }
{
    let a = Elem::<Field8380417>::new(values[i]);
    let b = Elem::new(values[j]);
    values[i] = (a + b).get();
    values[j] = product(zeta, b - a).get();
}
