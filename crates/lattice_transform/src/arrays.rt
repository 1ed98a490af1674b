//! The transform and its inverse, over arrays (FIPS 203, section 4.3, algorithms 9 and 10).
//!
//! Numbers are words of 16 bits, 16 rows of 16, so that the compiler makes eight products at once in a
//! register of 16 bytes. Four layers join whole rows. The other three join numbers of one row, so rows and
//! columns change places before them and after them.

ghost use Rattle.std.specs.Prelude.{◌≡◌, ◌+◌, ◌-◌, ◌*◌, ◌/◌, ◌%◌, ◌^◌, ◌<◌, ◌≤◌, List, ℕ};
ghost use Rattle.module_lattice.specs.Ring.{IsPolynomial, butterfly, multiple, times};
ghost use Rattle.lattice_transform.specs.Layers.{inverse_butterfly};
ghost use Rattle.lattice_transform.specs.private.Rows.{AreRows, inverse_row_butterflies, row_butterflies, shuffled, transposed};
ghost use Rattle.lattice_transform.specs.Transform.{inverse_transform, transform};

use crate::zetas::{row_quotient, row_zeta};
use module_lattice::{BaseField, Field, NttPolynomial, Polynomial};

// The coefficients of a polynomial.
const DEGREE: usize = 256;

// The numbers of a row.
const COLUMNS: usize = 16;

// The pairs of rows that a layer joins.
const PAIRS: usize = 8;

// The modulus.
const Q: u16 = BaseField::Q as u16;

// The bits that the quotients of the zetas have after the point.
const QUOTIENT_BITS: usize = 16;

// 1/128 modulo 3329.
const INVERSE_OF_128: u16 = 3303;

// 2^16 times it over 3329, rounded down.
const QUOTIENT_OF_INVERSE: u16 = 65024;

/// The transform of a polynomial, in seven layers. It takes no memory.
pub fn ntt(f: &Polynomial<BaseField>) -> NttPolynomial<BaseField>
    ensures { result ≡ transform f.now }
{
    let mut rows = [0; DEGREE];
    narrow(f, &mut rows);
    make_layer(&mut rows, 8, 0);
    make_layer(&mut rows, 4, 0);
    make_layer(&mut rows, 2, 0);
    make_layer(&mut rows, 1, 0);
    turn_over(&mut rows);
    make_layer(&mut rows, 8, 1);
    make_layer(&mut rows, 4, 1);
    make_layer(&mut rows, 2, 1);
    turn_over(&mut rows);
    NttPolynomial::new(widened(&rows))
}

/// The polynomial whose transform this is: seven layers from the last, and then the factor 3303. It
/// takes no memory.
pub fn ntt_inverse(f: &NttPolynomial<BaseField>) -> Polynomial<BaseField>
    ensures { result ≡ inverse_transform f.now }
{
    let mut rows = [0; DEGREE];
    narrow_transformed(f, &mut rows);
    turn_over(&mut rows);
    undo_layer(&mut rows, 2, 1);
    undo_layer(&mut rows, 4, 1);
    undo_layer(&mut rows, 8, 1);
    turn_over(&mut rows);
    undo_layer(&mut rows, 1, 0);
    undo_layer(&mut rows, 2, 0);
    undo_layer(&mut rows, 4, 0);
    undo_layer(&mut rows, 8, 0);
    scale(&mut rows);
    Polynomial::new(widened(&rows))
}

// The coefficients of a polynomial, in words of 16 bits.
#[inline(always)]
fn narrow(f: &Polynomial<BaseField>, rows: &mut [u16; DEGREE])
    ensures value { rows.new ≡ f.now }
    ensures polynomial { IsPolynomial 3329 rows.new }
{
    for i in 0..DEGREE {
        rows[i] = f.coefficient(i).get() as u16;
    }
}

// The numbers of a polynomial in the transform domain, in words of 16 bits.
#[inline(always)]
fn narrow_transformed(f: &NttPolynomial<BaseField>, rows: &mut [u16; DEGREE])
    ensures value { rows.new ≡ f.now }
    ensures polynomial { IsPolynomial 3329 rows.new }
{
    for i in 0..DEGREE {
        rows[i] = f.coefficient(i).get() as u16;
    }
}

// The same numbers in words of 32 bits.
#[inline(always)]
fn widened(rows: &[u16; DEGREE]) -> [u32; DEGREE]
    ensures { result ≡ rows.now }
{
    let mut out = [0; DEGREE];
    for i in 0..DEGREE {
        out[i] = u32::from(rows[i]);
    }
    out
}

// Makes each number 1/128 of it.
#[inline(always)]
fn scale(rows: &mut [u16; DEGREE])
    ensures { rows.new ≡ multiple 3329 3303 rows.old }
{
    for i in 0..DEGREE {
        rows[i] = turned(INVERSE_OF_128, QUOTIENT_OF_INVERSE, rows[i]);
    }
}

// Rows become columns. Each of four shuffles is a plain loop that becomes lanes, and a loop over rows and
// columns would move numbers one by one.
fn turn_over(rows: &mut [u16; DEGREE])
    ensures { rows.new ≡ transposed rows.old }
{
    let mut other = [0; DEGREE];
    shuffle(rows, &mut other);
    shuffle(&other, rows);
    shuffle(rows, &mut other);
    shuffle(&other, rows);
}

// The two halves by turns.
#[inline(always)]
fn shuffle(from: &[u16; DEGREE], to: &mut [u16; DEGREE])
    ensures { to.new ≡ shuffled from.now }
{
    for k in 0..DEGREE / 2 {
        to[2 * k] = from[k];
        to[2 * k + 1] = from[k + DEGREE / 2];
    }
}

// One layer, whose butterflies join rows `half` apart. Each layer has a copy of its own, so that the
// compiler knows how far apart they are.
#[inline(always)]
fn make_layer(values: &mut [u16; DEGREE], half: usize, step: usize)
    requires rows { AreRows half step }
    requires polynomial { IsPolynomial 3329 values.old }
    ensures value { values.new ≡ row_butterflies half step 128 values.old }
    ensures polynomial { IsPolynomial 3329 values.new }
{
    for row in 0..PAIRS {
        make_row(values, half, step, row);
    }
}

// The butterflies of two rows.
#[inline(always)]
fn make_row(values: &mut [u16; DEGREE], half: usize, step: usize, row: usize)
    requires rows { AreRows half step }
    requires inside { row < 8 }
    requires polynomial { IsPolynomial 3329 values.old }
    ensures value { (f : List ℕ) → values.old ≡ row_butterflies half step (16 * row) f
        → values.new ≡ row_butterflies half step (16 * row + 16) f }
    ensures polynomial { IsPolynomial 3329 values.new }
{
    let first = COLUMNS * (row + half * (row / half));
    let second = first + COLUMNS * half;
    let place = (1 + 15 * step) * (PAIRS / half + row / half);
    for column in 0..COLUMNS {
        let turn = row_zeta(place + step * column);
        let ratio = row_quotient(place + step * column);
        butterfly(values, first + column, second + column, turn, ratio);
    }
}

// The layer that undoes it, up to a factor of 2. Its zetas go downwards.
#[inline(always)]
fn undo_layer(values: &mut [u16; DEGREE], half: usize, step: usize)
    requires rows { AreRows half step }
    requires polynomial { IsPolynomial 3329 values.old }
    ensures value { values.new ≡ inverse_row_butterflies half step 128 values.old }
    ensures polynomial { IsPolynomial 3329 values.new }
{
    for row in 0..PAIRS {
        undo_row(values, half, step, row);
    }
}

// The butterflies of two of its rows.
#[inline(always)]
fn undo_row(values: &mut [u16; DEGREE], half: usize, step: usize, row: usize)
    requires rows { AreRows half step }
    requires inside { row < 8 }
    requires polynomial { IsPolynomial 3329 values.old }
    ensures value { (f : List ℕ) → values.old ≡ inverse_row_butterflies half step (16 * row) f
        → values.new ≡ inverse_row_butterflies half step (16 * row + 16) f }
    ensures polynomial { IsPolynomial 3329 values.new }
{
    let first = COLUMNS * (row + half * (row / half));
    let second = first + COLUMNS * half;
    let place = (1 + 15 * step) * (2 * PAIRS / half - 1 - row / half);
    for column in 0..COLUMNS {
        let turn = row_zeta(place + step * (COLUMNS - 1 - column));
        let ratio = row_quotient(place + step * (COLUMNS - 1 - column));
        inverse_butterfly(values, first + column, second + column, turn, ratio);
    }
}

// a + zeta·b at `i`, and a - zeta·b at `j`.
#[inline(always)]
fn butterfly(values: &mut [u16; DEGREE], i: usize, j: usize, zeta: u16, quotient: u16)
    requires first { i < 256 }
    requires second { j < 256 }
    requires zeta { zeta < 3329 }
    requires quotient { quotient ≡ zeta * 2 ^ 16 / 3329 }
    requires polynomial { IsPolynomial 3329 values.old }
    ensures value { values.new ≡ butterfly 3329 i j zeta values.old }
    ensures polynomial { IsPolynomial 3329 values.new }
{
    let a = values[i];
    let turned = turned(zeta, quotient, values[j]);
    values[i] = reduced(a + turned);
    values[j] = reduced(a + Q - turned);
}

// a + b at `i`, and zeta·(b - a) at `j`.
#[inline(always)]
fn inverse_butterfly(values: &mut [u16; DEGREE], i: usize, j: usize, zeta: u16, quotient: u16)
    requires first { i < 256 }
    requires second { j < 256 }
    requires zeta { zeta < 3329 }
    requires quotient { quotient ≡ zeta * 2 ^ 16 / 3329 }
    requires polynomial { IsPolynomial 3329 values.old }
    ensures value { values.new ≡ inverse_butterfly i j zeta values.old }
    ensures polynomial { IsPolynomial 3329 values.new }
{
    let a = values[i];
    let b = values[j];
    values[i] = reduced(a + b);
    values[j] = turned(zeta, quotient, b + Q - a);
}

// zeta·b, for any b. The quotient that was computed before takes the place of a reduction's: the product
// less the multiple of 3329 is below 2·3329, so it is what is left of both modulo 2^16.
#[inline(always)]
fn turned(zeta: u16, quotient: u16, b: u16) -> u16
    requires zeta { zeta < 3329 }
    requires quotient { quotient ≡ zeta * 2 ^ 16 / 3329 }
    ensures { result ≡ times 3329 zeta b }
{
    let multiple = ((u32::from(quotient) * u32::from(b)) >> QUOTIENT_BITS) as u16;
    let product = zeta.wrapping_mul(b);
    reduced(product.wrapping_sub(multiple.wrapping_mul(Q)))
}

// An x below 2·3329 modulo 3329, by one subtraction at most: of an x below 3329 the difference wraps, and is the greater.
#[inline(always)]
fn reduced(x: u16) -> u16
    requires { x < 6658 }
    ensures { result ≡ x % 3329 }
{
    x.min(x.wrapping_sub(Q))
}
