//! Products in the transform domain, a butterfly, low bits and a box.

ghost use Rattle.std.specs.Prelude.{◌≡◌, ◌+◌, ◌<◌};
ghost use Rattle.module_lattice.specs.Ring.{butterfly};

use crate::polynomials::pairs;
use module_lattice::{
    BaseField, Butterflies, Elem, Field, MaybeBox, MultiplyNtt, NttPolynomial, Polynomial,
    ProductSums, Steps, Truncate,
};
use std::marker::Brand;
use std::sync::ledger::{Blank, Ledger};
use std::test::Fail;

// A product through its bound.
fn product<F: MultiplyNtt>(a: &NttPolynomial<F>, b: &NttPolynomial<F>) -> NttPolynomial<F> {
    F::multiply_ntt(a, b)
}

#[test]
fn products_of_constants(rt: HostRuntime) {
    assert!(rt; product(&pairs(3328, 0), &pairs(3328, 0)) == pairs(1, 0));
    assert!(rt; &pairs(2, 0) * &pairs(3, 4) == pairs(6, 8));
}

// X·X is g(i) on pair i. The last one, 17^255, is the inverse of 17.
#[test]
fn square_of_x(rt: HostRuntime) {
    let square = &pairs(0, 1) * &pairs(0, 1);
    assert!(rt; square.coefficient(0).get() == 17 && square.coefficient(1).get() == 0);
    assert!(rt; square.coefficient(2).get() == 3312 && square.coefficient(254).get() == 1175);
}

// (-1 - X)^2 is 1 + g(i) + 2·X on pair i. So many of them pass 2^19·3329 in each sum.
#[test]
fn sums_of_many_products(rt: HostRuntime) {
    let f = pairs(3328, 3328);
    let mut sums = ProductSums::default();
    for _ in 0..200 {
        sums.add_product(&f, &f);
    }
    let sum = sums.reduce();
    assert!(rt; sum.coefficient(0).get() == 271 && sum.coefficient(1).get() == 400);
    assert!(rt; sum.coefficient(254).get() == 2170 && sum.coefficient(255).get() == 400);
}

// A butterfly at 0 and 128 of any values, counted by the counter that is handed in.
fn first_step<F: Field, L: Ledger, B: Butterflies<F, L>>(
    values: &mut B,
    zeta: Elem<F>,
    steps: &mut Steps<L>,
)
    ensures value { B.values values.new ≡ butterfly F.Q 0 128 zeta (B.values values.old) }
    ensures counted { steps.new ≡ steps.old + 1 }
{
    values.butterfly(0, 128, zeta, steps);
}

// The same of a polynomial, with a counter that is opened here.
fn counted_step<L: Ledger>(values: &mut Polynomial<BaseField>, zeta: Elem<BaseField>, blank: Blank)
    requires name { blank.name ≡ L.name }
    requires parts { blank.parts ≡ L.parts }
    requires some { 0 < blank.parts }
{
    let mut steps = Steps::<L>::new(blank);
    first_step(values, zeta, &mut steps);
}

// The polynomial of zeros but for a 1 at place 128.
fn x_to_128() -> Polynomial<BaseField> {
    let mut coefficients = [0; 256];
    coefficients[128] = 1;
    Polynomial::new(coefficients)
}

// With 17^64, at that polynomial.
#[test]
fn one_butterfly(rt: HostRuntime) {
    let mut f = x_to_128();
    counted_step::<Brand>(&mut f, Elem::new(1729), Blank::new(1));
    assert!(rt; f.coefficient(0).get() == 1729 && f.coefficient(128).get() == 1600);
}

#[test]
fn low_bits(rt: HostRuntime) {
    let bytes = [u8::truncate(0x1234_u128), u8::truncate(0x1234_usize)];
    assert!(rt; bytes == [0x34; 2]);
    let halves = [u16::truncate(0x12_3456_u32), u16::truncate(0x12_3456_u64)];
    assert!(rt; halves == [0x3456; 2]);
    let halves = [
        u16::truncate(0x12_3456_u128),
        u16::truncate(0x12_3456_usize),
    ];
    assert!(rt; halves == [0x3456; 2]);
    let words = [
        u32::truncate(0x12_3456_789a_u64),
        u32::truncate(0x12_3456_789a_u128),
    ];
    assert!(rt; words == [0x3456_789a; 2]);
}

#[test]
fn boxes(rt: HostRuntime) -> Result<(), Fail> {
    let mut b = MaybeBox::new(rt.alloc(), 7)?;
    *b = 8;
    let copy = b.clone()?;
    assert!(rt; *copy == 8 && copy == b);
    assert!(rt; b.into_inner() == 8);
    Ok(())
}
