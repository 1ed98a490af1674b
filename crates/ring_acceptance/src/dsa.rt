// Each call is run once, against answers of an independent model.

ghost use Rattle.std.specs.Prelude.{◌≡◌, ◌≢◌, ◌+◌, ◌<◌};
ghost use Rattle.module_lattice.specs.Ring.{IsPolynomial, butterfly};
ghost use Rattle.dsa_ring.specs.Transform.{transform};

use crate::dsa_model;
use dsa_ring::{
    Gamma2, decompose, dsa_multiply, dsa_ntt, dsa_ntt_counted, dsa_ntt_inverse, high_bits, laws,
    low_bits, make_hint, power2round, use_hint,
};
use module_lattice::{Butterflies, Elem, Field, Field8380417, Polynomial, Steps};
use std::marker::Brand;
use std::process::Abort;
use std::sync::ledger::{Blank, Ledger};

#[test]
fn laws_are_called(_rt: HostRuntime) {
    laws::layers_are_the_transform();
    laws::transforms_undo_each_other();
    laws::transforms_are_polynomials();
    laws::roots_of_unity();
    laws::transform_keeps_sums();
    laws::products_are_place_products();
    laws::parameters();
    laws::parts_make_up_numbers();
    laws::parts_are_bounded();
    laws::hints_recover_high_bits();
}

fn polynomial(rt: &impl Abort, values: [u32; 256]) -> Polynomial<Field8380417> {
    assert!(rt; values.iter().all(|x| *x < 8380417));
    Polynomial::new(values)
}

// X^k.
fn power_of_x(rt: &impl Abort, k: usize) -> Polynomial<Field8380417>
    requires { k < 256 }
{
    let mut values = [0; 256];
    values[k] = 1;
    polynomial(rt, values)
}

// That this is the transform, and that it goes back.
fn is_transformed(rt: &impl Abort, f: Polynomial<Field8380417>, want: [u32; 256]) {
    let transformed = dsa_ntt(&f);
    assert!(rt; dsa_ntt_inverse(&transformed) == f);
    assert!(rt; transformed.into_array() == want);
}

#[test]
fn transforms_of_the_model(rt: HostRuntime) {
    is_transformed(&rt, power_of_x(&rt, 0), [1; 256]);
    is_transformed(&rt, power_of_x(&rt, 1), dsa_model::OF_X);
    is_transformed(&rt, power_of_x(&rt, 255), dsa_model::OF_LAST);
    is_transformed(&rt, polynomial(&rt, [8380416; 256]), dsa_model::OF_GREATEST);
    is_transformed(&rt, polynomial(&rt, dsa_model::F), dsa_model::OF_F);
}

// The product of two polynomials modulo X^256 + 1 and 8380417, by their transforms.
fn multiply(
    f: &Polynomial<Field8380417>,
    g: &Polynomial<Field8380417>,
) -> Polynomial<Field8380417> {
    dsa_ntt_inverse(&dsa_multiply(&dsa_ntt(f), &dsa_ntt(g)))
}

#[test]
fn products_of_the_model(rt: HostRuntime) {
    let wrapped = multiply(&power_of_x(&rt, 255), &power_of_x(&rt, 1)).into_array();
    let mut minus_one = [0; 256];
    minus_one[0] = 8380416;
    assert!(rt; wrapped == minus_one);
    let product = multiply(
        &polynomial(&rt, dsa_model::A),
        &polynomial(&rt, dsa_model::B),
    );
    assert!(rt; product.into_array() == dsa_model::A_TIMES_B);
}

// The transform of a polynomial, counted by a counter that is opened here.
fn counts_from_none<L: Ledger>(values: &mut Polynomial<Field8380417>, blank: Blank)
    requires name { blank.name ≡ L.name }
    requires parts { blank.parts ≡ L.parts }
    requires some { 0 < blank.parts }
    ensures { values.new ≡ transform values.old }
{
    let mut steps = Steps::<L>::new(blank);
    dsa_ntt_counted(values, &mut steps);
}

// Values that note how many butterflies changed them.
#[derive(Drop)]
struct Noted<F: Field> {
    polynomial: Polynomial<F>,
    noted: u32,
}

impl<F: Field, L: Ledger> Butterflies<F, L> for Noted<F> {
    ghost values = { λ v. v.polynomial };

    fn butterfly(&mut self, i: usize, j: usize, zeta: Elem<F>, steps: &mut Steps<L>)
        requires first { i < 256 }
        requires second { j < 256 }
        requires apart { i ≢ j }
        ensures changed { self.new.polynomial ≡ butterfly F.Q i j zeta self.old.polynomial }
        ensures before { IsPolynomial F.Q self.old.polynomial }
        ensures after { IsPolynomial F.Q self.new.polynomial }
        ensures counted { steps.new ≡ steps.old + 1 }
    {
        self.polynomial.butterfly(i, j, zeta, steps);
        self.noted = self.noted.wrapping_add(1);
    }
}

// The same of these values.
fn notes_from_none<L: Ledger>(values: &mut Noted<Field8380417>, blank: Blank)
    requires name { blank.name ≡ L.name }
    requires parts { blank.parts ≡ L.parts }
    requires some { 0 < blank.parts }
    ensures { values.new.polynomial ≡ transform values.old.polynomial }
{
    let mut steps = Steps::<L>::new(blank);
    dsa_ntt_counted(values, &mut steps);
}

#[test]
fn x_is_transformed_in_1024_steps(rt: HostRuntime) {
    let mut f = power_of_x(&rt, 1);
    counts_from_none::<Brand>(&mut f, Blank::new(1));
    assert!(rt; f.into_array() == dsa_model::OF_X);

    let mut values = Noted {
        polynomial: power_of_x(&rt, 1),
        noted: 0,
    };
    notes_from_none::<Brand>(&mut values, Blank::new(1));
    assert!(rt; values.polynomial.into_array() == dsa_model::OF_X);
    assert!(rt; values.noted == 1024);
}

#[test]
fn parameters_of_the_standard(rt: HostRuntime) {
    assert!(rt; Gamma2::Q88.value() == 95232 && Gamma2::Q88.high_count() == 44);
    assert!(rt; Gamma2::Q32.value() == 261888 && Gamma2::Q32.high_count() == 16);
}

// Whether a number is rounded to these parts.
fn is_rounded(r: u32, want: (u32, i32)) -> bool {
    if r >= 8380417 {
        return false;
    }
    let (high, low) = power2round(r);
    high == want.0 && low == want.1
}

// Whether a number has these parts, together and one by one.
fn has_parts(gamma: Gamma2, r: u32, want: (u32, i32)) -> bool {
    if r >= 8380417 {
        return false;
    }
    let (high, low) = decompose(r, gamma);
    let is_same = high_bits(r, gamma) == high && low_bits(r, gamma) == low;
    is_same && high == want.0 && low == want.1
}

#[test]
fn parts_of_the_model(rt: HostRuntime) {
    for (r, want) in dsa_model::ROUNDED {
        assert!(rt; is_rounded(r, want), "at {r}");
    }
    for (r, want) in dsa_model::PARTS_88 {
        assert!(rt; has_parts(Gamma2::Q88, r, want), "at {r}");
    }
    for (r, want) in dsa_model::PARTS_32 {
        assert!(rt; has_parts(Gamma2::Q32, r, want), "at {r}");
    }
}

// r, z, the hint, UseHint with it and with the other one.
type HintCase = (u32, i32, bool, u32, u32);

// Whether a case has its hint, and it and the other one give its numbers.
fn has_hint(gamma: Gamma2, case: HintCase) -> bool {
    let (r, z, hint, with, other) = case;
    if r >= 8380417 || z < -4190208 || 4190208 < z {
        return false;
    }
    make_hint(z, r, gamma) == hint
        && use_hint(hint, r, gamma) == with
        && use_hint(!hint, r, gamma) == other
}

#[test]
fn hints_of_the_model(rt: HostRuntime) {
    for case in dsa_model::HINTS_88 {
        assert!(rt; has_hint(Gamma2::Q88, case), "at {} and {}", case.0, case.1);
    }
    for case in dsa_model::HINTS_32 {
        assert!(rt; has_hint(Gamma2::Q32, case), "at {} and {}", case.0, case.1);
    }
}
