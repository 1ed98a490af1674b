//! Each law is called once, and each transform is run on X.

ghost use Rattle.std.specs.Prelude.{◌≡◌, ◌<◌, [], ◌∷◌};
ghost use Rattle.std.specs.List.{flat_map, range_with_len};
ghost use Rattle.module_lattice.specs.Ring.{power_of_x};

use lattice_transform::{laws, ntt, ntt_counted, ntt_inverse};
use module_lattice::{BaseField, Polynomial, Steps};
use std::marker::Brand;
use std::process::Abort;
use std::sync::ledger::{Blank, Ledger};

#[test]
fn laws_are_called(_rt: HostRuntime) {
    laws::transforms_undo_each_other();
    laws::transforms_are_polynomials();
    laws::transform_keeps_sums();
    laws::products_are_pair_products();
    laws::worked_transforms();
    laws::layers_are_the_transform();
    laws::compression_by_multiplier();
}

// X becomes (0, 1) in each pair, and a counter rises from 0 to 896.
fn transforms_x<L: Ledger>(values: &mut Polynomial<BaseField>, steps: &mut Steps<L>)
    requires x { values.old ≡ power_of_x 1 }
    requires none { steps.old ≡ 0 }
    ensures pairs { values.new ≡ flat_map (λ i. 0 ∷ 1 ∷ []) (range_with_len 0 128) }
    ensures counted { steps.new ≡ 896 }
{
    ntt_counted(values, steps);
}

// X, by its coefficients.
fn x(rt: &impl Abort) -> Polynomial<BaseField>
    ensures { result ≡ power_of_x 1 }
{
    let mut coefficients = [0; 256];
    coefficients[1] = 1;
    assert!(rt; coefficients.iter().all(|x| *x < 3329));
    Polynomial::new(coefficients)
}

// The same of X, with a counter that is opened here.
fn counts_from_none<L: Ledger>(values: &mut Polynomial<BaseField>, blank: Blank)
    requires x { values.old ≡ power_of_x 1 }
    requires name { blank.name ≡ L.name }
    requires parts { blank.parts ≡ L.parts }
    requires some { 0 < blank.parts }
    ensures { values.new ≡ flat_map (λ i. 0 ∷ 1 ∷ []) (range_with_len 0 128) }
{
    let mut steps = Steps::<L>::new(blank);
    transforms_x(values, &mut steps);
}

#[test]
fn x_is_transformed_in_896_steps(rt: HostRuntime) {
    let mut f = x(&rt);
    counts_from_none::<Brand>(&mut f, Blank::new(1));
    let values = f.into_array();
    for i in 0..128 {
        assert!(rt; values[2 * i] == 0 && values[2 * i + 1] == 1);
    }
}

#[test]
fn x_and_back(rt: HostRuntime) {
    let f = x(&rt);
    let transformed = ntt(&f);
    for i in 0..128 {
        assert!(rt; transformed.coefficient(2 * i).get() == 0);
        assert!(rt; transformed.coefficient(2 * i + 1).get() == 1);
    }
    assert!(rt; ntt_inverse(&transformed) == f);
}
