//! The number-theoretic transforms modulo 3329 and 8380417, and the products in their domains.

use crate::stopwatch::{Work, fastest};
use crate::{matrix, sha256};
use anyhow::{Result, ensure};
use dsa_ring::{dsa_multiply, dsa_ntt, dsa_ntt_inverse};
use lattice_transform::{ntt, ntt_inverse};
use module_lattice::{BaseField, Field, Field8380417, NttPolynomial, Polynomial};
use std::time::CpuClock;

/// How many calls make a trial.
const RUNS: u32 = 4096;

/// A field with a transform of its polynomials.
trait Transforms: Field {
    fn transform(f: &Polynomial<Self>) -> NttPolynomial<Self>;

    fn inverse(f: &NttPolynomial<Self>) -> Polynomial<Self>;

    fn product(f: &NttPolynomial<Self>, g: &NttPolynomial<Self>) -> NttPolynomial<Self>;
}

impl Transforms for BaseField {
    fn transform(f: &Polynomial<Self>) -> NttPolynomial<Self> {
        ntt(f)
    }

    fn inverse(f: &NttPolynomial<Self>) -> Polynomial<Self> {
        ntt_inverse(f)
    }

    fn product(f: &NttPolynomial<Self>, g: &NttPolynomial<Self>) -> NttPolynomial<Self> {
        f * g
    }
}

impl Transforms for Field8380417 {
    fn transform(f: &Polynomial<Self>) -> NttPolynomial<Self> {
        dsa_ntt(f)
    }

    fn inverse(f: &NttPolynomial<Self>) -> Polynomial<Self> {
        dsa_ntt_inverse(f)
    }

    fn product(f: &NttPolynomial<Self>, g: &NttPolynomial<Self>) -> NttPolynomial<Self> {
        dsa_multiply(f, g)
    }
}

/// The polynomial 1 + 2·X + .. + 256·X^255.
pub fn polynomial<F: Field>() -> Result<Polynomial<F>> {
    let mut values = [0; 256];
    for i in 0..256 {
        values[i] = i as u32 + 1;
    }
    ensure!(values.iter().all(|x| *x < F::Q), "no polynomial");
    Ok(Polynomial::new(values))
}

/// A call of a transform.
#[derive(Clone, Copy, Debug)]
enum Call {
    Transform,
    Inverse,
    Product,
}

/// One call, made over and over.
#[derive(Drop)]
struct Calls<F: Transforms> {
    call: Call,
    polynomial: Polynomial<F>,
    transformed: NttPolynomial<F>,
}

impl<F: Transforms> Calls<F> {
    /// The call at a polynomial and its transform.
    fn new(call: Call) -> Result<Calls<F>> {
        let polynomial = polynomial()?;
        let transformed = F::transform(&polynomial);
        Ok(Calls {
            call,
            polynomial,
            transformed,
        })
    }
}

impl<F: Transforms> Work for Calls<F> {
    fn run(&mut self) -> Result<()> {
        match self.call {
            Call::Transform => self.transformed = F::transform(&self.polynomial),
            Call::Inverse => self.polynomial = F::inverse(&self.transformed),
            Call::Product => {
                self.transformed = F::product(&self.transformed, &self.transformed);
            }
        }
        Ok(())
    }
}

fn print_field<F: Transforms>(rt: &(impl Print + CpuClock)) -> Result<()> {
    for call in [Call::Transform, Call::Inverse, Call::Product] {
        let mut calls = Calls::<F>::new(call)?;
        let time = fastest(rt, &mut calls, RUNS)?;
        let back = F::transform(&F::inverse(&calls.transformed));
        ensure!(back == calls.transformed, "another transform");
        println!(rt; "modulo {} {call:?}: {} ns", F::Q, time.nanos())?;
    }
    Ok(())
}

/// Prints the times of SHA-256, of both transforms and of a product with a matrix.
pub fn print_all(rt: &(impl Print + CpuClock + AllocGlobal)) -> Result<()> {
    sha256::print_one(rt)?;
    print_field::<BaseField>(rt)?;
    matrix::print_product(rt)?;
    print_field::<Field8380417>(rt)
}
