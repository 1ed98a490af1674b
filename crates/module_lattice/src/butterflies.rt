//! Values that generic code changes by butterflies alone.

ghost use Rattle.std.specs.Prelude.{◌≡◌, ◌≢◌, ◌+◌, ◌<◌, ℕ, List};
ghost use Rattle.module_lattice.specs.Ring.{IsPolynomial, butterfly};

use crate::elem::Elem;
use crate::field::Field;
use crate::polynomial::Polynomial;
use crate::steps::Steps;
use std::sync::ledger::Ledger;

/// 256 numbers below Q that generic code can change by butterflies alone, and cannot read.
///
/// The ledger of the steps is a parameter of the trait. Code that is generic over the ledger can make
/// no counter of it, since `Steps::new` asks for a blank of the ledger's name. So code over a
/// `B: Butterflies<F, L>` that is handed one `Steps<L>` counts each of its butterflies there: it takes
/// at most as many as that counter rises by.
pub trait Butterflies<F: Field, L: Ledger> {
    // The values: a list of 256 numbers below Q.
    ghost values: { Self → List ℕ };

    /// One step: with a and b the values at `i` and `j`, which are below 256 and differ, a + zeta·b
    /// goes to `i` and a - zeta·b to `j`, both modulo Q (FIPS 203, section 4.3, algorithm 9).
    fn butterfly(&mut self, i: usize, j: usize, zeta: Elem<F>, steps: &mut Steps<L>)
        requires first { i < 256 }
        requires second { j < 256 }
        requires apart { i ≢ j }
        ensures changed { values self.new ≡ butterfly F.Q i j zeta (values self.old) }
        ensures before { IsPolynomial F.Q (values self.old) }
        ensures after { IsPolynomial F.Q (values self.new) }
        ensures counted { steps.new ≡ steps.old + 1 };
}

/// The values are the coefficients.
impl<F: Field, L: Ledger> Butterflies<F, L> for Polynomial<F> {
    ghost values = { λ p. p };

    fn butterfly(&mut self, i: usize, j: usize, zeta: Elem<F>, steps: &mut Steps<L>)
        requires first { i < 256 }
        requires second { j < 256 }
        requires apart { i ≢ j }
        ensures changed { self.new ≡ butterfly F.Q i j zeta self.old }
        ensures before { IsPolynomial F.Q self.old }
        ensures after { IsPolynomial F.Q self.new }
        ensures counted { steps.new ≡ steps.old + 1 }
    {
        let a = self.coefficient(i);
        let turned = zeta * self.coefficient(j);
        self.set(i, a + turned);
        self.set(j, a - turned);
        steps.tick();
    }
}
