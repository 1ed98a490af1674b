//! Elements of a field.

ghost use Rattle.std.specs.Prelude.{◌≡◌, ◌<◌};
ghost use Rattle.module_lattice.specs.Ring.{plus, minus, negated, times};

use crate::field::Field;
use ctutils::{Choice, CtEq, CtEqAgrees, CtEqSlice};
use std::marker::{Model, PhantomData};
use std::ops::{Add, Mul, Neg, Sub};

/// A number below Q.
#[derive(Clone, Copy, Debug, Default, PartialEq, Eq)]
pub struct Elem<F: Field> {
    value: u32,
    field: PhantomData<F>,
}

impl<F: Field> Model for Elem<F> {
    ghost use Rattle.std.specs.Prelude.{◌<◌, ℕ};

    ghost Value = { ℕ };

    ghost view = { λ e. e.value };

    ghost invariant = { λ e. e.value < F.Q };

    ghost inverse = { λ x. record { value = x; field = record {} } };
}

impl<F: Field> Elem<F> {
    /// The element that is `x`, which is below Q.
    pub fn new(x: u32) -> Elem<F>
        requires { x < F.Q }
        ensures { result ≡ x }
    {
        Elem {
            value: x,
            field: PhantomData,
        }
    }

    /// The number, which is below Q.
    pub fn get(self) -> u32
        ensures value { result ≡ self }
        ensures within { result < F.Q }
    {
        self.value
    }
}

impl<F: Field> Neg for Elem<F> {
    type Output = Elem<F>;

    ghost neg_gives = { λ a r. r ≡ negated F.Q a };

    fn neg(self) -> Elem<F> {
        Elem::new(F::small_reduce(F::Q - self.value))
    }
}

impl<F: Field> Add<Elem<F>> for Elem<F> {
    type Output = Elem<F>;

    ghost add_gives = { λ a b r. r ≡ plus F.Q a b };

    fn add(self, rhs: Elem<F>) -> Elem<F> {
        Elem::new(F::small_reduce(self.value + rhs.value))
    }
}

impl<F: Field> Sub<Elem<F>> for Elem<F> {
    type Output = Elem<F>;

    ghost sub_gives = { λ a b r. r ≡ minus F.Q a b };

    fn sub(self, rhs: Elem<F>) -> Elem<F> {
        Elem::new(F::small_reduce(self.value + F::Q - rhs.value))
    }
}

impl<F: Field> Mul<Elem<F>> for Elem<F> {
    type Output = Elem<F>;

    ghost mul_gives = { λ a b r. r ≡ times F.Q a b };

    fn mul(self, rhs: Elem<F>) -> Elem<F> {
        Elem::new(F::barrett_reduce(u64::from(self.value) * u64::from(rhs.value)))
    }
}

impl<F: Field> CtEq for Elem<F> {
    ghost use Rattle.std.specs.Prelude.{nat_eq};
    ghost use Rattle.std.specs.Cmp.{nat_eq_equiv};

    ghost ct_eq = { nat_eq };

    ghost laws = { nat_eq_equiv };

    fn ct_eq(&self, other: &Self) -> Choice {
        self.value.ct_eq(&other.value)
    }
}

impl<F: Field> CtEqSlice for Elem<F> {}

impl<F: Field> CtEqAgrees for Elem<F> {
    ghost use Rattle.std.proofs.Common.{rules};

    ghost agrees = { Prim.search rules };
}
