//! A value on the heap.

ghost use Rattle.std.specs.Prelude.{◌≡◌, IfOk};
ghost use Rattle.std.specs.Borrow.{Lends, sem};

use std::alloc::{AllocError, Global};
use std::marker::Model;
use std::ops::{Deref, DerefMut};

/// A box, which contracts see as its value.
#[derive(Clone, Debug, Drop)]
pub struct MaybeBox<T> {
    boxed: Box<T>,
}

impl<T> Model for MaybeBox<T> {
    ghost Value = { T };

    ghost view = { λ b. b.boxed.value };
}

impl<T> MaybeBox<T> {
    /// A box of `inner`, which is dropped where memory is wanting.
    pub fn new(alloc: Global, inner: T) -> Result<MaybeBox<T>, AllocError>
    where
        T: Drop,
        ensures { IfOk result (λ b. b ≡ inner) }
    {
        Ok(MaybeBox {
            boxed: Box::new(alloc, inner)?,
        })
    }

    /// The value.
    pub fn into_inner(self) -> T
        ensures { result ≡ self }
    {
        let MaybeBox { boxed } = self;
        Box::into_inner(boxed)
    }
}

impl<T> Deref for MaybeBox<T> {
    type Target = T;

    ghost deref_gives = { λ b x. x ≡ b };

    fn deref(&self) -> &T
        ensures { result.now ≡ self.now }
    {
        &self.boxed
    }
}

impl<T> DerefMut for MaybeBox<T> {
    ghost use Rattle.module_lattice.specs.contracts.maybe_box.MaybeBox.{the_row};

    ghost deref_mut_gives = { λ b x. x ≡ b };

    fn deref_mut(&mut self) -> &mut T
        ensures* writes_back { sem 𝓛 (Lends (the_row T.row) T.row self.entry result (λ x. x)) }
        ensures value { result.now ≡ self.old }
    {
        &mut self.boxed
    }
}

impl<T: PartialEq> PartialEq for MaybeBox<T> {
    ghost eq = { T.eq };

    ghost laws = { T.PartialEq.laws };

    fn eq(&self, other: &MaybeBox<T>) -> bool {
        *self.boxed == *other.boxed
    }
}
