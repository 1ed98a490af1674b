//! `CtNeg`: negation where a choice is true.

ghost use Rattle.std.specs.Prelude.{◌≡◌, if◌then◌else◌};
ghost use Rattle.std.specs.Int.{w8, w16, w32, w64, w128, int_wrapping_neg};
ghost use Rattle.ct_choice.specs.Words.{negation};

use crate::choices::Choice;

/// Negation where a choice is true. That of an integer wraps: the negation of the least signed
/// number is that number.
pub trait CtNeg: Sized + Drop {
    // What `-self` is.
    ghost negation: { Self → Self };

    /// `-self` where `choice` is true, else `self`.
    fn ct_neg(&self, choice: Choice) -> Self
        ensures { result ≡ (if choice then negation self.now else self.now) };

    /// Puts `-self` in the place of `self` where `choice` is true.
    final fn ct_neg_assign(&mut self, choice: Choice)
        ensures { self.new ≡ (if choice then negation self.old else self.old) }
    {
        *self = self.ct_neg(choice);
    }
}

impl CtNeg for u8 {
    ghost negation = { negation 8 };

    fn ct_neg(&self, choice: Choice) -> Self {
        choice.select_u8(*self, self.wrapping_neg())
    }
}

impl CtNeg for u16 {
    ghost negation = { negation 16 };

    fn ct_neg(&self, choice: Choice) -> Self {
        choice.select_u16(*self, self.wrapping_neg())
    }
}

impl CtNeg for u32 {
    ghost negation = { negation 32 };

    fn ct_neg(&self, choice: Choice) -> Self {
        choice.select_u32(*self, self.wrapping_neg())
    }
}

impl CtNeg for u64 {
    ghost negation = { negation 64 };

    fn ct_neg(&self, choice: Choice) -> Self {
        choice.select_u64(*self, self.wrapping_neg())
    }
}

impl CtNeg for u128 {
    ghost negation = { negation 128 };

    fn ct_neg(&self, choice: Choice) -> Self {
        choice.select_u128(*self, self.wrapping_neg())
    }
}

impl CtNeg for usize {
    ghost negation = { negation 64 };

    fn ct_neg(&self, choice: Choice) -> Self {
        (*self as u64).ct_neg(choice) as usize
    }
}

impl CtNeg for i8 {
    ghost negation = { int_wrapping_neg w8 };

    fn ct_neg(&self, choice: Choice) -> Self {
        self.cast_unsigned().ct_neg(choice).cast_signed()
    }
}

impl CtNeg for i16 {
    ghost negation = { int_wrapping_neg w16 };

    fn ct_neg(&self, choice: Choice) -> Self {
        self.cast_unsigned().ct_neg(choice).cast_signed()
    }
}

impl CtNeg for i32 {
    ghost negation = { int_wrapping_neg w32 };

    fn ct_neg(&self, choice: Choice) -> Self {
        self.cast_unsigned().ct_neg(choice).cast_signed()
    }
}

impl CtNeg for i64 {
    ghost negation = { int_wrapping_neg w64 };

    fn ct_neg(&self, choice: Choice) -> Self {
        self.cast_unsigned().ct_neg(choice).cast_signed()
    }
}

impl CtNeg for i128 {
    ghost negation = { int_wrapping_neg w128 };

    fn ct_neg(&self, choice: Choice) -> Self {
        self.cast_unsigned().ct_neg(choice).cast_signed()
    }
}

impl CtNeg for isize {
    ghost negation = { int_wrapping_neg w64 };

    fn ct_neg(&self, choice: Choice) -> Self {
        self.cast_unsigned().ct_neg(choice).cast_signed()
    }
}
