//! `CtOption`: an option that always holds a value, which a none hides.

ghost use Rattle.std.specs.Prelude.{◌≡◌, IsTrue, true, false, not, ◌&&◌, ◌||◌, if◌then◌else◌, MatchBool, ⊤};
ghost use Rattle.std.specs.Fn.{FnOnceTakesAt, FnOnceReturnsAt};
ghost use Rattle.ct_choice.specs.Truth.{xor};
ghost use Rattle.std.specs.Borrow.{sem};
ghost use Rattle.ctutils.specs.Lending.{LendsValue, LendsSomeOf};
ghost use Rattle.ctutils.specs.Options.{some_of, filter_by, into_option, ct_option_eq};
ghost use Rattle.ctutils.specs.private.OptionLaws.{ct_option_eq-equivalence};

use crate::ct_assign::{CtAssign, CtAssignSlice};
use crate::ct_eq::{CtEq, CtEqSlice};
use crate::ct_select::CtSelect;
use ct_choice::Choice;
use std::alloc::AllocError;
use std::ops::{Deref, DerefMut};

/// An option that holds a value in either case: the value of a none is hidden.
///
/// A closure that is handed to a call is called once, on a none too, with the hidden value. So the
/// caller owes that it may be called on that value.
#[derive(Debug, Drop)]
pub struct CtOption<T> {
    /// The value, hidden where `is_some` is false.
    pub value: T,
    /// Whether the option is a some.
    pub is_some: Choice,
}

impl<T> CtOption<T> {
    /// The value under a condition: a some where `is_some` is true.
    pub fn new(value: T, is_some: Choice) -> CtOption<T>
        ensures value { result.value ≡ value }
        ensures is_some { result.is_some ≡ is_some }
    {
        CtOption { value, is_some }
    }

    /// A some of the value.
    pub fn some(value: T) -> CtOption<T>
        ensures { result ≡ some_of value }
    {
        Self::new(value, Choice::TRUE)
    }

    /// A none that hides the default value.
    pub fn none() -> CtOption<T>
    where
        T: Default,
        ensures value { T.is_default result.value }
        ensures is_some { result.is_some ≡ false }
    {
        Self::new(T::default(), Choice::FALSE)
    }

    /// The same choice over a mutable reference to the value.
    pub fn as_mut(&mut self) -> CtOption<&mut T>
        ensures* writes_back { sem 𝓛 (LendsValue T.row self.entry result.value) }
        ensures value { result.value.now ≡ self.old.value }
        ensures is_some { result.is_some ≡ self.old.is_some }
    {
        let is_some = self.is_some;
        let value = &mut self.value;
        CtOption { value, is_some }
    }

    /// The same choice over a reference to the value.
    pub fn as_ref(&self) -> CtOption<&T>
        ensures value { result.value.now ≡ self.now.value }
        ensures is_some { result.is_some ≡ self.now.is_some }
    {
        CtOption {
            value: &self.value,
            is_some: self.is_some,
        }
    }

    /// The same choice over what the value points to.
    pub fn as_deref(&self) -> CtOption<&T::Target>
    where
        T: Deref,
        ensures value { T.deref_gives self.now.value result.value.now }
        ensures is_some { result.is_some ≡ self.now.is_some }
    {
        CtOption {
            value: self.value.deref(),
            is_some: self.is_some,
        }
    }

    /// The same choice over a mutable reference to what the value points to.
    ///
    /// No clause says what the option is once the loan ends: that is for the type's `deref_mut`, of
    /// which its trait says nothing. Where it matters, take `as_mut`, which keeps the choice, and call
    /// `deref_mut` on the reference that it gives.
    pub fn as_deref_mut(&mut self) -> CtOption<&mut T::Target>
    where
        T: DerefMut,
        ensures value { T.deref_mut_gives self.old.value result.value.now }
        ensures is_some { result.is_some ≡ self.old.is_some }
    {
        let is_some = self.is_some;
        CtOption {
            value: self.value.deref_mut(),
            is_some,
        }
    }

    /// The value of a some. A caller tests for one by `is_some`.
    pub fn expect(self, _msg: &str) -> T
        requires { IsTrue self.is_some }
        ensures { result ≡ self.value }
    {
        self.value
    }

    /// A copy of the value of a some. A caller tests for one by `is_some`.
    pub fn expect_copied(self, _msg: &str) -> T
    where
        T: Copy,
        requires { IsTrue self.is_some }
        ensures { result ≡ self.value }
    {
        self.value
    }

    /// A reference to the value of a some. A caller tests for one by `is_some`.
    pub fn expect_ref(&self, _msg: &str) -> &T
        requires { IsTrue self.now.is_some }
        ensures { result.now ≡ self.now.value }
    {
        &self.value
    }

    /// Makes the option a some of the value, and lends that value.
    pub fn insert(&mut self, value: T) -> &mut T
    where
        T: Drop,
        ensures* writes_back { sem 𝓛 (LendsSomeOf T.row self.entry result) }
        ensures value { result.now ≡ value }
    {
        self.value = value;
        self.is_some = Choice::TRUE;
        &mut self.value
    }

    /// Makes the option a some of the value where the condition is true.
    pub fn insert_if(&mut self, value: &T, condition: Choice)
    where
        T: CtAssign,
        ensures { self.new ≡ (if condition then some_of value.now else self.old) }
    {
        self.value.ct_assign(value, condition);
        self.is_some.ct_assign(&Choice::TRUE, condition);
    }

    /// The value of a some. This branches on whether there is one.
    pub fn into_option(self) -> Option<T>
    where
        T: Drop,
        ensures { result ≡ into_option self }
    {
        if self.is_some.to_bool() {
            Some(self.value)
        } else {
            None
        }
    }

    /// A copy of the value of a some. This branches on whether there is one.
    pub fn into_option_copied(self) -> Option<T>
    where
        T: Copy,
        ensures { result ≡ into_option self }
    {
        self.into_option()
    }

    /// Whether the option is a some.
    pub fn is_some(&self) -> Choice
        ensures { result ≡ self.now.is_some }
    {
        self.is_some
    }

    /// Whether the option is a none.
    pub fn is_none(&self) -> Choice
        ensures { result ≡ not self.now.is_some }
    {
        self.is_some.not()
    }

    /// `optb` where `self` is a some; else a none that hides the value of `optb`.
    pub fn and<U>(self, optb: CtOption<U>) -> CtOption<U>
    where
        T: Drop,
        ensures { result ≡ filter_by optb self.is_some }
    {
        optb.filter_by(self.is_some)
    }

    /// What `f` answers where `self` is a some; else a none that hides the value of that answer.
    pub fn and_then<U, F>(self, f: F) -> CtOption<U>
    where
        F: FnOnce(T) -> CtOption<U>,
        requires { F.pre f self.value }
        ensures { (answer : _) × F.post f self.value answer × (result ≡ filter_by answer self.is_some) }
    {
        let is_some = self.is_some;
        f(self.value).filter_by(is_some)
    }

    /// The value, hidden or not.
    pub fn as_inner_unchecked(&self) -> &T
        ensures { result.now ≡ self.now.value }
    {
        &self.value
    }

    /// A some where `self` is one and the predicate answers true of its value.
    pub fn filter<P>(self, predicate: P) -> Self
    where
        P: FnOnce(&T) -> Choice,
        requires { FnOnceTakesAt P.FnOnce predicate self.value }
        ensures { (answer : _) × FnOnceReturnsAt P.FnOnce predicate self.value answer × (result ≡ filter_by self answer) }
    {
        let answer = predicate(&self.value);
        self.filter_by(answer)
    }

    /// A some where `self` is one and the condition is true.
    pub fn filter_by(self, is_some: Choice) -> Self
        ensures { result ≡ filter_by self is_some }
    {
        CtOption {
            value: self.value,
            is_some: self.is_some.and(is_some),
        }
    }

    /// The same choice over what `f` answers of the value.
    pub fn map<U, F>(self, f: F) -> CtOption<U>
    where
        F: FnOnce(T) -> U,
        requires { F.pre f self.value }
        ensures value { F.post f self.value result.value }
        ensures is_some { result.is_some ≡ self.is_some }
    {
        let is_some = self.is_some;
        CtOption::new(f(self.value), is_some)
    }

    /// What `f` answers of the value of a some; `default` for a none.
    pub fn map_or<U, F>(self, default: U, f: F) -> U
    where
        U: CtSelect,
        F: FnOnce(T) -> U,
        requires { F.pre f self.value }
        ensures { (answer : U) × F.post f self.value answer × (result ≡ (if self.is_some then answer else default)) }
    {
        self.map(f).unwrap_or(default)
    }

    /// What `f` answers of the value of a some; the default value for a none.
    pub fn map_or_default<U, F>(self, f: F) -> U
    where
        U: CtSelect + Default,
        F: FnOnce(T) -> U,
        requires { F.pre f self.value }
        ensures { (answer : U) × F.post f self.value answer × MatchBool self.is_some (result ≡ answer) (U.is_default result) }
    {
        self.map(f).unwrap_or_default()
    }

    /// `Ok` of the value of a some; `Err(err)` for a none. This branches on which it is.
    pub fn ok_or<E>(self, err: E) -> Result<T, E>
    where
        T: Drop,
        E: Drop,
        ensures { result ≡ (if self.is_some then Ok self.value else Err err) }
    {
        self.into_option().ok_or(err)
    }

    /// `Ok` of the value of a some; `Err` of what `err` answers for a none. The closure is called in
    /// either case. This branches on which it is.
    pub fn ok_or_else<E, F>(self, err: F) -> Result<T, E>
    where
        T: Drop,
        E: Drop,
        F: FnOnce() -> E,
        requires { F.pre err }
        ensures { (answer : E) × F.post err answer × (result ≡ (if self.is_some then Ok self.value else Err answer)) }
    {
        self.ok_or(err())
    }

    /// `self` where it is a some, else `optb`.
    pub fn or(self, optb: CtOption<T>) -> CtOption<T>
    where
        T: CtSelect,
        ensures value { result.value ≡ (if self.is_some then self.value else optb.value) }
        ensures is_some { result.is_some ≡ (self.is_some || optb.is_some) }
    {
        CtOption {
            value: self.value_or_that_of(&optb),
            is_some: self.is_some.or(optb.is_some),
        }
    }

    /// A copy of the value, hidden or not.
    pub fn to_inner_unchecked(self) -> T
    where
        T: Copy,
        ensures { result ≡ self.value }
    {
        self.value
    }

    /// The value of a some. A caller tests for one by `is_some`.
    pub fn unwrap(self) -> T
        requires { IsTrue self.is_some }
        ensures { result ≡ self.value }
    {
        self.value
    }

    /// The value of a some; `default` for a none.
    pub fn unwrap_or(self, default: T) -> T
    where
        T: CtSelect,
        ensures { result ≡ (if self.is_some then self.value else default) }
    {
        default.ct_select(&self.value, self.is_some)
    }

    /// The value of a some; the default value for a none.
    pub fn unwrap_or_default(self) -> T
    where
        T: CtSelect + Default,
        ensures { MatchBool self.is_some (result ≡ self.value) (T.is_default result) }
    {
        self.unwrap_or(T::default())
    }

    /// The one that is a some where just one of the two is, else a none.
    pub fn xor(self, optb: CtOption<T>) -> CtOption<T>
    where
        T: CtSelect,
        ensures value { result.value ≡ (if self.is_some then self.value else optb.value) }
        ensures is_some { result.is_some ≡ xor self.is_some optb.is_some }
    {
        CtOption {
            value: self.value_or_that_of(&optb),
            is_some: self.is_some.xor(optb.is_some),
        }
    }

    /// The pair of the values: a some where both are.
    pub fn zip<U>(self, other: CtOption<U>) -> CtOption<(T, U)>
        ensures value { result.value ≡ (self.value, other.value) }
        ensures is_some { result.is_some ≡ (self.is_some && other.is_some) }
    {
        CtOption {
            value: (self.value, other.value),
            is_some: self.is_some.and(other.is_some),
        }
    }

    /// What `f` answers of the two values: a some where both are.
    pub fn zip_with<U, F, R>(self, other: CtOption<U>, f: F) -> CtOption<R>
    where
        F: FnOnce(T, U) -> R,
        requires { F.pre f self.value other.value }
        ensures value { F.post f self.value other.value result.value }
        ensures is_some { result.is_some ≡ (self.is_some && other.is_some) }
    {
        let is_some = self.is_some.and(other.is_some);
        CtOption::new(f(self.value, other.value), is_some)
    }
}

impl<T> CtOption<&T> {
    /// The same choice over a copy of the value.
    pub fn copied(self) -> CtOption<T>
    where
        T: Copy,
        ensures value { result.value ≡ self.entry.value.now }
        ensures is_some { result.is_some ≡ self.entry.is_some }
    {
        CtOption {
            value: *self.value,
            is_some: self.is_some,
        }
    }

    /// The same choice over a clone of the value, which does not fail and equals the value.
    pub fn cloned(self) -> CtOption<T>
    where
        T: Clone,
        requires succeeds { T.is_infallible self.value.now }
        requires equal { (clone : T) → T.is_clone self.value.now clone → clone ≡ self.value.now }
        ensures value { result.value ≡ self.entry.value.now }
        ensures is_some { result.is_some ≡ self.entry.is_some }
    {
        CtOption {
            value: cloned_value(self.value),
            is_some: self.is_some,
        }
    }
}

impl<T> CtOption<&mut T> {
    /// The same choice over a copy of the value.
    pub fn copied(self) -> CtOption<T>
    where
        T: Copy,
        ensures value { result.value ≡ self.entry.value.now }
        ensures is_some { result.is_some ≡ self.entry.is_some }
    {
        CtOption {
            value: *self.value,
            is_some: self.is_some,
        }
    }

    /// The same choice over a clone of the value, which does not fail and equals the value.
    pub fn cloned(self) -> CtOption<T>
    where
        T: Clone,
        requires succeeds { T.is_infallible self.value.now }
        requires equal { (clone : T) → T.is_clone self.value.now clone → clone ≡ self.value.now }
        ensures value { result.value ≡ self.entry.value.now }
        ensures is_some { result.is_some ≡ self.entry.is_some }
    {
        CtOption {
            value: cloned_value(self.value),
            is_some: self.is_some,
        }
    }
}

// The clone of a value whose type's clones don't fail.
fn cloned_value<T: Clone>(value: &T) -> T
    requires succeeds { T.is_infallible value.now }
    requires equal { (clone : T) → T.is_clone value.now clone → clone ≡ value.now }
    ensures { result ≡ value.now }
{
    match value.clone() {
        Ok(clone) => clone,
        Err(_) => unreachable!(),
    }
}

impl<T: CtSelect> CtOption<T> {
    // The value of a some, and else that of the other.
    fn value_or_that_of(&self, optb: &CtOption<T>) -> T
        ensures { result ≡ (if self.now.is_some then self.now.value else optb.now.value) }
    {
        self.value.ct_select(&optb.value, self.is_none())
    }
}

impl<T: CtAssign> CtAssign for CtOption<T> {
    fn ct_assign(&mut self, src: &Self, choice: Choice) {
        self.value.ct_assign(&src.value, choice);
        self.is_some.ct_assign(&src.is_some, choice);
    }
}

impl<T: CtAssign> CtAssignSlice for CtOption<T> {}

impl<T: CtEq> CtEq for CtOption<T> {
    ghost ct_eq = { ct_option_eq T.ct_eq };

    ghost laws = { ct_option_eq-equivalence T.CtEq.laws };

    fn ct_eq(&self, other: &Self) -> Choice {
        let both = self.is_some.and(other.is_some);
        let neither = self.is_none().and(other.is_none());
        both.and(self.value.ct_eq(&other.value)).or(neither)
    }
}

impl<T: CtEq> CtEqSlice for CtOption<T> {}

impl<T: CtSelect> CtSelect for CtOption<T> {
    fn ct_select(&self, other: &Self, choice: Choice) -> Self {
        CtOption {
            value: self.value.ct_select(&other.value, choice),
            is_some: self.is_some.ct_select(&other.is_some, choice),
        }
    }
}

impl<T: Default> Default for CtOption<T> {
    ghost is_default = { λ o. T.is_default o.value × (o.is_some ≡ false) };

    fn default() -> Self {
        Self::none()
    }
}

impl<T: Drop> From<CtOption<T>> for Option<T> {
    ghost from_gives = { λ src option. option ≡ into_option src };

    fn from(src: CtOption<T>) -> Option<T> {
        src.into_option()
    }
}

impl<T: Copy> Clone for CtOption<T> {
    ghost is_clone = { λ o clone. clone ≡ o };

    ghost is_infallible = { λ _. ⊤ };

    fn clone(&self) -> Result<Self, AllocError> {
        Ok(*self)
    }
}

impl<T: Copy> Copy for CtOption<T> {}
