//! Each call at concrete types, over the edges of each width, and the worked searches and options.

ghost use Rattle.std.specs.Prelude.{◌≡◌};

use ctutils::laws::ct_eq_agrees;
use ctutils::{
    Choice, CtAssign, CtAssignSlice, CtEq, CtEqAgrees, CtEqSlice, CtOption, CtSelect,
    CtSelectArray, box_ct_assign, box_ct_eq, box_ct_select, ct_find, ct_lookup, vec_ct_assign,
    vec_ct_assign_slice, vec_ct_eq, vec_ct_eq_slice, vec_ct_select,
};
use std::cmp::Ordering;
use std::ops::DerefMut;
use std::process::Abort;
use std::test::Fail;

const NO: Choice = Choice::FALSE;

const YES: Choice = Choice::TRUE;

fn is_same<T: CtEq>(a: &T, b: &T) -> bool {
    a.ct_eq(b).to_bool() && !a.ct_ne(b).to_bool()
}

// What each trait says of two different values.
fn tells_apart<T: CtAssign + CtEq + CtSelect + Copy>(rt: &impl Abort, a: T, b: T) {
    assert!(rt; is_same(&a, &a) && !a.ct_eq(&b).to_bool() && a.ct_ne(&b).to_bool());
    assert!(rt; is_same(&a.ct_select(&b, NO), &a) && is_same(&a.ct_select(&b, YES), &b));
    let (mut x, mut y) = (a, b);
    x.ct_swap(&mut y, NO);
    assert!(rt; is_same(&x, &a) && is_same(&y, &b));
    x.ct_swap(&mut y, YES);
    assert!(rt; is_same(&x, &b) && is_same(&y, &a));
    x.ct_assign(&a, NO);
    assert!(rt; is_same(&x, &b));
    x.ct_assign(&a, YES);
    assert!(rt; is_same(&x, &a));
}

#[test]
fn values(rt: HostRuntime) {
    tells_apart(&rt, 0u8, u8::MAX);
    tells_apart(&rt, 1u16, 0x8000);
    tells_apart(&rt, 0u32, u32::MAX);
    tells_apart(&rt, 1u64, 1 << 63);
    tells_apart(&rt, 0u128, u128::MAX);
    tells_apart(&rt, 0usize, usize::MAX);
    tells_apart(&rt, -1i8, i8::MIN);
    tells_apart(&rt, 0i16, i16::MIN);
    tells_apart(&rt, -1i32, 1);
    tells_apart(&rt, i64::MIN, i64::MAX);
    tells_apart(&rt, -1i128, 0);
    tells_apart(&rt, 0isize, -1);
    tells_apart(&rt, NO, YES);
    tells_apart(&rt, Ordering::Less, Ordering::Greater);
    tells_apart(&rt, [1u8, 2, 3], [1, 2, 4]);
    tells_apart(&rt, [[1i8], [2]], [[1], [3]]);
    tells_apart(&rt, CtOption::new(1u8, NO), CtOption::some(1));
}

#[test]
fn slices_and_arrays(rt: HostRuntime) {
    let (a, b) = ([1u32, 2, 3], [1u32, 5, 3]);
    assert!(rt; u32::ct_eq_slice(&a, &a).to_bool() && u32::ct_ne_slice(&a, &b).to_bool());
    assert!(rt; u32::ct_ne_slice(&a, &a[..2]).to_bool() && u32::ct_eq_slice(&[], &[]).to_bool());
    let mut c = a;
    u32::ct_assign_slice(&mut c, &b, NO);
    assert!(rt; c == a);
    u32::ct_assign_slice(&mut c, &b, YES);
    assert!(rt; c == b);
    assert!(rt; u32::ct_select_array(&a, &b, NO) == a && u32::ct_select_array(&a, &b, YES) == b);
}

// The two equalities answer the same: by the law, and when they are asked.
fn answers_alike<T: CtEqAgrees>(rt: &impl Abort, a: &T, b: &T) {
    ct_eq_agrees::<T>();
    assert!(rt; a.ct_eq(a).to_bool() && a == a);
    assert!(rt; !a.ct_eq(b).to_bool() && a != b);
}

#[test]
fn agreement(rt: HostRuntime) {
    answers_alike(&rt, &0u8, &u8::MAX);
    answers_alike(&rt, &1u16, &0x8000);
    answers_alike(&rt, &0u32, &u32::MAX);
    answers_alike(&rt, &1u64, &(1 << 63));
    answers_alike(&rt, &0u128, &u128::MAX);
    answers_alike(&rt, &0usize, &usize::MAX);
    answers_alike(&rt, &-1i8, &i8::MIN);
    answers_alike(&rt, &0i16, &i16::MIN);
    answers_alike(&rt, &-1i32, &1);
    answers_alike(&rt, &i64::MIN, &i64::MAX);
    answers_alike(&rt, &-1i128, &0);
    answers_alike(&rt, &0isize, &-1);
    answers_alike(&rt, &Ordering::Less, &Ordering::Greater);
    answers_alike(&rt, &[1u8, 2, 3], &[1, 2, 4]);
    answers_alike(&rt, &[[1i8], [2]], &[[1], [3]]);
}

#[test]
fn boxes(rt: HostRuntime) -> Result<(), Fail> {
    let (one, two) = (Box::new(rt.alloc(), 1u8)?, Box::new(rt.alloc(), 2u8)?);
    let mut taken = box_ct_select(rt.alloc(), &one, &two, YES)?;
    assert!(rt; box_ct_eq(&taken, &two).to_bool());
    box_ct_assign(&mut taken, &one, YES);
    assert!(rt; *taken == 1);
    Ok(())
}

#[test]
fn vectors(rt: HostRuntime) -> Result<(), Fail> {
    let (a, b) = (vec![in rt.alloc(); 1u8, 2]?, vec![in rt.alloc(); 3u8, 4]?);
    let mut v = vec_ct_select(rt.alloc(), &a, &b, NO)?;
    assert!(rt; vec_ct_eq(&v, &a).to_bool());
    assert!(rt; v.len() == 2 && b.len() == 2);
    vec_ct_assign(&mut v, &b, YES);
    assert!(rt; vec_ct_eq_slice(&v, &[3, 4]).to_bool());
    Ok(())
}

#[test]
fn vectors_and_slices(rt: HostRuntime) -> Result<(), Fail> {
    let mut v = vec![in rt.alloc(); 3u8, 4]?;
    vec_ct_assign_slice(&mut v, &[9, 9], NO);
    assert!(rt; v.as_slice() == [3, 4].as_slice());
    Ok(())
}

#[test]
fn lookups(rt: HostRuntime) {
    let items = [1u8, 2, 3];
    assert!(rt; ct_lookup(&items, 0u8).unwrap_or(0) == 1);
    assert!(rt; ct_lookup(&items, 1u16).unwrap_or(0) == 2);
    assert!(rt; ct_lookup(&items, 2u32).unwrap_or(0) == 3);
    assert!(rt; ct_lookup(&items, 1u64 << 32).is_none().to_bool());
    assert!(rt; ct_lookup(&items, 1u128).unwrap_or(0) == 2);
    assert!(rt; ct_lookup(&items, usize::MAX).is_none().to_bool());
}

#[test]
fn searches(rt: HostRuntime) {
    let is_odd = |x: &u8| Choice::from_u8_lsb(*x);
    assert!(rt; ct_find(&[0, 2, 3, 5], is_odd).unwrap_or(0) == 3);
    assert!(rt; ct_find(&[0, 2, 4], is_odd).is_none().to_bool());
}

#[test]
fn some_values(rt: HostRuntime) {
    let option = CtOption::some(5u8);
    assert!(rt; option.is_some().to_bool() && !option.is_none().to_bool());
    assert!(rt; option.expect_copied("") == 5 && option.unwrap() == 5);
    assert!(rt; option.unwrap_or(1) == 5 && option.unwrap_or_default() == 5);
    assert!(rt; *option.expect_ref("") == 5 && option.expect("") == 5);
}

#[test]
fn hidden_values(rt: HostRuntime) {
    let option = CtOption::new(5u8, NO);
    assert!(rt; *option.as_inner_unchecked() == 5 && option.to_inner_unchecked() == 5);
    assert!(rt; Option::<u8>::from(option).is_none() && option.into_option_copied().is_none());
    assert!(rt; option.ok_or(1u8) == Err(1) && option.unwrap_or(1) == 1);
    assert!(rt; is_same(&option, &CtOption::none()) && is_same(&option, &CtOption::default()));
}

#[test]
fn joined_options(rt: HostRuntime) {
    let (none, some) = (CtOption::new(5u8, NO), CtOption::some(6u8));
    assert!(rt; none.and(some).is_none().to_bool() && none.or(some).unwrap_or(0) == 6);
    assert!(rt; none.xor(some).unwrap_or(0) == 6 && some.xor(some).is_none().to_bool());
    assert!(rt; none.zip(some).is_none().to_bool());
    assert!(rt; some.filter_by(YES).unwrap_or(0) == 6 && some.filter_by(NO).is_none().to_bool());
}

#[test]
fn inserted_values(rt: HostRuntime) {
    let mut option = CtOption::new(7u8, NO);
    option.insert_if(&8, NO);
    assert!(rt; option.into_option().is_none());
    option.insert_if(&8, YES);
    assert!(rt; option.into_option() == Some(8));
    *option.insert(9) = 10;
    assert!(rt; option.into_option() == Some(10));
}

#[test]
fn options_of_references(rt: HostRuntime) {
    let mut option = CtOption::some(3u8);
    *option.as_mut().unwrap() = 4;
    assert!(rt; option.as_ref().copied().into_option() == Some(4));
    assert!(rt; option.as_ref().cloned().into_option() == Some(4));
    assert!(rt; option.as_mut().copied().into_option() == Some(4));
    assert!(rt; option.as_mut().cloned().into_option() == Some(4));
    let mut number = 6u8;
    let mut lent = CtOption::some(&mut number);
    assert!(rt; *lent.as_deref().unwrap() == 6);
    *lent.as_deref_mut().unwrap() = 7;
    assert!(rt; *lent.value == 7);
    keeps_choice(&mut lent);
}

// Through `as_mut` the choice stays, whatever the type's `deref_mut` does to the value.
fn keeps_choice<T: DerefMut>(option: &mut CtOption<T>)
    ensures { option.new.is_some ≡ option.old.is_some }
{
    let lent = option.as_mut();
    let _shown = lent.value.deref_mut();
}

// Each closure is called once, on a none too, with the hidden value.
#[test]
fn closures(rt: HostRuntime) {
    let mut seen = 0u8;
    let mapped = CtOption::new(7u8, NO).map(|x| {
        seen ^= x;
        x
    });
    assert!(rt; mapped.into_option().is_none() && seen == 7);
    let chosen = CtOption::new(8u8, NO).and_then(|x| {
        seen ^= x;
        CtOption::some(x)
    });
    assert!(rt; chosen.into_option().is_none() && seen == 15);
    let filtered = CtOption::new(16u8, NO).filter(|x| {
        seen ^= *x;
        YES
    });
    assert!(rt; filtered.into_option().is_none() && seen == 31);
    let result = CtOption::some(1u8).ok_or_else(|| {
        seen ^= 32;
        2u8
    });
    assert!(rt; result == Ok(1) && seen == 63);
}

#[test]
fn answers_of_closures(rt: HostRuntime) {
    let option = CtOption::new(5u8, NO);
    let mapped = option.map_or(1, |x| x);
    let mapped_or_default = option.map_or_default(|x| x);
    assert!(rt; mapped == 1 && mapped_or_default == 0);
    assert!(rt;
        option
            .zip_with(CtOption::some(1u8), |x, y| x ^ y)
            .is_none()
            .to_bool()
    );
}
