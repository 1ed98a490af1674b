//! Each call once, against sums and products worked by hand.

ghost use Rattle.std.specs.Prelude.{◌≡◌, ◌*◌, ◌<◌, ◌≤◌, IfOk, length};
ghost use Rattle.module_lattice.specs.Vectors.{RowsHaveLength};

use ctutils::CtEqAgrees;
use ctutils::laws::ct_eq_agrees;
use module_lattice::{
    BaseField, Elem, Encode, Field, Field8380417, NttMatrix, NttPolynomial, NttVector, Polynomial,
    Vector, laws,
};
use std::alloc::{AllocError, Global};
use std::process::Abort;
use std::test::Fail;

// Values that differ, by `==` and by `ct_eq`.
fn tells_apart<T: CtEqAgrees>(rt: &impl Abort, a: &T, b: &T) {
    ct_eq_agrees::<T>();
    assert!(rt; a == a && a != b);
    assert!(rt; a.ct_eq(a).to_bool() && !a.ct_eq(b).to_bool() && a.ct_ne(b).to_bool());
}

#[test]
fn reductions(rt: HostRuntime) {
    assert!(rt; BaseField::small_reduce(3328) == 3328 && BaseField::small_reduce(6657) == 3328);
    assert!(rt; BaseField::barrett_reduce(9000000) == 1713);
    assert!(rt; Field8380417::small_reduce(16760833) == 8380416);
    // 2·(Q - 1)^2
    assert!(rt; Field8380417::barrett_reduce(140462744666112) == 2);
    laws::moduli();
}

// The sum, the difference, the negation of the second and the product.
fn sums_of<F: Field>(a: Elem<F>, b: Elem<F>) -> [Elem<F>; 4] {
    [a + b, a - b, -b, a * b]
}

#[test]
fn elements(rt: HostRuntime) {
    let (a, b) = (Elem::<BaseField>::new(3300), Elem::new(100));
    let [sum, difference, negation, product] = sums_of(a, b);
    assert!(rt; sum.get() == 71 && difference.get() == 3200);
    assert!(rt; negation.get() == 3229 && product.get() == 429);
    assert!(rt; Elem::<BaseField>::default().get() == 0);
    tells_apart(&rt, &a, &b);
    laws::elements_are_a_ring::<BaseField>(a, b, a);
    laws::elements_have_zero_and_one::<BaseField>(a, b);
}

// The polynomial whose coefficients are all `x`.
fn filled(x: u32) -> Polynomial<BaseField>
    requires { x < 3329 }
{
    Polynomial::new([x; 256])
}

#[test]
fn polynomials(rt: HostRuntime) {
    let (f, g) = (filled(3300), filled(100));
    assert!(rt; &f + &g == filled(71));
    assert!(rt; &f - &g == filled(3200));
    assert!(rt; -&g == filled(3229));
    assert!(rt; Elem::new(3300) * &g == filled(429));
    assert!(rt; Polynomial::default() == filled(0));
    assert!(rt; f.coefficient(255).get() == 3300 && g.into_array() == [100; 256]);
    tells_apart(&rt, &f, &g);
}

// The polynomial in the transform domain whose pairs are all (constant, linear).
pub(crate) fn pairs(constant: u32, linear: u32) -> NttPolynomial<BaseField>
    requires first { constant < 3329 }
    requires second { linear < 3329 }
{
    let mut values = [constant; 256];
    for i in 0..128 {
        values[2 * i + 1] = linear;
    }
    NttPolynomial::new(values)
}

#[test]
fn transforms(rt: HostRuntime) -> Result<(), Fail> {
    let (f, g) = (pairs(3300, 1), pairs(100, 2));
    assert!(rt; &f + &g == pairs(71, 3));
    assert!(rt; &f - &g == pairs(3200, 3328));
    assert!(rt; -&g == pairs(3229, 3327));
    assert!(rt; Elem::new(3300) * &g == pairs(429, 3271));
    assert!(rt; NttPolynomial::default() == pairs(0, 0));
    assert!(rt; f.coefficient(1).get() == 1 && f.clone()? == f);
    tells_apart(&rt, &f, &g);
    Ok(())
}

// The vector of two polynomials whose coefficients are all `x` and all `y`.
fn vector(alloc: Global, x: u32, y: u32) -> Result<Vector<BaseField>, AllocError>
    requires first { x < 3329 }
    requires second { y < 3329 }
    ensures { IfOk result (λ v. length v ≡ 2) }
{
    let mut items = Vec::new(alloc);
    items.push(filled(x))?;
    items.push(filled(y))?;
    Ok(Vector::new(items))
}

#[test]
fn vectors(rt: HostRuntime) -> Result<(), Fail> {
    let alloc = rt.alloc();
    let u = vector(alloc, 100, 150)?;
    let v = vector(alloc, 200, 250)?;
    assert!(rt; u.len() == 2 && *u.item(1) == filled(150));
    assert!(rt; u.add(&v)? == vector(alloc, 300, 400)?);
    assert!(rt; v.sub(&u)? == vector(alloc, 100, 100)?);
    tells_apart(&rt, &u, &v);
    Ok(())
}

#[test]
fn multiples_of_vectors(rt: HostRuntime) -> Result<(), Fail> {
    let alloc = rt.alloc();
    let u = vector(alloc, 100, 150)?;
    assert!(rt; u.neg()? == vector(alloc, 3229, 3179)?);
    assert!(rt; u.scale(Elem::new(2))? == vector(alloc, 200, 300)?);
    assert!(rt; u.try_clone()? == u);
    Ok(())
}

// The vector of two constants in the transform domain.
fn ntt_vector(alloc: Global, x: u32, y: u32) -> Result<NttVector<BaseField>, AllocError>
    requires first { x < 3329 }
    requires second { y < 3329 }
    ensures { IfOk result (λ v. length v ≡ 2) }
{
    let mut items = Vec::new(alloc);
    items.push(pairs(x, 0))?;
    items.push(pairs(y, 0))?;
    Ok(NttVector::new(items))
}

#[test]
fn ntt_vectors(rt: HostRuntime) -> Result<(), Fail> {
    let alloc = rt.alloc();
    let u = ntt_vector(alloc, 1, 2)?;
    let v = ntt_vector(alloc, 3, 4)?;
    assert!(rt; u.len() == 2 && *u.item(1) == pairs(2, 0));
    assert!(rt; u.add(&v)? == ntt_vector(alloc, 4, 6)?);
    assert!(rt; v.sub(&u)? == ntt_vector(alloc, 2, 2)?);
    tells_apart(&rt, &u, &v);
    Ok(())
}

#[test]
fn products_of_vectors(rt: HostRuntime) -> Result<(), Fail> {
    let alloc = rt.alloc();
    let u = ntt_vector(alloc, 1, 2)?;
    assert!(rt; u.scale_ntt(&pairs(3, 0))? == ntt_vector(alloc, 3, 6)?);
    assert!(rt; u.dot(&ntt_vector(alloc, 3, 4)?) == pairs(11, 0));
    assert!(rt; u.try_clone()? == u);
    Ok(())
}

// The rows (1, 2) and (3, 4).
fn matrix(alloc: Global) -> Result<NttMatrix<BaseField>, AllocError>
    ensures long { IfOk result (λ a. length a ≡ 2) }
    ensures rows { IfOk result (λ a. RowsHaveLength 2 a) }
{
    let mut rows = Vec::new(alloc);
    rows.push(ntt_vector(alloc, 1, 2)?)?;
    rows.push(ntt_vector(alloc, 3, 4)?)?;
    Ok(NttMatrix::new(rows))
}

#[test]
fn matrices(rt: HostRuntime) -> Result<(), Fail> {
    let alloc = rt.alloc();
    let a = matrix(alloc)?;
    assert!(rt; a.len() == 2 && *a.item(1) == ntt_vector(alloc, 3, 4)?);
    assert!(rt; a.try_clone()? == a);
    tells_apart(&rt, &a, &NttMatrix::new(Vec::new(alloc)));
    Ok(())
}

// A product takes the rows and not the columns.
#[test]
fn product_with_a_matrix(rt: HostRuntime) -> Result<(), Fail> {
    let alloc = rt.alloc();
    let product = matrix(alloc)?.mul(&ntt_vector(alloc, 5, 6)?)?;
    assert!(rt; product == ntt_vector(alloc, 17, 39)?);
    Ok(())
}

// What is decoded at 12 bits is encoded to the same bytes, where no group is Q or more.
fn reads_and_writes<E: Encode>(
    rt: &impl Abort,
    alloc: Global,
    count: usize,
    bytes: &[u8],
) -> Result<(), AllocError>
    requires width { 4096 ≤ 2 * E.Q }
    requires count { E.has_count count }
    requires bytes { length bytes.now ≡ 384 * count }
{
    let value = E::decode(alloc, 12, count, bytes)?;
    let mut out = vec![in alloc; 0; bytes.len()]?;
    value.encode(12, out.as_mut_slice());
    assert!(rt; out.as_slice() == bytes);
    Ok(())
}

#[test]
fn each_type_in_bytes(rt: HostRuntime) -> Result<(), Fail> {
    let alloc = rt.alloc();
    let two = [0x2b; 768];
    let one = &two[..384];
    reads_and_writes::<Polynomial<BaseField>>(&rt, alloc, 1, one)?;
    reads_and_writes::<NttPolynomial<BaseField>>(&rt, alloc, 1, one)?;
    reads_and_writes::<Vector<BaseField>>(&rt, alloc, 2, &two)?;
    reads_and_writes::<NttVector<BaseField>>(&rt, alloc, 2, &two)?;
    Ok(())
}

#[test]
fn laws_are_called(_rt: HostRuntime) {
    laws::powers_of_x();
    laws::worked_products();
    laws::packed_bits();
    laws::packed_sizes();
    laws::unpacks_what_was_packed();
    laws::packs_what_was_unpacked();
    laws::decodes_what_was_encoded();
}
