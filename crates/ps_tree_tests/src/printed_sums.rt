//! What sums and relations are printed as.
use crate::small_programs::{A, B, K, cond_is, is, sum_is};
use ps_syntax::Sign;
use ps_term::Var;
use std::alloc::{AllocError, Global};
use std::test::Fail;

#[test]
fn prints_sums_of_one_product(rt: HostRuntime) -> Result<(), Fail> {
    let alloc = rt.alloc();
    assert!(rt; sum_is(alloc, &[(1, Some(A))], "a")?);
    assert!(rt; sum_is(alloc, &[(-1, Some(A))], "- a")?);
    assert!(rt; sum_is(alloc, &[(2, Some(A))], "2 * a")?);
    assert!(rt; sum_is(alloc, &[(-1, None)], "- 1")?);
    assert!(rt; sum_is(alloc, &[], "0")?);
    Ok(())
}

#[test]
fn prints_sums_of_products(rt: HostRuntime) -> Result<(), Fail> {
    let alloc = rt.alloc();
    assert!(rt; sum_is(alloc, &[(-2, Some(A)), (3, None)], "- 2 * a + 3")?);
    assert!(rt;
        sum_is(
            alloc,
            &[(1, None), (-1, Some(B)), (1, Some(K))],
            "1 - b + k"
        )?
    );
    assert!(rt; sum_is(alloc, &[(0, Some(A)), (-10, None)], "0 * a - 10")?);
    assert!(rt; sum_is(alloc, &[(12, Some(A)), (-12, Some(A))], "12 * a - 12 * a")?);
    Ok(())
}

#[test]
fn names_that_are_not_declared_are_empty(rt: HostRuntime) -> Result<(), Fail> {
    let products = [
        (1, Some(Var::Global(2))),
        (1, Some(Var::Local(0, 1))),
        (1, Some(Var::Havoc(0))),
    ];
    assert!(rt; sum_is(rt.alloc(), &products, " +  + ")?);
    Ok(())
}

// Whether `a` compared with -5 is printed as this.
fn sign_is(alloc: Global, sign: Sign, text: &str) -> Result<bool, AllocError> {
    cond_is(alloc, is(alloc, A, sign, -5)?, text)
}

#[test]
fn prints_signs(rt: HostRuntime) -> Result<(), Fail> {
    let alloc = rt.alloc();
    assert!(rt; sign_is(alloc, Sign::Less, "a < - 5")?);
    assert!(rt; sign_is(alloc, Sign::LessEq, "a <= - 5")?);
    assert!(rt; sign_is(alloc, Sign::Greater, "a > - 5")?);
    assert!(rt; sign_is(alloc, Sign::GreaterEq, "a >= - 5")?);
    assert!(rt; sign_is(alloc, Sign::Equal, "a == - 5")?);
    assert!(rt; sign_is(alloc, Sign::NotEqual, "a != - 5")?);
    Ok(())
}
