//! What conditions are printed as: parentheses stand around an `And` or `Or` inside an `And` or after `!`, and around an `Or`
//! inside an `Or`.
use crate::small_programs::{and, cond_is, not, or, p, q};
use ps_syntax::Cond;
use sqlite_items::Items;
use std::alloc::{AllocError, Global};
use std::test::Fail;

fn p_and_q(alloc: Global) -> Result<Cond, AllocError> {
    and(alloc, p(alloc)?, q(alloc)?)
}

fn p_or_q(alloc: Global) -> Result<Cond, AllocError> {
    or(alloc, p(alloc)?, q(alloc)?)
}

fn and_in_or(alloc: Global) -> Result<Cond, AllocError> {
    or(alloc, p_and_q(alloc)?, p(alloc)?)
}

fn or_in_and(alloc: Global) -> Result<Cond, AllocError> {
    and(alloc, q(alloc)?, p_or_q(alloc)?)
}

fn and_in_and(alloc: Global) -> Result<Cond, AllocError> {
    and(alloc, p_and_q(alloc)?, p(alloc)?)
}

fn or_in_or(alloc: Global) -> Result<Cond, AllocError> {
    or(alloc, p(alloc)?, p_or_q(alloc)?)
}

fn two_nots(alloc: Global) -> Result<Cond, AllocError> {
    and(alloc, not(alloc, p(alloc)?)?, not(alloc, q(alloc)?)?)
}

#[test]
fn prints_conditions(rt: HostRuntime) -> Result<(), Fail> {
    let alloc = rt.alloc();
    assert!(rt; cond_is(alloc, p_and_q(alloc)?, "a < 0 && b >= 1")?);
    assert!(rt; cond_is(alloc, p_or_q(alloc)?, "a < 0 || b >= 1")?);
    assert!(rt; cond_is(alloc, Cond::And(Items::new(alloc)), "0 == 0")?);
    assert!(rt; cond_is(alloc, Cond::Or(Items::new(alloc)), "0 != 0")?);
    Ok(())
}

#[test]
fn prints_conditions_in_conditions(rt: HostRuntime) -> Result<(), Fail> {
    let alloc = rt.alloc();
    assert!(rt; cond_is(alloc, and_in_or(alloc)?, "a < 0 && b >= 1 || a < 0")?);
    assert!(rt; cond_is(alloc, or_in_and(alloc)?, "b >= 1 && ( a < 0 || b >= 1 )")?);
    assert!(rt; cond_is(alloc, and_in_and(alloc)?, "( a < 0 && b >= 1 ) && a < 0")?);
    assert!(rt; cond_is(alloc, or_in_or(alloc)?, "a < 0 || ( a < 0 || b >= 1 )")?);
    Ok(())
}

#[test]
fn prints_negations(rt: HostRuntime) -> Result<(), Fail> {
    let alloc = rt.alloc();
    assert!(rt; cond_is(alloc, not(alloc, p(alloc)?)?, "! a < 0")?);
    assert!(rt; cond_is(alloc, not(alloc, p_and_q(alloc)?)?, "! ( a < 0 && b >= 1 )")?);
    assert!(rt; cond_is(alloc, not(alloc, p_or_q(alloc)?)?, "! ( a < 0 || b >= 1 )")?);
    assert!(rt; cond_is(alloc, not(alloc, not(alloc, p(alloc)?)?)?, "! ! a < 0")?);
    assert!(rt; cond_is(alloc, two_nots(alloc)?, "! a < 0 && ! b >= 1")?);
    Ok(())
}
