//! The order of atoms, and the ranges of predicates.
use crate::predicates::row;
use ps_atom::{Atom, Predicate, Threads};
use ps_term::Var;
use std::alloc::{AllocError, Global};
use std::cmp::Ordering;
use std::test::Fail;

fn atom(alloc: Global, predicate: u32, threads: &[u32]) -> Result<Atom, AllocError> {
    let threads = Threads::from_slice(alloc, threads)?;
    Ok(Atom { predicate, threads })
}

// How predicate 1 of the threads 2 and 7 compares with the atom.
fn order(alloc: Global, predicate: u32, threads: &[u32]) -> Result<Ordering, AllocError> {
    let one = atom(alloc, 1, &[2, 7])?.copy(alloc)?;
    let other = atom(alloc, predicate, threads)?;
    Ok(one.compare(&other))
}

#[test]
fn compares_atoms(rt: HostRuntime) -> Result<(), Fail> {
    let alloc = rt.alloc();
    assert!(rt; order(alloc, 1, &[2, 7])? == Ordering::Equal);
    assert!(rt; order(alloc, 1, &[2])? == Ordering::Greater);
    assert!(rt; order(alloc, 1, &[2, 8])? == Ordering::Less);
    assert!(rt; order(alloc, 0, &[9])? == Ordering::Greater);
    assert!(rt; order(alloc, 2, &[])? == Ordering::Less);
    Ok(())
}

// Whether the variable is in range for one global and two locals, in a predicate of this arity.
fn is_in_range(alloc: Global, arity: u32, variable: Var) -> Result<bool, AllocError> {
    let row = row(alloc, &[(variable, 5)], 0)?;
    Ok(Predicate { arity, row }.is_in_range(1, 2))
}

#[test]
fn tells_what_is_in_range(rt: HostRuntime) -> Result<(), Fail> {
    let alloc = rt.alloc();
    assert!(rt; is_in_range(alloc, 4, Var::Local(3, 1))?);
    assert!(rt; is_in_range(alloc, 0, Var::Global(0))?);
    Ok(())
}

#[test]
fn tells_what_is_out_of_range(rt: HostRuntime) -> Result<(), Fail> {
    let alloc = rt.alloc();
    assert!(rt; !is_in_range(alloc, 3, Var::Local(3, 1))?);
    assert!(rt; !is_in_range(alloc, 4, Var::Local(3, 2))?);
    assert!(rt; !is_in_range(alloc, 0, Var::Global(1))?);
    assert!(rt; !is_in_range(alloc, 4, Var::Havoc(0))?);
    assert!(rt; !is_in_range(alloc, 5, Var::Global(0))?);
    Ok(())
}
