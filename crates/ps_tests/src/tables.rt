//! Tables of predicates, with their answers shown as texts.
use crate::predicates::{full_table, of_five_threads, row, shows};
use ps_atom::{Predicate, Predicates};
use ps_term::{Row, Var};
use std::alloc::{AllocError, Global};
use std::test::Fail;

fn pushes(alloc: Global, table: &mut Predicates, row: Row, want: &str) -> Result<bool, AllocError> {
    let predicate = Predicate { arity: 2, row }.copy(alloc)?;
    let shown = match table.push(alloc, predicate) {
        Ok(number) => format!(in alloc; "{number}")?,
        Err(end) => format!(in alloc; "{end}")?,
    };
    Ok(shown.as_str() == want)
}

fn scaled(alloc: Global) -> Result<Row, AllocError> {
    row(alloc, &[(Var::Global(0), 2)], 3)
}

fn rising(alloc: Global) -> Result<Row, AllocError> {
    row(alloc, &[(Var::Local(3, 0), -1), (Var::Local(7, 0), 1)], 0)
}

#[test]
fn gives_new_predicates(rt: HostRuntime) -> Result<(), Fail> {
    let alloc = rt.alloc();
    let table = Predicates::new(alloc)?;
    assert!(rt;
        shows(
            alloc,
            &table,
            &scaled(alloc)?,
            "new 0 [(Global(0), 1)] 2 []"
        )?
    );
    let want = "new 2 [(Local(0, 0), -1), (Local(1, 0), 1)] 0 [3, 7]";
    assert!(rt; shows(alloc, &table, &rising(alloc)?, want)?);
    Ok(())
}

fn slots(alloc: Global) -> Result<Row, AllocError> {
    row(alloc, &[(Var::Local(0, 0), -1), (Var::Local(1, 0), 1)], 0)
}

fn falling(alloc: Global) -> Result<Row, AllocError> {
    row(alloc, &[(Var::Local(3, 0), 1), (Var::Local(7, 0), -1)], 0)
}

fn copy_shows(alloc: Global, table: &Predicates) -> Result<bool, AllocError> {
    let copied = table.copy(alloc)?;
    Ok(shows(alloc, &copied, &falling(alloc)?, "known 1 [7, 3]")? && copied.list().len() == 3)
}

#[test]
fn gives_least_numbers(rt: HostRuntime) -> Result<(), Fail> {
    let alloc = rt.alloc();
    let mut table = Predicates::new(alloc)?;
    assert!(rt; pushes(alloc, &mut table, slots(alloc)?, "1")?);
    assert!(rt; pushes(alloc, &mut table, slots(alloc)?, "2")?);
    assert!(rt; copy_shows(alloc, &table)?);
    Ok(())
}

// Whether an empty table answers this of the row without variables.
fn bare_shows(alloc: Global, constant: i128, want: &str) -> Result<bool, AllocError> {
    let table = Predicates::new(alloc)?;
    shows(alloc, &table, &row(alloc, &[], constant)?, want)
}

#[test]
fn tells_rows_without_variables(rt: HostRuntime) -> Result<(), Fail> {
    let alloc = rt.alloc();
    assert!(rt; bare_shows(alloc, 0, "trivial")?);
    assert!(rt; bare_shows(alloc, -3, "trivial")?);
    assert!(rt; bare_shows(alloc, 1, "false")?);
    Ok(())
}

#[test]
fn refuses_five_threads(rt: HostRuntime) -> Result<(), Fail> {
    let alloc = rt.alloc();
    let table = Predicates::new(alloc)?;
    let want = "5 threads occur in a row, more than 4";
    assert!(rt; shows(alloc, &table, &of_five_threads(alloc)?, want)?);
    Ok(())
}

// Whether a full table answers this of the row `g0 + constant <= 0`.
fn full_shows(alloc: Global, constant: i128, want: &str) -> Result<bool, AllocError> {
    let table = full_table(alloc)?;
    shows(
        alloc,
        &table,
        &row(alloc, &[(Var::Global(0), 1)], constant)?,
        want,
    )
}

#[test]
fn looks_up_in_a_full_table(rt: HostRuntime) -> Result<(), Fail> {
    let alloc = rt.alloc();
    assert!(rt; full_shows(alloc, 127, "known 127 []")?);
    assert!(rt; full_shows(alloc, 128, "the table of predicates is full")?);
    Ok(())
}

#[test]
fn refuses_the_arity_first(rt: HostRuntime) -> Result<(), Fail> {
    let alloc = rt.alloc();
    let mut table = full_table(alloc)?;
    let want = "5 threads occur in a row, more than 4";
    assert!(rt; shows(alloc, &table, &of_five_threads(alloc)?, want)?);
    let want = "the table of predicates is full";
    assert!(rt; pushes(alloc, &mut table, of_five_threads(alloc)?, want)?);
    Ok(())
}
