//! Vectors of stages, and their supports.
ghost use Rattle.std.specs.Prelude.{◌≢◌, pos};

use ps_elim::{Elim, Stage, Support, Vector, eliminate, has_few_variables};
use ps_list::Sequence;
use ps_term::{Pairs, Row, Term, Var};
use std::alloc::{AllocError, Global};
use std::test::Fail;

// The row `coefficient * g0 + g1 <= 0`.
fn row(alloc: Global, coefficient: i128) -> Result<Row, AllocError>
    requires { coefficient ≢ pos 0 }
{
    let list = [(Var::Global(0), coefficient), (Var::Global(1), 1)].to_vec(alloc)?;
    Ok(Row {
        term: Term {
            pairs: Pairs::from_list(list),
            constant: 0,
        },
    })
}

// g0 + g1 <= 0 and -g0 + g1 <= 0.
fn rows(alloc: Global) -> Result<Vec<Row>, AllocError> {
    let mut rows = Vec::new(alloc);
    rows.push(row(alloc, 1)?)?;
    rows.push(row(alloc, -1)?)?;
    Ok(rows)
}

// Their stages: the vectors 1 0 and 0 1 before g0, and 1 1 before g1.
fn stages(alloc: Global) -> Result<Sequence<Stage>, AllocError> {
    let rows = rows(alloc)?;
    if rows.len() > 2 || !has_few_variables(rows.as_slice()) {
        return Err(AllocError);
    }
    match eliminate(alloc, rows.as_slice())? {
        Elim::Stages(stages) => Ok(stages),
        _ => Err(AllocError),
    }
}

fn vector(stages: &[Stage], stage: usize, place: usize) -> Option<&Vector> {
    stages.get(stage)?.vectors.as_slice().get(place)
}

fn is_strictly_inside(alloc: Global, vector: &Vector, other: &Vector) -> Result<bool, AllocError> {
    if vector.places() != other.places() {
        return Err(AllocError);
    }
    let support = Support::new(alloc, vector)?.copy(alloc)?;
    let around = Support::new(alloc, other)?;
    Ok(support.inside(&around) && support.strictly_inside(&around))
}

fn is_same(alloc: Global, vector: &Vector, other: &Vector) -> Result<bool, AllocError> {
    if vector.places() != other.places() {
        return Err(AllocError);
    }
    let support = Support::new(alloc, vector)?;
    let beside = Support::new(alloc, other)?;
    Ok(support.is_same(&beside))
}

fn compares(alloc: Global) -> Result<bool, AllocError> {
    let stages = stages(alloc)?;
    let unit = vector(stages.as_slice(), 0, 0).ok_or(AllocError)?;
    let other = vector(stages.as_slice(), 0, 1).ok_or(AllocError)?;
    let sum = vector(stages.as_slice(), 1, 0).ok_or(AllocError)?;
    Ok(
        is_strictly_inside(alloc, unit, sum)?
            && !is_strictly_inside(alloc, sum, sum)?
            && !is_strictly_inside(alloc, unit, other)?
            && is_same(alloc, sum, sum)?
            && !is_same(alloc, unit, other)?,
    )
}

fn has_entries(alloc: Global) -> Result<bool, AllocError> {
    let stages = stages(alloc)?;
    let unit = vector(stages.as_slice(), 0, 1)
        .ok_or(AllocError)?
        .copy(alloc)?;
    Ok(
        unit.places() == 2
            && unit.to_list(alloc)?.as_slice() == [0, 1].as_slice()
            && (unit.places() < 2 || unit.entry(1) == 1),
    )
}

#[test]
fn compares_supports(rt: HostRuntime) -> Result<(), Fail> {
    assert!(rt; compares(rt.alloc())?);
    Ok(())
}

#[test]
fn gives_entries(rt: HostRuntime) -> Result<(), Fail> {
    assert!(rt; has_entries(rt.alloc())?);
    Ok(())
}
