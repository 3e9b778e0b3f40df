//! Rows that are negated and tightened, and rows that are read.
ghost use Rattle.std.specs.Prelude.{◌≢◌, pos};

use ps_rows::{Claim, read_rows};
use ps_term::{Pairs, Row, Term, TermEnd, Var, negate, tighten};
use std::alloc::{AllocError, Global};
use std::test::Fail;

const G: Var = Var::Global(7);

const L: Var = Var::Local(0, 3);

// The row `coefficient * g7 + constant <= 0`.
fn single(alloc: Global, coefficient: i128, constant: i128) -> Result<Row, AllocError>
    requires { coefficient ≢ pos 0 }
{
    let pairs = Pairs::from_list([(G, coefficient)].to_vec(alloc)?);
    Ok(Row {
        term: Term { pairs, constant },
    })
}

// The row `6 * g7 - 4 * l0@3 - 3 <= 0`.
fn double(alloc: Global) -> Result<Row, AllocError> {
    let pairs = Pairs::from_list([(G, 6), (L, -4)].to_vec(alloc)?);
    Ok(Row {
        term: Term {
            pairs,
            constant: -3,
        },
    })
}

fn is_negated(negated: &Row) -> bool {
    negated.term.pairs.as_slice() == [(G, -6), (L, 4)].as_slice() && negated.term.constant == 4
}

fn negates(alloc: Global) -> Result<bool, AllocError> {
    let negated = negate(alloc, &double(alloc)?).ok().ok_or(AllocError)?;
    Ok(is_negated(&negated))
}

fn negation_is_past(alloc: Global, coefficient: i128, constant: i128) -> Result<bool, AllocError>
    requires { coefficient ≢ pos 0 }
{
    let row = single(alloc, coefficient, constant)?;
    Ok(matches!(negate(alloc, &row), Err(TermEnd::Past128)))
}

#[test]
fn negates_rows(rt: HostRuntime) -> Result<(), Fail> {
    assert!(rt; negates(rt.alloc())?);
    Ok(())
}

#[test]
fn refuses_negations_past_128_bits(rt: HostRuntime) -> Result<(), Fail> {
    let alloc = rt.alloc();
    assert!(rt; negation_is_past(alloc, i128::MIN, 5)?);
    assert!(rt; negation_is_past(alloc, 1, i128::MIN)?);
    assert!(rt; negation_is_past(alloc, 1, -i128::MAX)?);
    Ok(())
}

// Whether the tightened row has this coefficient and this constant.
fn is_tightened(tight: &Row, coefficient: i128, constant: i128) -> bool {
    tight.term.pairs.as_slice() == [(G, coefficient)].as_slice() && tight.term.constant == constant
}

fn tightens(alloc: Global, old: (i128, i128), new: (i128, i128)) -> Result<bool, AllocError>
    requires { old.0 ≢ pos 0 }
{
    let tight = tighten(alloc, &single(alloc, old.0, old.1)?)?;
    Ok(is_tightened(&tight, new.0, new.1))
}

fn keeps_bare_rows(alloc: Global) -> Result<bool, AllocError> {
    let bare = Row {
        term: Term::from_constant(alloc, -7),
    };
    let tight = tighten(alloc, &bare)?.copy(alloc)?;
    Ok(tight.term.constant == -7)
}

// The coefficient and the constant before and after; 2^127 is the factor of the third row.
#[test]
fn tightens_rows(rt: HostRuntime) -> Result<(), Fail> {
    let alloc = rt.alloc();
    assert!(rt; tightens(alloc, (6, 5), (1, 1))?);
    assert!(rt; tightens(alloc, (-6, -5), (-1, 0))?);
    assert!(rt; tightens(alloc, (i128::MIN, 5), (-1, 1))?);
    assert!(rt; keeps_bare_rows(alloc)?);
    Ok(())
}

const CLAIM: &[u8] =
    b"rows 2\nrow 1*g0 -3*l1@0 1\nrow -1*g0 0\nby 1 340282366920938463463374607431768211455\nend\n";

fn claim(alloc: Global) -> Result<Claim, AllocError> {
    read_rows(alloc, CLAIM, 5).ok().ok_or(AllocError)
}

fn has_multipliers(alloc: Global, claim: &Claim) -> Result<bool, AllocError> {
    let multipliers = claim.multipliers.copy(alloc)?.into_list();
    Ok(multipliers.as_slice() == [1, u128::MAX].as_slice())
}

fn has_two_rows(alloc: Global, claim: &Claim) -> Result<bool, AllocError> {
    Ok(claim.rows.copy(alloc)?.into_list().len() == 2)
}

#[test]
fn reads_a_claim(rt: HostRuntime) -> Result<(), Fail> {
    let claim = claim(rt.alloc())?;
    assert!(rt; has_multipliers(rt.alloc(), &claim)?);
    assert!(rt; has_two_rows(rt.alloc(), &claim)?);
    Ok(())
}
