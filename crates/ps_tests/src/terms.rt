//! Sums of terms, and terms put for variables.
ghost use Rattle.ps_term.specs.Pairs.{IsCanonical};

use ps_term::{Pairs, Term, TermEnd, Var, add_scaled, substitute};
use std::alloc::{AllocError, Global};
use std::test::Fail;

const G: Var = Var::Global(7);

const L: Var = Var::Local(0, 3);

const H: Var = Var::Havoc(0);

fn term(alloc: Global, pairs: &[(Var, i128)], constant: i128) -> Result<Term, AllocError>
    requires { IsCanonical pairs.now }
{
    let list = Pairs::from_list(pairs.to_vec(alloc)?).copy(alloc)?;
    Ok(Term {
        pairs: Pairs::from_list(list.into_list()),
        constant,
    })
}

fn first(alloc: Global) -> Result<Term, AllocError> {
    term(alloc, &[(G, 5), (L, -6)], 1)
}

fn second(alloc: Global) -> Result<Term, AllocError> {
    term(alloc, &[(L, 3), (H, 1)], 4)
}

fn least(alloc: Global) -> Result<Term, AllocError> {
    term(alloc, &[(L, i128::MIN)], 0)
}

fn sum(alloc: Global) -> Result<Term, AllocError> {
    let sum = add_scaled(alloc, &first(alloc)?, 2, &second(alloc)?)
        .ok()
        .ok_or(AllocError)?;
    sum.copy(alloc)
}

fn is_sum(sum: &Term) -> bool {
    sum.pairs.as_slice() == [(G, 5), (H, 2)].as_slice() && sum.constant == 9
}

fn finds_variables(sum: &Term) -> bool {
    sum.pairs.coefficient(H) == 2
        && sum.pairs.coefficient(L) == 0
        && sum.pairs.next_after(Some(G)) == Some(H)
}

fn is_past(made: &Result<Term, TermEnd>) -> bool {
    matches!(made, Err(TermEnd::Past128))
}

fn product_is_past(alloc: Global) -> Result<bool, AllocError> {
    let least = least(alloc)?;
    Ok(is_past(&add_scaled(alloc, &second(alloc)?, -1, &least)))
}

fn sum_is_past(alloc: Global) -> Result<bool, AllocError> {
    let great = Term::from_constant(alloc, i128::MAX);
    Ok(is_past(&add_scaled(alloc, &first(alloc)?, 1, &great)))
}

#[test]
fn adds_scaled_terms(rt: HostRuntime) -> Result<(), Fail> {
    let sum = sum(rt.alloc())?;
    assert!(rt; is_sum(&sum));
    assert!(rt; finds_variables(&sum));
    Ok(())
}

#[test]
fn refuses_sums_past_128_bits(rt: HostRuntime) -> Result<(), Fail> {
    assert!(rt; product_is_past(rt.alloc())?);
    assert!(rt; sum_is_past(rt.alloc())?);
    Ok(())
}

fn substituted(alloc: Global) -> Result<Term, AllocError> {
    let given = term(alloc, &[(G, 2), (L, 3)], -1)?;
    let after = [
        (H, Term::from_constant(alloc, 8)),
        (G, term(alloc, &[(G, 1), (L, -1)], 1)?),
    ];
    substitute(alloc, &given, &after).ok().ok_or(AllocError)
}

fn is_substituted(new: &Term) -> bool {
    new.pairs.as_slice() == [(G, 2), (L, 1)].as_slice() && new.constant == 1
}

// The sum is past the greatest number before the constant brings it back.
fn substitution_is_past(alloc: Global) -> Result<bool, AllocError> {
    let far = [
        (G, Term::from_constant(alloc, i128::MAX)),
        (L, Term::from_constant(alloc, i128::MAX)),
    ];
    let ones = term(alloc, &[(G, 1), (L, 1)], -5)?;
    Ok(is_past(&substitute(alloc, &ones, &far)))
}

#[test]
fn substitutes_terms(rt: HostRuntime) -> Result<(), Fail> {
    assert!(rt; is_substituted(&substituted(rt.alloc())?));
    assert!(rt; substitution_is_past(rt.alloc())?);
    Ok(())
}
