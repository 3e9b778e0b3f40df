// The alternatives of relations and conditions, as rows.
ghost use Rattle.std.specs.Prelude.{◌≡◌, ◌≤ℤ◌, ◌∷◌, ◌++◌, [], List, pos, ℕ, IfOk, OnOk, IsErrOf, if◌then◌else◌, map};
ghost use Rattle.std.specs.List.{AllByRecursion};
ghost use Rattle.ps_compile.specs.Compiled.{first_alternative};
ghost use Rattle.ps_compile.specs.Conditions.{IsCompilableCond, IsCompilableRelation, IsCompilableSum};
ghost use Rattle.ps_compile.specs.Ops.{bound_row};
ghost use Rattle.ps_compile.specs.inner.Members.{any_of, each_of};
ghost use Rattle.ps_graph.specs.Alternatives.{alternatives, at_most, of_relation, opposite, product};
ghost use Rattle.ps_tree.specs.declared.cond.Cond.{Rel};
ghost use Rattle.ps_term.specs.declared.row.Row.{Row};

use crate::sums::bound_row;
use ps_list::{Sequence, copies};
use ps_term::{Row, TermEnd};
use ps_tree::{Cond, Relation, Sign, Sum};
use std::alloc::{AllocError, Global};

// The rows of a relation's first alternative; only `!=` has a second one. They are `Past128` only
// where a number isn't small.
pub(crate) fn first_rows(
    alloc: Global,
    sign: Sign,
    left: &Sum,
    right: &Sum,
) -> Result<Vec<Row>, TermEnd>
    ensures is { IfOk result (λ rows. rows.items
        ≡ map bound_row (first_alternative (of_relation sign left.now right.now))) }
    ensures past { IsErrOf result TermEnd.Past128 → (globals locals : ℕ)
        → IsCompilableSum globals locals left.now → IsCompilableSum globals locals right.now → ⊥ }
{
    match sign {
        Sign::Less => one_row(alloc, left, right, 1),
        Sign::LessEq => one_row(alloc, left, right, 0),
        Sign::Greater => one_row(alloc, right, left, 1),
        Sign::GreaterEq => one_row(alloc, right, left, 0),
        Sign::Equal => equal_rows(alloc, left, right),
        Sign::NotEqual => one_row(alloc, left, right, 1),
    }
}

// The row `left - right + plus <= 0` alone.
fn one_row(alloc: Global, left: &Sum, right: &Sum, plus: i128) -> Result<Vec<Row>, TermEnd>
    requires { (pos 0 ≤ℤ plus) × (plus ≤ℤ pos 1) }
    ensures is { IfOk result (λ rows. rows.items ≡ bound_row (record {
      left = left.now;
      right = right.now;
      plus = plus;
    }) ∷ []) }
    ensures past { IsErrOf result TermEnd.Past128 → (globals locals : ℕ)
        → IsCompilableSum globals locals left.now → IsCompilableSum globals locals right.now → ⊥ }
{
    let row = match bound_row(alloc, left, right, plus) {
        Ok(row) => row,
        Err(end) => return Err(end),
    };
    let mut rows = Vec::new(alloc);
    rows.push(row).map_err(|_| TermEnd::Memory(AllocError))?;
    Ok(rows)
}

// The rows of `left <= right` and `right <= left`.
fn equal_rows(alloc: Global, left: &Sum, right: &Sum) -> Result<Vec<Row>, TermEnd>
    ensures is { IfOk result (λ rows. rows.items
        ≡ map bound_row (at_most left.now right.now ∷ at_most right.now left.now ∷ [])) }
    ensures past { IsErrOf result TermEnd.Past128 → (globals locals : ℕ)
        → IsCompilableSum globals locals left.now → IsCompilableSum globals locals right.now → ⊥ }
{
    let mut rows = match one_row(alloc, left, right, 0) {
        Ok(rows) => rows,
        Err(end) => return Err(end),
    };
    let row = match bound_row(alloc, right, left, 0) {
        Ok(row) => row,
        Err(end) => return Err(end),
    };
    rows.push(row).map_err(|_| TermEnd::Memory(AllocError))?;
    Ok(rows)
}

// The sign that is looked at where a relation holds, or doesn't.
fn sign_at(holds: bool, sign: Sign) -> Sign
    ensures { result ≡ (if holds then sign else opposite sign) }
{
    if holds {
        return sign;
    }
    match sign {
        Sign::Less => Sign::GreaterEq,
        Sign::LessEq => Sign::Greater,
        Sign::Greater => Sign::LessEq,
        Sign::GreaterEq => Sign::Less,
        Sign::Equal => Sign::NotEqual,
        Sign::NotEqual => Sign::Equal,
    }
}

// The alternatives of a relation that holds, or doesn't.
fn of_relation(
    alloc: Global,
    holds: bool,
    relation: &Relation,
) -> Result<Vec<Sequence<Row>>, TermEnd>
    ensures is { IfOk result (λ all. all.items
        ≡ map (map bound_row) (alternatives holds (Rel relation.now))) }
    ensures past { IsErrOf result TermEnd.Past128 → (globals locals : ℕ)
        → IsCompilableRelation globals locals relation.now → ⊥ }
{
    let sign = sign_at(holds, relation.sign);
    let first = match first_rows(alloc, sign, &relation.left, &relation.right) {
        Ok(rows) => rows,
        Err(end) => return Err(end),
    };
    let mut all = Vec::new(alloc);
    all.push(Sequence::from_list(first))
        .map_err(|_| TermEnd::Memory(AllocError))?;
    match sign {
        Sign::NotEqual => {
            let second = match one_row(alloc, &relation.right, &relation.left, 1) {
                Ok(rows) => rows,
                Err(end) => return Err(end),
            };
            all.push(Sequence::from_list(second))
                .map_err(|_| TermEnd::Memory(AllocError))?;
            Ok(all)
        }
        _ => Ok(all),
    }
}

// The alternatives of a condition that holds, or doesn't, each as its rows, in time of them and of
// those of its members. They are `Past128` only where a number isn't small.
#[cycle(alternatives)]
pub(crate) fn alternatives_of(
    alloc: Global,
    holds: bool,
    cond: &Cond,
) -> Result<Vec<Sequence<Row>>, TermEnd>
    ensures is { IfOk result (λ all. all.items
        ≡ map (map bound_row) (alternatives holds cond.now)) }
    ensures past { IsErrOf result TermEnd.Past128 → (globals locals : ℕ)
        → IsCompilableCond globals locals cond.now → ⊥ }
{
    match cond {
        Cond::Rel(relation) => of_relation(alloc, holds, relation),
        Cond::Not(negated) => alternatives_of(alloc, !holds, negated.get()),
        Cond::And(members) => {
            if holds {
                one_of_each(alloc, holds, members.as_slice())
            } else {
                one_of_any(alloc, holds, members.as_slice())
            }
        }
        Cond::Or(members) => {
            if holds {
                one_of_any(alloc, holds, members.as_slice())
            } else {
                one_of_each(alloc, holds, members.as_slice())
            }
        }
    }
}

// The alternatives that take one of each member. After a member without any none is looked at.
#[cycle(alternatives)]
fn one_of_each(alloc: Global, holds: bool, members: &[Cond]) -> Result<Vec<Sequence<Row>>, TermEnd>
    ensures is { IfOk result (λ all. all.items
        ≡ map (map bound_row) (each_of holds members.now)) }
    ensures past { IsErrOf result TermEnd.Past128 → (globals locals : ℕ)
        → AllByRecursion (IsCompilableCond globals locals) members.now → ⊥ }
{
    let mut all = match no_rows(alloc) {
        Ok(all) => all,
        Err(end) => return Err(TermEnd::Memory(end)),
    };
    for member in members {
        if all.is_empty() {
            return Ok(all);
        }
        let next = match alternatives_of(alloc, holds, member) {
            Ok(next) => next,
            Err(end) => return Err(end),
        };
        all = match product(alloc, all.as_slice(), next.as_slice()) {
            Ok(more) => more,
            Err(end) => return Err(TermEnd::Memory(end)),
        };
    }
    Ok(all)
}

// The alternatives that take one of any member.
#[cycle(alternatives)]
fn one_of_any(alloc: Global, holds: bool, members: &[Cond]) -> Result<Vec<Sequence<Row>>, TermEnd>
    ensures is { IfOk result (λ all. all.items
        ≡ map (map bound_row) (any_of holds members.now)) }
    ensures past { IsErrOf result TermEnd.Past128 → (globals locals : ℕ)
        → AllByRecursion (IsCompilableCond globals locals) members.now → ⊥ }
{
    let mut all = Vec::new(alloc);
    for member in members {
        let mut next = alternatives_of(alloc, holds, member)?;
        all.append(&mut next).map_err(TermEnd::Memory)?;
    }
    Ok(all)
}

// The one alternative without rows.
fn no_rows(alloc: Global) -> Result<Vec<Sequence<Row>>, AllocError>
    ensures { IfOk result (λ all. all.items ≡ [] ∷ []) }
{
    let mut all = Vec::new(alloc);
    all.push(Sequence::from_list(Vec::new(alloc)))
        .map_err(|_| AllocError)?;
    Ok(all)
}

// Each of the first with each of the second after it, the first slowest, in time of all rows.
fn product(
    alloc: Global,
    firsts: &[Sequence<Row>],
    seconds: &[Sequence<Row>],
) -> Result<Vec<Sequence<Row>>, AllocError>
    ensures { IfOk result (λ all. all.items ≡ product firsts.now seconds.now) }
{
    let mut all = Vec::new(alloc);
    for first in firsts {
        append_each(alloc, &mut all, first, seconds)?;
    }
    Ok(all)
}

// Adds the first rows with each of the second after them.
fn append_each(
    alloc: Global,
    all: &mut Vec<Sequence<Row>>,
    first: &Sequence<Row>,
    seconds: &[Sequence<Row>],
) -> Result<(), AllocError>
    ensures { OnOk result (all.new.items
        ≡ all.old.items ++ map (λ (second : List Row). first.now ++ second) seconds.now) }
{
    for second in seconds {
        let mut rows = copies(alloc, first.as_slice())?;
        rows.append(&mut copies(alloc, second.as_slice())?)?;
        all.push(Sequence::from_list(rows)).map_err(|_| AllocError)?;
    }
    Ok(())
}
