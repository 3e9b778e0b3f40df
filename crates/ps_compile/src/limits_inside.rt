// The limits of alternatives and of paths, which are counted before any is made.
ghost use Rattle.std.specs.Prelude.{◌≡◌, ◌++◌, ◌∷◌, [], length, true, false};
ghost use Rattle.ps_compile.specs.Checks.{alternatives_checks, count_check, inner_checks, inside, paths_checks};
ghost use Rattle.ps_compile.specs.declared.limits.TheConstants as most;
ghost use Rattle.ps_compile.specs.inner.Counts.{paths_of};
ghost use Rattle.ps_compile.specs.inner.Drafts.{Tested};
ghost use Rattle.ps_compile.specs.inner.Inside.{inside_of};
ghost use Rattle.ps_graph.specs.Alternatives.{alternatives};
ghost use Rattle.ps_tree.specs.declared.limit_name.LimitName.TheVariants as limit;

use crate::compile_end::CompileEnd;
use crate::counts::{count_alternatives, count_block};
use crate::limits::{MOST_ALTERNATIVES, MOST_PATHS};
use ps_token::Place;
use ps_tree::{Cond, LimitName, Stmt, StmtKind, Test};

// Tests the limits that come before a statement's edges.
pub(crate) fn begin(place: Place, kind: &StmtKind) -> Result<(), CompileEnd>
    ensures { Tested result (alternatives_checks place kind.now ++ paths_checks place kind.now) }
{
    match test_alternatives(place, kind) {
        Ok(()) => {}
        Err(end) => return Err(end),
    }
    match test_paths(place, kind) {
        Ok(()) => Ok(()),
        Err(end) => Err(end),
    }
}

fn test_alternatives(place: Place, kind: &StmtKind) -> Result<(), CompileEnd>
    ensures { Tested result (alternatives_checks place kind.now) }
{
    match kind {
        StmtKind::Assume(cond) => test_one(place, cond, true),
        StmtKind::Assert(cond) => test_both(place, cond),
        StmtKind::If(test, _held, _failed) => match test {
            Test::Star => Ok(()),
            Test::Cond(cond) => test_both(place, cond),
        },
        StmtKind::While(test, _block) => match test {
            Test::Star => Ok(()),
            Test::Cond(cond) => test_both(place, cond),
        },
        StmtKind::Assign(_variable, _sum) => Ok(()),
        StmtKind::Havoc(_variable) => Ok(()),
        StmtKind::Skip => Ok(()),
        StmtKind::Atomic(_block) => Ok(()),
    }
}

// A condition and its negation.
fn test_both(place: Place, cond: &Cond) -> Result<(), CompileEnd>
    ensures { Tested result
        (count_check place limit.Alternatives
        (length (alternatives true cond.now)) most.MOST_ALTERNATIVES
        ∷ count_check place limit.Alternatives
        (length (alternatives false cond.now)) most.MOST_ALTERNATIVES
        ∷ []) }
{
    match test_one(place, cond, true) {
        Ok(()) => {}
        Err(end) => return Err(end),
    }
    match test_one(place, cond, false) {
        Ok(()) => Ok(()),
        Err(end) => Err(end),
    }
}

fn test_one(place: Place, cond: &Cond, holds: bool) -> Result<(), CompileEnd>
    ensures { Tested result
        (count_check place limit.Alternatives
        (length (alternatives holds cond.now)) most.MOST_ALTERNATIVES
        ∷ []) }
{
    if count_alternatives(cond, holds) > MOST_ALTERNATIVES {
        return Err(CompileEnd::Limit(place, LimitName::Alternatives));
    }
    Ok(())
}

fn test_paths(place: Place, kind: &StmtKind) -> Result<(), CompileEnd>
    ensures { Tested result (paths_checks place kind.now) }
{
    match kind {
        StmtKind::Atomic(block) => test_block(place, block.as_slice()),
        StmtKind::Assume(_cond) => Ok(()),
        StmtKind::Assert(_cond) => Ok(()),
        StmtKind::If(_test, _held, _failed) => Ok(()),
        StmtKind::While(_test, _block) => Ok(()),
        StmtKind::Assign(_variable, _sum) => Ok(()),
        StmtKind::Havoc(_variable) => Ok(()),
        StmtKind::Skip => Ok(()),
    }
}

fn test_block(place: Place, block: &[Stmt]) -> Result<(), CompileEnd>
    ensures { Tested result
        (count_check place limit.Paths (length (paths_of block.now)) most.MOST_PATHS ∷ []) }
{
    let count = count_block(block);
    if count.going.saturating_add(count.failing) > MOST_PATHS {
        return Err(CompileEnd::Limit(place, LimitName::Paths));
    }
    Ok(())
}

// Tests the limits of the statements in an atomic block.
pub(crate) fn test_inside(kind: &StmtKind) -> Result<(), CompileEnd>
    ensures { Tested result (inner_checks kind.now) }
{
    match kind {
        StmtKind::Atomic(block) => test_within(block.as_slice()),
        StmtKind::Assume(_cond) => Ok(()),
        StmtKind::Assert(_cond) => Ok(()),
        StmtKind::If(_test, _held, _failed) => Ok(()),
        StmtKind::While(_test, _block) => Ok(()),
        StmtKind::Assign(_variable, _sum) => Ok(()),
        StmtKind::Havoc(_variable) => Ok(()),
        StmtKind::Skip => Ok(()),
    }
}

#[cycle(within)]
fn test_within(block: &[Stmt]) -> Result<(), CompileEnd>
    ensures { Tested result (inside_of block.now) }
{
    for stmt in block {
        match test_alternatives(stmt.place, &stmt.kind) {
            Ok(()) => {}
            Err(end) => return Err(end),
        }
        match test_kind(&stmt.kind) {
            Ok(()) => {}
            Err(end) => return Err(end),
        }
    }
    Ok(())
}

#[cycle(within)]
fn test_kind(kind: &StmtKind) -> Result<(), CompileEnd>
    ensures { Tested result (inside kind.now) }
{
    match kind {
        StmtKind::Atomic(block) => test_within(block.as_slice()),
        StmtKind::If(_test, held, failed) => {
            match test_within(held.as_slice()) {
                Ok(()) => {}
                Err(end) => return Err(end),
            }
            match test_within(failed.as_slice()) {
                Ok(()) => Ok(()),
                Err(end) => Err(end),
            }
        }
        StmtKind::Assume(_cond) => Ok(()),
        StmtKind::Assert(_cond) => Ok(()),
        StmtKind::While(_test, _block) => Ok(()),
        StmtKind::Assign(_variable, _sum) => Ok(()),
        StmtKind::Havoc(_variable) => Ok(()),
        StmtKind::Skip => Ok(()),
    }
}
