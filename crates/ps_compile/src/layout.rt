// The layout of the body.
ghost use Rattle.std.specs.Prelude.{◌≡◌, ◌∷◌, [], ◌++◌, ◌+◌, length, true, false, MatchResult};
ghost use Rattle.ps_compile.specs.Checks.{checks};
ghost use Rattle.ps_compile.specs.Layout.{inner, inner_of, opened_of, own_site, sites, sites_of, block_start};
ghost use Rattle.ps_compile.specs.Ends.{IsCompileEnd};
ghost use Rattle.ps_compile.specs.inner.Compilable.{BlockIsCompilable, StmtIsCompilable, TestIsCompilable};
ghost use Rattle.ps_compile.specs.inner.Drafts.{Lays, OpensIf, OpensWhile, if_site, while_site};
ghost use Rattle.ps_graph.specs.Follows.{going_to};
ghost use Rattle.ps_graph.specs.Paths.{paths};

use crate::compile_end::CompileEnd;
use crate::drafts::{drafts_of, drafts_of_test};
use crate::limits_edges::finish;
use crate::limits_inside::begin;
use crate::plan::{Plan, start, tail};
use ps_token::Place;
use ps_tree::{Stmt, StmtKind, Test};
use std::alloc::Global;

// Lays out a block from a location to another. Where a statement goes on to is made before what stands in it.
#[cycle(layout)]
pub(crate) fn lay_block(
    alloc: Global,
    block: &[Stmt],
    a: usize,
    z: usize,
    plan: &mut Plan,
) -> Result<(), CompileEnd>
    requires { BlockIsCompilable block.now }
    ensures { Lays result 0 plan.old plan.new
        (sites_of block.now a z (length plan.old.owners.items)) (inner_of block.now) }
{
    let mut from = a;
    for i in 0..block.len() {
        let to = match start(tail(block, i + 1), z, plan) {
            Ok(to) => to,
            Err(end) => return Err(CompileEnd::Memory(end)),
        };
        match lay_stmt(alloc, &block[i], from, to, plan) {
            Ok(()) => {}
            Err(end) => return Err(end),
        }
        from = to;
    }
    Ok(())
}

// Lays out a statement from a location to another.
#[cycle(layout)]
fn lay_stmt(
    alloc: Global,
    stmt: &Stmt,
    a: usize,
    b: usize,
    plan: &mut Plan,
) -> Result<(), CompileEnd>
    requires { StmtIsCompilable stmt.now.kind }
    ensures { Lays result 0 plan.old plan.new
        (sites stmt.now.place stmt.now.kind a b (length plan.old.owners.items))
        (inner stmt.now.kind) }
{
    let place = stmt.place;
    match &stmt.kind {
        StmtKind::If(test, held, failed) => {
            let held = held.as_slice();
            let failed = failed.as_slice();
            let (first, second) = match open_if(
                alloc, place, &stmt.kind, test, held, failed, a, b, plan,
            ) {
                Ok(starts) => starts,
                Err(end) => return Err(end),
            };
            match lay_block(alloc, held, first, b, plan) {
                Ok(()) => {}
                Err(end) => return Err(end),
            }
            lay_block(alloc, failed, second, b, plan)
        }
        StmtKind::While(test, block) => {
            let block = block.as_slice();
            let first = match open_while(alloc, place, &stmt.kind, test, block, a, b, plan) {
                Ok(first) => first,
                Err(end) => return Err(end),
            };
            lay_block(alloc, block, first, a, plan)
        }
        StmtKind::Assign(_variable, _sum) => lay_simple(alloc, place, &stmt.kind, a, b, plan),
        StmtKind::Havoc(_variable) => lay_simple(alloc, place, &stmt.kind, a, b, plan),
        StmtKind::Assume(_cond) => lay_simple(alloc, place, &stmt.kind, a, b, plan),
        StmtKind::Assert(_cond) => lay_simple(alloc, place, &stmt.kind, a, b, plan),
        StmtKind::Skip => lay_simple(alloc, place, &stmt.kind, a, b, plan),
        StmtKind::Atomic(_block) => lay_simple(alloc, place, &stmt.kind, a, b, plan),
    }
}

// A statement that is run in one go.
fn lay_simple(
    alloc: Global,
    place: Place,
    kind: &StmtKind,
    a: usize,
    b: usize,
    plan: &mut Plan,
) -> Result<(), CompileEnd>
    requires { StmtIsCompilable kind.now }
    ensures { Lays result 0 plan.old plan.new
        (own_site place kind.now a (length plan.old.owners.items) (going_to b (paths kind.now))
        ∷ [])
        0 }
{
    match begin(place, kind) {
        Ok(()) => {}
        Err(end) => return Err(end),
    }
    let due = match drafts_of(alloc, kind, a, b) {
        Ok(due) => due,
        Err(end) => return Err(CompileEnd::Memory(end)),
    };
    match finish(alloc, place, kind, due, plan) {
        Ok(()) => Ok(()),
        Err(end) => Err(end),
    }
}

// Adds the edges of an `if`, and answers where its blocks start.
fn open_if(
    alloc: Global,
    place: Place,
    kind: &StmtKind,
    test: &Test,
    held: &[Stmt],
    failed: &[Stmt],
    a: usize,
    b: usize,
    plan: &mut Plan,
) -> Result<(usize, usize), CompileEnd>
    requires { TestIsCompilable test.now }
    ensures { MatchResult result
        (OpensIf 0 plan.old plan.new place kind.now test.now held.now failed.now a b)
        (IsCompileEnd (checks (length plan.old.drafts.items)
        (if_site place kind.now test.now held.now failed.now a b (length plan.old.owners.items)
        ∷ []))) }
{
    match begin(place, kind) {
        Ok(()) => {}
        Err(end) => return Err(end),
    }
    let first = match start(held, b, plan) {
        Ok(first) => first,
        Err(end) => return Err(CompileEnd::Memory(end)),
    };
    let second = match start(failed, b, plan) {
        Ok(second) => second,
        Err(end) => return Err(CompileEnd::Memory(end)),
    };
    let due = match drafts_of_test(alloc, test, a, first, second) {
        Ok(due) => due,
        Err(end) => return Err(CompileEnd::Memory(end)),
    };
    match finish(alloc, place, kind, due, plan) {
        Ok(()) => Ok((first, second)),
        Err(end) => Err(end),
    }
}

// Adds the edges of a `while`, and answers where its block starts.
fn open_while(
    alloc: Global,
    place: Place,
    kind: &StmtKind,
    test: &Test,
    block: &[Stmt],
    a: usize,
    b: usize,
    plan: &mut Plan,
) -> Result<usize, CompileEnd>
    requires { TestIsCompilable test.now }
    ensures { MatchResult result
        (OpensWhile 0 plan.old plan.new place kind.now test.now block.now a b)
        (IsCompileEnd (checks (length plan.old.drafts.items)
        (while_site place kind.now test.now block.now a b (length plan.old.owners.items) ∷ []))) }
{
    match begin(place, kind) {
        Ok(()) => {}
        Err(end) => return Err(end),
    }
    let first = match start(block, a, plan) {
        Ok(first) => first,
        Err(end) => return Err(CompileEnd::Memory(end)),
    };
    let due = match drafts_of_test(alloc, test, a, first, b) {
        Ok(due) => due,
        Err(end) => return Err(CompileEnd::Memory(end)),
    };
    match finish(alloc, place, kind, due, plan) {
        Ok(()) => Ok(first),
        Err(end) => Err(end),
    }
}
