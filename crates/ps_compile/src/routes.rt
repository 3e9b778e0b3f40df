// The paths of statements that are run in one go, as routes.
ghost use Rattle.std.specs.Prelude.{◌≡◌, ◌++◌, ◌∷◌, [], true, false, map, IfOk, OnOk};
ghost use Rattle.ps_compile.specs.inner.Compilable.{BlockIsCompilable, CondIsCompilable, StmtIsCompilable, SumIsCompilable, TestIsCompilable};
ghost use Rattle.ps_compile.specs.inner.Counts.{paths_of};
ghost use Rattle.ps_compile.specs.inner.Drafts.{route_of};
ghost use Rattle.ps_compile.specs.inner.Routes.{after_all, after_one, assigned_route, cond_paths, guarded_route};
ghost use Rattle.ps_graph.specs.Paths.{Assigns, paths, ways};

use crate::alternatives::alternatives_of;
use crate::route::{Route, one_op};
use crate::sums::sum_term;
use ps_command::{Command, Op};
use ps_list::Sequence;
use ps_term::{Row, Term, TermEnd, Var};
use ps_tree::{Cond, Stmt, StmtKind, Sum, Test};
use std::alloc::{AllocError, Global};

// The paths of a statement, in order. It is called only where they are at most 64.
#[cycle(routes)]
pub(crate) fn stmt_routes(alloc: Global, kind: &StmtKind) -> Result<Vec<Route>, AllocError>
    requires { StmtIsCompilable kind.now }
    ensures { IfOk result (λ routes. routes.items ≡ map route_of (paths kind.now)) }
{
    match kind {
        StmtKind::Assign(variable, sum) => one(alloc, assign_route(alloc, *variable, sum)?),
        StmtKind::Havoc(variable) => one(alloc, Route::havoc(alloc, *variable)?),
        StmtKind::Assume(cond) => cond_routes(alloc, cond, true, false),
        StmtKind::Assert(cond) => assert_routes(alloc, cond),
        StmtKind::Skip => one(alloc, Route::empty(alloc)),
        StmtKind::Atomic(block) => block_routes(alloc, block.as_slice()),
        StmtKind::If(test, held, failed) => {
            let holds = ways_routes(alloc, test, true)?;
            let first = block_routes(alloc, held.as_slice())?;
            let mut all = followed_routes(alloc, holds.as_slice(), first.as_slice())?;
            let fails = ways_routes(alloc, test, false)?;
            let second = block_routes(alloc, failed.as_slice())?;
            let mut others = followed_routes(alloc, fails.as_slice(), second.as_slice())?;
            all.append(&mut others)?;
            Ok(all)
        }
        StmtKind::While(_test, _block) => Ok(Vec::new(alloc)),
    }
}

// The paths of a block, from its last statement to its first.
#[cycle(routes)]
fn block_routes(alloc: Global, block: &[Stmt]) -> Result<Vec<Route>, AllocError>
    requires { BlockIsCompilable block.now }
    ensures { IfOk result (λ routes. routes.items ≡ map route_of (paths_of block.now)) }
{
    let mut all = one(alloc, Route::empty(alloc))?;
    for i in (0..block.len()).rev() {
        let first = stmt_routes(alloc, &block[i].kind)?;
        all = followed_routes(alloc, first.as_slice(), all.as_slice())?;
    }
    Ok(all)
}

// The ways in which a test holds, or fails.
pub(crate) fn ways_routes(alloc: Global, test: &Test, holds: bool) -> Result<Vec<Route>, AllocError>
    requires { TestIsCompilable test.now }
    ensures { IfOk result (λ routes. routes.items ≡ map route_of (ways holds test.now)) }
{
    match test {
        Test::Star => one(alloc, Route::choosing(alloc, holds)?),
        Test::Cond(cond) => cond_routes(alloc, cond, holds, false),
    }
}

// Those of an assertion: first those on which it holds.
fn assert_routes(alloc: Global, cond: &Cond) -> Result<Vec<Route>, AllocError>
    requires { CondIsCompilable cond.now }
    ensures { IfOk result (λ routes. routes.items ≡
        map route_of (cond_paths true false cond.now ++ cond_paths false true cond.now)) }
{
    let mut all = cond_routes(alloc, cond, true, false)?;
    let mut failed = cond_routes(alloc, cond, false, true)?;
    all.append(&mut failed)?;
    Ok(all)
}

// A route for each alternative of a condition, or of its negation, which fails an assertion or doesn't.
fn cond_routes(
    alloc: Global,
    cond: &Cond,
    holds: bool,
    fails: bool,
) -> Result<Vec<Route>, AllocError>
    requires { CondIsCompilable cond.now }
    ensures { IfOk result (λ routes. routes.items ≡ map route_of
        (cond_paths holds fails cond.now)) }
{
    match alternatives_of(alloc, holds, cond) {
        Ok(alternatives) => guarded_routes(alloc, alternatives, fails),
        Err(TermEnd::Memory(end)) => Err(end),
        Err(TermEnd::Past128) => unreachable!(),
    }
}

// A route for each list of rows.
fn guarded_routes(
    alloc: Global,
    alternatives: Vec<Sequence<Row>>,
    fails: bool,
) -> Result<Vec<Route>, AllocError>
    ensures { IfOk result (λ routes. routes.items ≡ map (guarded_route fails) alternatives.items) }
{
    let mut routes = Vec::with_capacity(alloc, alternatives.len())?;
    for rows in alternatives {
        routes
            .push(guarded(alloc, rows, fails)?)
            .map_err(|_| AllocError)?;
    }
    Ok(routes)
}

// The route that assumes the rows.
fn guarded(alloc: Global, rows: Sequence<Row>, fails: bool) -> Result<Route, AllocError>
    ensures { IfOk result (λ route. route ≡ guarded_route fails rows) }
{
    let mut ops = Vec::new(alloc);
    for row in rows.into_list() {
        ops.push(Op::Assume(row)).map_err(|_| AllocError)?;
    }
    Ok(Route {
        command: Command {
            ops: Sequence::from_list(ops),
        },
        picks: Sequence::from_list(Vec::new(alloc)),
        fails,
    })
}

// The route of an assignment.
fn assign_route(alloc: Global, variable: Var, sum: &Sum) -> Result<Route, AllocError>
    requires { SumIsCompilable sum.now }
    ensures { IfOk result (λ route. route ≡ route_of (Assigns variable sum.now ∷ [])) }
{
    match sum_term(alloc, sum) {
        Ok(term) => assigned(alloc, variable, term),
        Err(TermEnd::Memory(end)) => Err(end),
        Err(TermEnd::Past128) => unreachable!(),
    }
}

// The route that sets the variable to what the term is worth.
fn assigned(alloc: Global, variable: Var, term: Term) -> Result<Route, AllocError>
    ensures { IfOk result (λ route. route ≡ assigned_route variable term) }
{
    Ok(Route {
        command: one_op(alloc, Op::Assign(variable, term))?,
        picks: Sequence::from_list(Vec::new(alloc)),
        fails: false,
    })
}

fn one(alloc: Global, route: Route) -> Result<Vec<Route>, AllocError>
    ensures { IfOk result (λ routes. routes.items ≡ route ∷ []) }
{
    let mut all = Vec::new(alloc);
    all.push(route).map_err(|_| AllocError)?;
    Ok(all)
}

// Each of the first routes with each of the second after it, and those that fail as they are.
fn followed_routes(alloc: Global, ps: &[Route], qs: &[Route]) -> Result<Vec<Route>, AllocError>
    ensures { IfOk result (λ routes. routes.items ≡ after_all ps.now qs.now) }
{
    let mut all = Vec::new(alloc);
    for p in ps {
        append_after(alloc, &mut all, p, qs)?;
    }
    Ok(all)
}

// Appends a route with each of the others after it, or alone where it fails.
fn append_after(
    alloc: Global,
    all: &mut Vec<Route>,
    p: &Route,
    qs: &[Route],
) -> Result<(), AllocError>
    ensures { OnOk result (all.new.items ≡ all.old.items ++ after_one p.now qs.now) }
{
    if p.fails {
        all.push(p.copy(alloc)?).map_err(|_| AllocError)?;
        return Ok(());
    }
    for q in qs {
        all.push(p.join(alloc, q)?).map_err(|_| AllocError)?;
    }
    Ok(())
}
