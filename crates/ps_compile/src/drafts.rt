// The edges of statements, before their commands have numbers.
ghost use Rattle.std.specs.Prelude.{◌≡◌, ◌++◌, true, false, IfOk, OnOk, map};
ghost use Rattle.ps_compile.specs.Layout.{planned_from};
ghost use Rattle.ps_compile.specs.inner.Compilable.{StmtIsCompilable, TestIsCompilable};
ghost use Rattle.ps_compile.specs.inner.Drafts.{draft_from, draft_of};
ghost use Rattle.ps_graph.specs.Follows.{going_to};
ghost use Rattle.ps_graph.specs.Paths.{paths, ways};

use crate::draft::Draft;
use crate::route::Route;
use crate::routes::{stmt_routes, ways_routes};
use ps_tree::{StmtKind, Test};
use std::alloc::{AllocError, Global};

// The edges of a statement that is run in one go, from a location to another.
pub(crate) fn drafts_of(
    alloc: Global,
    kind: &StmtKind,
    a: usize,
    b: usize,
) -> Result<Vec<Draft>, AllocError>
    requires { StmtIsCompilable kind.now }
    ensures { IfOk result
        (λ due. due.items ≡ map draft_of (planned_from a (going_to b (paths kind.now)))) }
{
    let routes = stmt_routes(alloc, kind)?;
    let mut due = Vec::new(alloc);
    push_drafts(routes, a, b, &mut due)?;
    Ok(due)
}

// The edges of a test, from a location to one where it holds and another where it fails.
pub(crate) fn drafts_of_test(
    alloc: Global,
    test: &Test,
    a: usize,
    b: usize,
    c: usize,
) -> Result<Vec<Draft>, AllocError>
    requires { TestIsCompilable test.now }
    ensures { IfOk result (λ due. due.items ≡ map draft_of
        (planned_from a (going_to b (ways true test.now) ++ going_to c (ways false test.now)))) }
{
    let holds = ways_routes(alloc, test, true)?;
    let fails = ways_routes(alloc, test, false)?;
    let mut due = Vec::new(alloc);
    push_drafts(holds, a, b, &mut due)?;
    push_drafts(fails, a, c, &mut due)?;
    Ok(due)
}

// Appends the routes as edges from a location, which enter the error where they fail.
fn push_drafts(
    routes: Vec<Route>,
    a: usize,
    goal: usize,
    due: &mut Vec<Draft>,
) -> Result<(), AllocError>
    ensures { OnOk result (due.new.items ≡ due.old.items ++ map (draft_from a goal) routes.items) }
{
    for route in routes {
        let target = if route.fails { 1 } else { goal };
        due.push(Draft {
            source: a,
            target,
            route,
        })
        .map_err(|_| AllocError)?;
    }
    Ok(())
}
