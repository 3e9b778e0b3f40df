// The limits of edges: rows, numbers, locations and edges.
ghost use Rattle.std.specs.Prelude.{◌≡◌, ◌<◌, ◌^◌, ◌++◌, OnOk, IsErrOf, map, length};
ghost use Rattle.ps_command.specs.Form.{FormFits};
ghost use Rattle.ps_compile.specs.Checks.{edges_checks, inner_checks, numbers_checks, rows_checks};
ghost use Rattle.ps_compile.specs.Ops.{assumed_rows};
ghost use Rattle.ps_compile.specs.inner.Drafts.{commands_on, Tested};

use crate::compile_end::CompileEnd;
use crate::draft::Draft;
use crate::limits::{MOST_EDGES, MOST_LOCATIONS, MOST_ROWS};
use crate::limits_inside::test_inside;
use crate::plan::Plan;
use ps_command::{Command, Op, symbolic};
use ps_term::TermEnd;
use ps_token::Place;
use ps_tree::{LimitName, StmtKind};
use std::alloc::{AllocError, Global};

// Tests the limits of a statement's edges, then those of the statements inside, and adds the edges.
pub(crate) fn finish(
    alloc: Global,
    place: Place,
    kind: &StmtKind,
    due: Vec<Draft>,
    plan: &mut Plan,
) -> Result<(), CompileEnd>
    ensures tested { Tested result
        (edges_checks place (length plan.old.drafts.items) (length plan.old.owners.items)
        (commands_on due.items) ++ inner_checks kind.now) }
    ensures added { OnOk result (plan.new.drafts.items ≡ plan.old.drafts.items ++ due.items) }
    ensures owners { OnOk result (plan.new.owners.items ≡ plan.old.owners.items) }
{
    let mut due = due;
    match test_edges(alloc, place, plan, due.as_slice()) {
        Ok(()) => {}
        Err(end) => return Err(end),
    }
    match test_inside(kind) {
        Ok(()) => {}
        Err(end) => return Err(end),
    }
    match plan.drafts.append(&mut due) {
        Ok(()) => Ok(()),
        Err(end) => Err(CompileEnd::Memory(end)),
    }
}

fn test_edges(alloc: Global, place: Place, plan: &Plan, due: &[Draft]) -> Result<(), CompileEnd>
    ensures { Tested result
        (edges_checks place (length plan.now.drafts.items) (length plan.now.owners.items)
        (commands_on due.now)) }
{
    match test_rows(place, due) {
        Ok(()) => {}
        Err(end) => return Err(end),
    }
    match test_numbers(alloc, place, due) {
        Ok(()) => {}
        Err(end) => return Err(end),
    }
    if plan.owners.len() > MOST_LOCATIONS {
        return Err(CompileEnd::Limit(place, LimitName::Locations));
    }
    if plan.drafts.len() + due.len() > MOST_EDGES {
        return Err(CompileEnd::Limit(place, LimitName::Edges));
    }
    Ok(())
}

fn test_rows(place: Place, due: &[Draft]) -> Result<(), CompileEnd>
    ensures { Tested result (rows_checks place (commands_on due.now)) }
{
    for draft in due {
        if count_rows(draft.route.command.ops.as_slice()) > MOST_ROWS {
            return Err(CompileEnd::Limit(place, LimitName::Rows));
        }
    }
    Ok(())
}

fn count_rows(ops: &[Op]) -> usize
    ensures { result ≡ assumed_rows ops.now }
{
    let mut rows = 0;
    for op in ops {
        match op {
            Op::Assume(_row) => rows += 1,
            Op::Assign(_variable, _term) => {}
            Op::Havoc(_variable) => {}
        }
    }
    rows
}

fn test_numbers(alloc: Global, place: Place, due: &[Draft]) -> Result<(), CompileEnd>
    ensures { Tested result (numbers_checks place (commands_on due.now)) }
{
    for draft in due {
        match test_form(alloc, &draft.route.command) {
            Ok(()) => {}
            Err(TermEnd::Past128) => return Err(CompileEnd::Limit(place, LimitName::Numbers)),
            Err(TermEnd::Memory(end)) => return Err(CompileEnd::Memory(end)),
        }
    }
    Ok(())
}

// Whether the command's symbolic form stays within 128 bits. One of 2^32 ops has no room in memory.
fn test_form(alloc: Global, command: &Command) -> Result<(), TermEnd>
    ensures fits { OnOk result (FormFits command.now.ops) }
    ensures past { IsErrOf result TermEnd.Past128 → ¬ FormFits command.now.ops }
{
    if command.ops.as_slice().len() > u32::MAX as usize {
        return Err(TermEnd::Memory(AllocError));
    }
    match symbolic(alloc, command) {
        Ok(_form) => Ok(()),
        Err(end) => Err(end),
    }
}
