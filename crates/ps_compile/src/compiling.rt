//! The graph of a program.
ghost use Rattle.std.specs.Prelude.{◌≡◌, ◌∷◌, [], None, Some, IfErr, IfOk, OnOk};
ghost use Rattle.ps_compile.specs.Checks.{NoneIsExceeded, checks};
ghost use Rattle.ps_compile.specs.Compiled.{IsCompiled};
ghost use Rattle.ps_compile.specs.Conditions.{IsCompilable};
ghost use Rattle.ps_compile.specs.Ends.{IsCompileEnd};
ghost use Rattle.ps_compile.specs.Layout.{body_sites};
ghost use Rattle.ps_compile.specs.inner.Plans.{IsPlanOf};
ghost use Rattle.ps_graph.specs.Errors.{IsSafeExactly};

use crate::compile_end::CompileEnd;
use crate::layout::lay_block;
use crate::plan::{Plan, start};
use crate::setting::setting_of;
use crate::table::number;
use ps_graph::Graph;
use ps_list::Sequence;
use ps_tree::Program;
use std::alloc::{AllocError, Global};

/// The exact graph of a program, or the limit that is exceeded first, with its place. The program never
/// fails exactly where no error trace of the graph is feasible.
///
/// Alternatives and paths are counted before any is made. So the time, of a program that is read, is that
/// of its text and of the graph within its limits: each command's symbolic form is made for each edge, to
/// see that it stays within 128 bits, and once more to be kept.
pub fn compile(alloc: Global, program: &Program) -> Result<Graph, CompileEnd>
    requires { IsCompilable program.now }
    ensures compiled { IfOk result (λ graph. IsCompiled program.now graph) }
    ensures within { OnOk result (NoneIsExceeded (checks 0 (body_sites program.now.body 0 2))) }
    ensures exceeded { IfErr result (IsCompileEnd (checks 0 (body_sites program.now.body 0 2))) }
    ensures safe { IfOk result (λ graph. IsSafeExactly program.now graph) }
{
    let plan = match plan_of(alloc, program) {
        Ok(plan) => plan,
        Err(end) => return Err(end),
    };
    match graph_of(alloc, program, plan) {
        Ok(graph) => Ok(graph),
        Err(end) => Err(CompileEnd::Memory(end)),
    }
}

// The body, laid out from location 0.
fn plan_of(alloc: Global, program: &Program) -> Result<Plan, CompileEnd>
    requires { IsCompilable program.now }
    ensures plan { IfOk result (IsPlanOf program.now.body) }
    ensures exceeded { IfErr result (IsCompileEnd (checks 0 (body_sites program.now.body 0 2))) }
{
    let body = program.body.as_slice();
    let mut plan = match empty_plan(alloc) {
        Ok(plan) => plan,
        Err(end) => return Err(CompileEnd::Memory(end)),
    };
    let end = match start(body, 0, &mut plan) {
        Ok(end) => end,
        Err(end) => return Err(CompileEnd::Memory(end)),
    };
    match lay_block(alloc, body, 0, end, &mut plan) {
        Ok(()) => Ok(plan),
        Err(end) => Err(end),
    }
}

// The entry and the error.
fn empty_plan(alloc: Global) -> Result<Plan, AllocError>
    ensures owners { IfOk result (λ plan. plan.owners.items ≡ Some 0 ∷ None ∷ []) }
    ensures drafts { IfOk result (λ plan. plan.drafts.items ≡ []) }
{
    Ok(Plan {
        owners: Vec::from_slice(alloc, &[Some(0), None])?,
        drafts: Vec::new(alloc),
    })
}

// The graph of a body that is laid out. More than 2^32 locations or edges have no room in memory.
fn graph_of(alloc: Global, program: &Program, plan: Plan) -> Result<Graph, AllocError>
    requires compilable { IsCompilable program.now }
    requires plan { IsPlanOf program.now.body plan }
    ensures { IfOk result (λ graph. IsCompiled program.now graph) }
{
    let Plan { owners, drafts } = plan;
    let locations = u32::try_from(owners.len()).map_err(|_| AllocError)?;
    if drafts.len() > u32::MAX as usize {
        return Err(AllocError);
    }
    let numbered = number(alloc, drafts)?;
    let setting = setting_of(alloc, program, numbered.commands)?;
    Ok(Graph {
        locations,
        edges: Sequence::from_list(numbered.edges),
        entries: Sequence::from_slice(alloc, &[0])?,
        once: None,
        owner: Sequence::from_list(owners),
        setting,
    })
}
