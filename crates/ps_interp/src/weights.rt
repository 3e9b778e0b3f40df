// Letters with the multipliers of their rows.
ghost use Rattle.std.specs.Prelude.{◌≡◌, ◌<◌, ◌≤◌, All, IfOk, IsTrue, length, map};
ghost use Rattle.ps_interp.specs.Sums.{row_total, weighed};
ghost use Rattle.ps_interp.specs.inner.Parts.{IsWeighedIn, part_in, part_of};
ghost use Rattle.ps_soundness.specs.Traces.{trace_of};
ghost use Rattle.ps_trace.specs.Own.{is_own_form};
ghost use Rattle.ps_trace.specs.Traces.{pairs_in};
ghost use Rattle.ps_triple.specs.Rows.{form_in};

use ps_command::{Setting, SymbolicForm};
use ps_graph::Graph;
use ps_trace::{Letter, command_of};
use std::alloc::{AllocError, Global};

// A letter's thread and command, and the multipliers of the command's rows.
#[derive(Drop)]
pub(crate) struct WeighedLetter<'a> {
    pub(crate) thread: u32,
    pub(crate) command: u32,
    pub(crate) weights: &'a [u128],
}

// The letters, whose multipliers stand one letter's after another's.
pub(crate) fn weighed_letters<'a>(
    alloc: Global,
    graph: &Graph,
    letters: &[Letter],
    weights: &'a [u128],
) -> Result<Vec<WeighedLetter<'a>>, AllocError>
    requires edges { All (λ l. l.edge < length graph.now.edges) letters.now }
    requires enough { row_total graph.now.setting
        (trace_of graph.now.edges (pairs_in letters.now)) ≤ length weights.now }
    ensures parts { IfOk result (λ list. map part_of list.items ≡ map part_in
        (weighed graph.now.setting (trace_of graph.now.edges (pairs_in letters.now))
        weights.now)) }
    ensures each { IfOk result (λ list. All (IsWeighedIn graph.now.setting) list.items) }
{
    let mut list = Vec::with_capacity(alloc, letters.len())?;
    let mut at = 0;
    for letter in letters {
        let command = command_of(graph, letter.edge);
        let end = at + form_of(&graph.setting, command).rows.as_slice().len();
        list.push(WeighedLetter {
            thread: letter.thread,
            command,
            weights: &weights[at..end],
        })?;
        at = end;
    }
    Ok(list)
}

// The symbolic form of the command.
pub(crate) fn form_of(setting: &Setting, command: u32) -> &SymbolicForm
    requires { command < length setting.now.symbols }
    ensures form { result.now ≡ form_in setting.now command }
    ensures own { IsTrue (is_own_form result.now) }
{
    &setting.symbols.as_slice()[command as usize]
}
