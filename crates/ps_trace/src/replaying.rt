//! Replays of witnesses.
ghost use Rattle.std.specs.Prelude.{◌≡◌, ◌↔◌, ◌<◌, ◌^◌, IfOk, IsErrOf, IsTrue, OnOk, length, map, slice_index_or};
ghost use Rattle.ps_command.specs.Initial.{IsInitial};
ghost use Rattle.ps_command.specs.RunFits.{StartFits};
ghost use Rattle.ps_trace.specs.Reaches.{witness_state, step_pair};
ghost use Rattle.ps_trace.specs.Replay.{entered, fails_at_last, ReplayFits, Replays, StepsFit};

use crate::leaving::Leaving;
use crate::steps::Steps;
use crate::walk::Walk;
use crate::witness::Witness;
use ps_command::{RunEnd, State, is_initial_state};
use ps_graph::Graph;
use std::alloc::{AllocError, Global};

/// Whether the execution from these values with these steps comes to the error at its last step, and at no earlier one. All
/// threads run the first body.
///
/// First it is tested that there is a thread and that the numbers of values are those of the graph, then the initial rows,
/// in the order of `trace_rows`; else the answer is false. A step goes along the first edge that leaves its thread's
/// location, whose picks the choices fit, and whose command runs; where there is none, or no such thread, and after a
/// failure at a step that isn't the last, the answer is false. It is `Past128` where a value lies outside `i128` before the
/// answer is known.
///
/// A step takes time of the edges that leave its thread's location. The memory is that of the values at the start, and of
/// the numbers of the edges and locations.
pub fn replay(alloc: Global, graph: &Graph, witness: &Witness) -> Result<bool, RunEnd>
    requires { length graph.now.edges < 2 ^ 32 }
    ensures answer { IfOk result (λ yes. IsTrue yes ↔ Replays graph.now witness.now) }
    ensures fits { OnOk result (ReplayFits graph.now witness.now) }
    ensures past { IsErrOf result RunEnd.Past128 → ¬ ReplayFits graph.now witness.now }
{
    let state = start_of(alloc, witness).map_err(RunEnd::Memory)?;
    match is_initial(graph, &state) {
        Ok(initial) => {
            if initial {
                run_steps(alloc, graph, state, &witness.steps)
            } else {
                Ok(false)
            }
        }
        Err(end) => Err(end),
    }
}

// Whether the state is initial.
fn is_initial(graph: &Graph, state: &State) -> Result<bool, RunEnd>
    ensures answer { IfOk result (λ yes. IsTrue yes ↔ IsInitial graph.now.setting state.now) }
    ensures fits { OnOk result (StartFits graph.now.setting state.now) }
    ensures past { IsErrOf result RunEnd.Past128 → ¬ StartFits graph.now.setting state.now }
{
    match is_initial_state(&graph.setting, state) {
        Some(initial) => Ok(initial),
        None => Err(RunEnd::Past128),
    }
}

// A copy of the values that the witness starts from.
fn start_of(alloc: Global, witness: &Witness) -> Result<State, AllocError>
    ensures { IfOk result (λ state. state ≡ witness_state witness.now) }
{
    Ok(State {
        globals: witness.globals.copy(alloc)?,
        locals: witness.locals.copy(alloc)?,
    })
}

// Whether the steps from the state fail at the last one, and at no earlier one.
fn run_steps(alloc: Global, graph: &Graph, state: State, steps: &Steps) -> Result<bool, RunEnd>
    requires few { length graph.now.edges < 2 ^ 32 }
    requires initial { IsInitial graph.now.setting state }
    ensures answer { IfOk result (λ yes. yes ≡ fails_at_last graph.now (map step_pair steps.now)
        (entered (slice_index_or graph.now.entries 0 0) state)) }
    ensures fits { OnOk result (StepsFit graph.now (map step_pair steps.now)
        (entered (slice_index_or graph.now.entries 0 0) state)) }
    ensures past { IsErrOf result RunEnd.Past128 → ¬ StepsFit graph.now (map step_pair steps.now)
        (entered (slice_index_or graph.now.entries 0 0) state) }
{
    let entry = first_entry(graph);
    let leaving = Leaving::of(alloc, graph).map_err(RunEnd::Memory)?;
    let mut walk = Walk::new(alloc, state, entry).map_err(RunEnd::Memory)?;
    let mut failed = entry == 1;
    for n in 0..steps.len() {
        if failed {
            return Ok(false);
        }
        match walk.take(graph, &leaving, steps.thread(n), steps.choices(n))? {
            Some(location) => failed = location == 1,
            None => return Ok(false),
        }
    }
    Ok(failed)
}

// The entry of the first body.
fn first_entry(graph: &Graph) -> u32
    ensures { result ≡ slice_index_or graph.now.entries 0 0 }
{
    match graph.entries.as_slice().first() {
        Some(entry) => *entry,
        None => 0,
    }
}
