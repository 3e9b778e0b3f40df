//! The witness that a trace makes of values for its variables.
ghost use Rattle.std.specs.Prelude.{◌≡◌, ◌<◌, ◌+◌, ◌^◌, All, IfOk, length, nat_lt};
ghost use Rattle.std.specs.BTreeMap.{BTreeMap};
ghost use Rattle.std.specs.List.Sorted.{IsStrictlySortedBy};
ghost use Rattle.std.specs.Ordering.{nat_cmp};
ghost use Rattle.ps_trace.specs.Rows.{form_at, havocs_of_letters, threads_in_trace};
ghost use Rattle.ps_trace.specs.Traces.{pairs_in, pairs_of};
ghost use Rattle.ps_trace.specs.WitnessOf.{choices_by, new_number, picks_at, steps_by, value_among, witness_of};
ghost use Rattle.ps_trace.specs.inner.Known.{known_values};

use crate::command::form_at;
use crate::known::{choices_of, globals_of, known_from, locals_of_each};
use crate::step::Step;
use crate::steps::Steps;
use crate::threads::threads_of;
use crate::trace::{IndexedTrace, Letter};
use crate::witness::Witness;
use ps_graph::{Graph, Pick};
use ps_term::Var;
use std::alloc::{AllocError, Global};
use std::collections::BTreeMap;

/// The witness whose threads are those that occur in the trace, numbered anew in ascending order, and that starts from
/// these values, a thread's locals by its number in the trace; each letter gives one step, with 1 or 0 for each `*` and
/// the value of each havoc, by its number through the trace. A variable without a value is 0, and of several values the
/// first counts. The values needn't meet the rows of `trace_rows`: whether the witness replays is asked of `replay`.
///
/// Each value is entered in an ordered map; each variable, and the thread of each letter, takes a binary search.
pub fn witness_of(
    alloc: Global,
    graph: &Graph,
    trace: &IndexedTrace,
    values: &[(Var, i128)],
) -> Result<Witness, AllocError>
    requires edges { All (λ l. l.edge < length graph.now.edges) trace.now.letters }
    requires havocs { havocs_of_letters graph.now (pairs_of trace.now) < 2 ^ 32 }
    ensures { IfOk result (λ witness. witness
        ≡ witness_of graph.now (pairs_of trace.now) (value_among values.now)) }
{
    let letters = trace.letters.as_slice();
    let known = known_from(alloc, values)?;
    let threads = threads_of(alloc, letters)?;
    let globals = globals_of(alloc, &known, graph.setting.globals)?;
    let locals = locals_of_each(alloc, &known, graph.setting.locals, threads.as_slice())?;
    let steps = steps_of(alloc, graph, letters, threads.as_slice(), &known)?;
    Ok(Witness {
        globals,
        locals,
        steps,
    })
}

// The steps of the letters.
fn steps_of(
    alloc: Global,
    graph: &Graph,
    letters: &[Letter],
    threads: &[u32],
    known: &BTreeMap<Var, i128>,
) -> Result<Steps, AllocError>
    requires edges { All (λ l. l.edge < length graph.now.edges) letters.now }
    requires havocs { havocs_of_letters graph.now (pairs_in letters.now) < 2 ^ 32 }
    requires ascending { IsStrictlySortedBy nat_cmp threads.now }
    ensures { IfOk result (λ steps. steps
        ≡ steps_by graph.now threads.now (known_values known.now) 0 (pairs_in letters.now)) }
{
    let mut steps = Steps::new(alloc);
    let mut first = 0;
    for letter in letters {
        let havocs = form_at(graph, letter.edge).havocs;
        let choices = choices_of(alloc, known, first, picks_at(graph, letter.edge))?;
        let thread = new_number(threads, letter.thread);
        steps.push(&Step { thread, choices })?;
        first += havocs;
    }
    Ok(steps)
}

// The picks of the edge.
fn picks_at(graph: &Graph, edge: u32) -> &[Pick]
    requires { edge < length graph.now.edges }
    ensures { result.now ≡ picks_at graph.now edge }
{
    graph.edges.as_slice()[edge as usize].picks.as_slice()
}

// The new number of the thread, by a binary search.
fn new_number(threads: &[u32], thread: u32) -> u32
    requires { IsStrictlySortedBy nat_cmp threads.now }
    ensures { result ≡ new_number threads.now thread }
{
    threads.partition_point(
        |other: &u32| -> bool
            ensures { result ≡ nat_lt other.now thread }
        { *other < thread },
    ) as u32
}
