//! Replays of witnesses.
ghost use Rattle.std.specs.Prelude.{◌<◌, ◌^◌, length};

use crate::texts::witness_of;
use ps_case::{graph_of, two_parts, word};
use ps_command::RunEnd;
use ps_graph::Graph;
use ps_trace::{Witness, reach, replay};
use std::alloc::{AllocError, Global};

/// Whether the witness reaches a failure of the program's graph, `PROGRAM|WITNESS`, as `replay` and `reach` say it: `yes`, `no`,
/// or `past`, and `differ` where they don't say the same.
pub fn replayed(alloc: Global, input: &str) -> Result<Vec<u8>, AllocError> {
    let (program, witness) = two_parts(input, '|')?;
    let graph = graph_of(alloc, program)?;
    if graph.edges.as_slice().len() > 1_000_000 {
        return Err(AllocError);
    }
    let witness = witness_of(alloc, witness)?;
    let said = replay_says(alloc, &graph, &witness)?;
    if reach_says(alloc, &graph, witness)? != said {
        return word(alloc, "differ");
    }
    word(alloc, said)
}

fn replay_says(alloc: Global, graph: &Graph, witness: &Witness) -> Result<&'static str, AllocError>
    requires { length graph.now.edges < 2 ^ 32 }
{
    match replay(alloc, graph, witness) {
        Ok(fails) => Ok(yes_or_no(fails)),
        Err(RunEnd::Past128) => Ok("past"),
        Err(RunEnd::Memory(end)) => Err(end),
    }
}

fn reach_says(alloc: Global, graph: &Graph, witness: Witness) -> Result<&'static str, AllocError>
    requires { length graph.now.edges < 2 ^ 32 }
{
    match reach(alloc, graph, witness) {
        Ok(found) => Ok(yes_or_no(found.is_some())),
        Err(RunEnd::Past128) => Ok("past"),
        Err(RunEnd::Memory(end)) => Err(end),
    }
}

fn yes_or_no(holds: bool) -> &'static str {
    if holds { "yes" } else { "no" }
}
