//! Whether a trace is proved.
ghost use Rattle.std.specs.Prelude.{◌<◌, ◌↔◌, All, IfOk, IsTrue, length};
ghost use Rattle.ps_basis.specs.Space.{IsProved};
ghost use Rattle.ps_demand.specs.Demands.{AreTied};
ghost use Rattle.ps_soundness.specs.Traces.{trace_of};
ghost use Rattle.ps_trace.specs.Traces.{pairs_of};

use crate::back::walk_back;
use crate::forth::gives_false;
use ps_basis::Shown;
use ps_graph::Graph;
use ps_trace::IndexedTrace;
use std::alloc::{AllocError, Global};

/// Whether the entries prove the trace: its threads' commands lead from atoms that all have initial entries to false, by
/// the listed triples under any renaming of threads, joined and put one after another. The empty trace isn't proved.
///
/// From the last letter to the first the atoms are collected that can be demanded at each cut, and from the first to the
/// last those of them that are given. So at each letter each atom demanded after it takes, twice, time of the entries
/// of its predicate and the letter's command, of their threads and of the atoms before them, each of which is searched
/// among those demanded; no renaming is tried but the one that the atom fixes. Between the two walks the atoms that can
/// be demanded at each cut are kept, each once.
pub fn member<B: Shown>(
    alloc: Global,
    graph: &Graph,
    basis: &B,
    trace: &IndexedTrace,
) -> Result<bool, AllocError>
    requires tied { AreTied (B.entries basis.now) }
    requires edges { All (λ l. l.edge < length graph.now.edges) trace.now.letters }
    ensures { IfOk result (λ yes. IsTrue yes
        ↔ IsProved (B.entries basis.now) (trace_of graph.now.edges (pairs_of trace.now))) }
{
    let letters = trace.letters.as_slice();
    if letters.is_empty() {
        return Ok(false);
    }
    let walk = walk_back(alloc, graph, basis, letters)?;
    let proved = gives_false(alloc, basis, walk)?;
    Ok(proved)
}
