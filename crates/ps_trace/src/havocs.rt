//! How many havocs a trace takes.
ghost use Rattle.std.specs.Prelude.{◌↔◌, ◌<◌, ◌^◌, All, IsTrue, length};
ghost use Rattle.ps_trace.specs.Rows.{havocs_of_letters};
ghost use Rattle.ps_trace.specs.Traces.{pairs_of};

use crate::command::form_at;
use crate::trace::IndexedTrace;
use ps_graph::Graph;

/// Whether 32 bits can count the havocs of the trace, as `trace_rows` and `witness_of` ask it; in time of its letters.
pub fn has_few_havocs(graph: &Graph, trace: &IndexedTrace) -> bool
    requires { All (λ l. l.edge < length graph.now.edges) trace.now.letters }
    ensures { IsTrue result ↔ havocs_of_letters graph.now (pairs_of trace.now) < 2 ^ 32 }
{
    let mut left = u32::MAX;
    for letter in trace.letters.as_slice() {
        let havocs = form_at(graph, letter.edge).havocs;
        if havocs > left {
            return false;
        }
        left -= havocs;
    }
    true
}
