//! The commands of edges.
ghost use Rattle.std.specs.Prelude.{◌≡◌, ◌<◌, IsTrue, Some, length, option_map, slice_get};
ghost use Rattle.ps_graph.specs.declared.edge.Edge.{Edge};
ghost use Rattle.ps_trace.specs.Own.{is_own_form};
ghost use Rattle.ps_trace.specs.Rows.{form_at};

use ps_command::SymbolicForm;
use ps_graph::Graph;

/// The number of the command of the edge; each command has a symbolic form.
pub fn command_of(graph: &Graph, edge: u32) -> u32
    requires { edge < length graph.now.edges }
    ensures command { option_map (λ (e : Edge). e.command) (slice_get graph.now.edges edge)
        ≡ Some result }
    ensures there { result < length graph.now.setting.symbols }
{
    graph.edges.as_slice()[edge as usize].command
}

// The symbolic form of the command of the edge.
pub(crate) fn form_at(graph: &Graph, edge: u32) -> &SymbolicForm
    requires { edge < length graph.now.edges }
    ensures form { result.now ≡ form_at graph.now edge }
    ensures own { IsTrue (is_own_form result.now) }
{
    &graph.setting.symbols.as_slice()[command_of(graph, edge) as usize]
}
