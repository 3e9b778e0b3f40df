//! How edges follow the text: each function does no work, and its clause is the fact.
ghost use Rattle.std.specs.Prelude.{◌↔◌, ◌≡◌, [], List, not, true, false, ℕ, ℤ};
ghost use Rattle.ps_command.specs.declared.command.Command.{Command};
ghost use Rattle.ps_graph.specs.Alternatives.{alternatives, any_hold};
ghost use Rattle.ps_graph.specs.Errors.{ErrorsAreTraces, IsGraphOf, IsSafeExactly};
ghost use Rattle.ps_graph.specs.Follows.{StepsAreEdges, ThreadIsAt, leaving};
ghost use Rattle.ps_graph.specs.Step.{Failed, Thread};
ghost use Rattle.ps_graph.specs.declared.edge.Edge.{Edge};
ghost use Rattle.ps_graph.specs.declared.graph.Graph.{Graph};
ghost use Rattle.ps_tree.specs.Cond.{truth};
ghost use Rattle.ps_tree.specs.declared.cond.Cond.{Cond};
ghost use Rattle.ps_tree.specs.declared.program.Program.{Program};
ghost use Rattle.ps_term.specs.declared.var.Var.{Var};

/// The alternatives of a condition hold where it is true, and those of its negation where it isn't.
pub fn alternatives_hold()
    ensures holds { (cond : Cond) (values : Var → ℤ)
        → any_hold values (alternatives true cond) ≡ truth values cond }
    ensures fails { (cond : Cond) (values : Var → ℤ)
        → any_hold values (alternatives false cond) ≡ not (truth values cond) }
{}

/// Where a thread is at a location, its steps are the edges that leave it, both ways, if no edge leaves
/// the error; and it is at the error exactly where it is Failed.
pub fn steps_are_edges()
    ensures steps { (commands : List Command) (edges : List Edge)
        → leaving 1 edges ≡ [] → StepsAreEdges commands edges }
    ensures failed { (commands : List Command) (edges : List Edge) (thread : Thread) (at : ℕ)
        → ThreadIsAt commands edges thread at → ((at ≡ 1) ↔ (thread ≡ Failed)) }
{}

/// Where a graph is one of a program, an execution of the text reaches the error exactly where an error
/// trace of the graph runs: from the same state, by the same threads, with the same choices. So the
/// program never fails exactly where no error trace is feasible.
pub fn errors_are_traces()
    ensures traces { (program : Program) (graph : Graph)
        → IsGraphOf program graph → ErrorsAreTraces program graph }
    ensures safe { (program : Program) (graph : Graph)
        → IsGraphOf program graph → IsSafeExactly program graph }
{}
