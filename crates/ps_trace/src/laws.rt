//! What traces, witnesses and executions say of each other: each function does no work, and its clause is the fact.
ghost use Rattle.std.specs.Prelude.{◌↔◌, ℕ, List};
ghost use Rattle.ps_graph.specs.Errors.{IsGraphOf};
ghost use Rattle.ps_graph.specs.declared.graph.Graph.{Graph};
ghost use Rattle.ps_trace.specs.Meets.{RowsSayRuns};
ghost use Rattle.ps_trace.specs.Reaches.{Reaches};
ghost use Rattle.ps_trace.specs.Replay.{Replays};
ghost use Rattle.ps_trace.specs.declared.witness.Witness.{Witness};
ghost use Rattle.ps_tree.specs.declared.program.Program.{Program};

/// Initial values and havoc values meet the rows of a trace exactly where they run it.
pub fn rows_say_runs()
    ensures { (graph : Graph) (letters : List (ℕ × ℕ)) → RowsSayRuns graph letters }
{}

/// Where a graph is one of a program, a witness reaches a failure of the program exactly where it replays on the graph.
pub fn replays_are_failures()
    ensures { (program : Program) (graph : Graph) → IsGraphOf program graph
        → (witness : Witness) → Reaches program witness ↔ Replays graph witness }
{}
