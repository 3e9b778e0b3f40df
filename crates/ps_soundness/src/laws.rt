//! What closed coverings prove: each function does no work, and its clause is the fact.
ghost use Rattle.std.specs.Prelude.{List, ℕ, ◌∷◌, Contains};
ghost use Rattle.ps_atom.specs.Numbers.{false_predicate};
ghost use Rattle.ps_atom.specs.declared.predicate.Predicate.{Predicate};
ghost use Rattle.ps_basis.specs.Space.{IsProved};
ghost use Rattle.ps_config.specs.Configurations.{Configuration};
ghost use Rattle.ps_graph.specs.ErrorTrace.{IsErrorTrace, IsFeasible};
ghost use Rattle.ps_graph.specs.Errors.{IsGraphOf};
ghost use Rattle.ps_graph.specs.Execution.{NeverFails};
ghost use Rattle.ps_graph.specs.declared.graph.Graph.{Graph};
ghost use Rattle.ps_soundness.specs.Traces.{AvoidError, trace_of};
ghost use Rattle.ps_step.specs.Closed.{IsAccepted, IsClosed};
ghost use Rattle.ps_step.specs.Steps.{IsAccepting};
ghost use Rattle.ps_demand.specs.Demands.{AreTied};
ghost use Rattle.ps_tree.specs.declared.program.Program.{Program};
ghost use Rattle.ps_triple.specs.Faults.{EntryHolds};
ghost use Rattle.ps_triple.specs.declared.entry.Entry.{Entry};

/// Where configurations are closed under entries, every error trace of the graph is proved by these entries: any
/// number of threads, of any bodies, at most one of them of the body that runs once.
pub fn closed_coverings_prove_error_traces()
    ensures { (graph : Graph) (entries : List Entry) (configurations : List Configuration)
        → AreTied entries → AvoidError configurations → IsClosed graph entries configurations
        → (letters : List (ℕ × ℕ)) → IsErrorTrace graph letters
        → IsProved entries (trace_of graph.edges letters) }
{}

/// Where all entries hold, no error trace that they prove is feasible.
pub fn proved_error_traces_are_infeasible()
    ensures { (graph : Graph) (predicates : List Predicate) (entries : List Entry)
        → ((entry : Entry) → Contains entries entry
        → EntryHolds graph.setting (false_predicate ∷ predicates) entry)
        → (letters : List (ℕ × ℕ)) → IsErrorTrace graph letters
        → IsProved entries (trace_of graph.edges letters) → ¬ IsFeasible graph letters }
{}

/// A graph with an accepted proof has no feasible error trace; so no execution of the text of which it is the graph,
/// with any number of threads, fails an assertion.
pub fn accepted_proofs_are_right()
    ensures traces { (graph : Graph) (predicates : List Predicate) (entries : List Entry)
        (configurations : List Configuration) → IsAccepted graph predicates entries configurations
        → (letters : List (ℕ × ℕ)) → IsErrorTrace graph letters → ¬ IsFeasible graph letters }
    ensures text { (program : Program) (graph : Graph) (predicates : List Predicate)
        (entries : List Entry) (configurations : List Configuration) → IsGraphOf program graph
        → IsAccepted graph predicates entries configurations → NeverFails program }
{}

/// A configuration that is accepting under entries is accepting under each part of them.
pub fn fewer_entries_accept_as_well()
    ensures { (graph : Graph) (some all : List Entry) (c : Configuration)
        → ((entry : Entry) → Contains some entry → Contains all entry)
        → IsAccepting graph all c → IsAccepting graph some c }
{}
