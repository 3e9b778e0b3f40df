//! What interpolations are worth: each function does no work, and its clause is the fact.
ghost use Rattle.std.specs.Prelude.{◌≡◌, ◌≢◌, ◌<◌, ◌⊎◌, ◌++◌, [], ℕ, pos, All, Contains, List, Some, length, slice_get};
ghost use Rattle.ps_atom.specs.Numbers.{false_predicate};
ghost use Rattle.ps_atom.specs.declared.predicate.Predicate.{Predicate};
ghost use Rattle.ps_basis.specs.Space.{IsProved};
ghost use Rattle.ps_command.specs.declared.setting.Setting.{Setting};
ghost use Rattle.ps_farkas.specs.Refutes.{Refutes};
ghost use Rattle.ps_graph.specs.declared.graph.Graph.{Graph};
ghost use Rattle.ps_soundness.specs.Traces.{trace_of};
ghost use Rattle.ps_interp.specs.Cuts.{sum_at};
ghost use Rattle.ps_interp.specs.Ends.{EndsInterpolation, IsMemory};
ghost use Rattle.ps_interp.specs.Made.{IsInterpolation, letters_of};
ghost use Rattle.ps_interp.specs.declared.interp_end.InterpEnd.{InterpEnd};
ghost use Rattle.ps_term.specs.Pairs.{coefficient};
ghost use Rattle.ps_term.specs.declared.var.Var.TheVariants.{Havoc};
ghost use Rattle.ps_trace.specs.Rows.{rows_of};
ghost use Rattle.ps_triple.specs.Faults.{EntryHolds};
ghost use Rattle.ps_triple.specs.declared.entry.Entry.{Entry};

/// The entries of an interpolation prove its trace.
pub fn interpolations_prove()
    ensures { (setting : Setting) (known : List Predicate) (trace : List (ℕ × ℕ))
        (lambda : List ℕ) (new : List Predicate) (entries : List Entry)
        → trace ≢ [] → IsInterpolation setting known trace lambda new entries
        → IsProved entries trace }
{}

/// Where the multipliers refute the rows of a trace, no havoc is left in the sums at its cuts.
pub fn havocs_cancel()
    ensures { (graph : Graph) (letters : List (ℕ × ℕ)) (lambda : List ℕ)
        → All (λ l. l.1 < length graph.edges) letters → Refutes (rows_of graph letters) lambda
        → (cut i : ℕ) → coefficient (Havoc i)
        (sum_at (letters_of graph.setting (trace_of graph.edges letters) lambda) cut).pairs
        ≡ pos 0 }
{}

/// The entries of an interpolation hold where the multipliers refute the rows of the trace.
pub fn interpolations_hold()
    ensures { (graph : Graph) (letters : List (ℕ × ℕ)) (lambda : List ℕ)
        (known new : List Predicate) (entries : List Entry)
        → All (λ l. l.1 < length graph.edges) letters → Refutes (rows_of graph letters) lambda
        → slice_get known 0 ≡ Some false_predicate
        → IsInterpolation graph.setting known (trace_of graph.edges letters) lambda new entries
        → (entry : Entry) → Contains entries entry
        → EntryHolds graph.setting (known ++ new) entry }
{}

/// A trace has one interpolation at most.
pub fn interpolations_are_one()
    ensures { (setting : Setting) (known : List Predicate) (trace : List (ℕ × ℕ))
        (lambda : List ℕ) (new others : List Predicate) (entries more : List Entry)
        → IsInterpolation setting known trace lambda new entries
        → IsInterpolation setting known trace lambda others more
        → (new ≡ others) × (entries ≡ more) }
{}

/// Where it has one, want of memory alone can end the call.
pub fn interpolations_do_not_end()
    ensures { (setting : Setting) (known new : List Predicate) (trace : List (ℕ × ℕ))
        (lambda : List ℕ) (entries : List Entry) (end : InterpEnd) → 0 < length known
        → IsInterpolation setting known trace lambda new entries
        → EndsInterpolation setting known trace lambda end → IsMemory end }
{}

/// One reason at most, beside want of memory, ends the call.
pub fn ends_are_one()
    ensures { (setting : Setting) (known : List Predicate) (trace : List (ℕ × ℕ))
        (lambda : List ℕ) (one other : InterpEnd) → 0 < length known
        → EndsInterpolation setting known trace lambda one
        → EndsInterpolation setting known trace lambda other
        → IsMemory one ⊎ (IsMemory other ⊎ (one ≡ other)) }
{}
