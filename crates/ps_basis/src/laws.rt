//! What proof spaces say: each function does no work, and its clause is the fact.
ghost use Rattle.std.specs.Prelude.{◌≡◌, ◌≢◌, ◌↔◌, [], List, ℕ, Contains, Some, reverse, slice_get};
ghost use Rattle.ps_atom.specs.Numbers.{false_predicate};
ghost use Rattle.ps_atom.specs.declared.predicate.Predicate.{Predicate};
ghost use Rattle.ps_basis.specs.Demands.{IsGiven};
ghost use Rattle.ps_basis.specs.Feasible.{Runs};
ghost use Rattle.ps_basis.specs.Space.{IsProved};
ghost use Rattle.ps_command.specs.declared.setting.Setting.{Setting};
ghost use Rattle.ps_triple.specs.Entries.{false_atom};
ghost use Rattle.ps_triple.specs.Faults.{EntryHolds};
ghost use Rattle.ps_triple.specs.declared.entry.Entry.{Entry};

/// A trace is proved exactly where it has a letter, and from its last letter to its first the atom false is given from
/// atoms that hold initially.
pub fn rules_are_demands()
    ensures { (entries : List Entry) (trace : List (ℕ × ℕ))
        → IsProved entries trace ↔ ((trace ≢ []) × IsGiven entries (reverse trace) false_atom) }
{}

/// Where all entries hold, a proved trace runs from no initial state with at least the threads that occur, with no
/// havoc values.
pub fn proved_traces_do_not_run()
    ensures { (setting : Setting) (predicates : List Predicate) (entries : List Entry)
        (trace : List (ℕ × ℕ))
        → slice_get predicates 0 ≡ Some false_predicate
        → ((entry : Entry) → Contains entries entry → EntryHolds setting predicates entry)
        → IsProved entries trace → ¬ Runs setting trace }
{}
