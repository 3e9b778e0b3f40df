//! Worked examples of entries: each function does no work, and its clauses are the examples.
ghost use Rattle.std.specs.Prelude.{◌≡◌, ◌^◌, ◌-◌, pos, negsuc, [], ◌∷◌, Contains};
ghost use Rattle.ps_farkas.specs.Examples.{bare_row, row_on_x};
ghost use Rattle.ps_command.specs.Examples.{row};
ghost use Rattle.ps_term.specs.declared.var.Var.TheVariants.{Local};
ghost use Rattle.ps_triple.specs.Examples.{at_least_0, begins, counter_entries, counter_predicates, counter_setting, keeps, leads, local_predicates, local_setting};
ghost use Rattle.ps_triple.specs.Faults.{EntryHolds, IsFirstEntryFault};
ghost use Rattle.ps_triple.specs.Fits.{entry_rows};
ghost use Rattle.ps_triple.specs.declared.entry.Entry.{Entry};
ghost use Rattle.ps_triple.specs.declared.entry_end.EntryFault.TheVariants.{BadNumber, FreeThread, Length, Past128, Sum};

/// The rows of entries: that `x >= 0` holds at first; that `x := x + 1` leads from `x >= 0` to `x >= 1`; that no run of
/// `assume x <= 0` begins where `x >= 1`.
pub fn rows_of_the_counter()
    ensures first { entry_rows counter_setting counter_predicates (begins 2 [])
        ≡ row_on_x (pos 1) (pos 0) ∷ row_on_x (negsuc 0) (pos 0) ∷ row_on_x (pos 1) (pos 1) ∷ [] }
    ensures adds { entry_rows counter_setting counter_predicates (leads 2 0 1 [])
        ≡ row_on_x (negsuc 0) (pos 0) ∷ row_on_x (pos 1) (pos 1) ∷ [] }
    ensures stops { entry_rows counter_setting counter_predicates (leads 1 2 0 [])
        ≡ row_on_x (negsuc 0) (pos 1) ∷ row_on_x (pos 1) (pos 0) ∷ bare_row (pos 0) ∷ [] }
{}

/// The rows of an initial entry with one slot are those of two threads, and that the predicate fails of the first.
pub fn rows_of_an_extra_thread()
    ensures { entry_rows local_setting local_predicates (begins 1 [])
        ≡ at_least_0 0 ∷ at_least_0 1 ∷ row ((Local 0 0, pos 1) ∷ []) (pos 1) ∷ [] }
{}

/// The rows of a triple name the threads of its atoms.
pub fn rows_of_threads()
    ensures { entry_rows local_setting local_predicates (keeps (5 ∷ []) (5 ∷ []) [])
        ≡ at_least_0 5 ∷ row ((Local 5 0, pos 1) ∷ []) (pos 1) ∷ [] }
{}

/// The entries that prove the counter safe hold.
pub fn entries_of_the_counter_hold()
    ensures { (entry : Entry) → Contains counter_entries entry
        → EntryHolds counter_setting counter_predicates entry }
{}

/// One of these with other multipliers, or with a command that isn't there, has a first fault, so it doesn't hold.
pub fn other_multipliers_do_not()
    ensures few { IsFirstEntryFault counter_setting counter_predicates (leads 1 2 0 (1 ∷ 1 ∷ []))
        (Length 2 3) }
    ensures sum { IsFirstEntryFault counter_setting counter_predicates
        (leads 1 2 0 (1 ∷ 0 ∷ 0 ∷ [])) Sum }
    ensures past { IsFirstEntryFault counter_setting counter_predicates
        (leads 1 2 0 ((2 ^ 128 - 1) ∷ 1 ∷ 0 ∷ [])) Past128 }
    ensures number { IsFirstEntryFault counter_setting counter_predicates
        (leads 1 7 0 (1 ∷ 1 ∷ [])) BadNumber }
{}

/// A thread before the command that is neither 0 nor a thread after it is free.
pub fn other_threads_are_faults()
    ensures free { IsFirstEntryFault local_setting local_predicates
        (keeps (2 ∷ []) (1 ∷ []) []) FreeThread }
    ensures mover { ¬ IsFirstEntryFault local_setting local_predicates
        (keeps (0 ∷ []) (1 ∷ []) []) FreeThread }
    ensures slots { IsFirstEntryFault local_setting local_predicates
        (keeps (1 ∷ 1 ∷ []) (1 ∷ []) []) BadNumber }
{}
