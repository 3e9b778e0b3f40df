//! What held entries are worth: each function does no work, and its clause is the fact.
ghost use Rattle.std.specs.Prelude.{◌≡◌, List};
ghost use Rattle.ps_atom.specs.declared.predicate.Predicate.{Predicate};
ghost use Rattle.ps_command.specs.declared.setting.Setting.{Setting};
ghost use Rattle.ps_triple.specs.Entries.{AreAlike};
ghost use Rattle.ps_triple.specs.Faults.{EntryHolds, IsFirstEntryFault};
ghost use Rattle.ps_triple.specs.Fits.{entry_rows, lambda_of};
ghost use Rattle.ps_triple.specs.Validity.{IsTrueAtFirst, IsValidTriple};
ghost use Rattle.ps_triple.specs.declared.entry.Entry.{Entry};
ghost use Rattle.ps_triple.specs.declared.entry.Entry.TheVariants.{Triple as OfTriple, Initial as OfInitial};
ghost use Rattle.ps_triple.specs.declared.entry_end.EntryFault.{EntryFault};
ghost use Rattle.ps_triple.specs.declared.initial.Initial.{Initial};
ghost use Rattle.ps_triple.specs.declared.triple.Triple.{Triple};

/// A triple that holds is valid in every state: under every renaming, from each state with any number of threads that
/// meets the atoms before, every run of the command by the renamed thread ends where the atom after holds.
pub fn held_triples_are_valid()
    ensures { (setting : Setting) (predicates : List Predicate) (t : Triple)
        → EntryHolds setting predicates (OfTriple t) → IsValidTriple setting predicates t }
{}

/// The predicate of an initial entry that holds is true of any threads in every initial state, also where the state has
/// fewer threads than the predicate has slots.
pub fn held_initials_are_true()
    ensures { (setting : Setting) (predicates : List Predicate) (i : Initial)
        → EntryHolds setting predicates (OfInitial i)
        → IsTrueAtFirst setting predicates i.predicate }
{}

/// Alike entries have the same rows, and differ in their multipliers at most.
pub fn alike_entries_differ_in_multipliers()
    ensures rows { (setting : Setting) (predicates : List Predicate) (one other : Entry)
        → AreAlike one other → entry_rows setting predicates one
        ≡ entry_rows setting predicates other }
    ensures only { (one other : Entry)
        → AreAlike one other → lambda_of one ≡ lambda_of other → one ≡ other }
    ensures itself { (one other : Entry) → one ≡ other → AreAlike one other }
{}

/// An entry that holds has no first fault, and no entry has two.
pub fn first_faults_are_one()
    ensures none { (setting : Setting) (predicates : List Predicate) (entry : Entry)
        (fault : EntryFault)
        → EntryHolds setting predicates entry → ¬ IsFirstEntryFault setting predicates entry fault }
    ensures one { (setting : Setting) (predicates : List Predicate) (entry : Entry)
        (one other : EntryFault)
        → IsFirstEntryFault setting predicates entry one
        → IsFirstEntryFault setting predicates entry other → one ≡ other }
{}
