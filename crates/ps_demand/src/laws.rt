//! Facts about demands: each function does no work, and its clause is the fact.
ghost use Rattle.std.specs.Prelude.{◌≡◌, ◌≢◌, ◌↔◌, ◌∷◌, [], ℕ, List, Contains};
ghost use Rattle.std.specs.List.{filter, filter_map};
ghost use Rattle.ps_atom.specs.declared.atom.Atom.{Atom};
ghost use Rattle.ps_demand.specs.Candidates.{candidates, demanded_of, has_no_only, only_atom};
ghost use Rattle.ps_demand.specs.Demands.{AreTied, demands};
ghost use Rattle.ps_triple.specs.Entries.{GivesAtom};
ghost use Rattle.ps_triple.specs.declared.entry.Entry.{Entry};

/// Where no triple has a free thread, the demands are exactly the atoms before of the renamed triples
/// that have one of the atoms after the command of the thread.
pub fn demands_are_what_gives()
    ensures { (entries : List Entry) (atoms : List Atom) (thread command : ℕ) (before : List Atom)
        → AreTied entries → Contains (demands entries atoms thread command) before
        ↔ ((q : Atom) × Contains atoms q × GivesAtom entries thread command before q) }
{}

/// The triples that may demand something for atoms tell all demands of a step, by any thread.
pub fn candidates_tell_the_demands()
    ensures { (entries : List Entry) (atoms : List Atom) (thread command : ℕ)
        → demanded_of thread command (candidates entries atoms command)
        ≡ demands entries atoms thread command }
{}

/// The two parts of demands are all of them: the atoms that are alone in one, and those that have none or several.
pub fn parts_are_all_demands()
    ensures alone { (sets : List (List Atom)) (q : Atom)
        → Contains (filter_map only_atom sets) q ↔ Contains sets (q ∷ []) }
    ensures others { (sets : List (List Atom)) (set : List Atom)
        → Contains (filter has_no_only sets) set ↔ (Contains sets set × ((q : Atom) → set ≢ q ∷ [])) }
{}
