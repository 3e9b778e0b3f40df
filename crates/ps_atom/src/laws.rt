//! Facts about canonical predicates that callers cite: each function does no work, and its clause is
//! the fact.
ghost use Rattle.std.specs.Prelude.{◌≡◌, ◌≢◌, ◌↔◌, ◌++◌, ◌∷◌, ◌≤◌, [], ℕ, ℤ, All, AllPairs, List, length};
ghost use Rattle.ps_term.specs.declared.row.Row.{Row};
ghost use Rattle.ps_term.specs.declared.var.Var.{Var};
ghost use Rattle.ps_atom.specs.declared.predicate.Predicate.{Predicate};
ghost use Rattle.ps_atom.specs.declared.place.Place128.TheVariants.{Known, New};
ghost use Rattle.ps_atom.specs.Atoms.{HoldsAt, IsInjectiveOn, IsOfSlots, renamed, renamed_variable};
ghost use Rattle.ps_atom.specs.Canonical.{IsCanonicalOf, IsCanonicalPredicate};
ghost use Rattle.ps_atom.specs.Places.{IsPlaceOf};
ghost use Rattle.ps_atom.specs.Range.{IsInRange, IsKnown};
ghost use Rattle.ps_atom.specs.Renaming.{IsMultiple, IsRenaming};
ghost use Rattle.ps_atom.specs.Says.{SaysAs};

use crate::atom::Atom;
use crate::place::Place128;
use crate::predicate::Predicate;
use crate::threads::Threads;
use ps_term::Row;

/// The place of a row says of all values what the row says: a canonical predicate with the threads in
/// its slots, or that it holds always or never.
pub fn says_the_same(list: &[Predicate], row: &Row, place: &Place128)
    ensures { IsPlaceOf list.now row.now place.now → (values : Var → ℤ)
        → SaysAs list.now values row.now place.now }
{
    let _pairs = row.term.pairs.as_slice();
}

/// A row has one canonical predicate and one order of its threads.
pub fn one_form(row: &Row, one: &Predicate, other: &Predicate)
    ensures { (threads others : List ℕ) → IsCanonicalOf row.now one.now threads
        → IsCanonicalOf row.now other.now others → (one.now ≡ other.now) × (threads ≡ others) }
{}

/// A row and a multiple of it have one canonical predicate, with the same threads.
pub fn multiples_are_one(row: &Row, multiple: &Row, predicate: &Predicate)
    ensures { (by : ℕ) (threads : List ℕ) → IsMultiple by row.now multiple.now
        → IsCanonicalOf row.now predicate.now threads
        → IsCanonicalOf multiple.now predicate.now threads }
{}

/// A row and a renaming of it have one canonical predicate, also where some threads have like pairs.
pub fn renamings_are_one(row: &Row, renaming: &Row, one: &Predicate, other: &Predicate)
    ensures { (new_thread : ℕ → ℕ) (threads others : List ℕ)
        → IsRenaming new_thread row.now renaming.now
        → IsCanonicalOf row.now one.now threads → IsCanonicalOf renaming.now other.now others
        → one.now ≡ other.now }
{}

/// A canonical predicate is the canonical one of its own row, with its slots in order.
pub fn is_its_own(row: &Row, predicate: &Predicate)
    ensures { (threads : List ℕ) → IsCanonicalOf row.now predicate.now threads
        → IsCanonicalPredicate predicate.now }
{}

/// The canonical predicate of a row whose variables are all declared is in range, where at most four threads occur.
pub fn canonical_is_in_range(row: &Row, predicate: &Predicate)
    ensures { (globals locals : ℕ) (threads : List ℕ) → IsCanonicalOf row.now predicate.now threads
        → length threads ≤ 4 → All (λ pair. IsKnown globals locals pair.0) row.now.term.pairs
        → IsInRange globals locals predicate.now }
{}

/// What was new and is pushed is known by the number that the push gives.
pub fn known_when_pushed(list: &[Predicate], row: &Row, predicate: &Predicate, threads: &Threads)
    ensures { IsPlaceOf list.now row.now (New predicate.now threads.now)
        → IsPlaceOf (list.now ++ predicate.now ∷ []) row.now (Known (length list.now) threads.now) }
{}

/// The atom with its threads renamed says of values what the atom says of those that the renamed
/// variables have, where each slot of the predicate has a thread.
pub fn renamed_atoms_say(atom: &Atom, predicate: &Predicate)
    ensures { (new : ℕ → ℕ) (values : Var → ℤ)
        → All (λ pair. IsOfSlots (length atom.now.threads) pair.0) predicate.now.row.term.pairs
        → HoldsAt values (renamed new atom.now).threads predicate.now.row
        ↔ HoldsAt (λ x. values (renamed_variable new x)) atom.now.threads predicate.now.row }
{}

/// An injection of threads leaves the threads of an atom distinct.
pub fn renamed_atoms_stay_apart(atom: &Atom)
    ensures { (new : ℕ → ℕ) → IsInjectiveOn new atom.now.threads
        → AllPairs (λ s t. s ≢ t) atom.now.threads
        → AllPairs (λ s t. s ≢ t) (renamed new atom.now).threads }
{}
