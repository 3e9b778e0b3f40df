//! Whether atoms that are demanded alone meet all other demands of a step: then they are its only least set.
ghost use Rattle.std.specs.Prelude.{◌≡◌, ◌↔◌, IsTrue, Contains};
ghost use Rattle.std.specs.List.Sorted.{IsStrictlySortedBy};
ghost use Rattle.std.specs.Ordering.{is_lt};
ghost use Rattle.ps_atom.specs.Atoms.{atom_cmp};
ghost use Rattle.ps_atom.specs.declared.atom.Atom.{Atom as AnAtom};
ghost use Rattle.ps_demand.specs.Hitting.{HitsAll, MeetsSet};
ghost use Rattle.ps_demand.specs.Pools.{lists_of};

use ps_atom::Atom;
use std::cmp::Ordering;

/// Puts the atoms in ascending order, each once.
pub(crate) fn put_in_order(atoms: &mut Vec<Atom>)
    ensures ascends { IsStrictlySortedBy atom_cmp atoms.new.items }
    ensures same { (q : AnAtom) → Contains atoms.new.items q ↔ Contains atoms.old.items q }
{
    atoms.sort_unstable_by(
        |one: &Atom, other: &Atom| -> Ordering
            ensures { result ≡ atom_cmp one.now other.now }
        { one.compare(other) },
    );
    atoms.dedup_by(|one, other| one.compare(other).is_eq());
}

/// Whether the atoms, which ascend, meet all sets.
pub(crate) fn meet_all(atoms: &[Atom], sets: &[Vec<Atom>]) -> bool
    requires { IsStrictlySortedBy atom_cmp atoms.now }
    ensures { IsTrue result → HitsAll (lists_of sets.now) atoms.now }
{
    for set in sets {
        if !meets(atoms, set.as_slice()) {
            return false;
        }
    }
    true
}

fn meets(atoms: &[Atom], set: &[Atom]) -> bool
    requires { IsStrictlySortedBy atom_cmp atoms.now }
    ensures { IsTrue result ↔ MeetsSet atoms.now set.now }
{
    for atom in set {
        if is_among(atom, atoms) {
            return true;
        }
    }
    false
}

/// Whether the atom is one of these, which ascend, by a binary search.
fn is_among(atom: &Atom, atoms: &[Atom]) -> bool
    requires { IsStrictlySortedBy atom_cmp atoms.now }
    ensures { IsTrue result ↔ Contains atoms.now atom.now }
{
    let place = atoms.partition_point(
        |other: &Atom| -> bool
            ensures { result ≡ is_lt (atom_cmp other.now atom.entry.now) }
        { other.compare(atom).is_lt() },
    );
    if place >= atoms.len() {
        return false;
    }
    atoms[place].compare(atom).is_eq()
}
