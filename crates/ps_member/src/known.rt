// Which atoms are given, and what they give.
ghost use Rattle.std.specs.Prelude.{◌≡◌, IfOk};
ghost use Rattle.std.specs.List.{list_any};
ghost use Rattle.std.specs.List.Sorted.{IsStrictlySortedBy};
ghost use Rattle.std.specs.Ordering.{is_lt};
ghost use Rattle.ps_atom.specs.Atoms.{atom_cmp};
ghost use Rattle.ps_demand.specs.Pools.{lists_of};
ghost use Rattle.ps_member.specs.inner.Known.{are_among, is_among, is_initial_in, is_met};

use ps_atom::Atom;
use ps_basis::Shown;
use ps_demand::demands_of;
use std::alloc::{AllocError, Global};
use std::slice;

// Whether the atom is one of these, by a binary search.
fn is_among(known: &[Atom], atom: &Atom) -> bool
    requires { IsStrictlySortedBy atom_cmp known.now }
    ensures { result ≡ is_among known.now atom.now }
{
    let place = known.partition_point(
        |other: &Atom| -> bool
            ensures { result ≡ is_lt (atom_cmp other.now atom.entry.now) }
        { other.compare(atom).is_lt() },
    );
    match known.get(place) {
        Some(other) => other.compare(atom).is_eq(),
        None => false,
    }
}

fn are_among(known: &[Atom], atoms: &[Atom]) -> bool
    requires { IsStrictlySortedBy atom_cmp known.now }
    ensures { result ≡ are_among known.now atoms.now }
{
    for atom in atoms {
        if !is_among(known, atom) {
            return false;
        }
    }
    true
}

fn some_are_among(known: &[Atom], sets: &[Vec<Atom>]) -> bool
    requires { IsStrictlySortedBy atom_cmp known.now }
    ensures { result ≡ list_any (are_among known.now) (lists_of sets.now) }
{
    for set in sets {
        if are_among(known, set.as_slice()) {
            return true;
        }
    }
    false
}

// Whether the atom's predicate has an initial entry.
pub(crate) fn is_initial<B: Shown>(basis: &B, atom: &Atom) -> bool
    ensures { result ≡ is_initial_in (B.entries basis.now) atom.now }
{
    basis.is_initial(atom.predicate)
}

// Whether all atoms of some demand of the atom are known.
pub(crate) fn is_met<B: Shown>(
    alloc: Global,
    basis: &B,
    known: &[Atom],
    atom: &Atom,
    thread: u32,
    command: u32,
) -> Result<bool, AllocError>
    requires { IsStrictlySortedBy atom_cmp known.now }
    ensures { IfOk result (λ yes.
        yes ≡ is_met (B.entries basis.now) thread command known.now atom.now) }
{
    let sets = demands_of(alloc, basis, slice::from_ref(atom), thread, command)?;
    let met = some_are_among(known, sets.as_slice());
    Ok(met)
}
