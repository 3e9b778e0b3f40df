//! The atoms of demands by number.
ghost use Rattle.std.specs.Prelude.{◌≡◌, ◌<◌, IfOk, OnOk, Contains, length, map};
ghost use Rattle.std.specs.List.Sorted.{IsStrictlySortedBy};
ghost use Rattle.std.specs.Ordering.{is_lt};
ghost use Rattle.ps_atom.specs.Atoms.{atom_cmp};
ghost use Rattle.ps_demand.specs.Numbered.{at_place, IsNumbered};
ghost use Rattle.ps_demand.specs.Pools.{atoms_of, lists_of, HasAll, HasEach, Adds, ArePlaces};

use crate::ranked::Ranked;
use ps_atom::Atom;
use std::alloc::{AllocError, Global};
use std::collections::BTreeSet;

/// All atoms of the sets, each once and in ascending order.
pub fn pool_of(alloc: Global, sets: &[Vec<Atom>]) -> Result<Vec<Atom>, AllocError>
    ensures ascends { IfOk result (λ pool. IsStrictlySortedBy atom_cmp pool.items) }
    ensures all { IfOk result (λ pool. HasAll pool.items (lists_of sets.now)) }
{
    let mut found = BTreeSet::new(alloc);
    for set in sets {
        add_all(alloc, set.as_slice(), &mut found)?;
    }
    let pool = listed(alloc, found)?;
    Ok(pool)
}

fn add_all(alloc: Global, atoms: &[Atom], found: &mut BTreeSet<Ranked>) -> Result<(), AllocError>
    ensures { OnOk result (Adds atoms.now (atoms_of found.old.keys) (atoms_of found.new.keys)) }
{
    for atom in atoms {
        found.insert(Ranked {
            atom: atom.copy(alloc)?,
        })?;
    }
    Ok(())
}

/// The atoms of a set in its order.
fn listed(alloc: Global, found: BTreeSet<Ranked>) -> Result<Vec<Atom>, AllocError>
    ensures all { IfOk result (λ list. list.items ≡ atoms_of found.keys) }
    ensures ascends { IfOk result (λ list. IsStrictlySortedBy atom_cmp list.items) }
{
    let mut list = Vec::with_capacity(alloc, found.len())?;
    for ranked in found {
        let Ranked { atom } = ranked;
        list.push(atom)?;
    }
    Ok(list)
}

/// The place of an atom that the pool has.
fn place_of(pool: &[Atom], atom: &Atom) -> usize
    requires ascends { IsStrictlySortedBy atom_cmp pool.now }
    requires there { Contains pool.now atom.now }
    ensures within { result < length pool.now }
    ensures is { at_place pool.now result ≡ atom.now }
{
    pool.partition_point(
        |other: &Atom| -> bool
            ensures { result ≡ is_lt (atom_cmp other.now atom.entry.now) }
        { other.compare(atom).is_lt() },
    )
}

/// The places of the atoms of a set. More of them than 32 bits can number are answered as want of
/// memory, which so many atoms are.
fn places_of(alloc: Global, pool: &[Atom], set: &[Atom]) -> Result<Vec<u32>, AllocError>
    requires ascends { IsStrictlySortedBy atom_cmp pool.now }
    requires there { HasEach pool.now set.now }
    ensures { IfOk result (λ places. ArePlaces pool.now set.now places.items) }
{
    let mut places = Vec::with_capacity(alloc, set.len())?;
    for atom in set {
        match u32::try_from(place_of(pool, atom)) {
            Ok(place) => places.push(place)?,
            Err(_) => return Err(AllocError),
        }
    }
    Ok(places)
}

/// The sets by the places of their atoms.
pub fn numbered(
    alloc: Global,
    pool: &[Atom],
    sets: &[Vec<Atom>],
) -> Result<Vec<Vec<u32>>, AllocError>
    requires ascends { IsStrictlySortedBy atom_cmp pool.now }
    requires there { HasAll pool.now (lists_of sets.now) }
    ensures { IfOk result (λ numbers.
        IsNumbered pool.now (lists_of sets.now) (lists_of numbers.items)) }
{
    let mut numbers = Vec::with_capacity(alloc, sets.len())?;
    for set in sets {
        numbers.push(places_of(alloc, pool, set.as_slice())?)?;
    }
    Ok(numbers)
}
