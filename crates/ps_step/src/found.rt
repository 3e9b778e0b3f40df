//! The least hitting sets of demands.
ghost use Rattle.std.specs.Prelude.{◌≡◌, ◌<◌, ◌++◌, ◌∷◌, [], ℕ, List, IfOk, Contains, map, length};
ghost use Rattle.ps_demand.specs.Candidates.{demanded_of, pairs_of};
ghost use Rattle.ps_demand.specs.Numbered.{named};
ghost use Rattle.ps_step.specs.declared.expand_end.TheConstants.{MOST_SETS as most_sets};
ghost use Rattle.ps_step.specs.inner.Found.{IsFound};
ghost use Rattle.ps_demand.specs.Pools.{lists_of, AreOfPool};

use crate::expand_end::MOST_SETS;
use crate::only::{meet_all, put_in_order};
use ps_atom::Atom;
use ps_demand::{Candidate, Parted, numbered, parted_demands, pool_of};
use ps_hit::{Hits, minimal_hits};
use ps_list::Sequence;
use std::alloc::{AllocError, Global};

/// The least sets of atoms that meet the demands of a step, or that there are more than `MOST_SETS`.
#[derive(Drop)]
pub(crate) enum Found {
    All(Vec<Vec<Atom>>),
    TooMany,
}

/// The least sets of atoms with one of each demand of the candidates where the thread runs the command: each in ascending
/// order, in lexicographic order. Mostly it is one, of the atoms that are demanded alone, and no search is made.
pub(crate) fn least_sets<'a>(
    alloc: Global,
    candidates: &[Candidate<'a>],
    thread: u32,
    command: u32,
) -> Result<Found, AllocError>
    ensures { IfOk result
        (IsFound (demanded_of thread command (pairs_of candidates.now)) most_sets) }
{
    let Parted { mut alone, others } = parted_demands(alloc, candidates, thread, command)?;
    put_in_order(&mut alone);
    if meet_all(alone.as_slice(), others.as_slice()) {
        let sets = one_set(alloc, alone)?;
        return Ok(Found::All(sets));
    }
    let sets = all_sets(alloc, alone, others)?;
    let found = searched(alloc, sets.as_slice())?;
    Ok(found)
}

/// The sets, and one for each atom.
fn all_sets(
    alloc: Global,
    alone: Vec<Atom>,
    others: Vec<Vec<Atom>>,
) -> Result<Vec<Vec<Atom>>, AllocError>
    ensures { IfOk result (λ sets.
        lists_of sets.items ≡ lists_of others.items ++ map (λ q. q ∷ []) alone.items) }
{
    let mut sets = others;
    sets.reserve(alone.len())?;
    for atom in alone {
        sets.push(one_atom(alloc, atom)?)?;
    }
    Ok(sets)
}

fn one_atom(alloc: Global, atom: Atom) -> Result<Vec<Atom>, AllocError>
    ensures { IfOk result (λ set. set.items ≡ atom ∷ []) }
{
    let mut set = Vec::with_capacity(alloc, 1)?;
    set.push(atom)?;
    Ok(set)
}

fn one_set(alloc: Global, set: Vec<Atom>) -> Result<Vec<Vec<Atom>>, AllocError>
    ensures { IfOk result (λ sets. lists_of sets.items ≡ set.items ∷ []) }
{
    let mut sets = Vec::with_capacity(alloc, 1)?;
    sets.push(set)?;
    Ok(sets)
}

fn searched(alloc: Global, sets: &[Vec<Atom>]) -> Result<Found, AllocError>
    ensures { IfOk result (IsFound (lists_of sets.now) most_sets) }
{
    let pool = pool_of(alloc, sets)?;
    let numbers = numbered(alloc, pool.as_slice(), sets)?;
    match minimal_hits(alloc, numbers.as_slice(), MOST_SETS)? {
        Hits::All(hits) => Ok(Found::All(all_named(alloc, pool.as_slice(), hits.as_slice())?)),
        Hits::TooMany => Ok(Found::TooMany),
    }
}

fn all_named(
    alloc: Global,
    pool: &[Atom],
    hits: &[Sequence<u32>],
) -> Result<Vec<Vec<Atom>>, AllocError>
    requires { (hit : List ℕ) → Contains hits.now hit → AreOfPool pool.now hit }
    ensures { IfOk result (λ sets. lists_of sets.items ≡ map (named pool.now) hits.now) }
{
    let mut sets = Vec::with_capacity(alloc, hits.len())?;
    for hit in hits {
        sets.push(atoms_named(alloc, pool, hit.as_slice())?)?;
    }
    Ok(sets)
}

fn atoms_named(alloc: Global, pool: &[Atom], places: &[u32]) -> Result<Vec<Atom>, AllocError>
    requires { AreOfPool pool.now places.now }
    ensures { IfOk result (λ atoms. atoms.items ≡ named pool.now places.now) }
{
    let mut atoms = Vec::with_capacity(alloc, places.len())?;
    for place in places {
        atoms.push(pool[*place as usize].copy(alloc)?)?;
    }
    Ok(atoms)
}
