//! Whether all that meets the demands of a step is covered.
ghost use Rattle.std.specs.Prelude.{◌≡◌, ◌<◌, ◌++◌, ◌∷◌, ◌↔◌, [], Contains, IfOk, IfSome, IsTrue, MatchBool, OnOk, length};
ghost use Rattle.ps_check.specs.inner.Branches.{AddsBranches, AreHitsCovered, HasUncoveredHit, IsNextUnmet};
ghost use Rattle.ps_check.specs.inner.Index.{AreCandidates};
ghost use Rattle.ps_demand.specs.Hitting.{MeetsSet};
ghost use Rattle.ps_demand.specs.Pools.{lists_of};

use crate::covered::is_covered;
use crate::listed::Listed;
use ps_atom::Atom;
use ps_list::copies;
use std::alloc::{AllocError, Global};

/// Atoms that meet all sets before one of this number. Those from it on are still to be met.
#[derive(Drop)]
pub(crate) struct Branch {
    pub chosen: Vec<Atom>,
    pub next: usize,
}

/// Whether each list of atoms that has one of each set is covered with these located threads.
///
/// A search in depth over one atom of each set in turn. A set that the atoms chosen so far meet is passed. A branch
/// ends as soon as the atoms chosen so far are covered, since more atoms are covered too. One that meets all sets and
/// isn't covered ends the search. Each branch takes the time of `is_covered`; there may be as many as there are
/// choices. Each that waits takes the memory of its atoms.
pub(crate) fn are_hits_covered(
    alloc: Global,
    configs: &Listed,
    candidates: &[u32],
    at: &[(u32, u32)],
    sets: &[Vec<Atom>],
) -> Result<bool, AllocError>
    requires { AreCandidates configs.now at.now candidates.now }
    ensures { IfOk result (λ covered. MatchBool covered
        (AreHitsCovered configs.now at.now (lists_of sets.now))
        (HasUncoveredHit configs.now at.now (lists_of sets.now))) }
{
    let none = Vec::new(alloc);
    let mut waiting = Vec::new(alloc);
    waiting.push(Branch {
        chosen: none,
        next: 0,
    })?;
    while let Some(branch) = waiting.pop() {
        let chosen = branch.chosen.as_slice();
        if is_covered(configs, candidates, at, chosen) {
            continue;
        }
        match next_unmet(sets, chosen, branch.next) {
            None => return Ok(false),
            Some(place) => add_branches(
                alloc,
                chosen,
                sets[place].as_slice(),
                place + 1,
                &mut waiting,
            )?,
        }
    }
    Ok(true)
}

/// The first set from a number on that the atoms don't meet.
fn next_unmet(sets: &[Vec<Atom>], atoms: &[Atom], from: usize) -> Option<usize>
    ensures within { IfSome result (λ place. place < length sets.now) }
    ensures unmet { IsNextUnmet (lists_of sets.now) atoms.now from result }
{
    for place in from..sets.len() {
        if !meets(atoms, sets[place].as_slice()) {
            return Some(place);
        }
    }
    None
}

/// Whether one of the set is among the atoms.
fn meets(atoms: &[Atom], set: &[Atom]) -> bool
    ensures { IsTrue result ↔ MeetsSet atoms.now set.now }
{
    for atom in set {
        if has(atoms, atom) {
            return true;
        }
    }
    false
}

fn has(atoms: &[Atom], atom: &Atom) -> bool
    ensures { IsTrue result ↔ Contains atoms.now atom.now }
{
    for other in atoms {
        if is_same(other, atom) {
            return true;
        }
    }
    false
}

fn is_same(one: &Atom, other: &Atom) -> bool
    ensures { IsTrue result ↔ (one.now ≡ other.now) }
{
    one.compare(other).is_eq()
}

/// Adds a branch for each atom of the set: the chosen atoms and this one.
fn add_branches(
    alloc: Global,
    chosen: &[Atom],
    set: &[Atom],
    next: usize,
    waiting: &mut Vec<Branch>,
) -> Result<(), AllocError>
    ensures { OnOk result
        (AddsBranches chosen.now next set.now waiting.old.items waiting.new.items) }
{
    for atom in set {
        let more = with_atom(alloc, chosen, atom)?;
        waiting.push(Branch { chosen: more, next })?;
    }
    Ok(())
}

/// Copies of the atoms, and of one more.
fn with_atom(alloc: Global, atoms: &[Atom], atom: &Atom) -> Result<Vec<Atom>, AllocError>
    ensures { IfOk result (λ more. more.items ≡ atoms.now ++ atom.now ∷ []) }
{
    let mut more = copies(alloc, atoms)?;
    more.push(atom.copy(alloc)?)?;
    Ok(more)
}
