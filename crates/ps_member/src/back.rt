// From the last letter of a trace to the first: the atoms that can be demanded.
ghost use Rattle.std.specs.Prelude.{◌≡◌, ◌<◌, [], ◌∷◌, All, IfOk, length, map, reverse};
ghost use Rattle.std.specs.List.Sorted.{IsStrictlySortedBy};
ghost use Rattle.ps_atom.specs.Atoms.{atom_cmp};
ghost use Rattle.ps_demand.specs.Demands.{demands};
ghost use Rattle.ps_demand.specs.Pools.{HasAll};
ghost use Rattle.ps_member.specs.inner.Walks.{IsWalk, letter_of};
ghost use Rattle.ps_soundness.specs.Traces.{trace_of};
ghost use Rattle.ps_trace.specs.Traces.{pairs_in};
ghost use Rattle.ps_triple.specs.Entries.{false_atom};

use crate::cut::{Cut, Walk};
use ps_atom::{Atom, Threads};
use ps_basis::Shown;
use ps_demand::{demands_of, pool_of};
use ps_graph::Graph;
use ps_trace::{Letter, command_of};
use std::alloc::{AllocError, Global};

// False alone.
fn false_alone(alloc: Global) -> Result<Vec<Atom>, AllocError>
    ensures { IfOk result (λ atoms. atoms.items ≡ false_atom ∷ []) }
{
    let mut atoms = Vec::with_capacity(alloc, 1)?;
    atoms.push(Atom {
        predicate: 0,
        threads: Threads::new(alloc),
    })?;
    Ok(atoms)
}

// All atoms that those after the command of the thread demand.
fn atoms_before<B: Shown>(
    alloc: Global,
    basis: &B,
    after: &[Atom],
    thread: u32,
    command: u32,
) -> Result<Vec<Atom>, AllocError>
    ensures ascend { IfOk result (λ before. IsStrictlySortedBy atom_cmp before.items) }
    ensures all { IfOk result (λ before.
        HasAll before.items (demands (B.entries basis.now) after.now thread command)) }
{
    let sets = demands_of(alloc, basis, after, thread, command)?;
    let before = pool_of(alloc, sets.as_slice())?;
    Ok(before)
}

// The walk over the letters, the last one first.
pub(crate) fn walk_back<B: Shown>(
    alloc: Global,
    graph: &Graph,
    basis: &B,
    letters: &[Letter],
) -> Result<Walk, AllocError>
    requires edges { All (λ l. l.edge < length graph.now.edges) letters.now }
    ensures letters { IfOk result (λ walk. map letter_of walk.cuts.items
        ≡ reverse (trace_of graph.now.edges (pairs_in letters.now))) }
    ensures walk { IfOk result (λ walk. IsWalk (B.entries basis.now) walk) }
{
    let mut cuts = Vec::with_capacity(alloc, letters.len())?;
    let mut atoms = false_alone(alloc)?;
    let mut left = letters.len();
    while left > 0 {
        left -= 1;
        let letter = letters[left];
        let command = command_of(graph, letter.edge);
        let before = atoms_before(alloc, basis, atoms.as_slice(), letter.thread, command)?;
        cuts.push(Cut {
            thread: letter.thread,
            command,
            after: atoms,
        })?;
        atoms = before;
    }
    Ok(Walk { cuts, first: atoms })
}
