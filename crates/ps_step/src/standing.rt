//! Whether one configuration is a step back from another.
ghost use Rattle.std.specs.Prelude.{◌≡◌, ◌<◌, ◌↔◌, ◌∷◌, List, IsTrue, Contains, Some, length, map};
ghost use Rattle.std.specs.List.{filter_map};
ghost use Rattle.ps_atom.specs.Atoms.{renamed};
ghost use Rattle.ps_atom.specs.declared.atom.Atom.{Atom as AnAtom};
ghost use Rattle.ps_config.specs.Sent.{sent};
ghost use Rattle.ps_step.specs.Steps.{GoesBack, Stands};
ghost use Rattle.ps_demand.specs.Demands.{AreTied};
ghost use Rattle.ps_demand.specs.Demands.{demand, demands};
ghost use Rattle.ps_demand.specs.Hitting.{HitsAll, MeetsSet};
ghost use Rattle.ps_step.specs.inner.Going.{came_from, is_moved, stay};

use crate::back::{are_alone, is_at, is_due, may_move};
use ps_atom::Atom;
use ps_basis::Shown;
use ps_config::Config;
use ps_demand::{image_of, renames};
use ps_graph::{Edge, Graph};
use ps_triple::Entry;

/// Whether the configuration `to` is a step back from `from` along the edge of this number by the
/// thread. No triple may have a free thread. It takes no memory; in time of the squares of the numbers of
/// threads, and for each atom of a walk over the entries, with a pass over the atoms of `to` for each atom
/// before a triple that fits.
pub fn stands<B: Shown>(
    graph: &Graph,
    from: &Config,
    edge: u32,
    thread: u32,
    to: &Config,
    basis: &B,
) -> bool
    requires tied { AreTied (B.entries basis.now) }
    requires exists { edge < length graph.now.edges }
    ensures { IsTrue result ↔ Stands graph.now (B.entries basis.now) from.now edge thread to.now }
{
    let along = &graph.edges.as_slice()[edge as usize];
    if !goes_back(graph, from, along, thread, to) {
        return false;
    }
    meets(basis, from.atoms(), thread, along.command, to.atoms())
}

fn goes_back(graph: &Graph, from: &Config, edge: &Edge, thread: u32, to: &Config) -> bool
    ensures { IsTrue result ↔ GoesBack graph.now from.now edge.now thread to.now }
{
    if !is_due(from, edge, thread) {
        return false;
    }
    if !may_move(from.at(), thread, edge.target) {
        return false;
    }
    if !is_moved(from.at(), thread, edge.source, to.at()) {
        return false;
    }
    are_alone(graph, to.at())
}

/// Whether the thread is at the source, and the others are where they were.
fn is_moved(from: &[(u32, u32)], thread: u32, source: u32, to: &[(u32, u32)]) -> bool
    ensures { result ≡ is_moved from.now thread source to.now }
{
    is_at(to, thread, source) && stay(from, thread, to) && came_from(from, thread, source, to)
}

fn stay(from: &[(u32, u32)], thread: u32, to: &[(u32, u32)]) -> bool
    ensures { result ≡ stay from.now thread to.now }
{
    from.iter()
        .all(|place| place.0 == thread || is_at(to, place.0, place.1))
}

fn came_from(from: &[(u32, u32)], thread: u32, source: u32, to: &[(u32, u32)]) -> bool
    ensures { result ≡ came_from from.now thread source to.now }
{
    to.iter().all(|place| {
        if place.0 == thread {
            place.1 == source
        } else {
            is_at(from, place.0, place.1)
        }
    })
}

/// Whether the atoms have one of each demand of the step.
fn meets<B: Shown>(basis: &B, demanding: &[Atom], thread: u32, command: u32, atoms: &[Atom]) -> bool
    ensures { IsTrue result
        ↔ HitsAll (demands (B.entries basis.now) demanding.now thread command) atoms.now }
{
    for atom in demanding {
        if !meets_atom(basis, atom, thread, command, atoms) {
            return false;
        }
    }
    true
}

fn meets_atom<B: Shown>(basis: &B, atom: &Atom, thread: u32, command: u32, atoms: &[Atom]) -> bool
    ensures { IsTrue result
        ↔ HitsAll (filter_map (demand thread command atom.now) (B.entries basis.now)) atoms.now }
{
    // The count bounds the numbers of entries.
    let _count = basis.count();
    let mut from: u32 = 0;
    while let Some(n) = basis.next_for(atom.predicate, command, from) {
        if !meets_entry(basis.entry(n), atom, thread, command, atoms) {
            return false;
        }
        from = n + 1;
    }
    true
}

/// Whether the atoms have one of what the entry demands for the atom, if it demands anything.
fn meets_entry(entry: &Entry, atom: &Atom, thread: u32, command: u32, atoms: &[Atom]) -> bool
    ensures { IsTrue result ↔ ((set : List AnAtom)
        → demand thread command atom.now entry.now ≡ Some set → MeetsSet atoms.now set) }
{
    match entry {
        Entry::Triple(triple) => {
            let numbers = triple.post.threads.as_slice();
            let images = atom.threads.as_slice();
            if triple.command != command {
                return true;
            }
            if triple.post.predicate != atom.predicate {
                return true;
            }
            if !renames(thread, numbers, images) {
                return true;
            }
            meets_set(thread, numbers, images, triple.pre.as_slice(), atoms)
        }
        Entry::Initial(_) => true,
    }
}

/// Whether the atoms have one of these with its threads renamed.
fn meets_set(thread: u32, numbers: &[u32], images: &[u32], pre: &[Atom], atoms: &[Atom]) -> bool
    requires { length numbers.now ≡ length images.now }
    ensures { IsTrue result ↔ MeetsSet atoms.now
        (map (renamed (sent (0 ∷ numbers.now) (thread ∷ images.now))) pre.now) }
{
    for atom in pre {
        if has_renamed(thread, numbers, images, atom, atoms) {
            return true;
        }
    }
    false
}

fn has_renamed(thread: u32, numbers: &[u32], images: &[u32], atom: &Atom, atoms: &[Atom]) -> bool
    requires { length numbers.now ≡ length images.now }
    ensures { IsTrue result ↔ Contains atoms.now
        (renamed (sent (0 ∷ numbers.now) (thread ∷ images.now)) atom.now) }
{
    for other in atoms {
        if is_renamed(thread, numbers, images, atom, other) {
            return true;
        }
    }
    false
}

fn is_renamed(thread: u32, numbers: &[u32], images: &[u32], atom: &Atom, other: &Atom) -> bool
    requires { length numbers.now ≡ length images.now }
    ensures { IsTrue result
        ↔ (renamed (sent (0 ∷ numbers.now) (thread ∷ images.now)) atom.now ≡ other.now) }
{
    if atom.predicate != other.predicate {
        return false;
    }
    are_images(
        thread,
        numbers,
        images,
        atom.threads.as_slice(),
        other.threads.as_slice(),
    )
}

fn are_images(thread: u32, numbers: &[u32], images: &[u32], threads: &[u32], others: &[u32]) -> bool
    requires { length numbers.now ≡ length images.now }
    ensures { IsTrue result
        ↔ (map (sent (0 ∷ numbers.now) (thread ∷ images.now)) threads.now ≡ others.now) }
{
    if threads.len() != others.len() {
        return false;
    }
    for place in 0..threads.len() {
        if image_of(thread, numbers, images, threads[place]) != others[place] {
            return false;
        }
    }
    true
}
