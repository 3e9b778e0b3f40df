//! Whether a step goes back, and where its threads are then.
ghost use Rattle.std.specs.Prelude.{◌≡◌, ◌↔◌, ◌++◌, ◌∷◌, [], ◌&&◌, ◌==◌, IfOk, IsTrue, OnOk, ltb, option_map};
ghost use Rattle.std.specs.List.{filter, list_any};
ghost use Rattle.ps_config.specs.Forms.{start_configuration};
ghost use Rattle.ps_graph.specs.Facts.{owner_of};
ghost use Rattle.ps_step.specs.Places.{IsStepTo};
ghost use Rattle.ps_step.specs.Steps.{IsDue};
ghost use Rattle.ps_step.specs.inner.Going.{are_alone, is_only_thread, is_body, may_move, of_once};
ghost use Rattle.ps_triple.specs.Entries.{false_atom};

use ps_atom::Atom;
use ps_config::{Config, is_located};
use ps_graph::{Edge, Graph};
use std::alloc::{AllocError, Global};

/// Whether a step along the edge by the thread is due: from the start thread 0 goes back along an edge
/// that enters the error, and from elsewhere any thread along any other edge.
pub(crate) fn is_due(config: &Config, edge: &Edge, thread: u32) -> bool
    ensures { IsTrue result ↔ IsDue config.now edge.now thread }
{
    if is_start(config) {
        return edge.target == 1 && thread == 0;
    }
    edge.target != 1
}

fn is_start(config: &Config) -> bool
    ensures { IsTrue result ↔ (config.now ≡ start_configuration) }
{
    if !is_only_place(config.at()) {
        return false;
    }
    is_only_false(config.atoms())
}

fn is_only_place(at: &[(u32, u32)]) -> bool
    ensures { IsTrue result ↔ (at.now ≡ (0, 1) ∷ []) }
{
    if at.len() != 1 {
        return false;
    }
    at[0].0 == 0 && at[0].1 == 1
}

fn is_only_false(atoms: &[Atom]) -> bool
    ensures { IsTrue result ↔ (atoms.now ≡ false_atom ∷ []) }
{
    if atoms.len() != 1 {
        return false;
    }
    is_false(&atoms[0])
}

fn is_false(atom: &Atom) -> bool
    ensures { IsTrue result ↔ (atom.now ≡ false_atom) }
{
    atom.predicate == 0 && atom.threads.as_slice().is_empty()
}

/// Whether the thread is at the target, or at no location.
pub(crate) fn may_move(at: &[(u32, u32)], thread: u32, target: u32) -> bool
    ensures { result ≡ may_move at.now thread target }
{
    is_at(at, thread, target) || !is_located(at, thread)
}

pub(crate) fn is_at(at: &[(u32, u32)], thread: u32, location: u32) -> bool
    ensures { result ≡ list_any (λ p. p.0 == thread && p.1 == location) at.now }
{
    at.iter()
        .any(|place| place.0 == thread && place.1 == location)
}

fn is_owned_by(owner: &[Option<u32>], location: u32, body: u32) -> bool
    ensures { result ≡ is_body body (owner_of owner.now location) }
{
    if location as usize >= owner.len() {
        return false;
    }
    match owner[location as usize] {
        None => false,
        Some(number) => number == body,
    }
}

fn is_of_once(graph: &Graph, location: u32) -> bool
    ensures { result ≡ of_once graph.now.once (owner_of graph.now.owner location) }
{
    match graph.once {
        None => false,
        Some(body) => is_owned_by(graph.owner.as_slice(), location, body),
    }
}

fn is_alone(graph: &Graph, at: &[(u32, u32)], thread: u32) -> bool
    ensures { result ≡ is_only_thread graph.now at.now thread }
{
    at.iter()
        .all(|place| !is_of_once(graph, place.1) || place.0 == thread)
}

/// Whether at most one thread is at a location of the body that at most one runs.
pub(crate) fn are_alone(graph: &Graph, at: &[(u32, u32)]) -> bool
    ensures { result ≡ are_alone graph.now at.now }
{
    at.iter().all(|place| !is_of_once(graph, place.1) || is_alone(graph, at, place.0))
}

fn push_below(
    places: &[(u32, u32)],
    thread: u32,
    at: &mut Vec<(u32, u32)>,
) -> Result<(), AllocError>
    ensures { OnOk result (at.new.items ≡ at.old.items ++ filter (λ p. ltb p.0 thread) places.now) }
{
    for place in places {
        if place.0 < thread {
            at.push(*place)?;
        }
    }
    Ok(())
}

fn push_above(
    places: &[(u32, u32)],
    thread: u32,
    at: &mut Vec<(u32, u32)>,
) -> Result<(), AllocError>
    ensures { OnOk result (at.new.items ≡ at.old.items ++ filter (λ p. ltb thread p.0) places.now) }
{
    for place in places {
        if thread < place.0 {
            at.push(*place)?;
        }
    }
    Ok(())
}

/// The thread at the location, and the others where they are, in ascending order of threads.
fn moved(
    alloc: Global,
    places: &[(u32, u32)],
    thread: u32,
    location: u32,
) -> Result<Vec<(u32, u32)>, AllocError>
    ensures { IfOk result (λ at. at.items
        ≡ filter (λ p. ltb p.0 thread) places.now
        ++ (thread, location) ∷ filter (λ p. ltb thread p.0) places.now) }
{
    let mut at = Vec::with_capacity(alloc, places.len() + 1)?;
    push_below(places, thread, &mut at)?;
    at.push((thread, location))?;
    push_above(places, thread, &mut at)?;
    Ok(at)
}

/// The located threads after the step back along the edge by the thread, ascending, or `None` where there
/// is none. In time and memory of the threads, and of their square where a body runs once.
pub fn step_to(
    alloc: Global,
    graph: &Graph,
    config: &Config,
    edge: &Edge,
    thread: u32,
) -> Result<Option<Vec<(u32, u32)>>, AllocError>
    ensures { IfOk result (λ to.
        IsStepTo graph.now config.now edge.now thread (option_map (λ at. at.items) to)) }
{
    if !is_due(config, edge, thread) {
        return Ok(None);
    }
    if !may_move(config.at(), thread, edge.target) {
        return Ok(None);
    }
    let at = moved(alloc, config.at(), thread, edge.source)?;
    if !are_alone(graph, at.as_slice()) {
        return Ok(None);
    }
    Ok(Some(at))
}
