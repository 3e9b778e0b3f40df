//! The smallest configurations of one step.
ghost use Rattle.std.specs.Prelude.{◌≡◌, ◌<◌, ◌++◌, IfErr, IfOk, List, OnOk, Contains, length, map};
ghost use Rattle.std.specs.List.Sorted.{IsStrictlyIncreasing, IsStrictlySortedBy};
ghost use Rattle.ps_atom.specs.Atoms.{atom_cmp};
ghost use Rattle.ps_atom.specs.declared.atom.Atom.{Atom as AnAtom};
ghost use Rattle.ps_config.specs.Forms.{IsConfig};
ghost use Rattle.ps_demand.specs.Demands.{AreTied};
ghost use Rattle.ps_step.specs.Wide.{StepEndsBy};
ghost use Rattle.ps_demand.specs.Candidates.{demanded_of, pairs_of};
ghost use Rattle.ps_triple.specs.declared.entry.Entry.{Entry};
ghost use Rattle.ps_step.specs.inner.Parts.{AddsStep, AreCandidatesOf, IsWideAt};
ghost use Rattle.ps_demand.specs.Pools.{lists_of};
ghost use Rattle.ps_step.specs.inner.Sets.{AddsSets, IsNamed, IsPastBy, IsWideOf, IsWithin, successor_of};

use crate::back::step_to;
use crate::expand_end::{ExpandEnd, MOST_SETS};
use crate::expansion::Successor;
use crate::found::{Found, least_sets};
use crate::sizes::{first_atoms_over, first_threads_over};
use ps_atom::Atom;
use ps_config::{Config, WideName, WideStep};
use ps_demand::Candidate;
use ps_graph::Graph;
use std::alloc::{AllocError, Global};

/// Adds the smallest configurations that are steps back along the edge of this number by the thread, under any entries that
/// have these candidates.
pub(crate) fn add_step<'a>(
    alloc: Global,
    graph: &Graph,
    candidates: &[Candidate<'a>],
    config: &Config,
    number: u32,
    thread: u32,
    successors: &mut Vec<Successor>,
) -> Result<(), ExpandEnd>
    requires { number < length graph.now.edges }
    ensures adds { OnOk result ((entries : List Entry) → AreTied entries
        → AreCandidatesOf graph.now entries config.now number (pairs_of candidates.now)
        → AddsStep graph.now entries config.now number thread
        successors.old.items successors.new.items) }
    ensures wide { IfErr result (λ end. (entries : List Entry) → AreTied entries
        → AreCandidatesOf graph.now entries config.now number (pairs_of candidates.now)
        → StepEndsBy (IsWideAt graph.now entries config.now number thread) end) }
{
    let edge = &graph.edges.as_slice()[number as usize];
    match step_to(alloc, graph, config, edge, thread) {
        Ok(None) => Ok(()),
        Ok(Some(at)) => add_least(
            alloc,
            candidates,
            edge.command,
            number,
            thread,
            at.as_slice(),
            successors,
        ),
        Err(end) => Err(ExpandEnd::Memory(end)),
    }
}

/// Adds the least sets that meet the demands of a step, at these locations.
fn add_least<'a>(
    alloc: Global,
    candidates: &[Candidate<'a>],
    command: u32,
    number: u32,
    thread: u32,
    at: &[(u32, u32)],
    successors: &mut Vec<Successor>,
) -> Result<(), ExpandEnd>
    requires { IsStrictlyIncreasing (map (λ p. p.0) at.now) }
    ensures adds { OnOk result (AddsSets (demanded_of thread command (pairs_of candidates.now))
        at.now number thread successors.old.items successors.new.items) }
    ensures wide { IfErr result (StepEndsBy (IsNamed number thread
        (IsWideOf (demanded_of thread command (pairs_of candidates.now)) at.now))) }
{
    match least_sets(alloc, candidates, thread, command).map_err(ExpandEnd::Memory)? {
        Found::TooMany => Err(ExpandEnd::Wide(WideStep {
            edge: number,
            thread,
            what: WideName::Sets,
            count: MOST_SETS + 1,
        })),
        Found::All(sets) => add_sets(alloc, at, number, thread, sets, successors),
    }
}

/// Adds the sets at these locations, if they pass no limit of configurations.
fn add_sets(
    alloc: Global,
    at: &[(u32, u32)],
    number: u32,
    thread: u32,
    sets: Vec<Vec<Atom>>,
    successors: &mut Vec<Successor>,
) -> Result<(), ExpandEnd>
    requires located { IsStrictlyIncreasing (map (λ p. p.0) at.now) }
    requires ascend { (set : List AnAtom) → Contains (lists_of sets.items) set
        → IsStrictlySortedBy atom_cmp set }
    ensures added { OnOk result (successors.new.items
        ≡ successors.old.items ++ map (successor_of number thread at.now) (lists_of sets.items)) }
    ensures within { OnOk result (IsWithin at.now (lists_of sets.items)) }
    ensures past { IfErr result
        (StepEndsBy (IsNamed number thread (IsPastBy at.now (lists_of sets.items)))) }
{
    if let Some(count) = first_atoms_over(sets.as_slice()) {
        return Err(past(number, thread, WideName::Atoms, count));
    }
    if let Some(count) = first_threads_over(at, sets.as_slice()) {
        return Err(past(number, thread, WideName::Threads, count));
    }
    push_sets(alloc, at, number, thread, sets, successors).map_err(ExpandEnd::Memory)
}

/// The step as too wide. A count past 32 bits is answered as want of memory, which so many are.
fn past(number: u32, thread: u32, what: WideName, count: usize) -> ExpandEnd
    ensures { StepEndsBy (λ step. (step.edge ≡ number) × (step.thread ≡ thread) × (step.what ≡ what)
        × (step.count ≡ count)) result }
{
    match u32::try_from(count) {
        Ok(count) => ExpandEnd::Wide(WideStep {
            edge: number,
            thread,
            what,
            count,
        }),
        Err(_) => ExpandEnd::Memory(AllocError),
    }
}

fn push_sets(
    alloc: Global,
    at: &[(u32, u32)],
    number: u32,
    thread: u32,
    sets: Vec<Vec<Atom>>,
    successors: &mut Vec<Successor>,
) -> Result<(), AllocError>
    requires { (set : List AnAtom) → Contains (lists_of sets.items) set
        → IsConfig (record { at = at.now; atoms = set }) }
    ensures { OnOk result (successors.new.items
        ≡ successors.old.items ++ map (successor_of number thread at.now) (lists_of sets.items)) }
{
    for atoms in sets {
        let config = Config::new(Vec::from_slice(alloc, at)?, atoms);
        successors.push(Successor {
            edge: number,
            thread,
            config,
        })?;
    }
    Ok(())
}
