//! The successors of a configuration.
ghost use Rattle.std.specs.Prelude.{◌≡◌, ◌<◌, ℕ, IfErr, IfOk, OnOk, [], length};
ghost use Rattle.ps_config.specs.Forms.{AreThreads, IsFresh};
ghost use Rattle.ps_demand.specs.Demands.{AreTied};
ghost use Rattle.ps_step.specs.Successors.{AreSuccessors, CoverAll};
ghost use Rattle.ps_step.specs.Wide.{AreNarrow, StepEndsBy, IsFirstWide};
ghost use Rattle.ps_step.specs.inner.Parts.{AddsSteps, IsFirstWideAt, IsStepAlong};

use crate::expand_end::ExpandEnd;
use crate::expansion::{Expansion, Successor};
use crate::step::add_step;
use ps_basis::Shown;
use ps_config::{Config, next_number};
use ps_demand::candidates_of;
use ps_graph::Graph;
use ps_list::Sequence;
use ps_triple::Entry;
use std::alloc::{AllocError, Global};

/// The smallest configurations that are steps back from a configuration by a thread that occurs or by
/// the one that `fresh` gives: ordered by edge, then by thread (those that occur, ascending, then the
/// fresh one), then by atoms. Each configuration that is a step back, by any thread at all, is covered
/// by one of them. No triple may have a free thread.
///
/// A step that has more than `MOST_SETS` smallest configurations, or one of them of more than 64 atoms
/// or 12 threads, ends the call: the first such step is given, with what it has too many of, in this
/// order. Of minimal sets one more than the most is counted; of atoms and threads those of the first
/// configuration that is too great.
///
/// In time and memory of a copy of the entries, and for each edge of what may demand something under its command: each atom
/// takes a look-up by `next_for`, and one for each triple that it finds, once for all threads. A step then goes over those, and
/// over the atoms that they demand. The fresh thread steps along all edges that don't
/// enter the error, so each edge is looked at. A step takes the time of `minimal_hits` of its demands, which
/// isn't bounded by its answer.
pub fn expand<B: Shown>(
    alloc: Global,
    graph: &Graph,
    basis: &B,
    config: &Config,
) -> Result<Expansion, ExpandEnd>
    requires { AreTied (B.entries basis.now) }
    ensures config { IfOk result (λ expansion. expansion.config ≡ config.now) }
    ensures front { IfOk result (λ expansion. expansion.front ≡ length (B.entries basis.now)) }
    ensures entries { IfOk result (λ expansion. expansion.entries ≡ B.entries basis.now) }
    ensures successors { IfOk result (λ expansion. (fresh : ℕ) → IsFresh config.now fresh
        → AreSuccessors graph.now (B.entries basis.now) config.now fresh expansion.successors) }
    ensures covered { IfOk result (λ expansion.
        CoverAll graph.now (B.entries basis.now) config.now expansion.successors) }
    ensures narrow { OnOk result ((fresh : ℕ) → IsFresh config.now fresh
        → AreNarrow graph.now (B.entries basis.now) config.now fresh) }
    ensures wide { IfErr result (StepEndsBy (λ step. (fresh : ℕ) → IsFresh config.now fresh
        → IsFirstWide graph.now (B.entries basis.now) config.now fresh step)) }
{
    let fresh = config.fresh();
    match successors_of(alloc, graph, basis, config, fresh) {
        Ok(list) => match expansion_of(alloc, basis, config, list) {
            Ok(expansion) => Ok(expansion),
            Err(end) => Err(ExpandEnd::Memory(end)),
        },
        Err(end) => Err(end),
    }
}

fn successors_of<B: Shown>(
    alloc: Global,
    graph: &Graph,
    basis: &B,
    config: &Config,
    fresh: u32,
) -> Result<Vec<Successor>, ExpandEnd>
    requires tied { AreTied (B.entries basis.now) }
    requires fresh { IsFresh config.now fresh }
    ensures are { IfOk result (λ list.
        AreSuccessors graph.now (B.entries basis.now) config.now fresh list.items) }
    ensures covered { IfOk result (λ list.
        CoverAll graph.now (B.entries basis.now) config.now list.items) }
    ensures narrow { OnOk result (AreNarrow graph.now (B.entries basis.now) config.now fresh) }
    ensures wide { IfErr result
        (StepEndsBy (IsFirstWide graph.now (B.entries basis.now) config.now fresh)) }
{
    let threads = config.threads();
    let mut successors = Vec::new(alloc);
    for number in 0..graph.edges.as_slice().len() {
        if let Err(end) = add_numbered(
            alloc,
            graph,
            basis,
            config,
            threads.as_slice(),
            fresh,
            number,
            &mut successors,
        ) {
            return Err(end);
        }
    }
    Ok(successors)
}

/// The same for a number of any width. An edge past 32 bits is answered as want of memory, which so many
/// edges are.
fn add_numbered<B: Shown>(
    alloc: Global,
    graph: &Graph,
    basis: &B,
    config: &Config,
    threads: &[u32],
    fresh: u32,
    number: usize,
    successors: &mut Vec<Successor>,
) -> Result<(), ExpandEnd>
    requires tied { AreTied (B.entries basis.now) }
    requires threads { AreThreads config.now threads.now }
    requires fresh { IsFresh config.now fresh }
    requires exists { number < length graph.now.edges }
    ensures adds { OnOk result (AddsSteps graph.now (B.entries basis.now) config.now fresh
        (IsStepAlong config.now fresh number) successors.old.items successors.new.items) }
    ensures wide { IfErr result
        (StepEndsBy (IsFirstWideAt graph.now (B.entries basis.now) config.now fresh number)) }
{
    match u32::try_from(number) {
        Ok(edge) => add_edge(
            alloc, graph, basis, config, threads, fresh, edge, successors,
        ),
        Err(_) => Err(ExpandEnd::Memory(AllocError)),
    }
}

/// Adds those of all steps along the edge of this number.
fn add_edge<B: Shown>(
    alloc: Global,
    graph: &Graph,
    basis: &B,
    config: &Config,
    threads: &[u32],
    fresh: u32,
    number: u32,
    successors: &mut Vec<Successor>,
) -> Result<(), ExpandEnd>
    requires tied { AreTied (B.entries basis.now) }
    requires threads { AreThreads config.now threads.now }
    requires fresh { IsFresh config.now fresh }
    requires exists { number < length graph.now.edges }
    ensures adds { OnOk result (AddsSteps graph.now (B.entries basis.now) config.now fresh
        (IsStepAlong config.now fresh number) successors.old.items successors.new.items) }
    ensures wide { IfErr result
        (StepEndsBy (IsFirstWideAt graph.now (B.entries basis.now) config.now fresh number)) }
{
    let command = graph.edges.as_slice()[number as usize].command;
    let candidates = match candidates_of(alloc, basis, config.atoms(), command) {
        Ok(candidates) => candidates,
        Err(end) => return Err(ExpandEnd::Memory(end)),
    };
    let found = candidates.as_slice();
    let mut from: u64 = 0;
    while let Some(thread) = next_number(threads, from) {
        if let Err(end) = add_step(alloc, graph, found, config, number, thread, successors) {
            return Err(end);
        }
        from = u64::from(thread) + 1;
    }
    add_step(alloc, graph, found, config, number, fresh, successors)
}

fn expansion_of<B: Shown>(
    alloc: Global,
    basis: &B,
    config: &Config,
    list: Vec<Successor>,
) -> Result<Expansion, AllocError>
    ensures config { IfOk result (λ expansion. expansion.config ≡ config.now) }
    ensures front { IfOk result (λ expansion. expansion.front ≡ length (B.entries basis.now)) }
    ensures entries { IfOk result (λ expansion. expansion.entries ≡ B.entries basis.now) }
    ensures successors { IfOk result (λ expansion. expansion.successors ≡ list.items) }
{
    let entries = entries_of(alloc, basis)?;
    let copy = config.copy(alloc)?;
    Ok(Expansion {
        config: copy,
        front: basis.count(),
        successors: Sequence::from_list(list),
        entries: Sequence::from_list(entries),
    })
}

/// Copies of all entries.
fn entries_of<B: Shown>(alloc: Global, basis: &B) -> Result<Vec<Entry>, AllocError>
    ensures { IfOk result (λ list. list.items ≡ B.entries basis.now) }
{
    let count = basis.count();
    let mut list = Vec::with_capacity(alloc, count as usize)?;
    for n in 0..count {
        list.push(basis.entry(n).copy(alloc)?)?;
    }
    Ok(list)
}
