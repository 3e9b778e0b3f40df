//! The steps back that aren't covered.
ghost use Rattle.std.specs.Prelude.{◌<◌, ◌^◌, IfOk, MatchBool, MatchOption, length};
ghost use Rattle.ps_check.specs.inner.Stages.{AreAllCovered, IsCoveredAlong, IsCoveredBy, IsFirstAlong, IsFirstUncovered, IsUncoveredBy};
ghost use Rattle.ps_config.specs.Forms.{AreThreads, IsFresh};
ghost use Rattle.ps_demand.specs.Demands.{AreTied};

use crate::branches::are_hits_covered;
use crate::counted::count_of;
use crate::listed::Listed;
use ps_basis::Front;
use ps_config::{Config, next_number};
use ps_demand::demands_of;
use ps_graph::Graph;
use ps_step::step_to;
use std::alloc::{AllocError, Global};

/// A step back: along the edge of this number, by a thread that occurs, or by the fresh one.
#[derive(Clone, Copy)]
pub(crate) struct Step {
    pub edge: u32,
    pub thread: Option<u32>,
}

/// The first step back from a configuration that isn't covered: by edge, then by thread, those that occur and then the
/// fresh one.
pub(crate) fn first_uncovered(
    alloc: Global,
    graph: &Graph,
    front: &Front,
    configs: &Listed,
    from: &Config,
) -> Result<Option<Step>, AllocError>
    requires tied { AreTied front.now }
    requires counted { length graph.now.edges < 2 ^ 32 }
    ensures { IfOk result (λ step. MatchOption step
        (AreAllCovered graph.now front.now configs.now from.now)
        (IsFirstUncovered graph.now front.now configs.now from.now)) }
{
    let threads = from.threads();
    let fresh = from.fresh();
    let edges = graph.edges.as_slice();
    let count = count_of(edges);
    for edge in 0..count {
        match uncovered_along(
            alloc,
            graph,
            front,
            configs,
            from,
            threads.as_slice(),
            fresh,
            edge,
        )? {
            Some(step) => return Ok(Some(step)),
            None => {}
        }
    }
    Ok(None)
}

/// The first along the edge of this number.
fn uncovered_along(
    alloc: Global,
    graph: &Graph,
    front: &Front,
    configs: &Listed,
    from: &Config,
    threads: &[u32],
    fresh: u32,
    edge: u32,
) -> Result<Option<Step>, AllocError>
    requires tied { AreTied front.now }
    requires threads { AreThreads from.now threads.now }
    requires fresh { IsFresh from.now fresh }
    requires exists { edge < length graph.now.edges }
    ensures { IfOk result (λ step. MatchOption step
        (IsCoveredAlong graph.now front.now configs.now from.now fresh edge)
        (IsFirstAlong graph.now front.now configs.now from.now edge)) }
{
    let mut least: u64 = 0;
    while let Some(thread) = next_number(threads, least) {
        let covered = is_step_covered(alloc, graph, front, configs, from, edge, thread)?;
        if !covered {
            return Ok(Some(Step {
                edge,
                thread: Some(thread),
            }));
        }
        least = u64::from(thread) + 1;
    }
    let fresh_covered = is_step_covered(alloc, graph, front, configs, from, edge, fresh)?;
    if !fresh_covered {
        return Ok(Some(Step { edge, thread: None }));
    }
    Ok(None)
}

/// Whether each configuration that stands by the edge and the thread is covered.
fn is_step_covered(
    alloc: Global,
    graph: &Graph,
    front: &Front,
    configs: &Listed,
    from: &Config,
    edge: u32,
    thread: u32,
) -> Result<bool, AllocError>
    requires tied { AreTied front.now }
    requires exists { edge < length graph.now.edges }
    ensures { IfOk result (λ covered. MatchBool covered
        (IsCoveredBy graph.now front.now configs.now from.now edge thread)
        (IsUncoveredBy graph.now front.now configs.now from.now edge thread)) }
{
    let along = &graph.edges.as_slice()[edge as usize];
    match step_to(alloc, graph, from, along, thread)? {
        None => Ok(true),
        Some(at) => {
            let places = at.as_slice();
            let sets = demands_of(alloc, front, from.atoms(), thread, along.command)?;
            let candidates = configs.candidates(alloc, places)?;
            let numbers = candidates.as_slice();
            let covered = are_hits_covered(alloc, configs, numbers, places, sets.as_slice())?;
            Ok(covered)
        }
    }
}
