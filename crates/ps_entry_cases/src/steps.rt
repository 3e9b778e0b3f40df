//! Steps back from a proof's configurations, under its entries. No triple may have a free thread.
use ps_atom_text::put_config_fields;
use ps_basis::{Front, Shown};
use ps_case::{put_number, read_number, truth, two_parts, word};
use ps_case_space::{Space, are_tied, front_of, space_and_rest};
use ps_config::{Config, WideStep};
use ps_graph::Graph;
use ps_step::{ExpandEnd, Expansion, Successor, accepting, expand, stands};
use ps_text::{put_digits, put_word};
use std::alloc::{AllocError, Global};

/// What steps back are taken in.
#[derive(Drop)]
struct Stage {
    graph: Graph,
    front: Front,
    configs: Vec<Config>,
}

fn stage_and_rest(alloc: Global, input: &str) -> Result<(Stage, &str), AllocError> {
    let (space, rest) = space_and_rest(alloc, input)?;
    Ok((stage_of(alloc, space)?, rest))
}

fn stage_of(alloc: Global, space: Space) -> Result<Stage, AllocError> {
    let Space {
        graph,
        entries,
        configs,
        ..
    } = space;
    Ok(Stage {
        graph,
        front: front_of(alloc, entries)?,
        configs,
    })
}

/// Whether the proof's second configuration stands before its first, by a step of the thread along the edge:
/// `PROGRAM|PROOF|EDGE THREAD`. The edge must exist.
pub fn standing(alloc: Global, input: &str) -> Result<Vec<u8>, AllocError> {
    let (stage, step) = stage_and_rest(alloc, input)?;
    let (edge, thread) = two_parts(step, ' ')?;
    let (edge, thread) = (read_number(edge)?, read_number(thread)?);
    match stage.configs.as_slice() {
        [from, to] => truth(alloc, is_standing(&stage, from, edge, thread, to)?),
        _ => Err(AllocError),
    }
}

fn is_standing(
    stage: &Stage,
    from: &Config,
    edge: u32,
    thread: u32,
    to: &Config,
) -> Result<bool, AllocError> {
    let exists = (edge as usize) < stage.graph.edges.as_slice().len();
    if !exists || !are_tied(stage.front.list()) {
        return Err(AllocError);
    }
    Ok(stands(&stage.graph, from, edge, thread, to, &stage.front))
}

/// Whether the proof's only configuration is accepting: `PROGRAM|PROOF|`.
pub fn accepted(alloc: Global, input: &str) -> Result<Vec<u8>, AllocError> {
    let (stage, _) = stage_and_rest(alloc, input)?;
    match stage.configs.as_slice() {
        [config] => truth(alloc, accepting(&stage.graph, config, &stage.front)),
        _ => Err(AllocError),
    }
}

/// The successors of the proof's only configuration, `PROGRAM|PROOF|`, or `none`: for each its edge and thread with the fields of
/// its configuration, ended by `;`. Where a step passes a limit it is `EDGE THREAD WHAT COUNT`.
pub fn listed(alloc: Global, input: &str) -> Result<Vec<u8>, AllocError> {
    let (stage, _) = stage_and_rest(alloc, input)?;
    match expansion_in(alloc, &stage) {
        Ok(expansion) => shown(alloc, expansion.successors.as_slice()),
        Err(end) => ended(alloc, end),
    }
}

/// How many successors there are, or the same where a step passes a limit.
pub fn counted(alloc: Global, input: &str) -> Result<Vec<u8>, AllocError> {
    let (stage, _) = stage_and_rest(alloc, input)?;
    match expansion_in(alloc, &stage) {
        Ok(expansion) => {
            let count = expansion.successors.as_slice().len();
            Ok(format!(in alloc; "{count}")?.into_bytes())
        }
        Err(end) => ended(alloc, end),
    }
}

fn expansion_in(alloc: Global, stage: &Stage) -> Result<Expansion, ExpandEnd> {
    match stage.configs.as_slice() {
        [config] => expansion_of(alloc, stage, config),
        _ => Err(ExpandEnd::Memory(AllocError)),
    }
}

// The expansion of the configuration, which it must keep, with as many entries as there are.
fn expansion_of(alloc: Global, stage: &Stage, config: &Config) -> Result<Expansion, ExpandEnd> {
    if !are_tied(stage.front.list()) {
        return Err(ExpandEnd::Memory(AllocError));
    }
    let expansion = expand(alloc, &stage.graph, &stage.front, config)?;
    if keeps(stage, config, &expansion) {
        Ok(expansion)
    } else {
        Err(ExpandEnd::Memory(AllocError))
    }
}

fn keeps(stage: &Stage, config: &Config, expansion: &Expansion) -> bool {
    expansion.config.is_same(config)
        && expansion.front == stage.front.count()
        && expansion.entries().len() == stage.front.list().len()
}

fn shown(alloc: Global, successors: &[Successor]) -> Result<Vec<u8>, AllocError> {
    if successors.is_empty() {
        return word(alloc, "none");
    }
    let mut out = Vec::new(alloc);
    for successor in successors {
        put_successor(&mut out, successor)?;
    }
    Ok(out)
}

fn put_successor(out: &mut Vec<u8>, successor: &Successor) -> Result<(), AllocError> {
    put_digits(out, u128::from(successor.edge))?;
    put_number(out, successor.thread)?;
    put_config_fields(out, &successor.config)?;
    put_word(out, b";")
}

fn ended(alloc: Global, end: ExpandEnd) -> Result<Vec<u8>, AllocError> {
    match end {
        ExpandEnd::Wide(step) => wide(alloc, step),
        ExpandEnd::Memory(end) => Err(end),
    }
}

fn wide(alloc: Global, step: WideStep) -> Result<Vec<u8>, AllocError> {
    let WideStep {
        edge,
        thread,
        what,
        count,
    } = step;
    Ok(format!(in alloc; "{edge} {thread} {what:?} {count}")?.into_bytes())
}
