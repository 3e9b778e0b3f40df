//! What the cases are about: the graph of a program, with a proof's predicates, entries and configurations.
use ps_atom::{Predicate, Predicates};
use ps_case::{graph_of, two_parts};
use ps_config::Config;
use ps_file::{Proof, read_proof};
use ps_graph::Graph;
use ps_triple::Entry;
use std::alloc::{AllocError, Global};

// Longer texts are no cases.
const MOST_BYTES: usize = 100_000;

/// A graph with predicates, of which number 0 is false, entries about them, and configurations.
#[derive(Drop)]
pub struct Space {
    pub graph: Graph,
    pub predicates: Predicates,
    pub entries: Vec<Entry>,
    pub configs: Vec<Config>,
}

/// The graph of the program with what the proof has, and what follows: `PROGRAM|PROOF|REST`. Where `once:` stands before the
/// program, at most one thread runs its body.
pub fn space_and_rest(alloc: Global, input: &str) -> Result<(Space, &str), AllocError> {
    let (program, rest) = two_parts(input, '|')?;
    let (proof, rest) = two_parts(rest, '|')?;
    let graph = graph_in(alloc, program)?;
    let Proof {
        predicates,
        entries,
        configs,
    } = proof_of(alloc, proof)?;
    let space = Space {
        graph,
        predicates: table_of(alloc, predicates.into_list())?,
        entries: entries.into_list(),
        configs: configs.into_list(),
    };
    Ok((space, rest))
}

fn graph_in(alloc: Global, text: &str) -> Result<Graph, AllocError> {
    match text.strip_prefix("once:") {
        Some(program) => run_once(graph_of(alloc, program)?).ok_or(AllocError),
        None => graph_of(alloc, text),
    }
}

// The graph with its first body run by at most one thread, where it has a body.
fn run_once(graph: Graph) -> Option<Graph> {
    if graph.entries.as_slice().is_empty() {
        return None;
    }
    let Graph {
        locations,
        edges,
        entries,
        once: _,
        owner,
        setting,
    } = graph;
    Some(Graph {
        locations,
        edges,
        entries,
        once: Some(0),
        owner,
        setting,
    })
}

/// The proof that the text is.
pub fn proof_of(alloc: Global, text: &str) -> Result<Proof, AllocError> {
    if text.len() > MOST_BYTES {
        return Err(AllocError);
    }
    read_proof(alloc, text.as_bytes(), 1).ok().ok_or(AllocError)
}

// The table of false and these predicates.
fn table_of(alloc: Global, predicates: Vec<Predicate>) -> Result<Predicates, AllocError> {
    let mut table = Predicates::new(alloc)?;
    for predicate in predicates {
        table.push(alloc, predicate).ok().ok_or(AllocError)?;
    }
    Ok(table)
}
