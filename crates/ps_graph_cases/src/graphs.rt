//! Copies of graphs.
use ps_case::{graph_of, word};
use ps_graph::Graph;
use std::alloc::{AllocError, Global};

/// The edges, entries and owners of a copy of the program's graph as `Debug` writes them, or `other` where it doesn't write the
/// copy as it does the graph.
pub fn copied(alloc: Global, program: &str) -> Result<Vec<u8>, AllocError> {
    let graph = graph_of(alloc, program)?;
    let copied = graph.copy(alloc)?;
    if !are_alike(alloc, &graph, &copied)? {
        return word(alloc, "other");
    }
    shown(alloc, &copied)
}

fn are_alike(alloc: Global, given: &Graph, copied: &Graph) -> Result<bool, AllocError> {
    let want = format!(in alloc; "{given:?}")?;
    let got = format!(in alloc; "{copied:?}")?;
    Ok(got.as_str() == want.as_str())
}

fn shown(alloc: Global, graph: &Graph) -> Result<Vec<u8>, AllocError> {
    let edges = graph.edges.as_slice();
    let entries = graph.entries.as_slice();
    let owner = graph.owner.as_slice();
    let text = format!(in alloc; "{edges:?} {entries:?} {owner:?}")?;
    Ok(text.into_bytes())
}
