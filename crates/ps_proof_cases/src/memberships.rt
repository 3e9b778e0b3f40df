//! Which traces a proof's entries prove.
ghost use Rattle.std.specs.Prelude.{◌<◌, All, IsTrue, length};

use ps_basis::Front;
use ps_case::{read_number, word};
use ps_case_space::{Space, are_tied, front_of, space_and_rest};
use ps_graph::Graph;
use ps_list::Sequence;
use ps_member::member;
use ps_trace::{IndexedTrace, Letter};
use std::alloc::{AllocError, Global};

/// Whether the entries prove the trace of the letters: `PROGRAM|PROOF|THREAD EDGE THREAD EDGE ..`. All edges must exist, and
/// no triple may have a free thread.
pub fn membership(alloc: Global, input: &str) -> Result<Vec<u8>, AllocError> {
    let (space, letters) = space_and_rest(alloc, input)?;
    let trace = read_letters(alloc, letters)?;
    let Space { graph, entries, .. } = space;
    let front = front_of(alloc, entries)?;
    let is_member = is_proved(alloc, &graph, &front, &trace)?;
    word(alloc, if is_member { "yes" } else { "no" })
}

fn is_proved(
    alloc: Global,
    graph: &Graph,
    front: &Front,
    trace: &IndexedTrace,
) -> Result<bool, AllocError> {
    if !are_tied(front.list()) || !exist(graph, trace) {
        return Err(AllocError);
    }
    member(alloc, graph, front, trace)
}

pub(crate) fn read_letters(alloc: Global, text: &str) -> Result<IndexedTrace, AllocError> {
    let mut letters = Vec::new(alloc);
    let mut thread = None;
    for word in text.split_whitespace() {
        let number = read_number(word)?;
        match thread {
            None => thread = Some(number),
            Some(mover) => {
                letters.push(Letter {
                    thread: mover,
                    edge: number,
                })?;
                thread = None;
            }
        }
    }
    Ok(IndexedTrace {
        letters: Sequence::from_list(letters),
    })
}

// Whether each edge of a letter exists.
pub(crate) fn exist(graph: &Graph, trace: &IndexedTrace) -> bool
    ensures { IsTrue result → All (λ l. l.edge < length graph.now.edges) trace.now.letters }
{
    let edges = graph.edges.as_slice().len();
    trace
        .letters
        .as_slice()
        .iter()
        .all(|letter| (letter.edge as usize) < edges)
}
