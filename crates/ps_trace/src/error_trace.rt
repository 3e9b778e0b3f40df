//! Whether a trace is an error trace of a graph.
ghost use Rattle.std.specs.Prelude.{◌≡◌, ◌↔◌, ◌<◌, ◌++◌, [], ◌∷◌, length, IsTrue, MatchOption};
ghost use Rattle.std.specs.List.{list_any};
ghost use Rattle.ps_graph.specs.ErrorTrace.{edges_of, enters_error, error_at_last, is_path};
ghost use Rattle.ps_trace.specs.Traces.{IsErrorTraceOf, letter_pair, pairs_in};
ghost use Rattle.ps_trace.specs.inner.Paths.{ArePaths, BeginOnceAtMost, EndsIn, is_empty, IsNextStart, links, NoneStarts, once_entry, StartAtMostOnce, starts};

use crate::trace::{IndexedTrace, Letter};
use ps_graph::{Edge, Graph};

/// Whether the letters are an error trace: each thread's edges are a path from the entry of one body, at most one thread's
/// path begins at the entry of the `once` body, the last edge enters the error, and no earlier one does. It takes no memory,
/// and time of the number of letters, but that the letter of the same thread before each letter is looked for backwards.
pub fn is_error_trace(graph: &Graph, trace: &IndexedTrace) -> bool
    ensures { IsTrue result ↔ IsErrorTraceOf graph.now trace.now }
{
    let letters = trace.letters.as_slice();
    run_bodies(graph, letters) && error_at_last(graph.edges.as_slice(), letters)
}

// Whether each thread's edges are a path from the entry of a body, and at most one begins at that of the `once` body.
fn run_bodies(graph: &Graph, letters: &[Letter]) -> bool
    ensures { IsTrue result ↔ (ArePaths graph.now (pairs_in letters.now)
        × BeginOnceAtMost graph.now (pairs_in letters.now)) }
{
    are_paths(graph, letters) && begin_once_at_most(graph, letters)
}

// Whether each thread's edges are a path from the entry of a body.
fn are_paths(graph: &Graph, letters: &[Letter]) -> bool
    ensures { IsTrue result ↔ ArePaths graph.now (pairs_in letters.now) }
{
    if graph.entries.as_slice().is_empty() {
        return false;
    }
    for (i, letter) in letters.iter().enumerate() {
        if !goes_on(graph, &letters[..i], *letter) {
            return false;
        }
    }
    true
}

// Whether the path of the letter's thread goes on, or begins at an entry, with its edge.
fn goes_on(graph: &Graph, before: &[Letter], letter: Letter) -> bool
    requires { ArePaths graph.now (pairs_in before.now) }
    ensures { IsTrue result
        ↔ ArePaths graph.now (pairs_in before.now ++ letter_pair letter ∷ []) }
{
    match last_edge(before, letter.thread) {
        Some(edge) => links(graph.edges.as_slice(), edge, letter.edge),
        None => begins(graph, letter.edge),
    }
}

// The last edge that the thread took.
fn last_edge(before: &[Letter], thread: u32) -> Option<u32>
    ensures { MatchOption result (edges_of thread (pairs_in before.now) ≡ [])
        (EndsIn (edges_of thread (pairs_in before.now))) }
{
    let mut left = before.len();
    while left > 0 {
        left -= 1;
        if before[left].thread == thread {
            return Some(before[left].edge);
        }
    }
    None
}

// Whether the second edge leaves the target of the first.
fn links(edges: &[Edge], first: u32, second: u32) -> bool
    ensures { result ≡ links edges.now first second }
{
    match edges.get(first as usize) {
        Some(one) => leaves(edges, second, one.target),
        None => false,
    }
}

// Whether the edge leaves the entry of a body.
fn begins(graph: &Graph, edge: u32) -> bool
    ensures { result
        ≡ list_any (λ a. is_path graph.now.edges a (edge ∷ [])) graph.now.entries }
{
    graph
        .entries
        .as_slice()
        .iter()
        .any(|entry| leaves(graph.edges.as_slice(), edge, *entry))
}

// Whether the edge leaves the location.
fn leaves(edges: &[Edge], edge: u32, location: u32) -> bool
    ensures { result ≡ is_path edges.now location (edge ∷ []) }
{
    match edges.get(edge as usize) {
        Some(first) => first.source == location,
        None => false,
    }
}

// Whether at most one thread's path begins at the entry of the `once` body.
fn begin_once_at_most(graph: &Graph, letters: &[Letter]) -> bool
    requires { ArePaths graph.now (pairs_in letters.now) }
    ensures { IsTrue result ↔ BeginOnceAtMost graph.now (pairs_in letters.now) }
{
    match once_entry(graph) {
        Some(entry) => starts_at_most_once(graph.edges.as_slice(), entry, letters),
        None => true,
    }
}

// The entry of the `once` body.
fn once_entry(graph: &Graph) -> Option<u32>
    ensures { result ≡ once_entry graph.now.once graph.now.entries }
{
    match graph.once {
        Some(body) => graph.entries.as_slice().get(body as usize).copied(),
        None => None,
    }
}

// Whether at most one letter is the first of its thread and leaves the location.
fn starts_at_most_once(edges: &[Edge], location: u32, letters: &[Letter]) -> bool
    ensures { IsTrue result ↔ StartAtMostOnce edges.now location (pairs_in letters.now) }
{
    match next_start(edges, location, letters, 0) {
        Some(first) => next_start(edges, location, letters, first + 1).is_none(),
        None => true,
    }
}

// The first place from this one on whose letter is the first of its thread and leaves the location.
fn next_start(edges: &[Edge], location: u32, letters: &[Letter], from: usize) -> Option<usize>
    ensures { MatchOption result
        (NoneStarts edges.now location (pairs_in letters.now) from
        (length (pairs_in letters.now)))
        (IsNextStart edges.now location (pairs_in letters.now) from) }
{
    for place in from..letters.len() {
        if starts(edges, location, letters, place) {
            return Some(place);
        }
    }
    None
}

// Whether the letter at the place is the first of its thread and leaves the location.
fn starts(edges: &[Edge], location: u32, letters: &[Letter], place: usize) -> bool
    requires { place < length letters.now }
    ensures { result ≡ starts edges.now location (pairs_in letters.now) place }
{
    leaves(edges, letters[place].edge, location)
        && is_first(&letters[..place], letters[place].thread)
}

// Whether the thread has no letter before.
fn is_first(before: &[Letter], thread: u32) -> bool
    ensures { result ≡ is_empty (edges_of thread (pairs_in before.now)) }
{
    last_edge(before, thread).is_none()
}

// Whether the last edge enters the error and no earlier one does.
fn error_at_last(edges: &[Edge], letters: &[Letter]) -> bool
    ensures { result ≡ error_at_last edges.now (pairs_in letters.now) }
{
    for (i, letter) in letters.iter().enumerate() {
        if enters_error(edges, letter.edge) {
            return i + 1 == letters.len();
        }
    }
    false
}

fn enters_error(edges: &[Edge], edge: u32) -> bool
    ensures { result ≡ enters_error edges.now edge }
{
    match edges.get(edge as usize) {
        Some(entering) => entering.target == 1,
        None => false,
    }
}
