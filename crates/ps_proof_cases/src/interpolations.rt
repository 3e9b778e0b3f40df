//! Which predicates and entries a refuted trace gives.
ghost use Rattle.std.specs.Prelude.{◌<◌, All, IfOk, IsTrue, length};
ghost use Rattle.ps_farkas.specs.Refutes.{Refutes};
ghost use Rattle.ps_trace.specs.Rows.{rows_of};
ghost use Rattle.ps_trace.specs.Traces.{pairs_of};

use crate::memberships::{exist, read_letters};
use ps_atom_text::{put_entry, put_predicate};
use ps_case::{put_number, two_parts, word};
use ps_case_space::{Space, space_and_rest};
use ps_farkas::refutes;
use ps_graph::Graph;
use ps_interp::{InterpEnd, Refutation, interpolate};
use ps_lines::read_u128;
use ps_trace::{IndexedTrace, has_few_havocs, trace_rows};
use std::alloc::{AllocError, Global};

/// The lines of the new predicates and of the entries, or why there are none: `PROGRAM|PROOF|LETTERS|MULTIPLIERS`. The proof's
/// predicates are those that are known. The multipliers must refute the rows of the trace.
pub fn interpolation(alloc: Global, input: &str) -> Result<Vec<u8>, AllocError> {
    let (space, rest) = space_and_rest(alloc, input)?;
    let (letters, multipliers) = two_parts(rest, '|')?;
    let trace = read_letters(alloc, letters)?;
    let lambda = read_multipliers(alloc, multipliers)?;
    given(alloc, &space, &trace, lambda.as_slice())
}

fn given(
    alloc: Global,
    space: &Space,
    trace: &IndexedTrace,
    lambda: &[u128],
) -> Result<Vec<u8>, AllocError> {
    let Space {
        graph,
        predicates,
        ..
    } = space;
    if trace.letters.as_slice().is_empty() || !exist(graph, trace) {
        return Err(AllocError);
    }
    if !is_refuted(alloc, graph, trace, lambda)? {
        return word(alloc, "not refuted");
    }
    match interpolate(alloc, graph, predicates, trace, lambda) {
        Ok(refutation) => shown(alloc, &refutation),
        Err(end) => ended(alloc, end),
    }
}

// Whether the multipliers refute the rows of the trace.
fn is_refuted(
    alloc: Global,
    graph: &Graph,
    trace: &IndexedTrace,
    lambda: &[u128],
) -> Result<bool, AllocError>
    requires { All (λ l. l.edge < length graph.now.edges) trace.now.letters }
    ensures { IfOk result (λ yes. IsTrue yes
        → Refutes (rows_of graph.now (pairs_of trace.now)) lambda.now) }
{
    if !has_few_havocs(graph, trace) {
        return Err(AllocError);
    }
    let Ok(rows) = trace_rows(alloc, graph, trace) else {
        return Err(AllocError);
    };
    match refutes(rows.as_slice(), lambda) {
        Ok(yes) => Ok(yes),
        Err(_) => Err(AllocError),
    }
}

fn read_multipliers(alloc: Global, text: &str) -> Result<Vec<u128>, AllocError> {
    let mut multipliers = Vec::new(alloc);
    for word in text.split_whitespace() {
        multipliers.push(read_u128(word.as_bytes()).ok_or(AllocError)?)?;
    }
    Ok(multipliers)
}

fn shown(alloc: Global, refutation: &Refutation) -> Result<Vec<u8>, AllocError> {
    let mut out = Vec::new(alloc);
    for predicate in refutation.predicates.as_slice() {
        put_predicate(&mut out, predicate)?;
    }
    for entry in refutation.entries.as_slice() {
        put_entry(&mut out, entry)?;
    }
    Ok(out)
}

fn ended(alloc: Global, end: InterpEnd) -> Result<Vec<u8>, AllocError> {
    match end {
        InterpEnd::Arity { cut, count } => {
            let mut out = word(alloc, "arity")?;
            put_number(&mut out, cut)?;
            put_number(&mut out, count)?;
            Ok(out)
        }
        InterpEnd::Predicates { cut } => {
            let mut out = word(alloc, "predicates")?;
            put_number(&mut out, cut)?;
            Ok(out)
        }
        InterpEnd::Past128 => word(alloc, "past"),
        InterpEnd::Memory(end) => Err(end),
    }
}
