//! The predicates and entries of a refuted trace.
ghost use Rattle.std.specs.Prelude.{◌≡◌, ◌≢◌, ◌<◌, ◌≤◌, ◌++◌, [], All, IfErr, IfOk, List, length};
ghost use Rattle.ps_atom.specs.declared.predicate.Predicate.{Predicate};
ghost use Rattle.ps_basis.specs.Space.{IsProved};
ghost use Rattle.ps_farkas.specs.Refutes.{Refutes};
ghost use Rattle.ps_interp.specs.Ends.{EndsInterpolation};
ghost use Rattle.ps_interp.specs.Firsts.{AreFirst};
ghost use Rattle.ps_interp.specs.Made.{IsInterpolation};
ghost use Rattle.ps_interp.specs.inner.Meetings.{AreCuts, IsFound, falses_in};
ghost use Rattle.ps_interp.specs.inner.Starts.{AreStartWeights};
ghost use Rattle.ps_soundness.specs.Traces.{trace_of};
ghost use Rattle.ps_trace.specs.Rows.{rows_at_start, rows_of, threads_in_trace};
ghost use Rattle.ps_trace.specs.Traces.{pairs_in, pairs_of};
ghost use Rattle.ps_triple.specs.Faults.{EntryHolds};

use crate::cuts::{Cuts, cuts_of};
use crate::interp_end::InterpEnd;
use crate::meeting::{Found, false_triples, meet_cuts};
use crate::refutation::Refutation;
use crate::start::{StartWeights, start_weights};
use crate::starting::push_initial;
use ps_atom::Predicates;
use ps_command::Setting;
use ps_graph::Graph;
use ps_list::{Sequence, copies};
use ps_term::TermEnd;
use ps_trace::{IndexedTrace, Letter, threads_of};
use std::alloc::{AllocError, Global};

// So many letters are too many.
const TOO_MANY_LETTERS: usize = 1 << 32;

/// The predicates and entries of the trace, whose rows the multipliers refute: from the last letter to the first the interpolant
/// at each cut gives a predicate, and two interpolants a triple. A value past 128 bits, a fifth thread and a 129th predicate
/// end the call, the first that comes.
///
/// In time of the sums at the cuts, and of one check and one look-up for each entry. Lists of more members than 32 bits can count
/// are answered as want of memory, which so many are.
pub fn interpolate(
    alloc: Global,
    graph: &Graph,
    predicates: &Predicates,
    trace: &IndexedTrace,
    lambda: &[u128],
) -> Result<Refutation, InterpEnd>
    requires letters { trace.now.letters ≢ [] }
    requires edges { All (λ l. l.edge < length graph.now.edges) trace.now.letters }
    requires refutes { Refutes (rows_of graph.now (pairs_of trace.now)) lambda.now }
    ensures trace { IfOk result (λ refutation. refutation.trace ≡ trace.now) }
    ensures known { IfOk result (λ refutation. refutation.known ≡ length predicates.now) }
    ensures made { IfOk result (λ refutation. IsInterpolation graph.now.setting predicates.now
        (trace_of graph.now.edges (pairs_of trace.now)) lambda.now
        refutation.predicates refutation.entries) }
    ensures hold { IfOk result (λ refutation. All (EntryHolds graph.now.setting
        (predicates.now ++ refutation.predicates)) refutation.entries) }
    ensures prove { IfOk result (λ refutation. IsProved refutation.entries
        (trace_of graph.now.edges (pairs_of trace.now))) }
    ensures ends { IfErr result (EndsInterpolation graph.now.setting predicates.now
        (trace_of graph.now.edges (pairs_of trace.now)) lambda.now) }
{
    // The clause of `list` says that the first predicate is `1 <= 0`; the call does nothing else here.
    let _known = predicates.list();
    let letters = trace.letters.as_slice();
    let found = match found_for(alloc, graph, predicates, letters, lambda) {
        Ok(found) => found,
        Err(end) => return Err(end),
    };
    match refutation(alloc, predicates, trace, found) {
        Ok(refutation) => Ok(refutation),
        Err(end) => Err(InterpEnd::Memory(end)),
    }
}

// What is found for the letters: the table with the predicates that are taken, and the entries.
fn found_for(
    alloc: Global,
    graph: &Graph,
    predicates: &Predicates,
    letters: &[Letter],
    lambda: &[u128],
) -> Result<Found, InterpEnd>
    requires edges { All (λ l. l.edge < length graph.now.edges) letters.now }
    requires refutes { Refutes (rows_of graph.now (pairs_in letters.now)) lambda.now }
    ensures found { IfOk result (IsFound graph.now.setting predicates.now
        (trace_of graph.now.edges (pairs_in letters.now)) lambda.now) }
    ensures ends { IfErr result (EndsInterpolation graph.now.setting predicates.now
        (trace_of graph.now.edges (pairs_in letters.now)) lambda.now) }
{
    if letters.len() >= TOO_MANY_LETTERS {
        return Err(InterpEnd::Memory(AllocError));
    }
    // The clause of `list` says that the first predicate is `1 <= 0`; the call does nothing else here.
    let _known = predicates.list();
    let setting = &graph.setting;
    let start = match start_of(alloc, setting, letters, lambda) {
        Ok(start) => start,
        Err(end) => return Err(InterpEnd::Memory(end)),
    };
    let cuts = match cuts_of(alloc, graph, letters, start.letters) {
        Ok(cuts) => cuts,
        Err(TermEnd::Past128) => return Err(InterpEnd::Past128),
        Err(TermEnd::Memory(end)) => return Err(InterpEnd::Memory(end)),
    };
    let mut found = match found_first(alloc, predicates, &cuts) {
        Ok(found) => found,
        Err(end) => return Err(InterpEnd::Memory(end)),
    };
    match meet_cuts(alloc, &cuts, &mut found) {
        Ok(Some(lowest)) => match push_initial(alloc, setting, &start, &lowest, &mut found) {
            Ok(()) => Ok(found),
            Err(end) => Err(end),
        },
        Ok(None) => Ok(found),
        Err(end) => Err(end),
    }
}

// The multipliers of the rows of a trace with these letters.
fn start_of<'a>(
    alloc: Global,
    setting: &Setting,
    letters: &[Letter],
    lambda: &'a [u128],
) -> Result<StartWeights<'a>, AllocError>
    requires { length (rows_at_start setting.now (threads_in_trace (pairs_in letters.now)))
        ≤ length lambda.now }
    ensures { IfOk result (AreStartWeights setting.now (threads_in_trace (pairs_in letters.now))
        lambda.now) }
{
    let threads = threads_of(alloc, letters)?;
    let start = start_weights(alloc, setting, threads.as_slice(), lambda)?;
    Ok(start)
}

// What is found before the cuts are met: the predicates that are known, and the triples from false to false.
fn found_first(alloc: Global, predicates: &Predicates, cuts: &Cuts<'_>) -> Result<Found, AllocError>
    requires { AreCuts cuts.now }
    ensures table { IfOk result (λ found. found.table ≡ predicates.now) }
    ensures entries { IfOk result (λ found. AreFirst [] (falses_in cuts.now) found.entries) }
{
    let table = predicates.copy(alloc)?;
    let entries = false_triples(alloc, cuts)?;
    Ok(Found { table, entries })
}

// The refutation with the predicates beyond those that were known.
fn refutation(
    alloc: Global,
    known: &Predicates,
    trace: &IndexedTrace,
    found: Found,
) -> Result<Refutation, AllocError>
    requires { (new : List Predicate) × (found.table ≡ known.now ++ new) }
    ensures trace { IfOk result (λ refutation. refutation.trace ≡ trace.now) }
    ensures known { IfOk result (λ refutation. refutation.known ≡ length known.now) }
    ensures predicates { IfOk result
        (λ refutation. found.table ≡ known.now ++ refutation.predicates) }
    ensures entries { IfOk result (λ refutation. refutation.entries ≡ found.entries) }
{
    let Found { table, entries } = found;
    let first = known.list().len();
    let new = copies(alloc, &table.list()[first..])?;
    Ok(Refutation {
        trace: trace.copy(alloc)?,
        known: first as u32,
        predicates: Sequence::from_list(new),
        entries: Sequence::from_list(entries.into_list(alloc)?),
    })
}
