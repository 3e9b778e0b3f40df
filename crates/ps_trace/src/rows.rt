//! The rows of a trace.
ghost use Rattle.std.specs.Prelude.{◌≡◌, ◌<◌, ◌++◌, ◌^◌, All, IfOk, IsErrOf, IsTrue, OnOk, length, map};
ghost use Rattle.std.specs.List.{list_all};
ghost use Rattle.ps_trace.specs.Rows.{havocs_of_letters, nothing_yet, row_of_thread, rows_after, rows_of, RowsFit, rows_at_start, threads_in_trace};
ghost use Rattle.ps_trace.specs.Traces.{pairs_in, pairs_of};
ghost use Rattle.ps_trace.specs.Own.{is_own_row};

use crate::command::form_at;
use crate::renaming::term_of_thread;
use crate::so_far::SoFar;
use crate::threads::threads_of;
use crate::trace::{IndexedTrace, Letter};
use ps_command::Setting;
use ps_graph::Graph;
use ps_list::copies;
use ps_term::{Row, TermEnd};
use std::alloc::{AllocError, Global};

/// The rows that the trace asks of the values that it starts from, a thread's locals by its number, and of those that its
/// havocs take, which are numbered through the trace: `init_once`, then `init_each` for each thread of the trace in
/// ascending order, then the rows of each letter. Letter by letter, what variables are worth so far is put into the rows
/// and terms of its command's symbolic form by the rule of `substitute` of ps_term; it is `Past128` where a product or a
/// partial sum of one of these lies outside `i128`.
///
/// Each row and each term takes one pass over the variables that were assigned so far, and each pair of it a binary search
/// among them and time of the term that is put for it.
pub fn trace_rows(alloc: Global, graph: &Graph, trace: &IndexedTrace) -> Result<Vec<Row>, TermEnd>
    requires edges { All (λ l. l.edge < length graph.now.edges) trace.now.letters }
    requires havocs { havocs_of_letters graph.now (pairs_of trace.now) < 2 ^ 32 }
    ensures rows { IfOk result (λ rows. rows.items ≡ rows_of graph.now (pairs_of trace.now)) }
    ensures fits { OnOk result (RowsFit graph.now (pairs_of trace.now)) }
    ensures past { IsErrOf result TermEnd.Past128 → ¬ RowsFit graph.now (pairs_of trace.now) }
{
    let letters = trace.letters.as_slice();
    let mut rows = rows_at_start(alloc, &graph.setting, letters).map_err(TermEnd::Memory)?;
    append_rows(alloc, graph, letters, &mut rows)?;
    Ok(rows)
}

// Appends the rows of each letter.
fn append_rows(
    alloc: Global,
    graph: &Graph,
    letters: &[Letter],
    rows: &mut Vec<Row>,
) -> Result<(), TermEnd>
    requires edges { All (λ l. l.edge < length graph.now.edges) letters.now }
    requires havocs { havocs_of_letters graph.now (pairs_in letters.now) < 2 ^ 32 }
    ensures rows { OnOk result (rows.new.items
        ≡ rows.old.items ++ rows_after graph.now nothing_yet (pairs_in letters.now)) }
    ensures fits { OnOk result (RowsFit graph.now (pairs_in letters.now)) }
    ensures past { IsErrOf result TermEnd.Past128 → ¬ RowsFit graph.now (pairs_in letters.now) }
{
    let mut so_far = SoFar::new(alloc);
    for letter in letters {
        so_far.take(alloc, letter.thread, form_at(graph, letter.edge), rows)?;
    }
    Ok(())
}

// The rows that are asked of the values at the start.
fn rows_at_start(
    alloc: Global,
    setting: &Setting,
    letters: &[Letter],
) -> Result<Vec<Row>, AllocError>
    ensures { IfOk result
        (λ rows. rows.items ≡ rows_at_start setting.now (threads_in_trace (pairs_in letters.now))) }
{
    let mut rows = copies(alloc, setting.init_once.as_slice())?;
    let each = rows_for_each(setting);
    for thread in threads_of(alloc, letters)? {
        append_of_thread(alloc, each, thread, &mut rows)?;
    }
    Ok(rows)
}

// The rows that hold for each thread.
fn rows_for_each(setting: &Setting) -> &[Row]
    ensures rows { result.now ≡ setting.now.init_each }
    ensures own { IsTrue (list_all (is_own_row 0) result.now) }
{
    setting.init_each.as_slice()
}

// Appends the rows, whose locals are the thread's.
fn append_of_thread(
    alloc: Global,
    each: &[Row],
    thread: u32,
    rows: &mut Vec<Row>,
) -> Result<(), AllocError>
    requires { IsTrue (list_all (is_own_row 0) each.now) }
    ensures { OnOk result (rows.new.items
        ≡ rows.old.items ++ map (row_of_thread thread 0) each.now) }
{
    for row in each {
        let term = term_of_thread(alloc, &row.term, thread, 0, 0)?;
        rows.push(Row { term }).map_err(|_| AllocError)?;
    }
    Ok(())
}
