//! Runs the cases of standard input, one a line, and prints a line for each that fails, and then how many ran of each kind:
//! commands, and graphs with their traces and witnesses.
//!
//! A case is `KIND INPUT -> EXPECTED`; docs/TESTS.md has the kinds, and how texts are written. Parts of an input stand
//! between `|`. Empty lines and lines that begin with `#` are no cases.
#![tactic(auto)]

mod forms;
mod graphs;
mod ops;
mod replays;
mod runs;
mod texts;
mod traces;

use forms::form;
use graphs::copied;
use ps_case::{Case, Cases, text_of_bytes};
use replays::replayed;
use runs::{ran, sized};
use std::alloc::{AllocError, Global};
use std::io;
use texts::{reprinted_trace, reprinted_witness};
use traces::{error, rows_at_start, valued};

// What comes of the input, by the case's kind.
fn came(alloc: Global, cases: &Cases, case: &Case<'_>) -> Result<Vec<u8>, AllocError> {
    let input = cases.input(alloc, case)?;
    let input = text_of_bytes(input.as_slice())?;
    match case.kind {
        "form" => form(alloc, input),
        "run" => ran(alloc, input),
        "sized" => sized(alloc, input),
        "trace" => reprinted_trace(alloc, input.as_bytes()),
        "witness" => reprinted_witness(alloc, input.as_bytes()),
        _ => came_of_graph(alloc, case.kind, input),
    }
}

// The same of a kind that is about a graph.
fn came_of_graph(alloc: Global, kind: &str, input: &str) -> Result<Vec<u8>, AllocError> {
    match kind {
        "copy" => copied(alloc, input),
        "error" => error(alloc, input),
        "rows" => rows_at_start(alloc, input),
        "valued" => valued(alloc, input),
        "replay" => replayed(alloc, input),
        _ => Err(AllocError),
    }
}

fn main(rt: HostRuntime) -> io::Result<()> {
    let alloc = rt.alloc();
    let mut cases = Cases::new(alloc);
    for line in rt.lines(alloc) {
        let line = line?;
        if let Some(case) = cases.take(alloc, line.as_str())? {
            let came = came(alloc, &cases, &case);
            if let Some(fault) = cases.fault(alloc, &case, came)? {
                println!(rt; "{fault}")?;
            }
        }
    }
    println!(rt; "{}", cases.tally(alloc)?)
}
