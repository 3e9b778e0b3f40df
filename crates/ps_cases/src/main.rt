//! Runs the cases of standard input, one a line, and prints a line for each that fails, and then how many ran of each kind.
//!
//! A case is `KIND INPUT -> EXPECTED`; docs/TESTS.md has the kinds, and how texts are written. Empty lines and lines that
//! begin with `#` are no cases.
#![tactic(auto)]

mod answers;
mod decimals;
mod forms;
mod graphs;
mod pipes;
mod programs;
mod repeats;
mod rows;
mod runs;
mod sets;
mod solving;
mod sweeps;
mod trees;

use answers::answer;
use ps_case::{Case, Cases};
use std::alloc::{AllocError, Global};
use std::io;
use std::sync::Wait;
use std::thread::Threads;

// What comes of the case's input, by its kind.
fn came<R: Threads + Wait + Sync>(
    rt: &R,
    alloc: Global,
    cases: &Cases,
    case: &Case<'_>,
) -> Result<Vec<u8>, AllocError> {
    let input = cases.input(alloc, case)?;
    answer(rt, alloc, case.kind, input.as_slice())
}

fn main(rt: HostRuntime) -> io::Result<()> {
    let alloc = rt.alloc();
    let mut cases = Cases::new(alloc);
    for line in rt.lines(alloc) {
        let line = line?;
        if let Some(case) = cases.take(alloc, line.as_str())? {
            let came = came(&rt, alloc, &cases, &case);
            if let Some(fault) = cases.fault(alloc, &case, came)? {
                println!(rt; "{fault}")?;
            }
        }
    }
    println!(rt; "{}", cases.tally(alloc)?)
}
