//! Runs the cases of standard input, one a line, and prints a line for each that fails, and then how many ran of each kind:
//! entries, lists of them, and steps back.
//!
//! A case is `KIND INPUT -> EXPECTED`; docs/TESTS.md has the kinds, and how texts are written. Parts of an input stand
//! between `|`. Empty lines and lines that begin with `#` are no cases.
#![tactic(auto)]

mod entries;
mod lists;
mod steps;

use entries::checked;
use lists::{basis_told, filled, front_told};
use ps_case::{Case, Cases, text_of_bytes};
use std::alloc::{AllocError, Global};
use std::io;
use steps::{accepted, counted, listed, standing};

// What comes of the input, by the case's kind.
fn came(alloc: Global, cases: &Cases, case: &Case<'_>) -> Result<Vec<u8>, AllocError> {
    let input = cases.input(alloc, case)?;
    let input = text_of_bytes(input.as_slice())?;
    match case.kind {
        "entry" => checked(alloc, input),
        "basis" => basis_told(alloc, input),
        "front" => front_told(alloc, input),
        "full" => filled(alloc, input),
        "stands" => standing(alloc, input),
        "accepts" => accepted(alloc, input),
        "expand" => listed(alloc, input),
        "breadth" => counted(alloc, input),
        _ => Err(AllocError),
    }
}

fn main(rt: HostRuntime) -> io::Result<()> {
    let alloc = rt.alloc();
    let mut cases = Cases::new(alloc);
    for line in rt.lines(alloc) {
        let line = line?;
        if let Some(case) = cases.take(alloc, line.as_str())? {
            let came = came(alloc, &cases, &case);
            if let Some(fault) = cases.fault(alloc, &case, came)? {
                println!(rt; "{fault}")?;
            }
        }
    }
    println!(rt; "{}", cases.tally(alloc)?)
}
