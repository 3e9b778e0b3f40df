//! Runs the cases of standard input, one a line, and prints a line for each that fails, and then how many ran of each kind:
//! questions, which traces a proof's entries prove, and what refuted traces give.
//!
//! A case is `KIND INPUT -> EXPECTED`; docs/TESTS.md has the kinds, and how texts are written. Parts of an input stand
//! between `|`. Empty lines and lines that begin with `#` are no cases.
#![tactic(auto)]

mod interpolations;
mod memberships;
mod questions;

use interpolations::interpolation;
use memberships::membership;
use ps_case::{Case, Cases, text_of_bytes};
use questions::answer;
use std::alloc::{AllocError, Global};
use std::io;

// What comes of the input, by the case's kind.
fn came(alloc: Global, cases: &Cases, case: &Case<'_>) -> Result<Vec<u8>, AllocError> {
    let input = cases.input(alloc, case)?;
    let input = text_of_bytes(input.as_slice())?;
    match case.kind {
        "question" => answer(alloc, input),
        "interpolate" => interpolation(alloc, input),
        "member" => membership(alloc, input),
        _ => Err(AllocError),
    }
}

fn main(rt: HostRuntime) -> io::Result<()> {
    let alloc = rt.alloc();
    let mut cases = Cases::new(alloc);
    for line in rt.lines(alloc) {
        let line = line?;
        if let Some(case) = cases.take(alloc, line.as_str())? {
            let came = came(alloc, &cases, &case);
            if let Some(fault) = cases.fault(alloc, &case, came)? {
                println!(rt; "{fault}")?;
            }
        }
    }
    println!(rt; "{}", cases.tally(alloc)?)
}
