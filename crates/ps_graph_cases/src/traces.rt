//! Error traces, and what a graph makes of the trace without letters.
ghost use Rattle.std.specs.Prelude.{◌≡◌, []};

use crate::forms::put_rows;
use crate::texts::{printed_witness, trace_of};
use ps_case::{graph_of, read_variable, truth, two_parts, word};
use ps_list::Sequence;
use ps_term::{TermEnd, Var};
use ps_text::read_i128;
use ps_trace::{IndexedTrace, is_error_trace, trace_rows, witness_of};
use std::alloc::{AllocError, Global};

/// Whether the trace is an error trace of the program's graph: `PROGRAM|TRACE`.
pub fn error(alloc: Global, input: &str) -> Result<Vec<u8>, AllocError> {
    let (program, trace) = two_parts(input, '|')?;
    let graph = graph_of(alloc, program)?;
    let trace = trace_of(alloc, trace)?;
    truth(alloc, is_error_trace(&graph, &trace))
}

fn no_letters(alloc: Global) -> IndexedTrace
    ensures { result.letters ≡ [] }
{
    IndexedTrace {
        letters: Sequence::from_list(Vec::new(alloc)),
    }
}

/// The rows of the trace without letters, as assumes, or `none`.
pub fn rows_at_start(alloc: Global, program: &str) -> Result<Vec<u8>, AllocError> {
    let graph = graph_of(alloc, program)?;
    match trace_rows(alloc, &graph, &no_letters(alloc)) {
        Ok(rows) => {
            if rows.is_empty() {
                return word(alloc, "none");
            }
            let mut out = Vec::new(alloc);
            put_rows(&mut out, rows.as_slice())?;
            Ok(out)
        }
        Err(TermEnd::Past128) => word(alloc, "past"),
        Err(TermEnd::Memory(end)) => Err(end),
    }
}

/// The witness that values give of the trace without letters, as it is printed: `PROGRAM|VARIABLE=VALUE VARIABLE=VALUE ..`.
pub fn valued(alloc: Global, input: &str) -> Result<Vec<u8>, AllocError> {
    let (program, values) = two_parts(input, '|')?;
    let graph = graph_of(alloc, program)?;
    let values = read_pairs(alloc, values)?;
    let witness = witness_of(alloc, &graph, &no_letters(alloc), values.as_slice())?;
    printed_witness(alloc, &witness)
}

fn read_pairs(alloc: Global, text: &str) -> Result<Vec<(Var, i128)>, AllocError> {
    let mut pairs = Vec::new(alloc);
    for word in text.split_whitespace() {
        let (variable, value) = two_parts(word, '=')?;
        let value = read_i128(value.as_bytes()).ok_or(AllocError)?;
        pairs.push((read_variable(variable)?, value))?;
    }
    Ok(pairs)
}
