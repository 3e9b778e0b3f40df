//! The graphs of programs.
use ps_compile::compile;
use ps_compile::laws::programs_are_compilable;
use ps_graph::Graph;
use ps_syntax::read_program;
use std::alloc::{AllocError, Global};

// Longer texts are no cases.
const MOST_BYTES: usize = 100_000;

/// The graph of the program that the text is.
pub fn graph_of(alloc: Global, text: &str) -> Result<Graph, AllocError> {
    if text.len() > MOST_BYTES {
        return Err(AllocError);
    }
    let program = read_program(alloc, text.as_bytes()).ok().ok_or(AllocError)?;
    programs_are_compilable();
    compile(alloc, &program).ok().ok_or(AllocError)
}
