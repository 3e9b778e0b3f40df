//! What comes of the input of a case, by its kind.
use crate::decimals::{integer, natural, natural32};
use crate::forms::{cut_lines, cut_tokens, read_a_term, reprinted_rows};
use crate::graphs::{graph, size};
use crate::pipes::{read_whole, write_whole};
use crate::programs::{printed, printed_again, read};
use crate::runs::{in_mode, over_sink, over_source, with_words};
use crate::sets::{below, leans, minimal};
use crate::solving::{eliminated, refuted, solved, walked};
use crate::sweeps::{over_failing_takes, over_prefixes};
use crate::trees::tree;
use std::alloc::{AllocError, Global};
use std::sync::Wait;
use std::thread::Threads;

/// The answer to the input, as the bytes that a case of this kind expects.
pub fn answer<R: Threads + Wait + Sync>(
    rt: &R,
    alloc: Global,
    kind: &str,
    input: &[u8],
) -> Result<Vec<u8>, AllocError> {
    match kind {
        "refute" | "replay" | "check" | "member" => in_mode(rt, alloc, kind, input),
        "words" => with_words(rt, alloc, input),
        "source" => over_source(rt, alloc, input),
        "sink" => over_sink(rt, alloc, input),
        "prefixes" => over_prefixes(rt, alloc, input),
        "takes" => over_failing_takes(rt, alloc, input),
        _ => answer_alone(alloc, kind, input),
    }
}

// The answer of a kind that needs no threads.
fn answer_alone(alloc: Global, kind: &str, input: &[u8]) -> Result<Vec<u8>, AllocError> {
    match kind {
        "reads" | "refuses" => read(alloc, input),
        "prints" => printed(alloc, input),
        "again" => printed_again(alloc, input),
        "tree" => tree(alloc, input),
        "graph" => graph(alloc, input),
        "size" => size(alloc, input),
        "tokens" => cut_tokens(alloc, input),
        "lines" => cut_lines(alloc, input),
        "natural" => natural(alloc, input),
        "natural32" => natural32(alloc, input),
        "integer" => integer(alloc, input),
        "term" => read_a_term(alloc, input),
        "rows" => reprinted_rows(alloc, input),
        _ => answer_of_sets(alloc, kind, input),
    }
}

fn answer_of_sets(alloc: Global, kind: &str, input: &[u8]) -> Result<Vec<u8>, AllocError> {
    match kind {
        "refutes" => refuted(alloc, input),
        "elim" => eliminated(alloc, input),
        "walk" => walked(alloc, input),
        "solve" => solved(alloc, input),
        "read_all" => read_whole(alloc, input),
        "write_all" => write_whole(alloc, input),
        "hits" => minimal(alloc, input),
        "below" => below(alloc, input),
        "leaning" => leans(alloc, input),
        _ => Err(AllocError),
    }
}
