//! Traces and witnesses as texts: read, copied and printed.
use ps_case::{form_refusal, word};
use ps_trace::{IndexedTrace, Witness};
use ps_trace_text::{print_trace, print_witness, read_trace, read_witness};
use std::alloc::{AllocError, Global};

// Longer texts are no cases.
const MOST_BYTES: usize = 100_000;

/// `same` where a copy of the trace is printed as the text stands, or else what is printed of it; or the first fault.
pub fn reprinted_trace(alloc: Global, text: &[u8]) -> Result<Vec<u8>, AllocError> {
    if text.len() > MOST_BYTES {
        return Err(AllocError);
    }
    match read_trace(alloc, text, 1) {
        Ok(trace) => compared(alloc, printed_trace(alloc, &trace)?, text),
        Err(end) => form_refusal(alloc, end),
    }
}

/// The same of a witness.
pub fn reprinted_witness(alloc: Global, text: &[u8]) -> Result<Vec<u8>, AllocError> {
    if text.len() > MOST_BYTES {
        return Err(AllocError);
    }
    match read_witness(alloc, text, 1) {
        Ok(witness) => compared(alloc, printed_witness(alloc, &witness)?, text),
        Err(end) => form_refusal(alloc, end),
    }
}

fn compared(alloc: Global, printed: Vec<u8>, text: &[u8]) -> Result<Vec<u8>, AllocError> {
    if printed.as_slice() == text {
        return word(alloc, "same");
    }
    Ok(printed)
}

// What is printed of a copy.
fn printed_trace(alloc: Global, trace: &IndexedTrace) -> Result<Vec<u8>, AllocError> {
    let copied = trace.copy(alloc)?;
    if copied.letters.as_slice().len() > MOST_BYTES {
        return Err(AllocError);
    }
    print_trace(alloc, &copied)
}

/// What is printed of a copy of the witness.
pub(crate) fn printed_witness(alloc: Global, witness: &Witness) -> Result<Vec<u8>, AllocError> {
    let copied = witness.copy(alloc)?;
    if copied.locals.as_slice().len() > MOST_BYTES {
        return Err(AllocError);
    }
    print_witness(alloc, &copied)
}

/// The trace that the text is.
pub(crate) fn trace_of(alloc: Global, text: &str) -> Result<IndexedTrace, AllocError> {
    if text.len() > MOST_BYTES {
        return Err(AllocError);
    }
    read_trace(alloc, text.as_bytes(), 1).ok().ok_or(AllocError)
}

/// The witness that the text is.
pub(crate) fn witness_of(alloc: Global, text: &str) -> Result<Witness, AllocError> {
    if text.len() > MOST_BYTES {
        return Err(AllocError);
    }
    read_witness(alloc, text.as_bytes(), 1)
        .ok()
        .ok_or(AllocError)
}
