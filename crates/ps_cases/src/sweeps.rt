//! Runs of a mode over each proper prefix of an input, and over sources of which one take fails, each in turn.
use crate::repeats::Repeats;
use crate::runs::{in_mode, over_takes};
use ps_case::{number_and_rest, text_of_bytes};
use ps_text::cut;
use std::alloc::{AllocError, Global};
use std::sync::Wait;
use std::thread::Threads;

// Longer inputs are no cases.
const MOST_BYTES: usize = 10_000;

// The mode that the input begins with, and what follows the blank after it.
fn mode_and_rest(input: &[u8]) -> Result<(&str, &[u8]), AllocError> {
    let (mode, rest) = cut(input, b' ').ok_or(AllocError)?;
    Ok((text_of_bytes(mode)?, rest))
}

// The status that an answer begins with.
fn status_of(answer: &[u8]) -> Result<&[u8], AllocError> {
    let (status, _) = cut(answer, b':').ok_or(AllocError)?;
    Ok(status)
}

/// The statuses over the proper prefixes, from the empty one on, of an input: a mode, and the bytes.
pub fn over_prefixes<R: Threads + Wait + Sync>(
    rt: &R,
    alloc: Global,
    input: &[u8],
) -> Result<Vec<u8>, AllocError> {
    let (mode, bytes) = mode_and_rest(input)?;
    if bytes.len() > MOST_BYTES {
        return Err(AllocError);
    }
    let mut statuses = Repeats::new(alloc);
    for count in 0..bytes.len() {
        let answer = in_mode(rt, alloc, mode, &bytes[..count])?;
        statuses.note(status_of(answer.as_slice())?)?;
    }
    statuses.into_text()
}

/// The answers where the first take fails, where the second does, and so on: the input is the bytes of a take, how many runs
/// there are, a mode, and the bytes.
pub fn over_failing_takes<R: Threads + Wait + Sync>(
    rt: &R,
    alloc: Global,
    input: &[u8],
) -> Result<Vec<u8>, AllocError> {
    let (take, rest) = number_and_rest(input)?;
    let (runs, rest) = number_and_rest(rest)?;
    let (mode, bytes) = mode_and_rest(rest)?;
    let mut answers = Repeats::new(alloc);
    for run in 0..runs {
        let answer = over_takes(rt, alloc, mode, take, run + 1, bytes)?;
        answers.note(answer.as_slice())?;
    }
    answers.into_text()
}
