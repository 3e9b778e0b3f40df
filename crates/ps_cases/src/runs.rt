//! Whole runs of the program, over sources and sinks in memory. Their answers are the status, `:`, and what was written.
use ps_case::number_and_rest;
use ps_io::{MemorySink, MemorySource, OpenGate};
use ps_modes::run;
use ps_text::{put_digits, put_word};
use std::alloc::{AllocError, Global};
use std::string::String;
use std::sync::Wait;
use std::thread::Threads;

// Rows that the program answers with yes.
const ROWS: &[u8] = b"rows 2\nrow 1*g0 1\nrow -1*g0 0\nby 1 1\nend\n";

/// How the outside behaves in a run: the bytes of a call, and the calls that fail (0 for none).
#[derive(Clone, Copy)]
struct Outside {
    take: u32,
    failing_take: u32,
    room: u32,
    put: u32,
    failing_put: u32,
}

const CALM: Outside = Outside {
    take: 7,
    failing_take: 0,
    room: 1_000,
    put: 5,
    failing_put: 0,
};

fn source_of(alloc: Global, outside: Outside, input: &[u8]) -> Result<MemorySource, AllocError> {
    let failing = [u64::from(outside.failing_take)].to_vec(alloc)?;
    let piece = (outside.take as usize).max(1);
    Ok(MemorySource::new(input.to_vec(alloc)?, piece, failing))
}

fn sink_of(alloc: Global, outside: Outside) -> Result<MemorySink, AllocError> {
    let failing = [u64::from(outside.failing_put)].to_vec(alloc)?;
    let piece = (outside.put as usize).max(1);
    MemorySink::new(alloc, outside.room as usize, piece, failing)
}

fn words_of(alloc: Global, words: &[u8]) -> Result<Vec<String>, AllocError> {
    let words = str::from_utf8(words).ok().ok_or(AllocError)?;
    let mut list = Vec::new(alloc);
    for word in words.split_whitespace() {
        list.push(String::from_str(alloc, word)?)?;
    }
    Ok(list)
}

fn run_on<R: Threads + Wait + Sync>(
    rt: &R,
    alloc: Global,
    words: &[u8],
    outside: Outside,
    input: &[u8],
) -> Result<Vec<u8>, AllocError> {
    let words = words_of(alloc, words)?;
    let mut source = source_of(alloc, outside, input)?;
    let mut sink = sink_of(alloc, outside)?;
    let status = run(
        rt,
        alloc,
        words.as_slice(),
        &mut source,
        &mut sink,
        &OpenGate,
    );
    let mut out = Vec::new(alloc);
    put_digits(&mut out, u128::from(status))?;
    put_word(&mut out, b":")?;
    put_word(&mut out, sink.written())?;
    Ok(out)
}

// The words of the program's name and a mode.
fn words_of_mode(alloc: Global, mode: &str) -> Result<Vec<u8>, AllocError> {
    let mut words = Vec::new(alloc);
    put_word(&mut words, b"proofspace ")?;
    put_word(&mut words, mode.as_bytes())?;
    Ok(words)
}

/// The run of the program's name and a mode on the input.
pub fn in_mode<R: Threads + Wait + Sync>(
    rt: &R,
    alloc: Global,
    mode: &str,
    input: &[u8],
) -> Result<Vec<u8>, AllocError> {
    let words = words_of_mode(alloc, mode)?;
    run_on(rt, alloc, words.as_slice(), CALM, input)
}

/// The same over a source that gives so many bytes in a take, of which this one fails (0 for none).
pub fn over_takes<R: Threads + Wait + Sync>(
    rt: &R,
    alloc: Global,
    mode: &str,
    take: u32,
    failing_take: u32,
    input: &[u8],
) -> Result<Vec<u8>, AllocError> {
    let words = words_of_mode(alloc, mode)?;
    let outside = Outside {
        take,
        failing_take,
        ..CALM
    };
    run_on(rt, alloc, words.as_slice(), outside, input)
}

/// The run of these words on rows that the program answers with yes.
pub fn with_words<R: Threads + Wait + Sync>(
    rt: &R,
    alloc: Global,
    words: &[u8],
) -> Result<Vec<u8>, AllocError> {
    run_on(rt, alloc, words, CALM, ROWS)
}

/// The run of `refute` over a source: the bytes that it gives in a call, the call that fails, and its bytes.
pub fn over_source<R: Threads + Wait + Sync>(
    rt: &R,
    alloc: Global,
    input: &[u8],
) -> Result<Vec<u8>, AllocError> {
    let (take, rest) = number_and_rest(input)?;
    let (failing_take, input) = number_and_rest(rest)?;
    over_takes(rt, alloc, "refute", take, failing_take, input)
}

/// The run of `refute` into a sink: its room, the bytes that it takes in a call, the call that fails, and the input.
pub fn over_sink<R: Threads + Wait + Sync>(
    rt: &R,
    alloc: Global,
    input: &[u8],
) -> Result<Vec<u8>, AllocError> {
    let (room, rest) = number_and_rest(input)?;
    let (put, rest) = number_and_rest(rest)?;
    let (failing_put, input) = number_and_rest(rest)?;
    let outside = Outside {
        room,
        put,
        failing_put,
        ..CALM
    };
    run_on(rt, alloc, b"proofspace refute", outside, input)
}
