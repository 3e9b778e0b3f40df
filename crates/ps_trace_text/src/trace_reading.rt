//! Reading traces, with the first fault.
ghost use Rattle.std.specs.Prelude.{◌≡◌, ◌+◌, ◌<◌, ◌≤◌, ◌^◌, length, IfOk, Ok};
ghost use Rattle.ps_lines.specs.Tokens.{text_bytes};
ghost use Rattle.ps_lines.specs.Reading.{text_start, Tells};
ghost use Rattle.ps_trace.specs.declared.trace.IndexedTrace.{IndexedTrace};
ghost use Rattle.ps_trace_text.specs.TraceReading.{letter_at, trace_at};
ghost use Rattle.ps_trace_text.specs.TraceSpelling.{trace_lines, TraceFits};

use ps_list::Sequence;
use ps_text::{Form, FormEnd, Reader, times};
use ps_trace::{IndexedTrace, Letter};
use std::alloc::Global;

/// How many letters a trace may have.
pub const MOST_LETTERS: u32 = 1_048_576;

// A line `step THREAD EDGE`.
struct LetterLine;

impl Form for LetterLine {
    type Value = Letter;

    ghost reading = { letter_at };

    #[tactic(auto, unfolding(crate::specs::TraceReading::letter_at, ps_lines::specs::Steps::and_then))]
    fn take<'a>(_alloc: Global, reader: &mut Reader<'a>) -> Result<Letter, FormEnd> {
        reader.line(b"step")?;
        let thread = reader.natural32()?;
        let edge = reader.natural32()?;
        reader.end()?;
        Ok(Letter { thread, edge })
    }
}

#[tactic(auto, unfolding(crate::specs::TraceReading::trace_at, ps_lines::specs::Steps::and_then))]
fn whole(alloc: Global, bytes: &[u8], first: u32) -> Result<IndexedTrace, FormEnd>
    requires from_one { 1 ≤ first }
    requires room { first + length bytes.now < 2 ^ 32 }
    ensures { Tells (λ x. x) result (trace_at (text_start first bytes.now)) }
{
    let mut reader = Reader::new(bytes, first);
    let count = reader.header(b"trace", MOST_LETTERS)?;
    let letters = times::<LetterLine>(alloc, count, &mut reader)?;
    reader.only(b"end")?;
    reader.done()?;
    Ok(IndexedTrace {
        letters: Sequence::from_list(letters),
    })
}

/// The trace that the bytes spell, all of the bytes, or the first fault. Lines count from `first`.
/// Looks at each byte some ten times; takes memory for the result alone.
pub fn read_trace(alloc: Global, bytes: &[u8], first: u32) -> Result<IndexedTrace, FormEnd>
    requires from_one { 1 ≤ first }
    requires room { first + length bytes.now < 2 ^ 32 }
    // What is read is spelled so, and is within the limits.
    ensures found { IfOk result
        (λ trace. TraceFits trace × (bytes.now ≡ text_bytes (trace_lines trace))) }
    // What is spelled so is read, unless memory runs out.
    ensures only { (trace : IndexedTrace) → TraceFits trace
        → bytes.now ≡ text_bytes (trace_lines trace) → Tells (λ x. x) result (Ok trace) }
    // Which fault it is.
    ensures exact { Tells (λ x. x) result (trace_at (text_start first bytes.now)) }
{
    whole(alloc, bytes, first)
}
