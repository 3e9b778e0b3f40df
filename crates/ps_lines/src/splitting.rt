//! Cutting a text into lines and fields, whatever its form.

ghost use Rattle.std.specs.Prelude.{◌≡◌, ◌+◌, ◌<◌, ◌≤◌, ◌^◌, length, drop, map, IfOk, All};
ghost use Rattle.ps_lines.specs.Tokens.{line_parts};
ghost use Rattle.ps_lines.specs.inner.Ahead.{field_len};
ghost use Rattle.ps_lines.specs.Lines.{lines_of, numbered, numbered_fields, IsLineWithin};
ghost use Rattle.ps_lines.specs.inner.Ahead.{IsLineAhead};

use crate::line::Line;
use crate::reader::field_len;
use crate::span::Span;
use crate::spans::Spans;
use std::alloc::{AllocError, Global};

// Where the field that begins at a place ends.
fn field_end(bytes: &[u8], at: usize) -> usize
    requires { at ≤ length bytes.now }
    ensures value { result ≡ at + field_len (drop at bytes.now) }
    ensures inside { result ≤ length bytes.now }
{
    let (_, rest) = bytes.split_at(at);
    at + field_len(rest)
}

// The fields of the line that begins at `start`, and the place after it, where the line is ended.
fn next_line(alloc: Global, bytes: &[u8], start: u32) -> Result<Option<(Spans, u32)>, AllocError>
    requires inside { start ≤ length bytes.now }
    requires room { length bytes.now < 2 ^ 32 }
    ensures { IfOk result (IsLineAhead bytes.now start) }
{
    let mut list = Vec::new(alloc);
    let mut at = start as usize;
    'cutting: loop {
        let end = field_end(bytes, at);
        if end == bytes.len() {
            return Ok(None);
        }
        list.push(Span {
            start: at as u32,
            end: end as u32,
        })?;
        at = end + 1;
        if bytes[end] == b'\n' {
            return Ok(Some((Spans::from_list(list), at as u32)));
        }
    }
}

/// The ended lines of a text, cut into fields, which count from `first`. A last line that isn't ended is left out.
/// Looks at each byte once or twice.
pub fn lines(alloc: Global, bytes: &[u8], first: u32) -> Result<Vec<Line>, AllocError>
    requires { first + length bytes.now < 2 ^ 32 }
    // The lines' numbers and the texts of their fields.
    ensures fields { IfOk result
        (λ lines. map (numbered_fields bytes.now) lines.items
        ≡ numbered first (lines_of (line_parts bytes.now))) }
    // The fields stand inside the text.
    ensures within { IfOk result (λ lines. All (IsLineWithin (length bytes.now)) lines.items) }
{
    let mut lines = Vec::new(alloc);
    let mut number = first;
    let mut start = 0;
    'going: loop {
        match next_line(alloc, bytes, start)? {
            Some((fields, after)) => {
                lines.push(Line { number, fields })?;
                number += 1;
                start = after;
            }
            None => return Ok(lines),
        }
    }
}
