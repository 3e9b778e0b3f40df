//! The cut of an input into what stands before its first mark and what comes after it.
ghost use Rattle.std.specs.Prelude.{◌≡◌, ◌==◌, ◌+◌, ◌^◌, ◌<◌, length, count_by, IfSome, MatchOption};
ghost use Rattle.ps_parts.specs.Cuts.{HasNoMark, IsCut, program_before};

use crate::mark::{MARK, first_mark};

/// An input that is cut at its first mark.
#[derive(Clone, Copy)]
pub struct Cut<'a> {
    /// The lines before the mark.
    pub before: &'a [u8],
    /// All bytes after the mark, further marks among them.
    pub after: &'a [u8],
    /// The number of the first line after the mark.
    pub line: u32,
}

/// Cuts an input, whose first line has this number, at its first mark; `None` where it has no mark. One pass over the
/// bytes before the mark, and one to count their lines.
pub fn cut_at_mark(input: &[u8], line: u32) -> Option<Cut<'_>>
    requires { line + length input.now < 2 ^ 32 }
    ensures cut { MatchOption result (HasNoMark input.now)
        (λ cut. IsCut input.now cut.before.now cut.after.now) }
    ensures line { IfSome result
        (λ cut. cut.line ≡ line + count_by (λ b. b == 10) cut.before.now + 1) }
    ensures room { IfSome result (λ cut. cut.line + length cut.after.now < 2 ^ 32) }
{
    let place = first_mark(input)?;
    let before = &input[..place];
    Some(Cut {
        before,
        after: &input[place + MARK.len()..],
        line: line + line_feeds(before) + 1,
    })
}

/// The program that stands before a mark: all bytes but the line feed that ends its last line.
pub fn program_part(before: &[u8]) -> &[u8]
    ensures { result.now ≡ program_before before.now }
{
    &before[..before.len().saturating_sub(1)]
}

/// How many line feeds there are.
fn line_feeds(bytes: &[u8]) -> u32
    requires { length bytes.now < 2 ^ 32 }
    ensures { result ≡ count_by (λ b. b == 10) bytes.now }
{
    bytes.iter().filter(|byte| **byte == b'\n').count() as u32
}
