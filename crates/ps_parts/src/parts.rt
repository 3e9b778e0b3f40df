//! Inputs of two and of three parts, the first of which is a program.
ghost use Rattle.std.specs.Prelude.{ℕ, ◌+◌, ◌^◌, ◌<◌, ◌≤◌, ◌⊎◌, List, length, IfOk, IsErrOf};
ghost use Rattle.ps_parts.specs.Cuts.{AreTwoParts, AreThreeParts, HasNoMark, IsCut, IsNumbered};

use crate::cut::{cut_at_mark, program_part};

/// How many bytes a program may have.
pub const MOST_PROGRAM: usize = 65_536;

/// How many bytes a proof, or evidence, may have.
pub const MOST_PROOF: usize = 268_435_456;

/// How many bytes a witness, or a trace, may have.
pub const MOST_WITNESS: usize = 16_777_216;

/// A part after a mark, and the number of its first line.
#[derive(Clone, Copy)]
pub struct Part<'a> {
    pub bytes: &'a [u8],
    pub line: u32,
}

/// A program, and what stands after the first mark.
#[derive(Clone, Copy)]
pub struct TwoParts<'a> {
    pub program: &'a [u8],
    pub last: Part<'a>,
}

/// A program, what stands between the first two marks, and what stands after them.
#[derive(Clone, Copy)]
pub struct ThreeParts<'a> {
    pub program: &'a [u8],
    pub middle: Part<'a>,
    pub last: Part<'a>,
}

/// Why an input isn't taken as parts.
#[derive(Clone, Copy, Debug)]
pub enum PartsEnd {
    /// A mark is missing.
    NoMark,
    /// A part has more bytes than it may have.
    LimitPart,
}

/// Cuts an input into a program and a part of at most `most` bytes.
pub fn two_parts(input: &[u8], most: usize) -> Result<TwoParts<'_>, PartsEnd>
    requires { 1 + length input.now < 2 ^ 32 }
    ensures parts { IfOk result
        (λ parts. AreTwoParts input.now parts.program.now parts.last.bytes.now) }
    ensures within { IfOk result
        (λ parts. (length parts.program.now ≤ MOST_PROGRAM)
        × (length parts.last.bytes.now ≤ most)) }
    ensures line { IfOk result
        (λ parts. IsNumbered input.now parts.last.bytes.now parts.last.line) }
    ensures no_mark { IsErrOf result PartsEnd.NoMark → HasNoMark input.now }
    ensures limit { IsErrOf result PartsEnd.LimitPart
        → (program last : List ℕ) × AreTwoParts input.now program last
        × ((MOST_PROGRAM < length program) ⊎ (most < length last)) }
{
    let cut = match cut_at_mark(input, 1) {
        Some(cut) => cut,
        None => return Err(PartsEnd::NoMark),
    };
    let program = program_part(cut.before);
    if program.len() > MOST_PROGRAM {
        return Err(PartsEnd::LimitPart);
    }
    if cut.after.len() > most {
        return Err(PartsEnd::LimitPart);
    }
    Ok(TwoParts {
        program,
        last: Part {
            bytes: cut.after,
            line: cut.line,
        },
    })
}

/// Cuts an input into a program, a part of at most `most_middle` bytes, and one of at most `most_last`.
pub fn three_parts(
    input: &[u8],
    most_middle: usize,
    most_last: usize,
) -> Result<ThreeParts<'_>, PartsEnd>
    requires { 1 + length input.now < 2 ^ 32 }
    ensures parts { IfOk result (λ parts.
        AreThreeParts input.now parts.program.now parts.middle.bytes.now parts.last.bytes.now) }
    ensures within { IfOk result (λ parts. (length parts.program.now ≤ MOST_PROGRAM)
        × (length parts.middle.bytes.now ≤ most_middle)
        × (length parts.last.bytes.now ≤ most_last)) }
    ensures line_middle { IfOk result
        (λ parts. (rest : List ℕ) × IsCut rest parts.middle.bytes.now parts.last.bytes.now
        × IsNumbered input.now rest parts.middle.line) }
    ensures line_last { IfOk result
        (λ parts. IsNumbered input.now parts.last.bytes.now parts.last.line) }
    ensures no_mark { IsErrOf result PartsEnd.NoMark
        → HasNoMark input.now
        ⊎ ((program rest : List ℕ) × AreTwoParts input.now program rest × HasNoMark rest) }
    ensures limit { IsErrOf result PartsEnd.LimitPart → (program middle last : List ℕ)
        × AreThreeParts input.now program middle last
        × ((MOST_PROGRAM < length program) ⊎ (most_middle < length middle)
        ⊎ (most_last < length last)) }
{
    let cut = match cut_at_mark(input, 1) {
        Some(cut) => cut,
        None => return Err(PartsEnd::NoMark),
    };
    let next = match cut_at_mark(cut.after, cut.line) {
        Some(next) => next,
        None => return Err(PartsEnd::NoMark),
    };
    let program = program_part(cut.before);
    if program.len() > MOST_PROGRAM {
        return Err(PartsEnd::LimitPart);
    }
    if next.before.len() > most_middle {
        return Err(PartsEnd::LimitPart);
    }
    if next.after.len() > most_last {
        return Err(PartsEnd::LimitPart);
    }
    Ok(ThreeParts {
        program,
        middle: Part {
            bytes: next.before,
            line: cut.line,
        },
        last: Part {
            bytes: next.after,
            line: next.line,
        },
    })
}
