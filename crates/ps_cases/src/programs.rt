//! Program texts: whether they are read, and what is printed of them.
ghost use Rattle.std.specs.Prelude.{IfOk};
ghost use Rattle.ps_grammar.specs.Programs.{IsProgram};

use ps_case::word;
use ps_syntax::{Program, print_program, read_program, refusal_line};
use std::alloc::{AllocError, Global};

// Longer texts are no cases.
const MOST_BYTES: usize = 100_000;

/// The line that refuses the text, or `read` where it is a program.
pub fn read(alloc: Global, text: &[u8]) -> Result<Vec<u8>, AllocError> {
    if text.len() > MOST_BYTES {
        return Err(AllocError);
    }
    match read_program(alloc, text) {
        Ok(_) => word(alloc, "read"),
        Err(end) => refusal_line(alloc, &end)?.ok_or(AllocError),
    }
}

/// The program that the text is.
pub fn program_of(alloc: Global, text: &[u8]) -> Result<Program, AllocError>
    ensures { IfOk result (IsProgram text.now) }
{
    if text.len() > MOST_BYTES {
        return Err(AllocError);
    }
    read_program(alloc, text).ok().ok_or(AllocError)
}

/// What the program of the text is printed as.
pub fn printed(alloc: Global, text: &[u8]) -> Result<Vec<u8>, AllocError> {
    print_program(alloc, &program_of(alloc, text)?)
}

/// Whether what is printed of the text's program is printed again as it stands.
pub fn printed_again(alloc: Global, text: &[u8]) -> Result<Vec<u8>, AllocError> {
    let once = printed(alloc, text)?;
    let again = printed(alloc, once.as_slice())?;
    word(
        alloc,
        if again.as_slice() == once.as_slice() {
            "same"
        } else {
            "other"
        },
    )
}
