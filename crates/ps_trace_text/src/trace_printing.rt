//! Printing traces.
ghost use Rattle.std.specs.Prelude.{◌≡◌, ◌++◌, ◌<◌, ◌^◌, length, IfOk, OnOk};
ghost use Rattle.std.specs.List.{flat_map};
ghost use Rattle.ps_lines.specs.Tokens.{line_bytes, text_bytes};
ghost use Rattle.ps_trace_text.specs.TraceSpelling.{letter_line, trace_lines};

use ps_text::{put_end, put_header, put_natural, put_only, put_word};
use ps_trace::{IndexedTrace, Letter};
use std::alloc::{AllocError, Global};

fn put_letter(out: &mut Vec<u8>, letter: Letter) -> Result<(), AllocError>
    ensures { OnOk result (out.new.items ≡ out.old.items ++ line_bytes (letter_line letter)) }
{
    put_word(out, b"step")?;
    put_natural(out, letter.thread as u128)?;
    put_natural(out, letter.edge as u128)?;
    put_end(out)
}

fn put_letters(out: &mut Vec<u8>, letters: &[Letter]) -> Result<(), AllocError>
    ensures { OnOk result (out.new.items
        ≡ out.old.items ++ flat_map (λ l. line_bytes (letter_line l)) letters.now) }
{
    for letter in letters {
        put_letter(out, *letter)?;
    }
    Ok(())
}

/// The text of a trace, which is read back as it where it is within the limits of reading.
pub fn print_trace(alloc: Global, trace: &IndexedTrace) -> Result<Vec<u8>, AllocError>
    requires { length trace.now.letters < 2 ^ 32 }
    ensures { IfOk result (λ text. text.items ≡ text_bytes (trace_lines trace.now)) }
{
    let letters = trace.letters.as_slice();
    let mut out = Vec::new(alloc);
    put_header(&mut out, b"trace", letters.len() as u32)?;
    put_letters(&mut out, letters)?;
    put_only(&mut out, b"end")?;
    Ok(out)
}
