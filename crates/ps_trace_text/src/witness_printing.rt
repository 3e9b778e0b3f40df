//! Printing witnesses.
ghost use Rattle.std.specs.Prelude.{◌≡◌, ◌++◌, ◌<◌, ◌^◌, [], ◌∷◌, length, IfOk, OnOk, codes};
ghost use Rattle.std.specs.Fmt.{signed_decimal};
ghost use Rattle.std.specs.List.{flat_map};
ghost use Rattle.ps_lines.specs.Tokens.{after_blank, line_bytes, text_bytes};
ghost use Rattle.ps_trace_text.specs.WitnessSpelling.{globals_line, locals_line, locals_lines, step_line, witness_lines};

use ps_list::Sequence;
use ps_text::{put_end, put_field, put_header, put_integer, put_natural, put_only, put_word};
use ps_trace::{Steps, Witness};
use std::alloc::{AllocError, Global};

// The values, and the end of the line.
fn put_values(out: &mut Vec<u8>, values: &[i128]) -> Result<(), AllocError>
    ensures { OnOk result (out.new.items
        ≡ out.old.items ++ flat_map (λ n. after_blank (signed_decimal n)) values.now) }
{
    for value in values {
        put_integer(out, *value)?;
    }
    Ok(())
}

fn put_globals(out: &mut Vec<u8>, values: &[i128]) -> Result<(), AllocError>
    ensures { OnOk result (out.new.items ≡ out.old.items ++ line_bytes (globals_line values.now)) }
{
    put_word(out, b"globals")?;
    put_values(out, values)?;
    put_end(out)
}

fn put_locals(out: &mut Vec<u8>, thread: usize, values: &[i128]) -> Result<(), AllocError>
    ensures { OnOk result
        (out.new.items ≡ out.old.items ++ line_bytes (locals_line thread values.now)) }
{
    put_word(out, b"locals")?;
    put_natural(out, thread as u128)?;
    put_values(out, values)?;
    put_end(out)
}

fn put_all_locals(out: &mut Vec<u8>, all: &[Sequence<i128>]) -> Result<(), AllocError>
    ensures { OnOk result
        (out.new.items ≡ out.old.items ++ flat_map line_bytes (locals_lines 0 all.now)) }
{
    for (thread, values) in all.iter().enumerate() {
        put_locals(out, thread, values.as_slice())?;
    }
    Ok(())
}

fn put_step(out: &mut Vec<u8>, thread: u32, choices: &[i128]) -> Result<(), AllocError>
    ensures { OnOk result (out.new.items ≡ out.old.items
        ++ line_bytes (step_line (record { thread = thread; choices = choices.now }))) }
{
    put_word(out, b"step")?;
    put_natural(out, thread as u128)?;
    put_values(out, choices)?;
    put_end(out)
}

fn put_steps(out: &mut Vec<u8>, steps: &Steps) -> Result<(), AllocError>
    ensures { OnOk result
        (out.new.items ≡ out.old.items ++ flat_map (λ s. line_bytes (step_line s)) steps.now) }
{
    for n in 0..steps.len() {
        put_step(out, steps.thread(n), steps.choices(n))?;
    }
    Ok(())
}

// The line `witness 1`.
fn put_version(out: &mut Vec<u8>) -> Result<(), AllocError>
    ensures { OnOk result
        (out.new.items ≡ out.old.items ++ line_bytes (codes "witness", codes "1" ∷ [])) }
{
    put_word(out, b"witness")?;
    put_field(out, b"1")?;
    put_end(out)
}

/// The text of a witness, which is read back as it where it is within the limits of reading.
pub fn print_witness(alloc: Global, witness: &Witness) -> Result<Vec<u8>, AllocError>
    requires { length witness.now.locals < 2 ^ 32 }
    ensures { IfOk result (λ text. text.items ≡ text_bytes (witness_lines witness.now)) }
{
    let all = witness.locals.as_slice();
    let mut out = Vec::new(alloc);
    put_version(&mut out)?;
    put_header(&mut out, b"threads", all.len() as u32)?;
    put_globals(&mut out, witness.globals.as_slice())?;
    put_all_locals(&mut out, all)?;
    put_steps(&mut out, &witness.steps)?;
    put_only(&mut out, b"end")?;
    Ok(out)
}
