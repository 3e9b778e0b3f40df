//! Printing rows and multipliers.

ghost use Rattle.std.specs.Prelude.{◌≡◌, ◌++◌, ◌<◌, ◌^◌, length, IfOk, OnOk, decimal};
ghost use Rattle.std.specs.List.{flat_map};
ghost use Rattle.ps_lines.specs.Tokens.{after_blank, line_bytes, text_bytes};
ghost use Rattle.ps_rows.specs.Spelling.{claim_lines, row_line, multipliers_line};

use crate::claim::Claim;
use ps_term::Row;
use ps_term_text::put_term;
use ps_text::{put_end, put_header, put_natural, put_only, put_word};
use std::alloc::{AllocError, Global};

fn put_row(out: &mut Vec<u8>, row: &Row) -> Result<(), AllocError>
    ensures { OnOk result (out.new.items ≡ out.old.items ++ line_bytes (row_line row.now)) }
{
    put_word(out, b"row")?;
    put_term(out, &row.term)?;
    put_end(out)
}

fn put_rows(out: &mut Vec<u8>, rows: &[Row]) -> Result<(), AllocError>
    ensures { OnOk result
        (out.new.items ≡ out.old.items ++ flat_map (λ r. line_bytes (row_line r)) rows.now) }
{
    for row in rows {
        put_row(out, row)?;
    }
    Ok(())
}

fn put_numbers(out: &mut Vec<u8>, numbers: &[u128]) -> Result<(), AllocError>
    ensures { OnOk result
        (out.new.items ≡ out.old.items ++ flat_map (λ n. after_blank (decimal n)) numbers.now) }
{
    for n in numbers {
        put_natural(out, *n)?;
    }
    Ok(())
}

fn put_multipliers(out: &mut Vec<u8>, numbers: &[u128]) -> Result<(), AllocError>
    ensures { OnOk result
        (out.new.items ≡ out.old.items ++ line_bytes (multipliers_line numbers.now)) }
{
    put_word(out, b"by")?;
    put_numbers(out, numbers)?;
    put_end(out)
}

/// The text of rows and multipliers, which is read back as them where it is within the limits of reading.
pub fn print_rows(alloc: Global, claim: &Claim) -> Result<Vec<u8>, AllocError>
    requires { length claim.now.rows < 2 ^ 32 }
    ensures { IfOk result (λ text. text.items ≡ text_bytes (claim_lines claim.now)) }
{
    let rows = claim.rows.as_slice();
    let mut out = Vec::new(alloc);
    put_header(&mut out, b"rows", rows.len() as u32)?;
    put_rows(&mut out, rows)?;
    put_multipliers(&mut out, claim.multipliers.as_slice())?;
    put_only(&mut out, b"end")?;
    Ok(out)
}
