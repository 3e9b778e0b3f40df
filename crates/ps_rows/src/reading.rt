//! Reading rows and multipliers, with the first fault.

ghost use Rattle.std.specs.Prelude.{◌≡◌, ◌+◌, ◌<◌, ◌≤◌, ◌^◌, length, IfOk, Ok};
ghost use Rattle.ps_lines.specs.Tokens.{text_bytes};
ghost use Rattle.ps_lines.specs.Reading.{text_start, Gives, Tells};
ghost use Rattle.ps_rows.specs.declared.claim.Claim.{Claim};
ghost use Rattle.ps_rows.specs.Spelling.{claim_lines, ClaimHasSpelling};
ghost use Rattle.ps_rows.specs.Reading.{row_at, multipliers_at, claim_at};

use crate::claim::Claim;
use ps_list::Sequence;
use ps_term::Row;
use ps_term_text::take_term;
use ps_text::{Form, FormEnd, Natural, Reader, times};
use std::alloc::Global;

/// How many rows a text may have.
pub const MOST_ROWS: u32 = 4_096;

/// A line `row TERM`.
struct RowLine;

impl Form for RowLine {
    type Value = Row;

    ghost reading = { row_at };

    #[tactic(auto, unfolding(crate::specs::Reading::row_at, ps_lines::specs::Steps::and_then))]
    fn take<'a>(alloc: Global, reader: &mut Reader<'a>) -> Result<Row, FormEnd> {
        reader.line(b"row")?;
        let term = take_term(alloc, reader)?;
        reader.end()?;
        Ok(Row { term })
    }
}

// The line of multipliers, as many as there are rows.
#[tactic(auto, unfolding(crate::specs::Reading::multipliers_at, ps_lines::specs::Steps::and_then))]
fn take_multipliers<'a>(
    alloc: Global,
    count: u32,
    reader: &mut Reader<'a>,
) -> Result<Sequence<u128>, FormEnd>
    ensures { Gives (λ x. x) result reader.new (multipliers_at count reader.old) }
{
    reader.line(b"by")?;
    let list = times::<Natural>(alloc, count, reader)?;
    reader.end()?;
    Ok(Sequence::from_list(list))
}

#[tactic(auto, unfolding(crate::specs::Reading::claim_at, ps_lines::specs::Steps::and_then))]
fn whole(alloc: Global, bytes: &[u8], first: u32) -> Result<Claim, FormEnd>
    requires from_one { 1 ≤ first }
    requires room { first + length bytes.now < 2 ^ 32 }
    ensures { Tells (λ x. x) result (claim_at (text_start first bytes.now)) }
{
    let mut reader = Reader::new(bytes, first);
    let count = reader.header(b"rows", MOST_ROWS)?;
    let rows = times::<RowLine>(alloc, count, &mut reader)?;
    let rows = Sequence::from_list(rows);
    let multipliers = take_multipliers(alloc, count, &mut reader)?;
    reader.only(b"end")?;
    reader.done()?;
    Ok(Claim { rows, multipliers })
}

/// The rows and multipliers that the bytes spell, all of the bytes, or the first fault. Lines count from `first`.
/// Looks at each byte some ten times; takes memory for the result alone.
pub fn read_rows(alloc: Global, bytes: &[u8], first: u32) -> Result<Claim, FormEnd>
    requires from_one { 1 ≤ first }
    requires room { first + length bytes.now < 2 ^ 32 }
    // What is read is spelled so, and is within the limits.
    ensures found { IfOk result
        (λ claim. ClaimHasSpelling claim × (bytes.now ≡ text_bytes (claim_lines claim))) }
    // What is spelled so is read, unless memory runs out.
    ensures only { (claim : Claim) → ClaimHasSpelling claim
        → bytes.now ≡ text_bytes (claim_lines claim)
        → Tells (λ x. x) result (Ok claim) }
    // Which fault it is.
    ensures exact { Tells (λ x. x) result (claim_at (text_start first bytes.now)) }
{
    whole(alloc, bytes, first)
}
