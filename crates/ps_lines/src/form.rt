//! What is read from a reader, and lists of it.

ghost use Rattle.std.specs.Prelude.{◌≡◌, Result};
ghost use Rattle.ps_lines.specs.Reading.{Position, Gives, times_at, while_at};
ghost use Rattle.ps_lines.specs.declared.form_fault.FormFault.{FormFault};

use crate::form_end::FormEnd;
use crate::form_name::FormName;
use crate::reader::Reader;
use std::alloc::Global;

/// A form of some fields or lines. Its type has no values of its own: it says what a text stands for.
pub trait Form {
    /// What a text of the form stands for.
    type Value: Drop;

    /// What is read, and the place after it, or the first fault.
    ghost reading: { Position → Result (Self.Value × Position) FormFault };

    fn take<'a>(alloc: Global, reader: &mut Reader<'a>) -> Result<Self::Value, FormEnd>
        ensures { Gives (λ x. x) result reader.new (reading reader.old) };
}

/// This many, one after the other.
#[tactic(auto, using(crate::proofs::Loop::times_none, crate::proofs::Loop::times_more, crate::proofs::Loop::times_all, crate::proofs::Loop::times_fails))]
pub fn times<'a, F: Form>(
    alloc: Global,
    count: u32,
    reader: &mut Reader<'a>,
) -> Result<Vec<F::Value>, FormEnd>
    ensures { Gives (λ v. v.items) result reader.new (times_at F.reading count reader.old) }
{
    let mut list = Vec::new(alloc);
    for _ in 0..count {
        let x = F::take(alloc, reader)?;
        list.push(x)?;
    }
    Ok(list)
}

/// As long as an ended line begins with the word, and at most `limit`: `Limit` at the first line that is too much.
#[tactic(auto, using(crate::proofs::Loop::whiles_none, crate::proofs::Loop::whiles_more, crate::proofs::Loop::whiles_stop, crate::proofs::Loop::whiles_limit))]
pub fn while_lines<'a, F: Form>(
    alloc: Global,
    word: &[u8],
    limit: u32,
    reader: &mut Reader<'a>,
) -> Result<Vec<F::Value>, FormEnd>
    ensures { Gives (λ v. v.items) result reader.new
        (while_at word.now F.reading limit reader.old) }
{
    let mut list = Vec::new(alloc);
    for _ in 0..limit {
        if !reader.begins(word) {
            return Ok(list);
        }
        let x = F::take(alloc, reader)?;
        list.push(x)?;
    }
    if reader.begins(word) {
        return Err(FormEnd::Fault(reader.line_fault(FormName::Limit)));
    }
    Ok(list)
}
