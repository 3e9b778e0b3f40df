//! The lines that say why a text is no program.

ghost use Rattle.std.specs.Prelude.{◌≡◌, ◌++◌, [], ◌∷◌, OnOk, IfOk, codes, decimal, option_map};
ghost use Rattle.ps_parse.specs.Refusals.{limit_text, place_text, line_text, refusal_text};

use crate::read_refusal::ReadRefusal;
use ps_lines::{put_digits, put_end, put_word};
use ps_token::Place;
use ps_tree::LimitName;
use std::alloc::{AllocError, Global};

fn limit_word(limit: LimitName) -> &'static [u8]
    ensures { result.now ≡ limit_text limit }
{
    match limit {
        LimitName::Globals => b"globals",
        LimitName::Locals => b"locals",
        LimitName::Init => b"init",
        LimitName::Depth => b"depth",
        LimitName::Alternatives => b"alternatives",
        LimitName::Paths => b"paths",
        LimitName::Rows => b"rows",
        LimitName::Numbers => b"numbers",
        LimitName::Locations => b"locations",
        LimitName::Edges => b"edges",
    }
}

// Puts a word and a number after it.
fn put_numbered(out: &mut Vec<u8>, word: &[u8], n: u32) -> Result<(), AllocError>
    ensures { OnOk result (out.new.items ≡ out.old.items ++ (word.now ++ decimal n)) }
{
    put_word(out, word)?;
    put_digits(out, u128::from(n))
}

// Puts the place that a line begins with.
fn put_place(out: &mut Vec<u8>, place: Place) -> Result<(), AllocError>
    ensures { OnOk result (out.new.items ≡ out.old.items ++ place_text place) }
{
    put_numbered(out, b"input: line ", place.line)?;
    put_numbered(out, b" column ", place.column)?;
    put_word(out, b": ")
}

// The line of a place and a name.
fn line(alloc: Global, place: Place, name: &[u8]) -> Result<Vec<u8>, AllocError>
    ensures { IfOk result (λ line. line.items ≡ line_text place name.now) }
{
    let mut out = Vec::new(alloc);
    put_place(&mut out, place)?;
    put_word(&mut out, name)?;
    put_end(&mut out)?;
    Ok(out)
}

// The line of a limit.
fn limit_line(alloc: Global, place: Place, limit: LimitName) -> Result<Vec<u8>, AllocError>
    ensures { IfOk result
        (λ line. line.items ≡ line_text place (codes "limit " ++ limit_text limit)) }
{
    let mut name = Vec::new(alloc);
    put_word(&mut name, b"limit ")?;
    put_word(&mut name, limit_word(limit))?;
    line(alloc, place, name.as_slice())
}

/// The line that says a refusal, with its line feed; want of memory has none. Takes memory for the line.
pub fn refusal_line(alloc: Global, refusal: &ReadRefusal) -> Result<Option<Vec<u8>>, AllocError>
    ensures { IfOk result
        (λ line. option_map (λ bytes. bytes.items) line ≡ refusal_text refusal.now) }
{
    match refusal {
        ReadRefusal::Token(place) => Ok(Some(line(alloc, *place, b"token")?)),
        ReadRefusal::Grammar(place) => Ok(Some(line(alloc, *place, b"grammar")?)),
        ReadRefusal::UnknownName(place) => Ok(Some(line(alloc, *place, b"unknown name")?)),
        ReadRefusal::Twice(place) => Ok(Some(line(alloc, *place, b"name twice")?)),
        ReadRefusal::NotLinear(place) => Ok(Some(line(alloc, *place, b"not linear")?)),
        ReadRefusal::LoopInAtomic(place) => Ok(Some(line(alloc, *place, b"loop in atomic")?)),
        ReadRefusal::Limit(place, limit) => Ok(Some(limit_line(alloc, *place, *limit)?)),
        ReadRefusal::Memory(_) => Ok(None),
    }
}
