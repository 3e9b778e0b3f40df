//! Terms: pairs, and then a constant.

ghost use Rattle.std.specs.Prelude.{◌≡◌, ◌++◌, List, map, IfOk, Ok};
ghost use Rattle.ps_term.specs.declared.term.Term.{Term};
ghost use Rattle.ps_lines.specs.Tokens.{LinePart, Field};
ghost use Rattle.ps_lines.specs.Reading.{Gives, Tells};
ghost use Rattle.ps_term_text.specs.Reading.{term_at};
ghost use Rattle.ps_term_text.specs.Spelling.{term_fields, TermHasSpelling};

use crate::pair::PairLeaf;
use ps_term::{Pairs, Term};
use ps_text::{FormEnd, Reader, Until, list};
use std::alloc::Global;

#[tactic(auto, unfolding(crate::specs::Reading::term_at, ps_lines::specs::Steps::and_then))]
fn fields_of_term<'a>(alloc: Global, reader: &mut Reader<'a>) -> Result<Term, FormEnd>
    ensures { Gives (λ x. x) result reader.new (term_at reader.old) }
{
    let pairs = list::<PairLeaf>(alloc, &Until::Lacks(b'*'), reader)?;
    let pairs = Pairs::from_list(pairs);
    let constant = reader.integer()?;
    Ok(Term { pairs, constant })
}

/// Takes a term from the fields of a line: pairs as long as the fields have a `*`, and the constant.
pub fn take_term<'a>(alloc: Global, reader: &mut Reader<'a>) -> Result<Term, FormEnd>
    // What is read is spelled so.
    ensures found { IfOk result
        (λ term. TermHasSpelling term
        × (reader.old.tokens ≡ map Field (term_fields term) ++ reader.new.tokens)) }
    // What is spelled so is read, unless memory runs out.
    ensures only { (term : Term) (rest : List LinePart) → TermHasSpelling term
        → reader.old.tokens ≡ map Field (term_fields term) ++ rest
        → Tells (λ x. x) result (Ok term) }
    // Which fault it is, and where the reader stands.
    ensures exact { Gives (λ x. x) result reader.new (term_at reader.old) }
{
    fields_of_term(alloc, reader)
}
