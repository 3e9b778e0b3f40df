//! Predicates as lines.
ghost use Rattle.ps_atom_text.specs.Reading.{predicate_at};

use ps_atom::Predicate;
use ps_term::Row;
use ps_term_text::take_term;
use ps_text::{Form, FormEnd, Reader};
use std::alloc::Global;

/// A line `pred ARITY TERM`.
pub struct PredicateLine;

impl Form for PredicateLine {
    type Value = Predicate;

    ghost reading = { predicate_at };

    #[tactic(auto, unfolding(crate::specs::Reading::predicate_at, ps_lines::specs::Steps::and_then))]
    fn take<'a>(alloc: Global, reader: &mut Reader<'a>) -> Result<Predicate, FormEnd> {
        reader.line(b"pred")?;
        let arity = reader.natural32()?;
        let term = take_term(alloc, reader)?;
        reader.end()?;
        Ok(Predicate {
            arity,
            row: Row { term },
        })
    }
}
