//! Entries as lines.
ghost use Rattle.std.specs.Prelude.{◌≡◌};
ghost use Rattle.ps_atom_text.specs.Reading.{entry_at, initial_at, lambda_at, triple_at};
ghost use Rattle.ps_lines.specs.Reading.{Gives};
ghost use Rattle.ps_triple.specs.declared.entry.Entry.TheVariants.{Triple as OfTriple};

use crate::atom::take_atom;
use crate::before::Before;
use crate::joining::take_before;
use crate::limits::ANY_THREAD;
use ps_atom::Atom;
use ps_list::Sequence;
use ps_text::{Form, FormEnd, Natural, Reader, Until, list};
use ps_triple::{Entry, Initial, Triple};
use std::alloc::Global;

// `by` and multipliers up to the end of the line.
#[tactic(auto, unfolding(crate::specs::Reading::lambda_at, ps_lines::specs::Steps::and_then))]
fn take_lambda<'a>(alloc: Global, reader: &mut Reader<'a>) -> Result<Sequence<u128>, FormEnd>
    ensures { Gives (λ x. x) result reader.new (lambda_at reader.old) }
{
    reader.word(b"by")?;
    let numbers = list::<Natural>(alloc, &Until::LineEnd, reader)?;
    reader.end()?;
    Ok(Sequence::from_list(numbers))
}

#[tactic(auto, unfolding(crate::specs::Reading::initial_at, ps_lines::specs::Steps::and_then))]
fn take_initial<'a>(alloc: Global, reader: &mut Reader<'a>) -> Result<Entry, FormEnd>
    ensures { Gives (λ x. x) result reader.new (initial_at reader.old) }
{
    reader.line(b"init")?;
    let predicate = reader.natural32()?;
    let lambda = take_lambda(alloc, reader)?;
    Ok(Entry::Initial(Initial { predicate, lambda }))
}

// The entry of a triple.
fn triple(command: u32, post: Atom, before: Before, lambda: Sequence<u128>) -> Entry
    ensures { result ≡ OfTriple (record {
      pre = before.atoms;
      command = command;
      post = post;
      lambda = lambda;
      ascends = before.ascends;
    }) }
{
    Entry::Triple(Triple {
        pre: before.atoms,
        command,
        post,
        lambda,
    })
}

#[tactic(auto, unfolding(crate::specs::Reading::triple_at, ps_lines::specs::Steps::and_then))]
fn take_triple<'a>(alloc: Global, reader: &mut Reader<'a>) -> Result<Entry, FormEnd>
    ensures { Gives (λ x. x) result reader.new (triple_at reader.old) }
{
    reader.line(b"triple")?;
    let command = reader.natural32()?;
    reader.word(b"post")?;
    let post = take_atom(alloc, ANY_THREAD, reader)?;
    reader.word(b"pre")?;
    let before = take_before(alloc, reader)?;
    let lambda = take_lambda(alloc, reader)?;
    Ok(triple(command, post, before, lambda))
}

/// A line of an entry: `init P by NUM NUM` or `triple C post ATOM pre ATOM ATOM by NUM NUM`.
pub struct EntryLine;

impl Form for EntryLine {
    type Value = Entry;

    ghost reading = { entry_at };

    #[tactic(auto, unfolding(crate::specs::Reading::entry_at))]
    fn take<'a>(alloc: Global, reader: &mut Reader<'a>) -> Result<Entry, FormEnd> {
        if reader.begins(b"init") {
            take_initial(alloc, reader)
        } else {
            take_triple(alloc, reader)
        }
    }
}
