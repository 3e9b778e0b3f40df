// The triples of letters.
ghost use Rattle.std.specs.Prelude.{◌≡◌, ◌<◌, ◌++◌, ◌∷◌, [], IfOk, length};
ghost use Rattle.ps_interp.specs.Entries.{false_triple, numbered_threads, triple_of, with_numbers};
ghost use Rattle.ps_interp.specs.Sums.{Weighed};
ghost use Rattle.ps_interp.specs.Weights.{zeros};
ghost use Rattle.ps_interp.specs.inner.Meetings.{interpolant_in, interpolant_of};
ghost use Rattle.ps_interp.specs.inner.Parts.{IsWeighedIn, part_in, part_of};
ghost use Rattle.ps_interp.specs.inner.Triples.{atoms_by, multipliers_by};
ghost use Rattle.ps_triple.specs.Entries.{false_atom};

use crate::numbering::{numbered_threads, with_numbers};
use crate::standing::Standing;
use crate::weights::{WeighedLetter, form_of};
use ps_atom::{Atom, Threads};
use ps_command::Setting;
use ps_list::Sequence;
use ps_term::Row;
use ps_triple::{Entry, Triple};
use std::alloc::{AllocError, Global};

// The triple of the letter, from what stands before it, if anything, to what stands after it.
pub(crate) fn triple_of(
    alloc: Global,
    letter: &WeighedLetter<'_>,
    before: &Option<Standing>,
    after: &Standing,
) -> Result<Entry, AllocError>
    ensures { IfOk result (λ entry. (w : Weighed) → part_in w ≡ part_of letter.now
        → entry ≡ triple_of w (interpolant_in before.now) (interpolant_of after.now)) }
{
    let names = numbered_threads(alloc, letter.thread, after.atom.threads.as_slice())?;
    let pre = atoms_before(alloc, names.as_slice(), before)?;
    let post = with_numbers(alloc, names.as_slice(), &after.atom)?;
    let lambda = multipliers(alloc, before, letter.weights, after.divisor)?;
    Ok(Entry::Triple(Triple {
        pre: Sequence::from_list(pre),
        command: letter.command,
        post,
        lambda: Sequence::from_list(lambda),
    }))
}

// The atom of what stands before a letter, if anything does.
fn atoms_before(
    alloc: Global,
    names: &[u32],
    before: &Option<Standing>,
) -> Result<Vec<Atom>, AllocError>
    ensures { IfOk result
        (λ atoms. atoms.items ≡ atoms_by names.now (interpolant_in before.now)) }
{
    let mut atoms = Vec::with_capacity(alloc, 1)?;
    if let Some(standing) = before {
        atoms.push(with_numbers(alloc, names, &standing.atom)?)?;
    }
    Ok(atoms)
}

// The multipliers of the rows of a triple in order.
fn multipliers(
    alloc: Global,
    before: &Option<Standing>,
    weights: &[u128],
    last: u128,
) -> Result<Vec<u128>, AllocError>
    ensures { IfOk result (λ lambda. lambda.items
        ≡ multipliers_by (interpolant_in before.now) weights.now last) }
{
    let mut lambda = Vec::with_capacity(alloc, weights.len() + 2)?;
    if let Some(standing) = before {
        lambda.push(standing.divisor)?;
    }
    lambda.extend_from_slice(weights)?;
    lambda.push(last)?;
    Ok(lambda)
}

// The triple from false to false by a command: the row of false refutes by itself.
pub(crate) fn false_triple(
    alloc: Global,
    setting: &Setting,
    command: u32,
) -> Result<Entry, AllocError>
    requires { command < length setting.now.symbols }
    ensures { IfOk result (λ entry. entry ≡ false_triple setting.now command) }
{
    let lambda = false_multipliers(alloc, form_of(setting, command).rows.as_slice())?;
    let mut pre = Vec::with_capacity(alloc, 1)?;
    pre.push(false_atom(alloc))?;
    Ok(Entry::Triple(Triple {
        pre: Sequence::from_list(pre),
        command,
        post: false_atom(alloc),
        lambda: Sequence::from_list(lambda),
    }))
}

// The multipliers of the rows of such a triple.
fn false_multipliers(alloc: Global, rows: &[Row]) -> Result<Vec<u128>, AllocError>
    ensures { IfOk result (λ lambda. lambda.items ≡ 1 ∷ (zeros rows.now ++ 0 ∷ [])) }
{
    let mut lambda = Vec::with_capacity(alloc, rows.len() + 2)?;
    lambda.push(1)?;
    for _row in rows {
        lambda.push(0)?;
    }
    lambda.push(0)?;
    Ok(lambda)
}

// The atom that holds nowhere.
pub(crate) fn false_atom(alloc: Global) -> Atom
    ensures { result ≡ false_atom }
{
    Atom {
        predicate: 0,
        threads: Threads::new(alloc),
    }
}
