//! Reading the atoms before the command of a triple, one by one.
ghost use Rattle.std.specs.Prelude.{◌≡◌, IfOk, ◌-◌, ◌∷◌, [], ◌++◌, codes, length, slice_get, refl};
ghost use Rattle.ps_atom_text.specs.Growing.{goes_to, grow_at};
ghost use Rattle.ps_atom_text.specs.Reading.{before_of, before_with, none_before};
ghost use Rattle.ps_atom_text.specs.inner.Ends.{IsRead};
ghost use Rattle.ps_atom_text.specs.inner.Last.{is_atom_after};
ghost use Rattle.ps_lines.specs.Reading.{Gives};
ghost use Rattle.ps_triple.specs.Ascending.{ascend};

use crate::atom::read_atom;
use crate::before::Before;
use crate::field_end::FieldEnd;
use crate::growth::{Growth, grow_fields};
use crate::limits::{ANY_THREAD, MOST_BEFORE};
use ps_atom::Atom;
use ps_list::Sequence;
use ps_text::{FormEnd, FormName, Reader, Until};
use std::alloc::{AllocError, Global};

/// Whether the atom comes after the last of these, if there is one.
pub(crate) fn comes_last(atoms: &[Atom], atom: &Atom) -> bool
    ensures { result ≡ is_atom_after (slice_get atoms.now (length atoms.now - 1)) atom.now }
{
    match atoms.last() {
        Some(last) => last.compare(atom).is_lt(),
        None => true,
    }
}

// No atom, with room for so many.
fn no_atoms(alloc: Global, room: usize) -> Result<Before, AllocError>
    ensures { IfOk result (λ before. before ≡ none_before) }
{
    Ok(Before {
        atoms: Sequence::from_list(Vec::with_capacity(alloc, room)?),
    })
}

// One more atom, where it comes last and there is room.
fn with_atom(before: Before, atom: Atom) -> Result<Before, FieldEnd>
    ensures { IsRead result
        (before_of (before.atoms ++ atom ∷ []) (ascend (before.atoms ++ atom ∷ [])) refl) }
{
    let Before { atoms } = before;
    let mut atoms = atoms.into_list();
    if !comes_last(&atoms, &atom) {
        return Err(FieldEnd::Fault(FormName::Order));
    }
    if atoms.len() >= MOST_BEFORE {
        return Err(FieldEnd::Fault(FormName::Limit));
    }
    atoms.push(atom)?;
    Ok(Before {
        atoms: Sequence::from_list(atoms),
    })
}

// Atoms before a command, one by one.
struct BeforeGrowth;

impl Growth for BeforeGrowth {
    type State = Before;

    ghost grown = { before_with };

    #[tactic(auto, unfolding(crate::specs::Reading::before_with, ps_lines::specs::Steps::and_then))]
    fn grow(alloc: Global, state: Before, field: &[u8]) -> Result<Before, FieldEnd> {
        let atom = read_atom(alloc, ANY_THREAD, field)?;
        with_atom(state, atom)
    }
}

/// Takes the atoms before a command: the fields up to `by`. Counts them first, so that their list takes memory once, and
/// no more than it needs.
pub(crate) fn take_before<'a>(alloc: Global, reader: &mut Reader<'a>) -> Result<Before, FormEnd>
    ensures { Gives (λ x. x) result reader.new
        (grow_at (goes_to (codes "by")) before_with none_before reader.old) }
{
    let until = Until::Word(b"by");
    let none = no_atoms(alloc, reader.members_ahead(&until, MOST_BEFORE))?;
    grow_fields::<BeforeGrowth>(alloc, &until, none, reader)
}
