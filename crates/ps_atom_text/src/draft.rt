//! Configurations, as they are read.
ghost use Rattle.std.specs.Prelude.{◌≡◌, IfOk, ◌-◌, ◌∷◌, [], ◌++◌, codes, length, slice_get, true};
ghost use Rattle.ps_atom_text.specs.Forms.{in_form};
ghost use Rattle.ps_atom_text.specs.Growing.{goes_to, grow_at};
ghost use Rattle.ps_atom_text.specs.Reading.{empty_configuration, with_atom, with_place};
ghost use Rattle.ps_atom_text.specs.inner.Ends.{IsRead};
ghost use Rattle.ps_atom_text.specs.inner.Last.{is_thread_after};
ghost use Rattle.ps_config.specs.Configurations.{Configuration};
ghost use Rattle.ps_lines.specs.Reading.{Gives};

use crate::atom::read_atom;
use crate::field_end::FieldEnd;
use crate::growth::{Growth, grow_fields};
use crate::joining::comes_last;
use crate::limits::MOST_THREAD;
use crate::met::{meet, meet_all};
use crate::place::read_place;
use ps_atom::Atom;
use ps_config::{Config, MOST_ATOMS, MOST_THREADS};
use ps_text::{FormEnd, FormName, Reader, Until};
use std::alloc::{AllocError, Global};
use std::marker::Model;

/// A configuration of the fields so far, which are in form.
#[derive(Drop)]
pub(crate) struct Draft {
    at: Vec<(u32, u32)>,
    atoms: Vec<Atom>,
    // The threads that occur, each once.
    met: Vec<u32>,
}

impl Model for Draft {
    ghost use Rattle.ps_atom_text.specs.inner.Met.{IsMet};
    ghost use Rattle.ps_config.specs.Configurations.{Configuration};

    ghost Value = { Configuration };

    ghost view = { λ d. record { at = d.at.items; atoms = d.atoms.items } };

    ghost invariant = { λ d. IsMet d.met.items
        (record { at = d.at.items; atoms = d.atoms.items }) };
}

// Whether the thread comes after that of the last place, if there is one.
fn thread_comes_last(at: &[(u32, u32)], thread: u32) -> bool
    ensures { result ≡ is_thread_after (slice_get at.now (length at.now - 1)) thread }
{
    match at.last() {
        Some(last) => last.0 < thread,
        None => true,
    }
}

impl Draft {
    // No thread and no atom, with room for so many of them.
    fn with_room(alloc: Global, places: usize, atoms: usize) -> Result<Draft, AllocError>
        ensures { IfOk result (λ draft. draft ≡ empty_configuration) }
    {
        Ok(Draft {
            at: Vec::with_capacity(alloc, places)?,
            atoms: Vec::with_capacity(alloc, atoms)?,
            met: Vec::new(alloc),
        })
    }

    /// The configuration; the call needs no memory.
    pub(crate) fn into_config(self) -> Config
        ensures { result ≡ self }
    {
        let Draft {
            at,
            atoms,
            met: _met,
        } = self;
        Config::new(at, atoms)
    }

    // With one more thread, if that is in form.
    fn with_place(self, place: (u32, u32)) -> Result<Draft, FieldEnd>
        ensures { IsRead result
            (in_form (record { at = self.at ++ place ∷ []; atoms = self.atoms })) }
    {
        let Draft {
            mut at,
            atoms,
            mut met,
        } = self;
        if !thread_comes_last(&at, place.0) {
            return Err(FieldEnd::Fault(FormName::Order));
        }
        meet(&mut met, place.0)?;
        if met.len() > MOST_THREADS {
            return Err(FieldEnd::Fault(FormName::Limit));
        }
        at.push(place)?;
        Ok(Draft { at, atoms, met })
    }

    // With one more atom, if that is in form.
    fn with_atom(self, atom: Atom) -> Result<Draft, FieldEnd>
        ensures { IsRead result
            (in_form (record { at = self.at; atoms = self.atoms ++ atom ∷ [] })) }
    {
        let Draft {
            at,
            mut atoms,
            mut met,
        } = self;
        if !comes_last(&atoms, &atom) {
            return Err(FieldEnd::Fault(FormName::Order));
        }
        meet_all(&mut met, atom.threads.as_slice())?;
        if met.len() > MOST_THREADS {
            return Err(FieldEnd::Fault(FormName::Limit));
        }
        if atoms.len() >= MOST_ATOMS {
            return Err(FieldEnd::Fault(FormName::Limit));
        }
        atoms.push(atom)?;
        Ok(Draft { at, atoms, met })
    }
}

// Threads with their locations, one by one.
struct PlaceGrowth;

impl Growth for PlaceGrowth {
    type State = Draft;

    ghost grown = { with_place };

    #[tactic(auto, unfolding(crate::specs::Reading::with_place, ps_lines::specs::Steps::and_then))]
    fn grow(_alloc: Global, state: Draft, field: &[u8]) -> Result<Draft, FieldEnd> {
        match read_place(field) {
            Ok(place) => state.with_place(place),
            Err(what) => Err(FieldEnd::Fault(what)),
        }
    }
}

// Atoms of a configuration, one by one.
struct AtomGrowth;

impl Growth for AtomGrowth {
    type State = Draft;

    ghost grown = { with_atom };

    #[tactic(auto, unfolding(crate::specs::Reading::with_atom, ps_lines::specs::Steps::and_then))]
    fn grow(alloc: Global, state: Draft, field: &[u8]) -> Result<Draft, FieldEnd> {
        let atom = read_atom(alloc, MOST_THREAD, field)?;
        state.with_atom(atom)
    }
}

// No thread and no atom, with room for those that a line has ahead.
fn empty_draft<'a>(alloc: Global, reader: &Reader<'a>) -> Result<Draft, AllocError>
    ensures { IfOk result (λ draft. draft ≡ empty_configuration) }
{
    let places = reader.members_ahead(&Until::Word(b"has"), MOST_THREADS);
    let fields = reader.members_ahead(&Until::LineEnd, MOST_THREADS + 1 + MOST_ATOMS);
    let atoms = fields.saturating_sub(places).saturating_sub(1);
    Draft::with_room(alloc, places, atoms)
}

/// Takes the threads with their locations of a configuration that has no atoms yet: the fields up to `has`. Counts the
/// line's fields first, so that each list takes memory once, and no more than it needs.
pub(crate) fn take_places<'a>(alloc: Global, reader: &mut Reader<'a>) -> Result<Draft, FormEnd>
    ensures { Gives (λ x. x) result reader.new
        (grow_at (goes_to (codes "has")) with_place empty_configuration reader.old) }
{
    let empty = empty_draft(alloc, reader)?;
    grow_fields::<PlaceGrowth>(alloc, &Until::Word(b"has"), empty, reader)
}

/// Takes the atoms of a configuration: the fields up to the end of the line.
pub(crate) fn take_atoms<'a>(
    alloc: Global,
    located: Draft,
    reader: &mut Reader<'a>,
) -> Result<Draft, FormEnd>
    ensures { Gives (λ x. x) result reader.new (grow_at (λ _. true) with_atom located reader.old) }
{
    grow_fields::<AtomGrowth>(alloc, &Until::LineEnd, located, reader)
}
