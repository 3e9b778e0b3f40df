//! Lists of fields that grow, where what was read before decides what may come next.
ghost use Rattle.std.specs.Prelude.{◌≡◌, List, Result, ℕ};
ghost use Rattle.ps_atom_text.specs.Growing.{grow_at};
ghost use Rattle.ps_atom_text.specs.inner.Ends.{IsRead};
ghost use Rattle.ps_lines.specs.Reading.{Gives, Tells, fault_placed};
ghost use Rattle.ps_lines.specs.Until.{goes};
ghost use Rattle.ps_lines.specs.declared.form_name.FormName.{FormName};

use crate::field_end::FieldEnd;
use ps_text::{FormEnd, FormFault, FormName, Reader, Until};
use std::alloc::Global;

/// What fields are gathered into, one by one. Its type has no values of its own: it says what a state becomes with one
/// more field.
pub(crate) trait Growth {
    /// What the fields so far make.
    type State: Drop;

    ghost grown: { Self.State → List ℕ → Result Self.State FormName };

    fn grow(alloc: Global, state: Self::State, field: &[u8]) -> Result<Self::State, FieldEnd>
        ensures { IsRead result (grown state field.now) };
}

// The state with a field that stands at this place.
fn grown_with<G: Growth>(
    alloc: Global,
    state: G::State,
    place: FormFault,
    field: &[u8],
) -> Result<G::State, FormEnd>
    ensures { Tells (λ x. x) result
        (fault_placed place.line place.field (G.grown state field.now)) }
{
    match G::grow(alloc, state, field) {
        Ok(grown) => Ok(grown),
        Err(end) => Err(end.placed(place)),
    }
}

/// The state that the fields of a line make, as long as `until` passes them. Looks at each field once to find its end.
pub(crate) fn grow_fields<'a, G: Growth>(
    alloc: Global,
    until: &Until<'_>,
    start: G::State,
    reader: &mut Reader<'a>,
) -> Result<G::State, FormEnd>
    ensures { Gives (λ x. x) result reader.new
        (grow_at (goes until.now) G.grown start reader.old) }
{
    let mut state = start;
    'growing: loop {
        let place = reader.fault(FormName::Field);
        match reader.member(until) {
            Some(field) => state = grown_with::<G>(alloc, state, place, field)?,
            None => return Ok(state),
        }
    }
}
