//! Threads with their locations as fields: `T:L`.
ghost use Rattle.std.specs.Prelude.{◌≡◌, Some};
ghost use Rattle.ps_atom_text.specs.inner.Faults.{place_fault};
ghost use Rattle.ps_atom_text.specs.Reading.{place_from, place_in_field, place_of};

use crate::atom::number_up_to;
use crate::limits::MOST_THREAD;
use ps_text::{FormName, counts_as_decimal, cut, read_u32};

fn place_of(parts: (&[u8], &[u8])) -> Option<(u32, u32)>
    ensures { result ≡ place_of (parts.entry.0.now, parts.entry.1.now) }
{
    match number_up_to(MOST_THREAD, parts.0) {
        Some(thread) => match read_u32(parts.1) {
            Some(location) => Some((thread, location)),
            None => None,
        },
        None => None,
    }
}

// What is wrong with a place of which some number can't be read.
fn place_fault(parts: (&[u8], &[u8])) -> FormName
    ensures { result ≡ place_fault (parts.entry.0.now, parts.entry.1.now) }
{
    if counts_as_decimal(parts.0) && counts_as_decimal(parts.1) {
        FormName::Number
    } else {
        FormName::Field
    }
}

// The place of two parts. Whether they are in form is asked only where a number can't be read, since one
// that can be is.
#[tactic(auto, using(crate::proofs::Atoms::place_read, crate::proofs::Atoms::place_unread))]
fn place_from(parts: (&[u8], &[u8])) -> Result<(u32, u32), FormName>
    ensures { result ≡ place_from (Some (parts.entry.0.now, parts.entry.1.now)) }
{
    match place_of(parts) {
        Some(place) => Ok(place),
        None => Err(place_fault(parts)),
    }
}

/// The thread and its location that a field is.
pub(crate) fn read_place(field: &[u8]) -> Result<(u32, u32), FormName>
    ensures { result ≡ place_in_field field.now }
{
    match cut(field, b':') {
        Some(parts) => place_from(parts),
        None => Err(FormName::Field),
    }
}
