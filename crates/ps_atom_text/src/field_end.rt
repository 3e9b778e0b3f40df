//! How the reading of a field can end without a value.
ghost use Rattle.std.specs.Prelude.{◌≡◌};
ghost use Rattle.ps_atom_text.specs.declared.field_end.FieldEnd.TheVariants.{Memory};
ghost use Rattle.ps_atom_text.specs.inner.Ends.{end_placed};

use ps_text::{FormEnd, FormFault, FormName};
use std::alloc::{AllocError, AllocFailed};

/// Why a field wasn't read: it isn't of its form, or memory ran out.
#[derive(Debug, Drop)]
pub(crate) enum FieldEnd {
    Fault(FormName),
    Memory(AllocError),
}

impl FieldEnd {
    /// The same of a field at this place.
    pub(crate) fn placed(self, place: FormFault) -> FormEnd
        ensures { result ≡ end_placed place self }
    {
        match self {
            FieldEnd::Fault(what) => FormEnd::Fault(place.named(what)),
            FieldEnd::Memory(e) => FormEnd::Memory(e),
        }
    }
}

impl From<AllocError> for FieldEnd {
    ghost from_gives = { λ e end. end ≡ Memory e };

    fn from(e: AllocError) -> FieldEnd {
        FieldEnd::Memory(e)
    }
}

impl<T: Drop> From<AllocFailed<T>> for FieldEnd {
    ghost from_gives = { λ _ end. end ≡ Memory (record {}) };

    fn from(_e: AllocFailed<T>) -> FieldEnd {
        FieldEnd::Memory(AllocError)
    }
}
