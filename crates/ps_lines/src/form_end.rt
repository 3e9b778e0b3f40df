//! How the reading of a text of lines can end without a value.

ghost use Rattle.std.specs.Prelude.{◌≡◌};
ghost use Rattle.ps_lines.specs.declared.form_end.FormEnd.TheVariants.{Fault, Memory};

use crate::form_fault::FormFault;
use std::alloc::{AllocError, AllocFailed};

/// Why a text wasn't read: it isn't of its form, or memory ran out.
#[derive(Debug, Drop)]
pub enum FormEnd {
    Fault(FormFault),
    Memory(AllocError),
}

impl From<FormFault> for FormEnd {
    ghost from_gives = { λ fault end. end ≡ Fault fault };

    fn from(fault: FormFault) -> FormEnd {
        FormEnd::Fault(fault)
    }
}

impl From<AllocError> for FormEnd {
    ghost from_gives = { λ e end. end ≡ Memory e };

    fn from(e: AllocError) -> FormEnd {
        FormEnd::Memory(e)
    }
}

impl<T: Drop> From<AllocFailed<T>> for FormEnd {
    ghost from_gives = { λ _ end. end ≡ Memory (record {}) };

    fn from(_e: AllocFailed<T>) -> FormEnd {
        FormEnd::Memory(AllocError)
    }
}
