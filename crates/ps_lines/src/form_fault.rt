//! Faults of texts of lines, and where they stand.

ghost use Rattle.std.specs.Prelude.{◌≡◌};

use crate::form_name::FormName;

/// The first fault of a text that isn't of its form, and where it stands.
#[derive(Clone, Copy, Debug, PartialEq, Eq)]
pub struct FormFault {
    /// The line's number.
    pub line: u32,
    /// The field's number in its line, from 1, or 0 for the line as a whole.
    pub field: u32,
    pub what: FormName,
}

impl FormFault {
    /// The same place, with another name.
    pub fn named(self, what: FormName) -> Self
        ensures { result ≡ record self { what = what } }
    {
        FormFault {
            line: self.line,
            field: self.field,
            what,
        }
    }
}
