//! A form: decimals of 128 bits, with a sign.

ghost use Rattle.std.specs.Prelude.{◌≡◌};
ghost use Rattle.ps_lines.specs.Reading.{leaf_at, integer};

use crate::decimal::integer;
use crate::form::Form;
use crate::form_end::FormEnd;
use crate::form_name::FormName;
use crate::leaf::Leaf;
use crate::reader::Reader;
use std::alloc::Global;

/// A field that is a decimal of 128 bits, with a sign.
pub struct Integer;

impl Leaf for Integer {
    type Value = i128;

    ghost reading = { λ _. integer };

    fn read(_before: Option<i128>, field: &[u8]) -> Result<i128, FormName>
        ensures { result ≡ integer field.now }
    {
        integer(field)
    }
}

impl Form for Integer {
    type Value = i128;

    ghost reading = { leaf_at integer };

    fn take<'a>(_alloc: Global, reader: &mut Reader<'a>) -> Result<i128, FormEnd> {
        Ok(reader.integer()?)
    }
}
