//! A form: decimals of 32 bits.

ghost use Rattle.std.specs.Prelude.{◌≡◌};
ghost use Rattle.ps_lines.specs.Reading.{leaf_at, natural32};

use crate::decimal::natural32;
use crate::form::Form;
use crate::form_end::FormEnd;
use crate::form_name::FormName;
use crate::leaf::Leaf;
use crate::reader::Reader;
use std::alloc::Global;

/// A field that is a decimal of 32 bits.
pub struct Natural32;

impl Leaf for Natural32 {
    type Value = u32;

    ghost reading = { λ _. natural32 };

    fn read(_before: Option<u32>, field: &[u8]) -> Result<u32, FormName>
        ensures { result ≡ natural32 field.now }
    {
        natural32(field)
    }
}

impl Form for Natural32 {
    type Value = u32;

    ghost reading = { leaf_at natural32 };

    fn take<'a>(_alloc: Global, reader: &mut Reader<'a>) -> Result<u32, FormEnd> {
        Ok(reader.natural32()?)
    }
}
