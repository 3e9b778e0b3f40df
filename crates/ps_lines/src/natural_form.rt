//! A form: decimals of 128 bits.

ghost use Rattle.std.specs.Prelude.{◌≡◌};
ghost use Rattle.ps_lines.specs.Reading.{leaf_at, natural};

use crate::decimal::natural;
use crate::form::Form;
use crate::form_end::FormEnd;
use crate::form_name::FormName;
use crate::leaf::Leaf;
use crate::reader::Reader;
use std::alloc::Global;

/// A field that is a decimal of 128 bits.
pub struct Natural;

impl Leaf for Natural {
    type Value = u128;

    ghost reading = { λ _. natural };

    fn read(_before: Option<u128>, field: &[u8]) -> Result<u128, FormName>
        ensures { result ≡ natural field.now }
    {
        natural(field)
    }
}

impl Form for Natural {
    type Value = u128;

    ghost reading = { leaf_at natural };

    fn take<'a>(_alloc: Global, reader: &mut Reader<'a>) -> Result<u128, FormEnd> {
        Ok(reader.natural()?)
    }
}
