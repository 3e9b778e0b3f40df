//! Texts of lines as bytes: decimals, lines of fields, a reader and printers for forms that are lists of lines.
#![tactic(auto)]

mod decimal;
mod form;
mod form_end;
mod form_fault;
mod form_name;
mod integer_form;
mod leaf;
mod line;
mod natural32_form;
mod natural_form;
mod parts;
mod printing;
mod reader;
mod span;
mod spans;
mod splitting;
mod until;
pub mod worked;

pub use decimal::{counts_as_decimal, read_digits, read_i128, read_u32, read_u128};
pub use form::{Form, times, while_lines};
pub use form_end::FormEnd;
pub use form_fault::FormFault;
pub use form_name::FormName;
pub use integer_form::Integer;
pub use leaf::{Leaf, list, take_leaf};
pub use line::Line;
pub use natural_form::Natural;
pub use natural32_form::Natural32;
pub use parts::cut;
pub use printing::{
    put_digits, put_end, put_field, put_header, put_integer, put_natural, put_only,
    put_signed_digits, put_word,
};
pub use reader::Reader;
pub use span::Span;
pub use spans::Spans;
pub use splitting::lines;
pub use until::Until;
