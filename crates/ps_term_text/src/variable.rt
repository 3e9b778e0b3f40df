//! Variables: `gN`, and `lN@S` for local N of thread or slot S.

ghost use Rattle.std.specs.Prelude.{◌≡◌, option_map};
ghost use Rattle.ps_term_text.specs.Reading.{looks_local, looks_variable, in_range, number_of, local_of, variable_in_field};

use crate::limits::MOST_NUMBER;
use ps_term::Var;
use ps_text::{counts_as_decimal, cut, read_u32};

fn looks_local(parts: Option<(&[u8], &[u8])>) -> bool
    ensures { result ≡ looks_local (option_map (λ p. (p.0.now, p.1.now)) parts.entry) }
{
    match parts {
        Some((number, slot)) => counts_as_decimal(number) && counts_as_decimal(slot),
        None => false,
    }
}

pub(crate) fn looks_variable(field: &[u8]) -> bool
    ensures { result ≡ looks_variable field.now }
{
    match field {
        [b'g', number @ ..] => counts_as_decimal(number),
        [b'l', parts @ ..] => looks_local(cut(parts, b'@')),
        _ => false,
    }
}

fn in_range(n: u32) -> Option<u32>
    ensures { result ≡ in_range n }
{
    if n <= MOST_NUMBER { Some(n) } else { None }
}

fn number_of(field: &[u8]) -> Option<u32>
    ensures { result ≡ number_of field.now }
{
    match read_u32(field) {
        Some(n) => in_range(n),
        None => None,
    }
}

fn local_of(parts: Option<(&[u8], &[u8])>) -> Option<Var>
    ensures { result ≡ local_of (option_map (λ p. (p.0.now, p.1.now)) parts.entry) }
{
    match parts {
        Some((number, slot)) => match number_of(number) {
            Some(n) => match number_of(slot) {
                Some(s) => Some(Var::Local(s, n)),
                None => None,
            },
            None => None,
        },
        None => None,
    }
}

pub(crate) fn variable_of(field: &[u8]) -> Option<Var>
    ensures { result ≡ variable_in_field field.now }
{
    match field {
        [b'g', number @ ..] => match number_of(number) {
            Some(n) => Some(Var::Global(n)),
            None => None,
        },
        [_, parts @ ..] => local_of(cut(parts, b'@')),
        [] => None,
    }
}
