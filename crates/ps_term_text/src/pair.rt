//! Pairs of a term: `COEFF*VAR`, strictly ascending by the variable.

ghost use Rattle.std.specs.Prelude.{◌≡◌, option_map, true};
ghost use Rattle.ps_term.specs.Var.{var_lt};
ghost use Rattle.ps_lines.specs.Reading.{Reads, leaf_at};
ghost use Rattle.ps_term_text.specs.Reading.{comes_after, ordered, pair_of, pair_from, pair_after, has_star};

use crate::variable::{looks_variable, variable_of};
use ps_term::{Var, is_before};
use ps_text::{FormName, Leaf, counts_as_decimal, cut, read_i128};

fn pair_of(parts: (&[u8], &[u8])) -> Option<(Var, i128)>
    ensures { result ≡ pair_of (parts.entry.0.now, parts.entry.1.now) }
{
    match read_i128(parts.0) {
        Some(coefficient) => match variable_of(parts.1) {
            Some(variable) => Some((variable, coefficient)),
            None => None,
        },
        None => None,
    }
}

fn ascends(before: Option<(Var, i128)>, variable: Var) -> bool
    ensures { result ≡ comes_after before variable }
{
    match before {
        Some(pair) => is_before(pair.0, variable),
        None => true,
    }
}

fn ordered(before: Option<(Var, i128)>, pair: Option<(Var, i128)>) -> Result<(Var, i128), FormName>
    ensures { result ≡ ordered before pair }
{
    match pair {
        Some(pair) => {
            if pair.1 == 0 {
                return Err(FormName::Order);
            }
            if ascends(before, pair.0) {
                Ok(pair)
            } else {
                Err(FormName::Order)
            }
        }
        None => Err(FormName::Number),
    }
}

fn pair_from(
    before: Option<(Var, i128)>,
    parts: Option<(&[u8], &[u8])>,
) -> Result<(Var, i128), FormName>
    ensures { result ≡ pair_from before (option_map (λ p. (p.0.now, p.1.now)) parts.entry) }
{
    match parts {
        Some((coefficient, variable)) => {
            if counts_as_decimal(coefficient) && looks_variable(variable) {
                ordered(before, pair_of((coefficient, variable)))
            } else {
                Err(FormName::Field)
            }
        }
        None => Err(FormName::Field),
    }
}

// A form: a field that is a pair of a term, after the one before it.
pub(crate) struct PairLeaf;

impl Leaf for PairLeaf {
    type Value = (Var, i128);

    ghost reading = { pair_after };

    fn read(before: Option<(Var, i128)>, field: &[u8]) -> Result<(Var, i128), FormName>
        ensures { result ≡ pair_after before field.now }
    {
        pair_from(before, cut(field, b'*'))
    }
}
