//! Variables and terms, put as fields of a line.

ghost use Rattle.std.specs.Prelude.{◌≡◌, ◌∷◌, ◌++◌, OnOk};
ghost use Rattle.std.specs.List.{flat_map};
ghost use Rattle.ps_lines.specs.Tokens.{after_blank};
ghost use Rattle.ps_term_text.specs.Spelling.{variable_text, pair_text, term_fields};

use ps_term::{Term, Var};
use ps_text::{put_digits, put_integer, put_signed_digits, put_word};
use std::alloc::AllocError;

// A variable as a part of a field; nothing for a havoc, which has no spelling.
fn put_variable(out: &mut Vec<u8>, variable: Var) -> Result<(), AllocError>
    ensures { OnOk result (out.new.items ≡ out.old.items ++ variable_text variable) }
{
    match variable {
        Var::Global(n) => {
            put_word(out, b"g")?;
            put_digits(out, u128::from(n))
        }
        Var::Local(slot, n) => {
            put_word(out, b"l")?;
            put_digits(out, u128::from(n))?;
            put_word(out, b"@")?;
            put_digits(out, u128::from(slot))
        }
        Var::Havoc(_) => Ok(()),
    }
}

// A pair of a term as a further field of a line.
fn put_pair(out: &mut Vec<u8>, pair: (Var, i128)) -> Result<(), AllocError>
    ensures { OnOk result (out.new.items ≡ out.old.items ++ after_blank (pair_text pair)) }
{
    put_word(out, b" ")?;
    put_signed_digits(out, pair.1)?;
    put_word(out, b"*")?;
    put_variable(out, pair.0)
}

fn put_pairs(out: &mut Vec<u8>, pairs: &[(Var, i128)]) -> Result<(), AllocError>
    ensures { OnOk result
        (out.new.items ≡ out.old.items ++ flat_map (λ p. after_blank (pair_text p)) pairs.now) }
{
    for pair in pairs {
        put_pair(out, *pair)?;
    }
    Ok(())
}

/// Puts a term as further fields of a line. A havoc in it has no spelling, so what stands for it isn't read back.
pub fn put_term(out: &mut Vec<u8>, term: &Term) -> Result<(), AllocError>
    ensures { OnOk result
        (out.new.items ≡ out.old.items ++ flat_map after_blank (term_fields term.now)) }
{
    put_pairs(out, term.pairs.as_slice())?;
    put_integer(out, term.constant)
}
