// The vectors whose rows have a coefficient of some sign.
ghost use Rattle.std.specs.Prelude.{◌≡◌, IfOk};
ghost use Rattle.std.specs.List.{filter};
ghost use Rattle.ps_elim.specs.inner.Weighing.{coefficient_in, is_of, pointed_to};

use crate::weighted::Weighted;
use ps_term::Var;
use std::alloc::{AllocError, Global};

// What a coefficient is beside 0.
#[derive(Clone, Copy, Debug, PartialEq, Eq)]
pub(crate) enum Sign {
    Zero,
    Positive,
    Negative,
}

// Those of the set whose coefficient at the variable has the sign, in their order.
pub(crate) fn with_sign(
    alloc: Global,
    set: &[Weighted],
    variable: Var,
    sign: Sign,
) -> Result<Vec<&Weighted>, AllocError>
    ensures { IfOk result (λ list. pointed_to list.items
        ≡ filter (λ w. is_of sign (coefficient_in variable w)) set.now) }
{
    let mut list = Vec::new(alloc);
    for weighted in set {
        if !has_sign(sign, weighted.row.term.pairs.coefficient(variable)) {
            continue;
        }
        list.push(weighted)?;
    }
    Ok(list)
}

// Whether the coefficient has the sign.
pub(crate) fn has_sign(sign: Sign, coefficient: i128) -> bool
    ensures { result ≡ is_of sign coefficient }
{
    match sign {
        Sign::Zero => coefficient == 0,
        Sign::Positive => coefficient > 0,
        Sign::Negative => coefficient < 0,
    }
}
