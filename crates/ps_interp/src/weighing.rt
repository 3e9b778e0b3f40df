// Terms weighed by multipliers.
ghost use Rattle.std.specs.Prelude.{◌≡◌, ◌↔◌, pos, IfOk, IsErrOf, IsTrue, OnOk};
ghost use Rattle.ps_interp.specs.Sums.{WeightedFits};
ghost use Rattle.ps_term.specs.Exact.{number_term, plus_scaled};
ghost use Rattle.ps_term.specs.Sums.{TermFits};

use ps_term::{Term, TermEnd, add_scaled};
use std::alloc::Global;

// So many times a term added to another; a multiplier above the greatest `i128` can be that of 0 alone.
pub(crate) fn plus_weighted(
    alloc: Global,
    so_far: &Term,
    by: u128,
    term: &Term,
) -> Result<Term, TermEnd>
    ensures sum { IfOk result (λ sum. sum ≡ plus_scaled so_far.now (pos by) term.now) }
    ensures fits { OnOk result (WeightedFits so_far.now by term.now) }
    ensures past { IsErrOf result TermEnd.Past128 → ¬ WeightedFits so_far.now by term.now }
{
    if by < 1 << 127 {
        return plus_scaled(alloc, so_far, by as i128, term);
    }
    if !is_zero(term) {
        return Err(TermEnd::Past128);
    }
    let constant = so_far.constant;
    match so_far.pairs.copy(alloc) {
        Ok(pairs) => Ok(Term { pairs, constant }),
        Err(end) => Err(TermEnd::Memory(end)),
    }
}

// `so_far + by * term`
pub(crate) fn plus_scaled(
    alloc: Global,
    so_far: &Term,
    by: i128,
    term: &Term,
) -> Result<Term, TermEnd>
    ensures sum { IfOk result (λ sum. sum ≡ plus_scaled so_far.now by term.now) }
    ensures fits { OnOk result (TermFits so_far.now by term.now) }
    ensures past { IsErrOf result TermEnd.Past128 → ¬ TermFits so_far.now by term.now }
{
    // The clause of `as_slice` says that the pairs are in order; the call does nothing else here.
    let _pairs = so_far.pairs.as_slice();
    let sum = add_scaled(alloc, so_far, by, term)?;
    Ok(sum)
}

// Whether the term is 0.
fn is_zero(term: &Term) -> bool
    ensures { IsTrue result ↔ term.now ≡ number_term (pos 0) }
{
    term.pairs.as_slice().is_empty() && term.constant == 0
}
