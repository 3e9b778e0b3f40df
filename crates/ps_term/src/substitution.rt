//! Terms put for variables.
ghost use Rattle.std.specs.Prelude.{◌≡◌, ◌+ℤ◌, ◌*ℤ◌, ℤ, IfOk, IsTrue, OnOk, IsErrOf};
ghost use Rattle.ps_term.specs.declared.var.Var.{Var};
ghost use Rattle.ps_term.specs.inner.Accumulated.{IsRising};
ghost use Rattle.ps_term.specs.inner.Named.{AreRising};
ghost use Rattle.ps_term.specs.Pairs.{IsCanonical, pairs_value};
ghost use Rattle.ps_term.specs.Substitution.{replacement, SubstitutionFits, values_after};
ghost use Rattle.ps_term.specs.Sums.{PairsFit, ScaledFits};
ghost use Rattle.ps_term.specs.Term.{value};

use crate::accumulation::{Accumulator, add_pairs, pairs_of};
use crate::naming::{ascends, replacing};
use crate::sums::scaled_sum;
use crate::term::{Term, TermEnd};
use crate::var::Var;
use std::alloc::Global;

/// The term `a` with the term of `after` put for each variable that `after` names; the others stay. No
/// variable is to stand twice in `after`; where one does, its first pair counts.
///
/// From the term 0, the terms that are put are scaled by the coefficients and added in the order of the
/// pairs of `a`, and its constant is added last. It is `Past128` where a product or a partial sum in
/// this order lies outside `i128`.
///
/// The sums are kept in the order of their variables and made a term once. Each pair of a term that is put
/// takes constant time where its variable stands in the sums just after that of the pair before it, and else
/// one binary search in them; a variable that is new moves the sums after it. Finding that term takes a binary
/// search in `after` for each pair of `a` where the variables of `after` ascend, which one pass tells first,
/// and else one pass over `after` for each. The memory is that of the result, twice.
pub fn substitute(alloc: Global, a: &Term, after: &[(Var, Term)]) -> Result<Term, TermEnd>
    ensures worth { IfOk result (λ term. (values : Var → ℤ)
        → value values term ≡ value (values_after values after.now) a.now) }
    ensures canonical { IfOk result (λ term. IsCanonical term.pairs) }
    ensures fits { OnOk result (SubstitutionFits after.now a.now) }
    ensures past { IsErrOf result TermEnd.Past128 → ¬ SubstitutionFits after.now a.now }
{
    let rising = ascends(after);
    let mut kept = Accumulator::new(alloc);
    let mut constant = 0;
    for pair in a.pairs.as_slice() {
        constant = add_replaced(&mut kept, constant, pair.1, pair.0, after, rising)?;
    }
    let whole = constant.checked_add(a.constant).ok_or(TermEnd::Past128)?;
    let pairs = pairs_of(alloc, kept)?;
    Ok(Term {
        pairs,
        constant: whole,
    })
}

// Adds to the sums, and to the constant that it answers, `by` times what stands for the variable.
fn add_replaced(
    kept: &mut Accumulator,
    constant: i128,
    by: i128,
    variable: Var,
    after: &[(Var, Term)],
    rising: bool,
) -> Result<i128, TermEnd>
    requires rising { IsRising kept.old.sums.items }
    requires after_rises { IsTrue rising → AreRising after.now }
    ensures rising { OnOk result (IsRising kept.new.sums.items) }
    ensures worth { OnOk result ((values : Var → ℤ) → pairs_value values kept.new.sums.items
        ≡ (pairs_value values kept.old.sums.items +ℤ
        (by *ℤ pairs_value values (replacement after.now variable).pairs))) }
    ensures constant { IfOk result (λ sum. sum
        ≡ (constant +ℤ (by *ℤ (replacement after.now variable).constant))) }
    ensures pairs_fit { OnOk result
        (PairsFit kept.old.sums.items by (replacement after.now variable).pairs) }
    ensures constant_fits { OnOk result
        (ScaledFits constant by (replacement after.now variable).constant) }
    ensures past { IsErrOf result TermEnd.Past128
        → ¬ (PairsFit kept.old.sums.items by (replacement after.now variable).pairs
        × ScaledFits constant by (replacement after.now variable).constant) }
{
    match replacing(after, rising, variable) {
        Some(term) => add_parts(kept, constant, by, term.pairs.as_slice(), term.constant),
        None => add_parts(kept, constant, by, &[(variable, 1)], 0),
    }
}

fn add_parts(
    kept: &mut Accumulator,
    constant: i128,
    by: i128,
    pairs: &[(Var, i128)],
    last: i128,
) -> Result<i128, TermEnd>
    requires canonical { IsCanonical pairs.now }
    requires rising { IsRising kept.old.sums.items }
    ensures rising { OnOk result (IsRising kept.new.sums.items) }
    ensures worth { OnOk result ((values : Var → ℤ) → pairs_value values kept.new.sums.items
        ≡ (pairs_value values kept.old.sums.items +ℤ (by *ℤ pairs_value values pairs.now))) }
    ensures constant { IfOk result (λ sum. sum ≡ (constant +ℤ (by *ℤ last))) }
    ensures pairs_fit { OnOk result (PairsFit kept.old.sums.items by pairs.now) }
    ensures constant_fits { OnOk result (ScaledFits constant by last) }
    ensures past { IsErrOf result TermEnd.Past128
        → ¬ (PairsFit kept.old.sums.items by pairs.now × ScaledFits constant by last) }
{
    add_pairs(kept, by, pairs)?;
    scaled_sum(constant, by, last).ok_or(TermEnd::Past128)
}
