// The terms of sums and bounds, product by product.
ghost use Rattle.std.specs.Prelude.{◌≡◌, ◌+◌, ◌*◌, ◌<◌, ◌^◌, ◌*ℤ◌, ℕ, IfOk, IsErrOf, length};
ghost use Rattle.ps_compile.specs.Conditions.{number_bound};
ghost use Rattle.ps_compile.specs.Ops.{with_product, with_products};
ghost use Rattle.ps_compile.specs.inner.Near.{AreSmall, IsNear, IsNearTerm};

use ps_term::{Term, TermEnd, Var, add_scaled};
use std::alloc::Global;

// The term with so many times a variable added, or with a number added, in time of its pairs. It is
// `Past128` only where a number is far from 0.
pub(crate) fn add_product(
    alloc: Global,
    term: &Term,
    by: i128,
    variable: Option<Var>,
) -> Result<Term, TermEnd>
    ensures is { IfOk result (λ sum. sum ≡ with_product by variable term.now) }
    ensures past { IsErrOf result TermEnd.Past128 → (k m : ℕ)
        → IsNearTerm k term.now → IsNear m by → k + m < 2 ^ 127 → ⊥ }
{
    // contracts learn from the slice that the pairs are canonical
    let _pairs = term.pairs.as_slice();
    match variable {
        None => {
            let one = Term::from_constant(alloc, 1);
            match add_scaled(alloc, term, by, &one) {
                Ok(sum) => Ok(sum),
                Err(end) => Err(end),
            }
        }
        Some(variable) => {
            let one = match Term::from_variable(alloc, variable) {
                Ok(one) => one,
                Err(end) => return Err(TermEnd::Memory(end)),
            };
            match add_scaled(alloc, term, by, &one) {
                Ok(sum) => Ok(sum),
                Err(end) => Err(end),
            }
        }
    }
}

// The same with a number that is a product itself.
fn add_times(
    alloc: Global,
    term: &Term,
    by: i128,
    number: i128,
    variable: Option<Var>,
) -> Result<Term, TermEnd>
    ensures is { IfOk result (λ sum. sum ≡ with_product (by *ℤ number) variable term.now) }
    ensures past { IsErrOf result TermEnd.Past128 → (k m : ℕ)
        → IsNearTerm k term.now → IsNear m (by *ℤ number) → k + m < 2 ^ 127 → ⊥ }
{
    match by.checked_mul(number) {
        Some(times) => add_product(alloc, term, times, variable),
        None => Err(TermEnd::Past128),
    }
}

// The term with all products, so many times each, from the last to the first: in time of their number
// times that of the variables that they name.
pub(crate) fn add_products(
    alloc: Global,
    term: Term,
    by: i128,
    products: &[(i128, Option<Var>)],
) -> Result<Term, TermEnd>
    ensures is { IfOk result (λ sum. sum ≡ with_products by products.now term) }
    ensures past { IsErrOf result TermEnd.Past128 → (k : ℕ)
        → IsNearTerm k term → AreSmall by products.now
        → k + length products.now * number_bound < 2 ^ 127 → ⊥ }
{
    let mut sum = term;
    for i in (0..products.len()).rev() {
        let product = products[i];
        sum = match add_times(alloc, &sum, by, product.0, product.1) {
            Ok(more) => more,
            Err(end) => return Err(end),
        };
    }
    Ok(sum)
}
