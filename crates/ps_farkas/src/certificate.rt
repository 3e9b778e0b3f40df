//! The check of Farkas multipliers.
ghost use Rattle.std.specs.Prelude.{◌≡◌, ◌↔◌, ℤ, length, All, IfNone, IfOk, IfSome, IsErr, IsTrue, OnOk, OnSome};
ghost use Rattle.ps_term.specs.declared.var.Var.{Var};
ghost use Rattle.ps_term.specs.Row.{Holds};
ghost use Rattle.ps_farkas.specs.Refutes.{AllSumsFit, Refutes, VariablesCancel, VariablesFit};

use crate::past::Past128;
use crate::row_lists::RowLists;
use crate::visit::visit;
use crate::walk::first_variable;
use crate::weigh::constant_total;
use ps_term::Row;

/// Whether the multipliers show that no whole numbers satisfy all rows: there is one for each row, and
/// the rows weighted by them sum to a constant of at least 1. With another number of multipliers the
/// answer is `false`. It is `Past128` where a product, or a partial sum of one variable or of the
/// constants in row order, lies outside `i128`.
///
/// The call takes no memory. Its time is at most that of the number of different variables times that of
/// the rows, each with a binary search in its pairs; where rows have like variables the searches take
/// constant time. Rows of variables of their own are the slowest: 1,024 rows of 64 such variables take seconds.
pub fn refutes(rows: &[Row], lambda: &[u128]) -> Result<bool, Past128>
    ensures answer { IfOk result (λ yes. IsTrue yes ↔ Refutes rows.now lambda.now) }
    ensures sound { IfOk result (λ yes. IsTrue yes
        → (values : Var → ℤ) → ¬ All (Holds values) rows.now) }
    ensures fits { OnOk result
        (length lambda.now ≡ length rows.now → AllSumsFit rows.now lambda.now) }
    ensures past { IsErr result
        → (length lambda.now ≡ length rows.now) × ¬ AllSumsFit rows.now lambda.now }
{
    refutes_lists(&RowLists::new(&[], &[], rows), lambda)
}

/// The same of rows that stand in several lists.
pub fn refutes_lists(rows: &RowLists<'_>, lambda: &[u128]) -> Result<bool, Past128>
    ensures answer { IfOk result (λ yes. IsTrue yes ↔ Refutes rows.now lambda.now) }
    ensures sound { IfOk result (λ yes. IsTrue yes
        → (values : Var → ℤ) → ¬ All (Holds values) rows.now) }
    ensures fits { OnOk result
        (length lambda.now ≡ length rows.now → AllSumsFit rows.now lambda.now) }
    ensures past { IsErr result
        → (length lambda.now ≡ length rows.now) × ¬ AllSumsFit rows.now lambda.now }
{
    if lambda.len() != rows.len() {
        return Ok(false);
    }
    let cancels = all_cancel(rows, lambda).ok_or(Past128)?;
    let constant = constant_total(rows, lambda).ok_or(Past128)?;
    Ok(cancels && constant >= 1)
}

// Whether the sum of each variable is 0, or `None` where a product or a partial sum lies outside `i128`.
fn all_cancel(rows: &RowLists<'_>, lambda: &[u128]) -> Option<bool>
    requires { length lambda.now ≡ length rows.now }
    ensures answer { IfSome result (λ yes. IsTrue yes ↔ VariablesCancel rows.now lambda.now) }
    ensures fits { OnSome result (VariablesFit rows.now lambda.now) }
    ensures past { IfNone result (¬ VariablesFit rows.now lambda.now) }
{
    let mut cancels = true;
    let mut next = first_variable(rows);
    let mut near = 0;
    'walking: while let Some(variable) = next {
        let found = visit(rows, lambda, variable, near)?;
        cancels &= found.sum == 0;
        next = found.next;
        near = found.near;
    }
    Some(cancels)
}
