// The walk over the variables of rows in ascending order, which takes no memory.
ghost use Rattle.std.specs.Prelude.{◌≡◌, None};
ghost use Rattle.ps_farkas.specs.inner.Walk.{IsNextVariable, lesser_variable};

use crate::row_lists::RowLists;
use ps_term::{Var, is_before};

// The least variable of the rows.
pub(crate) fn first_variable(rows: &RowLists<'_>) -> Option<Var>
    ensures { IsNextVariable None rows.now result }
{
    let mut first = None;
    for i in 0..rows.len() {
        first = lesser(first, rows.row(i).term.pairs.next_after(None));
    }
    first
}

// The lesser of two variables, where they are there.
pub(crate) fn lesser(a: Option<Var>, b: Option<Var>) -> Option<Var>
    ensures { result ≡ lesser_variable a b }
{
    match (a, b) {
        (None, _) => b,
        (_, None) => a,
        (Some(x), Some(y)) => Some(if is_before(y, x) { y } else { x }),
    }
}
