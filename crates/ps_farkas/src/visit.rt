// One turn of the walk over the variables of rows.
ghost use Rattle.std.specs.Prelude.{◌≡◌, pos, length, IfNone, IfSome, Some};
ghost use Rattle.ps_term.specs.Pairs.{coefficient};
ghost use Rattle.ps_farkas.specs.Refutes.{SumsFit, weighted};
ghost use Rattle.ps_farkas.specs.inner.Walk.{IsNextVariable};

use crate::product::weighed;
use crate::row_lists::RowLists;
use crate::walk::lesser;
use ps_term::Var;

// What the walk finds at one variable.
#[derive(Clone, Copy, Debug)]
pub(crate) struct Turn {
    // The sum of each multiplier times its row's coefficient.
    pub sum: i128,
    // The next variable of the rows.
    pub next: Option<Var>,
    // Where the variable was looked up last, from which the next look-up begins.
    pub near: usize,
}

// Sums the variable's coefficients in row order, and finds the next variable, by one look-up in each row; or `None`
// where a product or a partial sum lies outside `i128`. Rows of like variables have it at like places, so most look-ups
// take constant time.
pub(crate) fn visit(
    rows: &RowLists<'_>,
    lambda: &[u128],
    variable: Var,
    start: usize,
) -> Option<Turn>
    requires { length lambda.now ≡ length rows.now }
    ensures fits { IfSome result
        (λ v. SumsFit (λ t. coefficient variable t.pairs) (pos 0) rows.now lambda.now) }
    ensures past { IfNone result
        (¬ SumsFit (λ t. coefficient variable t.pairs) (pos 0) rows.now lambda.now) }
    ensures sum { IfSome result
        (λ v. v.sum ≡ weighted (λ t. coefficient variable t.pairs) rows.now lambda.now) }
    ensures next { IfSome result (λ v. IsNextVariable (Some variable) rows.now v.next) }
{
    let mut sum: i128 = 0;
    let mut next = None;
    let mut near = start;
    for i in 0..rows.len() {
        let stop = rows.row(i).term.pairs.stop_at(variable, near);
        sum = weighed(sum, lambda[i], stop.coefficient)?;
        next = lesser(next, stop.next);
        near = stop.place;
    }
    Some(Turn { sum, next, near })
}
