// The weighted sum of the constants.
ghost use Rattle.std.specs.Prelude.{◌≡◌, pos, length, SomeIff};
ghost use Rattle.ps_farkas.specs.Refutes.{SumsFit, weighted};

use crate::product::weighed;
use crate::row_lists::RowLists;
use ps_term::Term;

// The sum of each multiplier times its row's constant, in row order, or `None` where a product or a partial
// sum lies outside `i128`.
pub(crate) fn constant_total(rows: &RowLists<'_>, lambda: &[u128]) -> Option<i128>
    requires { length lambda.now ≡ length rows.now }
    ensures { SomeIff result
        (SumsFit (λ t. t.constant) (pos 0) rows.now lambda.now)
        (weighted (λ t. t.constant) rows.now lambda.now) }
{
    let mut sum: i128 = 0;
    for i in 0..rows.len() {
        sum = weighed(sum, lambda[i], constant_of(&rows.row(i).term))?;
    }
    Some(sum)
}

fn constant_of(term: &Term) -> i128
    ensures { result ≡ term.now.constant }
{
    term.constant
}
