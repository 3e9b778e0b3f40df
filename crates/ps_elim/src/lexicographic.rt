// The lexicographic order of vectors, by their entries that aren't 0.
ghost use Rattle.std.specs.Prelude.{◌≡◌};
ghost use Rattle.ps_elim.specs.inner.Lexicographic.{comes_before, is_lesser, is_same_pair};

use ps_term::{Var, is_before, is_same};

// Whether the vector of the pairs comes before that of the others: the first pairs that differ decide.
pub(crate) fn comes_before(pairs: &[(Var, i128)], others: &[(Var, i128)]) -> bool
    ensures { result ≡ comes_before pairs.now others.now }
{
    for (at, pair) in pairs.iter().enumerate() {
        if at >= others.len() {
            return false;
        }
        if !is_same_pair(pair, &others[at]) {
            return is_lesser(pair, &others[at]);
        }
    }
    pairs.len() < others.len()
}

// Whether the first pair stands later, so that there is a 0 at the place of the second, or has a lesser entry.
fn is_lesser(pair: &(Var, i128), other: &(Var, i128)) -> bool
    ensures { result ≡ is_lesser pair.now other.now }
{
    is_before(other.0, pair.0) || (is_same(pair.0, other.0) && pair.1 < other.1)
}

fn is_same_pair(pair: &(Var, i128), other: &(Var, i128)) -> bool
    ensures { result ≡ is_same_pair pair.now other.now }
{
    is_same(pair.0, other.0) && pair.1 == other.1
}
