// Products of a multiplier and a number, exact within 128 bits or refused.
ghost use Rattle.std.specs.Prelude.{pos, ◌+ℤ◌, ◌*ℤ◌, FitsSigned, SomeIff};
ghost use Rattle.std.specs.Int.{w128};
ghost use Rattle.ps_term.specs.Sums.{ScaledFits};

// The least multiplier past the greatest `i128`; times -1 it is the least `i128`.
const FIRST_PAST: u128 = 1 << 127;

// `so_far + by * n`.
pub(crate) fn weighed(so_far: i128, by: u128, n: i128) -> Option<i128>
    ensures { SomeIff result (ScaledFits so_far (pos by) n) (so_far +ℤ (pos by *ℤ n)) }
{
    so_far.checked_add(product(by, n)?)
}

// `by * n`. A multiplier above the greatest `i128` times any number but 0 lies outside, except that
// 2^127 times -1 is the least `i128`.
fn product(by: u128, n: i128) -> Option<i128>
    ensures { SomeIff result (FitsSigned w128 (pos by *ℤ n)) (pos by *ℤ n) }
{
    if by < FIRST_PAST {
        (by as i128).checked_mul(n)
    } else if n == 0 {
        Some(0)
    } else if n == -1 && by == FIRST_PAST {
        Some(i128::MIN)
    } else {
        None
    }
}
