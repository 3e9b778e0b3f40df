// The vector that an elimination answers.
ghost use Rattle.std.specs.Prelude.{◌≡◌, ◌≤ℤ◌, ℕ, pos, All, length, IfSome, IfNone, option_copied};
ghost use Rattle.ps_elim.specs.inner.Choosing.{IsLeastAmong, lesser_vector};

use crate::weighted::Weighted;

// The lexicographically least of the vectors whose row has a positive constant.
pub(crate) fn least_refutation(set: &[Weighted]) -> Option<&Weighted>
    requires { (n : ℕ) × All (λ w. length w.vector ≡ n) set.now }
    ensures least { IfSome result (λ best. IsLeastAmong set.now best.now) }
    ensures none { IfNone result (All (λ w. w.row.term.constant ≤ℤ pos 0) set.now) }
{
    let mut best = None;
    for weighted in set {
        if weighted.row.term.constant <= 0 {
            continue;
        }
        best = Some(lesser(best, weighted));
    }
    best
}

// This one, or the best so far where it isn't less than that.
fn lesser<'a>(best: Option<&'a Weighted>, weighted: &'a Weighted) -> &'a Weighted
    requires { IfSome best (λ so_far. length so_far.now.vector ≡ length weighted.now.vector) }
    ensures { result.now ≡ lesser_vector (option_copied best.entry) weighted.now }
{
    match best {
        Some(so_far) => {
            if weighted.vector.is_less(&so_far.vector) {
                weighted
            } else {
                so_far
            }
        }
        None => weighted,
    }
}
