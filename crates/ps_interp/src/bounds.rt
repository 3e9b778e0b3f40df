// Which cuts are met.
ghost use Rattle.std.specs.Prelude.{◌≡◌, ◌<◌, ◌≤◌, ◌↔◌, ◌⊎◌, ℕ, IsTrue, length};
ghost use Rattle.ps_interp.specs.Cuts.{IsFalseSum, IsTrivialSum};
ghost use Rattle.ps_interp.specs.inner.Parts.{sum_in};

use ps_term::Term;

// The least cut whose sum is false, or their number where none is.
pub(crate) fn least_false(sums: &[Term]) -> usize
    ensures within { result ≤ length sums.now }
    ensures least { (cut : ℕ) → cut < result → ¬ IsFalseSum (sum_in sums.now cut) }
    ensures is { result < length sums.now → IsFalseSum (sum_in sums.now result) }
{
    for cut in 0..sums.len() {
        if is_false(&sums[cut]) {
            return cut;
        }
    }
    sums.len()
}

// The greatest trivial cut below one, or 0 where there is none.
pub(crate) fn greatest_trivial(sums: &[Term], below: usize) -> usize
    requires { below ≤ length sums.now }
    ensures is { (result ≡ 0)
        ⊎ ((result < below) × IsTrivialSum (sum_in sums.now result)) }
    ensures greatest { (cut : ℕ) → result < cut → cut < below
        → ¬ IsTrivialSum (sum_in sums.now cut) }
{
    let mut cut = below;
    while cut > 0 {
        cut -= 1;
        if is_trivial(&sums[cut]) {
            return cut;
        }
    }
    0
}

// Whether it is a constant of at most 0.
fn is_false(sum: &Term) -> bool
    ensures { IsTrue result ↔ IsFalseSum sum.now }
{
    sum.pairs.as_slice().is_empty() && sum.constant <= 0
}

// Whether it is a constant of at least 1.
fn is_trivial(sum: &Term) -> bool
    ensures { IsTrue result ↔ IsTrivialSum sum.now }
{
    sum.pairs.as_slice().is_empty() && sum.constant >= 1
}
