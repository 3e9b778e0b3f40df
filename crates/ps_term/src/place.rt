// Where in sorted pairs the variables end that are within a bound.
ghost use Rattle.std.specs.Prelude.{◌≡◌, ℤ, ℕ, ◌-◌, ◌<◌, ◌≤◌, true, false, length, IsTrue, slice_index_or};
ghost use Rattle.std.specs.List.Sorted.{IsPartitionPoint};
ghost use Rattle.ps_term.specs.declared.var.Var.{Var};
ghost use Rattle.ps_term.specs.inner.Bound.{is_within};
ghost use Rattle.ps_term.specs.Pairs.{IsCanonical};

use crate::bound::{Bound, is_within};
use crate::var::Var;

// How many pairs are within the bound, which are the first ones. It takes constant time where that is `near` or one
// more, and else the time of a binary search.
pub(crate) fn place_of(pairs: &[(Var, i128)], bound: Bound, near: usize) -> usize
    requires { IsCanonical pairs.now }
    ensures within { result ≤ length pairs.now }
    ensures parts { IsPartitionPoint (λ p. is_within bound p.0 ≡ true)
        (λ p. is_within bound p.0 ≡ false) pairs.now result }
{
    if parts_at(pairs, bound, near) {
        return near;
    }
    let next = near.saturating_add(1);
    if parts_at(pairs, bound, next) {
        return next;
    }
    pairs.partition_point(
        |pair: &(Var, i128)| -> bool
            ensures { result ≡ is_within bound pair.now.0 }
        { is_within(bound, pair.0) },
    )
}

// Whether the pair before this place is within the bound and the pair at it isn't, as far as there are such pairs.
fn parts_at(pairs: &[(Var, i128)], bound: Bound, place: usize) -> bool
    ensures within { IsTrue result → place ≤ length pairs.now }
    ensures front { IsTrue result → (d : Var × ℤ) → 0 < place
        → is_within bound (slice_index_or pairs.now (place - 1) d).0 ≡ true }
    ensures back { IsTrue result → (d : Var × ℤ) → place < length pairs.now
        → is_within bound (slice_index_or pairs.now place d).0 ≡ false }
{
    if place > pairs.len() {
        return false;
    }
    ends_within(pairs, bound, place) && goes_on_beyond(pairs, bound, place)
}

fn ends_within(pairs: &[(Var, i128)], bound: Bound, place: usize) -> bool
    requires { place ≤ length pairs.now }
    ensures { IsTrue result → (d : Var × ℤ) → 0 < place
        → is_within bound (slice_index_or pairs.now (place - 1) d).0 ≡ true }
{
    if place == 0 {
        return true;
    }
    is_within(bound, pairs[place - 1].0)
}

fn goes_on_beyond(pairs: &[(Var, i128)], bound: Bound, place: usize) -> bool
    requires { place ≤ length pairs.now }
    ensures { IsTrue result → (d : Var × ℤ) → place < length pairs.now
        → is_within bound (slice_index_or pairs.now place d).0 ≡ false }
{
    if place == pairs.len() {
        return true;
    }
    !is_within(bound, pairs[place].0)
}
