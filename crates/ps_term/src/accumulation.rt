// Sums by variable, to which scaled terms are added one by one.
ghost use Rattle.std.specs.Prelude.{◌≡◌, ◌≤◌, ◌+ℤ◌, ◌*ℤ◌, ℤ, [], true, false, drop, length, IfOk, OnOk, IsErrOf};
ghost use Rattle.std.specs.List.Sorted.{IsPartitionPoint};
ghost use Rattle.ps_term.specs.declared.var.Var.{Var};
ghost use Rattle.ps_term.specs.inner.Accumulated.{IsRising, standing};
ghost use Rattle.ps_term.specs.inner.Front.{is_first};
ghost use Rattle.ps_term.specs.Pairs.{coefficient, IsCanonical, pairs_value};
ghost use Rattle.ps_term.specs.Placed.{put};
ghost use Rattle.ps_term.specs.Sums.{PairsFit, ScaledFits};
ghost use Rattle.ps_term.specs.Var.{var_lt};

use crate::front::{in_front, tail};
use crate::pairs::Pairs;
use crate::sums::{keep, scaled_sum};
use crate::term::TermEnd;
use crate::var::{Var, is_before, is_same};
use std::alloc::{AllocError, Global};

// The sums in the order of their variables, some of which may be 0, and the place at which the next variable is looked
// for first.
#[derive(Drop)]
pub(crate) struct Accumulator {
    pub(crate) sums: Vec<(Var, i128)>,
    pub(crate) near: usize,
}

impl Accumulator {
    pub(crate) fn new(alloc: Global) -> Accumulator
        ensures { result.sums.items ≡ [] }
    {
        Accumulator {
            sums: Vec::new(alloc),
            near: 0,
        }
    }
}

// Adds `by` times the pairs to the sums. A pair takes constant time where its variable stands just after that of the
// pair before it, and else the time of a binary search; where its variable is new, the sums after it are moved.
pub(crate) fn add_pairs(
    kept: &mut Accumulator,
    by: i128,
    pairs: &[(Var, i128)],
) -> Result<(), TermEnd>
    requires canonical { IsCanonical pairs.now }
    requires rising { IsRising kept.old.sums.items }
    ensures rising { OnOk result (IsRising kept.new.sums.items) }
    ensures worth { OnOk result ((values : Var → ℤ) → pairs_value values kept.new.sums.items
        ≡ (pairs_value values kept.old.sums.items +ℤ (by *ℤ pairs_value values pairs.now))) }
    ensures fits { OnOk result (PairsFit kept.old.sums.items by pairs.now) }
    ensures past { IsErrOf result TermEnd.Past128 → ¬ PairsFit kept.old.sums.items by pairs.now }
{
    kept.near = 0;
    for pair in pairs {
        add_one(kept, pair.0, by, pair.1)?;
    }
    Ok(())
}

fn add_one(kept: &mut Accumulator, variable: Var, by: i128, n: i128) -> Result<(), TermEnd>
    requires { IsRising kept.old.sums.items }
    ensures put { OnOk result (kept.new.sums.items ≡ put variable
        (coefficient variable kept.old.sums.items +ℤ (by *ℤ n)) kept.old.sums.items) }
    ensures fits { OnOk result (ScaledFits (coefficient variable kept.old.sums.items) by n) }
    ensures past { IsErrOf result TermEnd.Past128
        → ¬ ScaledFits (coefficient variable kept.old.sums.items) by n }
{
    let place = place_in(kept.sums.as_slice(), kept.near, variable);
    let so_far = sum_at(kept.sums.as_slice(), place, variable);
    kept.near = place.saturating_add(1);
    match scaled_sum(so_far, by, n) {
        Some(sum) => put_at(&mut kept.sums, place, variable, sum).map_err(TermEnd::Memory),
        None => Err(TermEnd::Past128),
    }
}

// How many sums come before the variable, which are the first ones.
fn place_in(sums: &[(Var, i128)], near: usize, variable: Var) -> usize
    requires { IsRising sums.now }
    ensures within { result ≤ length sums.now }
    ensures parts { IsPartitionPoint (λ p. var_lt p.0 variable ≡ true)
        (λ p. var_lt p.0 variable ≡ false) sums.now result }
{
    if stands_at(sums, near, variable) {
        return near;
    }
    sums.partition_point(
        |pair: &(Var, i128)| -> bool
            ensures { result ≡ var_lt pair.now.0 variable }
        { is_before(pair.0, variable) },
    )
}

// Whether the sum at the place, if there is one, is the variable's.
fn stands_at(sums: &[(Var, i128)], place: usize, variable: Var) -> bool
    ensures { result ≡ is_first variable (drop place sums.now) }
{
    match sums.get(place) {
        Some(pair) => is_same(variable, pair.0),
        None => false,
    }
}

// The sum of the variable so far, which would stand at the place.
fn sum_at(sums: &[(Var, i128)], place: usize, variable: Var) -> i128
    requires rising { IsRising sums.now }
    requires within { place ≤ length sums.now }
    requires parts { IsPartitionPoint (λ p. var_lt p.0 variable ≡ true)
        (λ p. var_lt p.0 variable ≡ false) sums.now place }
    ensures { result ≡ coefficient variable sums.now }
{
    in_front(variable, tail(sums, place))
}

// Makes this the variable's sum, at its place.
fn put_at(
    sums: &mut Vec<(Var, i128)>,
    place: usize,
    variable: Var,
    sum: i128,
) -> Result<(), AllocError>
    requires within { place ≤ length sums.old.items }
    requires parts { IsPartitionPoint (λ p. var_lt p.0 variable ≡ true)
        (λ p. var_lt p.0 variable ≡ false) sums.old.items place }
    ensures { OnOk result (sums.new.items ≡ put variable sum sums.old.items) }
{
    if stands_at(sums.as_slice(), place, variable) {
        sums[place] = (variable, sum);
        return Ok(());
    }
    sums.insert(place, (variable, sum)).map_err(|_| AllocError)?;
    Ok(())
}

// The pairs of the sums that aren't 0.
pub(crate) fn pairs_of(alloc: Global, kept: Accumulator) -> Result<Pairs, TermEnd>
    requires { IsRising kept.sums.items }
    ensures canonical { IfOk result (λ pairs. IsCanonical pairs) }
    ensures worth { IfOk result (λ pairs. (values : Var → ℤ)
        → pairs_value values pairs ≡ pairs_value values kept.sums.items) }
    ensures fits { ¬ IsErrOf result TermEnd.Past128 }
{
    match standing(alloc, kept.sums) {
        Ok(list) => Ok(Pairs::from_list(list)),
        Err(end) => Err(TermEnd::Memory(end)),
    }
}

fn standing(alloc: Global, sums: Vec<(Var, i128)>) -> Result<Vec<(Var, i128)>, AllocError>
    ensures { IfOk result (λ list. list.items ≡ standing sums.items) }
{
    let mut list = Vec::with_capacity(alloc, sums.len())?;
    for (variable, sum) in sums {
        keep(&mut list, variable, sum)?;
    }
    Ok(list)
}
