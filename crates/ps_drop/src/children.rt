//! The pairs of one parent, found in a list that is sorted by parents.
ghost use Rattle.std.specs.Prelude.{IfOk};
ghost use Rattle.std.specs.List.Sorted.{IsPermutation, IsNonDecreasingBy};
ghost use Rattle.ps_drop.specs.inner.Visit.{AreChildren};

use crate::pair::Pair;
use std::alloc::{AllocError, Global};

/// The pairs in the order of their parents.
pub fn sorted_by_parent(alloc: Global, parents: &[Pair]) -> Result<Vec<Pair>, AllocError>
    ensures same { IfOk result (λ sorted. IsPermutation parents.now sorted.items) }
    ensures sorted { IfOk result (λ sorted. IsNonDecreasingBy (λ pair. pair.other) sorted.items) }
{
    let mut sorted = parents.to_vec(alloc)?;
    sorted.sort_by_key(|pair| pair.other)?;
    Ok(sorted)
}

/// The pairs of one parent, from pairs in the order of their parents.
pub fn children_of(sorted: &[Pair], parent: u64) -> &[Pair]
    requires { IsNonDecreasingBy (λ pair. pair.other) sorted.now }
    ensures { AreChildren sorted.now parent result.now }
{
    let first = sorted.partition_point(|pair| pair.other < parent);
    let rest = &sorted[first..];
    let count = rest.partition_point(|pair| pair.other <= parent);
    &rest[..count]
}
