//! Sets of nodes.
ghost use Rattle.std.specs.Prelude.{◌≡◌, IfOk};
ghost use Rattle.std.specs.BTreeSet.{IsFromIterResult};
ghost use Rattle.std.specs.Ordering.{nat_cmp};
ghost use Rattle.std.specs.List.Sorted.{IsStrictlyIncreasing};

use std::alloc::{AllocError, Global};
use std::collections::BTreeSet;

/// The set of some nodes.
pub fn set_of(alloc: Global, nodes: &[u64]) -> Result<BTreeSet<u64>, AllocError>
    ensures { IfOk result (IsFromIterResult nat_cmp nodes.now) }
{
    nodes.iter().copied().collect(alloc)
}

/// The nodes of a set in ascending order.
pub fn ascending(alloc: Global, nodes: &BTreeSet<u64>) -> Result<Vec<u64>, AllocError>
    ensures ascending { IfOk result (λ list. IsStrictlyIncreasing list.items) }
    ensures all { IfOk result (λ list. list.items ≡ nodes.now.keys) }
{
    nodes.iter().copied().collect(alloc)
}
