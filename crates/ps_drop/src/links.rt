//! The nodes that link to a dropped one.
ghost use Rattle.std.specs.Prelude.{◌≡◌, ℕ, ◌↔◌, IfOk, Contains, map, filter};
ghost use Rattle.std.specs.List.Sorted.{IsStrictlyIncreasing};
ghost use Rattle.std.specs.BTreeSet.{IsFromIterResult, contains};
ghost use Rattle.std.specs.Ordering.{nat_cmp};
ghost use Rattle.ps_drop.specs.Pairs.{Leans};

use crate::nodes::{ascending, set_of};
use crate::pair::Pair;
use std::alloc::{AllocError, Global};
use std::collections::BTreeSet;

/// The nodes with a link to a dropped one, each once and ascending. A link says that `node` leans on
/// `other`. Both lists may stand in any order.
///
/// Takes the time of a look-up in a tree for each link and for each dropped node.
pub fn leaning(alloc: Global, links: &[Pair], dropped: &[u64]) -> Result<Vec<u64>, AllocError>
    ensures ascending { IfOk result (λ nodes. IsStrictlyIncreasing nodes.items) }
    ensures exact { IfOk result
        (λ nodes. (n : ℕ) → Contains nodes.items n ↔ Leans links.now dropped.now n) }
{
    let gone = set_of(alloc, dropped)?;
    let nodes = leaning_on(alloc, links, &gone)?;
    ascending(alloc, &nodes)
}

/// The set of the nodes with a link to one of the set.
fn leaning_on(
    alloc: Global,
    links: &[Pair],
    gone: &BTreeSet<u64>,
) -> Result<BTreeSet<u64>, AllocError>
    ensures { IfOk result (IsFromIterResult nat_cmp (map (λ link. link.node)
        (filter (λ link. contains nat_cmp gone.now link.other) links.now))) }
{
    links
        .iter()
        .filter(|link| gone.contains(&link.other))
        .map(|link| link.node)
        .collect(alloc)
}
