//! A node and all below it.
ghost use Rattle.std.specs.Prelude.{◌≡◌, ℕ, ◌↔◌, IfOk, OnOk, Contains};
ghost use Rattle.std.specs.List.Sorted.{IsStrictlyIncreasing};
ghost use Rattle.ps_drop.specs.Pairs.{Leads};
ghost use Rattle.ps_drop.specs.inner.Visit.{Visits};

use crate::children::{children_of, sorted_by_parent};
use crate::nodes::ascending;
use crate::pair::Pair;
use std::alloc::{AllocError, Global};
use std::collections::BTreeSet;

/// The node and all below it, each once and ascending. A pair says that `other` is a parent of
/// `node`. The pairs may stand in any order, and may form cycles.
///
/// Takes the time of a sort of the pairs, and of a look-up in a tree for each of them.
pub fn descendants(alloc: Global, parents: &[Pair], node: u64) -> Result<Vec<u64>, AllocError>
    ensures ascending { IfOk result (λ nodes. IsStrictlyIncreasing nodes.items) }
    ensures exact { IfOk result
        (λ nodes. (n : ℕ) → Contains nodes.items n ↔ Leads parents.now n node) }
{
    let sorted = sorted_by_parent(alloc, parents)?;
    let mut found = BTreeSet::new(alloc);
    let mut waiting = Vec::new(alloc);
    found.insert(node)?;
    waiting.push(node)?;
    while let Some(parent) = waiting.pop() {
        visit(
            children_of(sorted.as_slice(), parent),
            &mut found,
            &mut waiting,
        )?;
    }
    ascending(alloc, &found)
}

/// Adds the children that are new to the nodes found and to those that wait for their own children.
fn visit(
    children: &[Pair],
    found: &mut BTreeSet<u64>,
    waiting: &mut Vec<u64>,
) -> Result<(), AllocError>
    ensures { OnOk result
        (Visits children.now children.now found.old waiting.old.items found.new waiting.new.items) }
{
    for child in children {
        if !found.insert(child.node)? {
            continue;
        }
        waiting.push(child.node)?;
    }
    Ok(())
}
