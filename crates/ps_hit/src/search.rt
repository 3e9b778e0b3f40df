//! The search for the minimal hitting sets.
ghost use Rattle.std.specs.Prelude.{◌≡◌, ◌<◌, ◌≤◌, ◌↔◌, ℕ, List, [], IfOk, OnOk, Contains, All, length, slice_index_or, nat_eq};
ghost use Rattle.std.specs.List.{HoldsAt, IsDistinct};
ghost use Rattle.std.specs.List.Sorted.{IsStrictlyIncreasing};
ghost use Rattle.ps_hit.specs.Answer.{IfAll, OnTooMany, IsLexicographic, HasMore};
ghost use Rattle.ps_hit.specs.Hitting.{numbers_of, IsListedHit};
ghost use Rattle.ps_hit.specs.inner.Searching.{IsNode, Branches};

use crate::cover::{Cover, bar, narrowest_unmet};
use crate::hits::Hits;
use crate::node::{Node, add_child, root};
use ps_list::Sequence;
use std::alloc::{AllocError, Global};
use std::collections::BTreeSet;

/// The minimal hitting sets of the sets, each as its numbers in ascending order, in lexicographic
/// order; or that there are more than `most`. Of no set at all the empty set is the only one, and an
/// empty set has none. The sets may stand in any order, and may repeat a number.
///
/// A search in depth begins with all numbers that are alone in a set. It takes at each node a set that is
/// unmet, one with the fewest numbers that weren't tried at a sibling, and one of these numbers where each
/// number chosen so far is still the only one that meets some set. So a set that no number can meet any more ends its branch at once. Each number
/// that is tried takes two passes over the sets, and each node that waits the memory of its numbers and
/// of two small values a set. The search ends once more than `most` sets were found; how many nodes it
/// tries until then isn't bounded by the number of hitting sets.
pub fn minimal_hits(alloc: Global, sets: &[Vec<u32>], most: u32) -> Result<Hits, AllocError>
    ensures minimal { IfOk result (λ hits. IfAll hits (All (IsListedHit (numbers_of sets.now)))) }
    ensures every { IfOk result (λ hits. IfAll hits (λ all.
        (hit : List ℕ) → IsListedHit (numbers_of sets.now) hit → Contains all hit)) }
    ensures ordered { IfOk result (λ hits. IfAll hits IsLexicographic) }
    ensures few { IfOk result (λ hits. IfAll hits (λ all. length all ≤ most)) }
    ensures too_many { IfOk result (λ hits. OnTooMany hits (HasMore (numbers_of sets.now) most)) }
{
    let mut found = BTreeSet::new(alloc);
    let mut waiting = Vec::new(alloc);
    waiting.push(root(alloc, sets)?)?;
    while let Some(node) = waiting.pop() {
        if let Some(place) = narrowest_unmet(node.covers.as_slice(), node.free.as_slice()) {
            branch(alloc, sets, &node, place, &mut waiting)?;
            continue;
        }
        let chosen = node.chosen.as_slice();
        found.insert(ascending(alloc, chosen)?)?;
        if found.len() > most as usize {
            return Ok(Hits::TooMany);
        }
    }
    Ok(Hits::All(listed(alloc, found)?))
}

/// Adds the children of a node at a set that is unmet. A number that was tried at a sibling is barred
/// below those after it, so that no hitting set is found twice.
fn branch(
    alloc: Global,
    sets: &[Vec<u32>],
    node: &Node,
    place: usize,
    waiting: &mut Vec<Node>,
) -> Result<(), AllocError>
    requires node { IsNode (numbers_of sets.now) node.now }
    requires within { place < length sets.now }
    requires unmet { HoldsAt (λ cover. cover ≡ Cover.Unmet) node.now.covers.items place }
    ensures { OnOk result
        (Branches (numbers_of sets.now) node.now (slice_index_or (numbers_of sets.now) place [])
        waiting.old.items waiting.new.items) }
{
    let set = sets[place].as_slice();
    let mut barred = Vec::from_slice(alloc, node.barred.as_slice())?;
    let mut free = Vec::from_slice(alloc, node.free.as_slice())?;
    for number in set {
        if barred.contains(number) {
            continue;
        }
        add_child(
            alloc,
            sets,
            node,
            *number,
            barred.as_slice(),
            free.as_slice(),
            waiting,
        )?;
        barred.push(*number)?;
        bar(sets, *number, free.as_mut_slice());
    }
    Ok(())
}

/// The numbers in ascending order.
fn ascending(alloc: Global, numbers: &[u32]) -> Result<Vec<u32>, AllocError>
    requires { IsDistinct nat_eq numbers.now }
    ensures ascends { IfOk result (λ list. IsStrictlyIncreasing list.items) }
    ensures same { IfOk result (λ list. (n : ℕ) → Contains list.items n ↔ Contains numbers.now n) }
{
    let mut list = Vec::from_slice(alloc, numbers)?;
    list.sort()?;
    Ok(list)
}

/// The lists of a set in its order.
fn listed(alloc: Global, found: BTreeSet<Vec<u32>>) -> Result<Sequence<Sequence<u32>>, AllocError>
    ensures { IfOk result (λ lists. lists ≡ numbers_of found.keys) }
{
    let mut lists = Vec::with_capacity(alloc, found.len())?;
    for list in found {
        lists.push(Sequence::from_list(list))?;
    }
    Ok(Sequence::from_list(lists))
}
