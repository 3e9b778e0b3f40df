//! A node of the search: what is chosen, and what may be chosen no more.
ghost use Rattle.std.specs.Prelude.{ℕ, List, IfOk, OnOk};
ghost use Rattle.ps_hit.specs.Hitting.{numbers_of, IsHit};
ghost use Rattle.ps_hit.specs.inner.Searching.{IsNode, IsUnderNode, AddsChild};

use crate::cover::{Cover, all_have_own, chosen_too, covers_of, sizes};
use crate::lone::lone_numbers;
use std::alloc::{AllocError, Global};

/// What is chosen, what may be chosen no more, how the chosen numbers meet the sets, and how many
/// numbers of each set are free, which means that they may still be chosen. The last decides only
/// which set is taken next, so no clause speaks of it.
#[derive(Debug, Drop)]
pub struct Node {
    pub chosen: Vec<u32>,
    pub barred: Vec<u32>,
    pub covers: Vec<Cover>,
    pub free: Vec<usize>,
}

/// The node at which the numbers are chosen that are alone in a set, which each hitting set has, and
/// nothing is barred.
pub fn root(alloc: Global, sets: &[Vec<u32>]) -> Result<Node, AllocError>
    ensures node { IfOk result (IsNode (numbers_of sets.now)) }
    ensures above { IfOk result (λ node. (hit : List ℕ) → IsHit (numbers_of sets.now) hit
        → IsUnderNode node hit) }
{
    let chosen = lone_numbers(alloc, sets)?;
    let covers = covers_of(alloc, sets, chosen.as_slice())?;
    Ok(Node {
        chosen,
        barred: Vec::new(alloc),
        covers,
        free: sizes(alloc, sets)?,
    })
}

/// Adds the node with one more number, one of an unmet set, to those that wait, where each of its
/// numbers is the only chosen one of some set. A minimal hitting set has that of each of its numbers.
pub fn add_child(
    alloc: Global,
    sets: &[Vec<u32>],
    node: &Node,
    number: u32,
    barred: &[u32],
    free: &[usize],
    waiting: &mut Vec<Node>,
) -> Result<(), AllocError>
    requires { IsNode (numbers_of sets.now) node.now }
    ensures { OnOk result (AddsChild (numbers_of sets.now) node.now number barred.now
        waiting.old.items waiting.new.items) }
{
    let covers = chosen_too(alloc, sets, node.covers.as_slice(), number)?;
    let mut chosen = Vec::from_slice(alloc, node.chosen.as_slice())?;
    chosen.push(number)?;
    if !all_have_own(chosen.as_slice(), covers.as_slice()) {
        return Ok(());
    }
    waiting.push(Node {
        chosen,
        barred: Vec::from_slice(alloc, barred)?,
        covers,
        free: Vec::from_slice(alloc, free)?,
    })?;
    Ok(())
}
