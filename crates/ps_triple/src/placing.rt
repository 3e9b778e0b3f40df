// Rows with threads put for slots.
ghost use Rattle.std.specs.Prelude.{◌≡◌, ◌≢◌, All, AllPairs, IfOk, length, slice_index};
ghost use Rattle.ps_term.specs.Pairs.{IsCanonical};
ghost use Rattle.ps_atom.specs.Atoms.{at_threads, IsOfSlots};
ghost use Rattle.ps_triple.specs.Places.{pairs_by, row_by};

use ps_term::{Pairs, Row, Term, Var};
use std::alloc::{AllocError, Global};
use std::collections::BTreeMap;

// The row with the threads put for its slots. The threads are distinct, so no coefficients meet.
pub(crate) fn place(alloc: Global, row: &Row, threads: &[u32]) -> Result<Row, AllocError>
    requires distinct { AllPairs (λ s t. s ≢ t) threads.now }
    requires slots { All (λ pair. IsOfSlots (length threads.now) pair.0) row.now.term.pairs }
    ensures { IfOk result (λ placed. placed ≡ row_by (at_threads threads.now) row.now) }
{
    let list = placed_pairs(alloc, row.term.pairs.as_slice(), threads)?;
    Ok(Row {
        term: Term {
            pairs: Pairs::from_list(list),
            constant: row.term.constant,
        },
    })
}

// The pairs with the threads put for the slots, in the order of the new variables, each by one search among them.
fn placed_pairs(
    alloc: Global,
    pairs: &[(Var, i128)],
    threads: &[u32],
) -> Result<Vec<(Var, i128)>, AllocError>
    requires canonical { IsCanonical pairs.now }
    requires distinct { AllPairs (λ s t. s ≢ t) threads.now }
    requires slots { All (λ pair. IsOfSlots (length threads.now) pair.0) pairs.now }
    ensures { IfOk result (λ list. list.items ≡ pairs_by (at_threads threads.now) pairs.now) }
{
    let mut placed = BTreeMap::new(alloc);
    for taken in 0..pairs.len() {
        let pair = pairs[pairs.len() - (taken + 1)];
        placed.insert(at_threads(threads, pair.0), pair.1)?;
    }
    in_order(alloc, placed)
}

fn in_order(alloc: Global, placed: BTreeMap<Var, i128>) -> Result<Vec<(Var, i128)>, AllocError>
    ensures { IfOk result (λ list. list.items ≡ placed.entries) }
{
    let mut list = Vec::with_capacity(alloc, placed.len())?;
    for pair in placed {
        list.push(pair)?;
    }
    Ok(list)
}

// The variable that stands for one of a predicate where the slots are these threads.
fn at_threads(threads: &[u32], variable: Var) -> Var
    ensures { result ≡ at_threads threads.now variable }
{
    match variable {
        Var::Local(slot, number) => Var::Local(thread_in(threads, slot), number),
        _ => variable,
    }
}

// The thread of a slot; a slot past the last has thread 0.
fn thread_in(threads: &[u32], slot: u32) -> u32
    ensures { result ≡ slice_index threads.now slot }
{
    threads.get(slot as usize).copied().unwrap_or(0)
}
