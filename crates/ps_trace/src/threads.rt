//! The threads of letters.
ghost use Rattle.std.specs.Prelude.{◌≡◌, IfOk};
ghost use Rattle.std.specs.List.Sorted.{IsStrictlySortedBy};
ghost use Rattle.std.specs.Ordering.{nat_cmp};
ghost use Rattle.ps_trace.specs.Rows.{threads_in_trace};
ghost use Rattle.ps_trace.specs.Traces.{pairs_in};

use crate::trace::Letter;
use std::alloc::{AllocError, Global};
use std::collections::BTreeSet;

/// The threads of the letters, each once, in ascending order; each letter takes a search among them.
pub fn threads_of(alloc: Global, letters: &[Letter]) -> Result<Vec<u32>, AllocError>
    ensures threads { IfOk result
        (λ threads. threads.items ≡ threads_in_trace (pairs_in letters.now)) }
    ensures ascending { IfOk result (λ threads. IsStrictlySortedBy nat_cmp threads.items) }
{
    let threads = set_of_threads(alloc, letters)?;
    let mut list = Vec::with_capacity(alloc, threads.len())?;
    for thread in threads {
        list.push(thread)?;
    }
    Ok(list)
}

fn set_of_threads(alloc: Global, letters: &[Letter]) -> Result<BTreeSet<u32>, AllocError>
    ensures { IfOk result (λ threads. threads.keys ≡ threads_in_trace (pairs_in letters.now)) }
{
    let mut threads = BTreeSet::new(alloc);
    for letter in letters {
        threads.insert(letter.thread)?;
    }
    Ok(threads)
}
