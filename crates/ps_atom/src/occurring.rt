// The threads that occur in a row.
ghost use Rattle.std.specs.Prelude.{◌≡◌, IfOk, None, OnOk};
ghost use Rattle.std.specs.List.Sorted.{IsStrictlyIncreasing};
ghost use Rattle.ps_term.specs.Pairs.{IsCanonical};
ghost use Rattle.ps_atom.specs.inner.Slots.{next_thread, threads_after};
ghost use Rattle.ps_atom.specs.Threads.{AreOccurring};

use ps_term::Var;
use std::alloc::{AllocError, Global};

// Those that occur, ascending.
pub(crate) fn occurring(alloc: Global, pairs: &[(Var, i128)]) -> Result<Vec<u32>, AllocError>
    requires { IsCanonical pairs.now }
    ensures ascending { IfOk result (λ threads. IsStrictlyIncreasing threads.items) }
    ensures occurring { IfOk result (λ threads. AreOccurring pairs.now threads.items) }
{
    threads_met(alloc, pairs)
}

// The threads of the pairs in their order, of those that stand next to each other one.
fn threads_met(alloc: Global, pairs: &[(Var, i128)]) -> Result<Vec<u32>, AllocError>
    ensures { IfOk result (λ threads. threads.items ≡ threads_after None pairs.now) }
{
    let mut threads = Vec::new(alloc);
    let mut last = None;
    for pair in pairs {
        if let Some(thread) = next_thread(last, pair.0) {
            threads.push(thread)?;
            last = Some(thread);
        }
    }
    Ok(threads)
}

// The thread of a local, unless it is the last one that was met.
fn next_thread(last: Option<u32>, variable: Var) -> Option<u32>
    ensures { result ≡ next_thread last variable }
{
    match (last, variable) {
        (None, Var::Local(thread, _)) => Some(thread),
        (Some(last), Var::Local(thread, _)) if thread != last => Some(thread),
        _ => None,
    }
}
