// The threads of a post.
ghost use Rattle.std.specs.Prelude.{◌≡◌, ◌≤◌, IfOk};
ghost use Rattle.ps_saturate.specs.Patterns.{FitsSlots, post_threads, threads_from};
ghost use Rattle.ps_saturate.specs.inner.Arranging.{thread_count};

use crate::pattern::Pattern;
use std::alloc::{AllocError, Global};

// The threads of a post of so many slots, in the order of the slots.
pub(crate) fn post_threads(
    alloc: Global,
    pattern: Pattern,
    slots: u32,
) -> Result<Vec<u32>, AllocError>
    requires few { slots ≤ 2 }
    requires fits { FitsSlots pattern slots }
    ensures { IfOk result (λ threads. threads.items ≡ post_threads pattern slots) }
{
    match pattern {
        Pattern::None => Ok(Vec::new(alloc)),
        Pattern::Mover(slot) => {
            let mut threads = others(alloc, slots - 1)?;
            threads.insert(slot as usize, 0)?;
            Ok(threads)
        }
        Pattern::Other => others(alloc, slots),
    }
}

// How many threads a post of so many slots has, with thread 0.
pub(crate) fn thread_count(pattern: Pattern, slots: u32) -> u32
    requires { slots ≤ 2 }
    ensures { result ≡ thread_count pattern slots }
{
    match pattern {
        Pattern::None => 1,
        Pattern::Mover(_) => slots,
        Pattern::Other => slots + 1,
    }
}

// So many threads, from thread 1 on.
fn others(alloc: Global, count: u32) -> Result<Vec<u32>, AllocError>
    requires { count ≤ 2 }
    ensures { IfOk result (λ threads. threads.items ≡ threads_from 1 count) }
{
    let mut threads = Vec::with_capacity(alloc, count as usize)?;
    for before in 0..count {
        threads.push(before + 1)?;
    }
    Ok(threads)
}
