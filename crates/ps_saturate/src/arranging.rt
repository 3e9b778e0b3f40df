// Lists of distinct threads.
ghost use Rattle.std.specs.Prelude.{◌≡◌, ◌++◌, ◌∷◌, IfOk, OnOk, map};
ghost use Rattle.ps_saturate.specs.inner.Arranging.{arrangements, lacks, led_by, led_by_each};

use std::alloc::{AllocError, Global};

// The lists of so many distinct threads below a number, in lexicographic order.
pub(crate) fn arrangements(
    alloc: Global,
    threads: u32,
    slots: u32,
) -> Result<Vec<Vec<u32>>, AllocError>
    ensures { IfOk result (λ lists. map (λ list. list.items) lists.items
        ≡ arrangements threads slots) }
{
    let mut lists = Vec::with_capacity(alloc, 1)?;
    lists.push(Vec::new(alloc))?;
    for _slot in 0..slots {
        lists = led_by_each(alloc, threads, lists.as_slice())?;
    }
    Ok(lists)
}

// Each of the threads before each of the lists that lack it.
fn led_by_each(alloc: Global, threads: u32, lists: &[Vec<u32>]) -> Result<Vec<Vec<u32>>, AllocError>
    ensures { IfOk result (λ longer. map (λ list. list.items) longer.items
        ≡ led_by_each 0 threads (map (λ list. list.items) lists.now)) }
{
    let mut longer = Vec::new(alloc);
    for thread in 0..threads {
        push_led_by(alloc, &mut longer, thread, lists)?;
    }
    Ok(longer)
}

// Appends the thread before each of the lists that lack it.
fn push_led_by(
    alloc: Global,
    longer: &mut Vec<Vec<u32>>,
    thread: u32,
    lists: &[Vec<u32>],
) -> Result<(), AllocError>
    ensures { OnOk result (map (λ list. list.items) longer.new.items
        ≡ map (λ list. list.items) longer.old.items
        ++ led_by thread (map (λ list. list.items) lists.now)) }
{
    for list in lists {
        if !lacks(thread, list.as_slice()) {
            continue;
        }
        longer.push(with_first(alloc, thread, list.as_slice())?)?;
    }
    Ok(())
}

// Whether the list lacks the thread.
fn lacks(thread: u32, list: &[u32]) -> bool
    ensures { result ≡ lacks thread list.now }
{
    for other in list {
        if *other == thread {
            return false;
        }
    }
    true
}

// The thread, and then those of the list.
fn with_first(alloc: Global, thread: u32, list: &[u32]) -> Result<Vec<u32>, AllocError>
    ensures { IfOk result (λ longer. longer.items ≡ thread ∷ list.now) }
{
    let mut longer = Vec::with_capacity(alloc, list.len() + 1)?;
    longer.push(thread)?;
    longer.extend_from_slice(list)?;
    Ok(longer)
}
