// The numbers of a trace's threads in a triple.
ghost use Rattle.std.specs.Prelude.{◌≡◌, ◌≤◌, IfOk, length};
ghost use Rattle.ps_interp.specs.Entries.{numbered_threads, place_in, with_numbers};

use ps_atom::{Atom, Threads};
use std::alloc::{AllocError, Global};

// The thread that runs the command, and then the others of the slots in their order.
pub(crate) fn numbered_threads(
    alloc: Global,
    thread: u32,
    slots: &[u32],
) -> Result<Vec<u32>, AllocError>
    ensures { IfOk result (λ names. names.items ≡ numbered_threads thread slots.now) }
{
    let mut names = Vec::with_capacity(alloc, slots.len() + 1)?;
    names.push(thread)?;
    for slot in slots {
        if *slot == thread {
            continue;
        }
        names.push(*slot)?;
    }
    Ok(names)
}

// The atom with each thread by its number. More threads than 32 bits can count are answered as want of memory, which so many
// are.
pub(crate) fn with_numbers(alloc: Global, names: &[u32], atom: &Atom) -> Result<Atom, AllocError>
    ensures { IfOk result (λ new. new ≡ with_numbers names.now atom.now) }
{
    let slots = atom.threads.as_slice();
    let mut threads = Threads::new(alloc);
    for slot in slots {
        let Ok(number) = u32::try_from(place_in(names, *slot)) else {
            return Err(AllocError);
        };
        threads.push(number)?;
    }
    Ok(Atom {
        predicate: atom.predicate,
        threads,
    })
}

// The place of the thread, or their number where it isn't there.
fn place_in(names: &[u32], thread: u32) -> usize
    ensures { result ≡ place_in names.now thread }
{
    for place in 0..names.len() {
        if names[place] == thread {
            return place;
        }
    }
    names.len()
}
