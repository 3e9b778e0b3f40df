//! The threads that occur in a configuration, in ascending order.
ghost use Rattle.std.specs.Prelude.{◌≡◌, ◌↔◌, ◌==◌, IsTrue, Contains, map};
ghost use Rattle.std.specs.List.{list_any};
ghost use Rattle.ps_config.specs.Configurations.{threads_at};
ghost use Rattle.ps_config.specs.Forms.{AreThreads, HasThreadCount, IsConfig, IsFresh};
ghost use Rattle.ps_config.specs.Next.{IsNextThread};
ghost use Rattle.ps_config.specs.inner.Best.{better_of, least_of};
ghost use Rattle.ps_config.specs.inner.Located.{are_all_located, are_located};

use crate::few::Few;
use crate::form::threads_ascend;
use ps_atom::Atom;

/// The least thread from a number on that occurs among threads with locations and in atoms, in one
/// pass over both.
pub fn next_thread(at: &[(u32, u32)], atoms: &[Atom], from: u64) -> Option<u32>
    ensures { IsNextThread (threads_at (record { at = at.now; atoms = atoms.now })) from result }
{
    let mut best = next_located(at, from);
    for atom in atoms {
        best = least(best, next_number(atom.threads.as_slice(), from));
    }
    best
}

fn next_located(at: &[(u32, u32)], from: u64) -> Option<u32>
    ensures { IsNextThread (map (λ p. p.0) at.now) from result }
{
    let mut best = None;
    for place in at {
        best = better(best, place.0, from);
    }
    best
}

/// The least of the numbers from a number on, in one pass.
pub fn next_number(numbers: &[u32], from: u64) -> Option<u32>
    ensures { IsNextThread numbers.now from result }
{
    let mut best = None;
    for number in numbers {
        best = better(best, *number, from);
    }
    best
}

/// The best so far, or one more number where it is better.
fn better(best: Option<u32>, number: u32, from: u64) -> Option<u32>
    ensures { result ≡ better_of best number from }
{
    if u64::from(number) < from {
        return best;
    }
    least(best, Some(number))
}

fn least(one: Option<u32>, other: Option<u32>) -> Option<u32>
    ensures { result ≡ least_of one other }
{
    match one {
        None => other,
        Some(a) => match other {
            None => Some(a),
            Some(b) => Some(a.min(b)),
        },
    }
}

/// The threads of a configuration, ascending, in one pass over both for each.
pub fn threads_in(at: &[(u32, u32)], atoms: &[Atom]) -> Few
    requires { IsConfig (record { at = at.now; atoms = atoms.now }) }
    ensures { AreThreads (record { at = at.now; atoms = atoms.now }) result }
{
    let mut threads = Few::none();
    let mut from: u64 = 0;
    while let Some(thread) = next_thread(at, atoms, from) {
        threads = threads.with(thread);
        from = u64::from(thread) + 1;
    }
    threads
}

/// How many threads occur among threads with locations and in atoms: where those with locations ascend,
/// and no other is in an atom, as is most common, in time of the threads of atoms and the locations, and
/// else in one pass over both for each thread.
pub fn thread_count(at: &[(u32, u32)], atoms: &[Atom]) -> usize
    ensures { HasThreadCount (record { at = at.now; atoms = atoms.now }) result }
{
    if threads_ascend(at) && are_all_located(at, atoms) {
        return at.len();
    }
    counted(at, atoms)
}

/// Whether the thread has a location.
pub fn is_located(at: &[(u32, u32)], thread: u32) -> bool
    ensures { result ≡ list_any (λ p. p.0 == thread) at.now }
{
    at.iter().any(|place| place.0 == thread)
}

fn are_located(at: &[(u32, u32)], threads: &[u32]) -> bool
    ensures { result ≡ are_located at.now threads.now }
{
    threads.iter().all(|thread| is_located(at, *thread))
}

fn are_all_located(at: &[(u32, u32)], atoms: &[Atom]) -> bool
    ensures { result ≡ are_all_located at.now atoms.now }
{
    atoms
        .iter()
        .all(|atom| are_located(at, atom.threads.as_slice()))
}

fn counted(at: &[(u32, u32)], atoms: &[Atom]) -> usize
    ensures { HasThreadCount (record { at = at.now; atoms = atoms.now }) result }
{
    let mut count: usize = 0;
    let mut from: u64 = 0;
    while let Some(thread) = next_thread(at, atoms, from) {
        count += 1;
        from = u64::from(thread) + 1;
    }
    count
}

fn occurs(at: &[(u32, u32)], atoms: &[Atom], thread: u32) -> bool
    ensures { IsTrue result ↔ Contains
        (threads_at (record { at = at.now; atoms = atoms.now })) thread }
{
    match next_thread(at, atoms, u64::from(thread)) {
        Some(next) => next == thread,
        None => false,
    }
}

/// The least number that is no thread's, in a pass for each thread below it.
pub(crate) fn fresh_thread(at: &[(u32, u32)], atoms: &[Atom]) -> u32
    requires { IsConfig (record { at = at.now; atoms = atoms.now }) }
    ensures { IsFresh (record { at = at.now; atoms = atoms.now }) result }
{
    let mut thread: u32 = 0;
    while occurs(at, atoms, thread) {
        thread += 1;
    }
    thread
}
