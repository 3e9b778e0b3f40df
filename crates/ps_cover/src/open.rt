//! Whether there may be a way to go on from some images.
ghost use Rattle.std.specs.Prelude.{◌≡◌, ◌<◌, length, Contains, IfSome};
ghost use Rattle.std.specs.Bool.{OnFalse};
ghost use Rattle.ps_config.specs.Configurations.{threads_at};
ghost use Rattle.ps_cover.specs.inner.Rests.{AllOccur, HaveFailed, IsProbe, NoWay, Waits, large_of};

use crate::fits::{fits, has};
use crate::partial::Partial;
use crate::swaps::is_like_failed;
use ps_atom::Atom;
use ps_config::{Config, Few, MOST_THREADS, next_thread};

/// What comes of an image for a thread.
#[derive(Drop)]
pub(crate) enum Probe {
    /// There may be a way to go on.
    Open,
    /// The thread can go there, but there is no way to go on.
    Closed,
    /// The thread can't go there, or the image is like one that is closed.
    Barred,
}

/// A thread, and how many threads it can go to; where these are many, some of them.
#[derive(Clone, Copy)]
pub(crate) struct Narrow {
    thread: u32,
    images: usize,
}

/// Whether there may be a way to go on from the images so far for the threads that wait: where the
/// answer is no, there is none. In each turn the thread that can go to the fewest threads is taken.
#[cycle(is_open)]
pub(crate) fn is_open(
    small: &Config,
    at: &[(u32, u32)],
    atoms: &[Atom],
    partial: &Partial,
    waiting: &[u32],
) -> bool
    requires occur { AllOccur small.now partial.now.threads }
    requires waiting { AllOccur small.now waiting.now }
    requires long { length partial.now.threads ≡ length partial.now.to }
    ensures { OnFalse result (NoWay small.now
        (large_of at.now atoms.now) partial.now.threads partial.now.to) }
{
    match narrowest(small, at, atoms, partial, waiting) {
        Some(thread) => goes_somewhere(small, at, atoms, partial, waiting, thread),
        None => true,
    }
}

/// Whether the thread may go somewhere, with a way to go on from there.
#[cycle(is_open)]
fn goes_somewhere(
    small: &Config,
    at: &[(u32, u32)],
    atoms: &[Atom],
    partial: &Partial,
    waiting: &[u32],
    thread: u32,
) -> bool
    requires occur { AllOccur small.now partial.now.threads }
    requires waiting { AllOccur small.now waiting.now }
    requires long { length partial.now.threads ≡ length partial.now.to }
    requires few { length partial.now.threads < MOST_THREADS }
    requires thread { Waits small.now partial.now.threads thread }
    ensures { OnFalse result (NoWay small.now
        (large_of at.now atoms.now) partial.now.threads partial.now.to) }
{
    let mut closed = Few::none();
    let mut from: u64 = 0;
    while let Some(image) = next_thread(at, atoms, from) {
        from = u64::from(image) + 1;
        match try_image(small, at, atoms, partial, waiting, thread, &closed, image) {
            Probe::Open => return true,
            Probe::Closed => closed = closed.noted(image),
            Probe::Barred => {}
        }
    }
    false
}

/// Whether there may be a way to go on with this image for the thread.
#[cycle(is_open)]
fn try_image(
    small: &Config,
    at: &[(u32, u32)],
    atoms: &[Atom],
    partial: &Partial,
    waiting: &[u32],
    thread: u32,
    closed: &Few,
    image: u32,
) -> Probe
    requires occur { AllOccur small.now partial.now.threads }
    requires waiting { AllOccur small.now waiting.now }
    requires long { length partial.now.threads ≡ length partial.now.to }
    requires few { length partial.now.threads < MOST_THREADS }
    requires thread { Waits small.now partial.now.threads thread }
    requires closed { HaveFailed small.now
        (large_of at.now atoms.now) partial.now thread closed.now }
    ensures { IsProbe small.now (large_of at.now atoms.now) partial.now thread image result }
{
    if !fits(small, at, atoms, partial, thread, image) {
        return Probe::Barred;
    }
    if is_like_failed(at, atoms, closed.as_slice(), image) {
        return Probe::Barred;
    }
    if is_open(small, at, atoms, &partial.with(thread, image), waiting) {
        Probe::Open
    } else {
        Probe::Closed
    }
}

/// Of the threads that wait and have no image one that can go to the fewest threads.
fn narrowest(
    small: &Config,
    at: &[(u32, u32)],
    atoms: &[Atom],
    partial: &Partial,
    waiting: &[u32],
) -> Option<u32>
    requires waiting { AllOccur small.now waiting.now }
    requires long { length partial.now.threads ≡ length partial.now.to }
    ensures few { IfSome result (λ thread. length partial.now.threads < MOST_THREADS) }
    ensures waits { IfSome result (λ thread. Waits small.now partial.now.threads thread) }
{
    if partial.threads.len() >= MOST_THREADS {
        return None;
    }
    let mut best: Option<Narrow> = None;
    for thread in waiting {
        best = narrower(small, at, atoms, partial, best, *thread);
    }
    match best {
        Some(narrow) => Some(narrow.thread),
        None => None,
    }
}

/// The thread, if it has no image yet and can go to fewer threads than the best so far; else that one.
fn narrower(
    small: &Config,
    at: &[(u32, u32)],
    atoms: &[Atom],
    partial: &Partial,
    best: Option<Narrow>,
    thread: u32,
) -> Option<Narrow>
    requires long { length partial.now.threads ≡ length partial.now.to }
    requires few { length partial.now.threads < MOST_THREADS }
    requires occurs { Contains (threads_at small.now) thread }
    requires waits { IfSome best (λ narrow. Waits small.now partial.now.threads narrow.thread) }
    ensures { IfSome result (λ narrow. Waits small.now partial.now.threads narrow.thread) }
{
    let most = images_of(best);
    if most <= 1 || has(partial.threads.as_slice(), thread) {
        return best;
    }
    let images = image_count(small, at, atoms, partial, thread, most);
    if images >= most {
        return best;
    }
    Some(Narrow { thread, images })
}

fn images_of(best: Option<Narrow>) -> usize {
    match best {
        Some(narrow) => narrow.images,
        None => usize::MAX,
    }
}

/// How many threads the thread can go to, counted up to so many. The count decides only which thread is
/// taken next, so no clause speaks of it.
fn image_count(
    small: &Config,
    at: &[(u32, u32)],
    atoms: &[Atom],
    partial: &Partial,
    thread: u32,
    most: usize,
) -> usize
    requires long { length partial.now.threads ≡ length partial.now.to }
    requires few { length partial.now.threads < MOST_THREADS }
{
    let named = if is_located(small.at(), thread) {
        &[]
    } else {
        atoms
    };
    let mut count: usize = 0;
    let mut from: u64 = 0;
    while let Some(image) = next_thread(at, named, from) {
        if count >= most {
            return count;
        }
        count = count.saturating_add(usize::from(fits(small, at, atoms, partial, thread, image)));
        from = u64::from(image) + 1;
    }
    count
}

fn is_located(at: &[(u32, u32)], thread: u32) -> bool {
    at.iter().any(|place| place.0 == thread)
}
