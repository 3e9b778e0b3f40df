//! The search for the first injection.
ghost use Rattle.std.specs.Prelude.{◌≡◌, ◌++◌, ◌≤◌, ◌<◌, ◌+◌, drop, length, slice_index};
ghost use Rattle.ps_config.specs.Configurations.{Configuration};
ghost use Rattle.ps_config.specs.Forms.{AreThreads};
ghost use Rattle.ps_cover.specs.inner.Rests.{Fits, HaveFailed, IsRestAnswer, IsTrial, large_of};

use crate::fits::fits;
use crate::open::is_open;
use crate::partial::Partial;
use crate::swaps::is_like_failed;
use ps_atom::Atom;
use ps_config::{Config, Few, MOST_THREADS, next_thread};

/// What comes of an image for the next thread.
#[derive(Drop)]
pub(crate) enum Trial {
    /// All threads have images.
    Found(Few),
    /// The thread can go there, but then some other one can go nowhere.
    Failed,
    /// The thread can't go there, or the image is like one that failed.
    Unfit,
}

/// The first way to go on from the images so far, or none.
#[cycle(search)]
pub(crate) fn search(
    small: &Config,
    at: &[(u32, u32)],
    atoms: &[Atom],
    partial: &Partial,
    left: &[u32],
) -> Option<Few>
    requires threads { AreThreads small.now (partial.now.threads ++ left.now) }
    requires few { length partial.now.threads + length left.now ≤ MOST_THREADS }
    requires fits { Fits small.now (large_of at.now atoms.now) partial.now.threads partial.now.to }
    ensures { IsRestAnswer small.now (large_of at.now atoms.now) partial.now left.now result }
{
    if left.is_empty() {
        return Some(partial.to.copied());
    }
    if !is_open(small, at, atoms, partial, left) {
        return None;
    }
    let mut failed = Few::none();
    let mut from: u64 = 0;
    while let Some(image) = next_thread(at, atoms, from) {
        from = u64::from(image) + 1;
        match attempt(small, at, atoms, partial, left, &failed, image) {
            Trial::Found(all) => return Some(all),
            Trial::Failed => failed = failed.noted(image),
            Trial::Unfit => {}
        }
    }
    None
}

/// The first way to go on with this image for the next thread, or none.
#[cycle(search)]
fn attempt(
    small: &Config,
    at: &[(u32, u32)],
    atoms: &[Atom],
    partial: &Partial,
    left: &[u32],
    failed: &Few,
    image: u32,
) -> Trial
    requires threads { AreThreads small.now (partial.now.threads ++ left.now) }
    requires few { length partial.now.threads + length left.now ≤ MOST_THREADS }
    requires fits { Fits small.now (large_of at.now atoms.now) partial.now.threads partial.now.to }
    requires some { 0 < length left.now }
    requires failed { HaveFailed small.now (large_of at.now atoms.now) partial.now
        (slice_index left.now 0)
        failed.now }
    ensures { IsTrial small.now (large_of at.now atoms.now) partial.now left.now image result }
{
    let thread = left[0];
    if !fits(small, at, atoms, partial, thread, image) {
        return Trial::Unfit;
    }
    if is_like_failed(at, atoms, failed.as_slice(), image) {
        return Trial::Unfit;
    }
    match search(
        small,
        at,
        atoms,
        &partial.with(thread, image),
        after_first(left),
    ) {
        Some(all) => Trial::Found(all),
        None => Trial::Failed,
    }
}

fn after_first(threads: &[u32]) -> &[u32]
    requires { 0 < length threads.now }
    ensures { result.now ≡ drop 1 threads.now }
{
    &threads[1..]
}
