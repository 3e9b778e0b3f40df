//! The first injection by trying all lists of images in lexicographic order, with the contract of
//! `covers_lists`.
ghost use Rattle.std.specs.Prelude.{◌≡◌, ◌+◌, ◌++◌, ◌∷◌, [], length, IfOk, IfSome, IfNone};
ghost use Rattle.ps_config.specs.Configurations.{Configuration, Covers};
ghost use Rattle.ps_config.specs.Forms.{AreThreads};
ghost use Rattle.ps_cover.specs.Coverings.{IsCovering, IsFirstInjection};
ghost use Rattle.ps_cover_tests.specs.Trials.{HasNone, IsLeast};

use crate::embeds::embeds;
use ps_atom::Atom;
use ps_config::{Config, next_thread};
use std::alloc::{AllocError, Global};

/// The images of the first injection.
pub fn first(
    alloc: Global,
    small: &Config,
    at: &[(u32, u32)],
    atoms: &[Atom],
) -> Result<Option<Vec<u32>>, AllocError>
    ensures some { IfOk result (λ answer. IfSome answer
        (λ to. IsFirstInjection small.now (record { at = at.now; atoms = atoms.now }) to.items)) }
    ensures none { IfOk result (λ answer. IfNone answer
        (¬ Covers small.now (record { at = at.now; atoms = atoms.now }))) }
{
    let threads = threads_in(alloc, small.at(), small.atoms())?;
    let left = threads.len();
    let answer = first_from(alloc, small, at, atoms, threads.as_slice(), &[], left)?;
    Ok(answer)
}

/// The threads that occur, ascending.
fn threads_in(alloc: Global, at: &[(u32, u32)], atoms: &[Atom]) -> Result<Vec<u32>, AllocError>
    ensures { IfOk result
        (λ threads. AreThreads (record { at = at.now; atoms = atoms.now }) threads.items) }
{
    let mut threads = Vec::new(alloc);
    let mut from: u64 = 0;
    while let Some(thread) = next_thread(at, atoms, from) {
        threads.push(thread)?;
        from = u64::from(thread) + 1;
    }
    Ok(threads)
}

/// The first list that begins with these images, has so many more, and embeds.
fn first_from(
    alloc: Global,
    small: &Config,
    at: &[(u32, u32)],
    atoms: &[Atom],
    threads: &[u32],
    to: &[u32],
    left: usize,
) -> Result<Option<Vec<u32>>, AllocError>
    requires threads { AreThreads small.now threads.now }
    requires long { length to.now + left ≡ length threads.now }
    ensures some { IfOk result (λ answer. IfSome answer (λ all. IsLeast small.now
        (record { at = at.now; atoms = atoms.now }) threads.now to.now left all.items)) }
    ensures none { IfOk result (λ answer. IfNone answer (HasNone small.now
        (record { at = at.now; atoms = atoms.now }) threads.now to.now left)) }
{
    if left == 0 {
        return at_end(alloc, small, at, atoms, threads, to);
    }
    let mut from: u64 = 0;
    while let Some(image) = next_thread(at, atoms, from) {
        let longer = with(alloc, to, image)?;
        match first_from(
            alloc,
            small,
            at,
            atoms,
            threads,
            longer.as_slice(),
            left - 1,
        )? {
            Some(all) => return Ok(Some(all)),
            None => from = u64::from(image) + 1,
        }
    }
    Ok(None)
}

fn with(alloc: Global, to: &[u32], image: u32) -> Result<Vec<u32>, AllocError>
    ensures { IfOk result (λ longer. longer.items ≡ to.now ++ image ∷ []) }
{
    let mut longer = Vec::from_slice(alloc, to)?;
    longer.push(image)?;
    Ok(longer)
}

/// The images, where each thread has one, if they embed.
fn at_end(
    alloc: Global,
    small: &Config,
    at: &[(u32, u32)],
    atoms: &[Atom],
    threads: &[u32],
    to: &[u32],
) -> Result<Option<Vec<u32>>, AllocError>
    requires threads { AreThreads small.now threads.now }
    requires long { length to.now ≡ length threads.now }
    ensures some { IfOk result (λ answer. IfSome answer (λ all. IsLeast small.now
        (record { at = at.now; atoms = atoms.now }) threads.now to.now 0 all.items)) }
    ensures none { IfOk result (λ answer. IfNone answer (HasNone small.now
        (record { at = at.now; atoms = atoms.now }) threads.now to.now 0)) }
{
    if !embeds(small, at, atoms, threads, to) {
        return Ok(None);
    }
    Ok(Some(Vec::from_slice(alloc, to)?))
}
