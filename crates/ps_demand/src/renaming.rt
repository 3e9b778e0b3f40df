//! The renaming that takes a triple's post to an atom, and its thread 0 to a thread.
ghost use Rattle.std.specs.Prelude.{◌≡◌, ◌∷◌, ◌++◌, IfOk, OnOk, length, map};
ghost use Rattle.std.specs.List.{filter, filter_map};
ghost use Rattle.std.specs.Option.{option_to_list};
ghost use Rattle.ps_atom.specs.Atoms.{renamed};
ghost use Rattle.ps_config.specs.Sent.{sent};
ghost use Rattle.ps_demand.specs.Candidates.{has_no_only, only_atom};
ghost use Rattle.ps_demand.specs.Demands.{agrees, is_renaming, demand};
ghost use Rattle.ps_demand.specs.Pools.{lists_of};

use crate::candidate::Candidate;
use crate::parted::Parted;
use ps_atom::{Atom, Threads};
use ps_triple::Entry;
use std::alloc::{AllocError, Global};

/// Whether of this number and its image, and of each other and its, the numbers are one exactly where
/// the images are.
fn agrees_with(number: u32, image: u32, numbers: &[u32], images: &[u32]) -> bool
    requires { length numbers.now ≡ length images.now }
    ensures { result ≡ agrees number image numbers.now images.now }
{
    for (at, other) in numbers.iter().enumerate() {
        if (number == *other) != (image == images[at]) {
            return false;
        }
    }
    true
}

/// Whether the numbers go one to one to the images.
fn is_one_to_one(numbers: &[u32], images: &[u32]) -> bool
    requires { length numbers.now ≡ length images.now }
    ensures { result ≡ is_renaming numbers.now images.now }
{
    for (at, number) in numbers.iter().enumerate() {
        if !agrees_with(*number, images[at], &numbers[at + 1..], &images[at + 1..]) {
            return false;
        }
    }
    true
}

/// The same with thread 0 and its image in front.
pub fn renames(thread: u32, numbers: &[u32], images: &[u32]) -> bool
    ensures { result ≡ is_renaming (0 ∷ numbers.now) (thread ∷ images.now) }
{
    if numbers.len() != images.len() {
        return false;
    }
    agrees_with(0, thread, numbers, images) && is_one_to_one(numbers, images)
}

/// Where a thread goes: 0 to the mover, another to the image at its place.
pub fn image_of(thread: u32, numbers: &[u32], images: &[u32], number: u32) -> u32
    requires { length numbers.now ≡ length images.now }
    ensures { result ≡ sent (0 ∷ numbers.now) (thread ∷ images.now) number }
{
    if number == 0 {
        return thread;
    }
    for (at, other) in numbers.iter().enumerate() {
        if *other == number {
            return images[at];
        }
    }
    number
}

fn renamed_atom(
    alloc: Global,
    thread: u32,
    numbers: &[u32],
    images: &[u32],
    atom: &Atom,
) -> Result<Atom, AllocError>
    requires { length numbers.now ≡ length images.now }
    ensures { IfOk result (λ new.
        new ≡ renamed (sent (0 ∷ numbers.now) (thread ∷ images.now)) atom.now) }
{
    let mut threads = Threads::new(alloc);
    for number in atom.threads.as_slice() {
        threads.push(image_of(thread, numbers, images, *number))?;
    }
    Ok(Atom {
        predicate: atom.predicate,
        threads,
    })
}

fn renamed_atoms(
    alloc: Global,
    thread: u32,
    numbers: &[u32],
    images: &[u32],
    atoms: &[Atom],
) -> Result<Vec<Atom>, AllocError>
    requires { length numbers.now ≡ length images.now }
    ensures { IfOk result (λ new. new.items
        ≡ map (renamed (sent (0 ∷ numbers.now) (thread ∷ images.now))) atoms.now) }
{
    let mut new = Vec::with_capacity(alloc, atoms.len())?;
    for atom in atoms {
        new.push(renamed_atom(alloc, thread, numbers, images, atom)?)?;
    }
    Ok(new)
}

/// Adds what the candidate demands where the thread runs the command, if it demands anything.
pub(crate) fn add_demand<'a>(
    alloc: Global,
    candidate: Candidate<'a>,
    thread: u32,
    command: u32,
    sets: &mut Vec<Vec<Atom>>,
) -> Result<(), AllocError>
    ensures { OnOk result (lists_of sets.new.items ≡ lists_of sets.old.items
        ++ option_to_list (demand thread command candidate.entry.atom.now candidate.entry.entry.now)) }
{
    match candidate.entry {
        Entry::Triple(triple) => {
            let numbers = triple.post.threads.as_slice();
            let images = candidate.atom.threads.as_slice();
            if triple.command == command
                && triple.post.predicate == candidate.atom.predicate
                && renames(thread, numbers, images)
            {
                sets.push(renamed_atoms(alloc, thread, numbers, images, triple.pre.as_slice())?)?;
            }
            Ok(())
        }
        Entry::Initial(_) => Ok(()),
    }
}

/// Adds what the candidate demands where the thread runs the command, if it demands anything: an atom that is demanded alone,
/// or another set.
pub(crate) fn add_parted<'a>(
    alloc: Global,
    candidate: Candidate<'a>,
    thread: u32,
    command: u32,
    parted: &mut Parted,
) -> Result<(), AllocError>
    ensures alone { OnOk result (parted.new.alone.items ≡ parted.old.alone.items
        ++ filter_map only_atom (option_to_list (demand thread command candidate.entry.atom.now candidate.entry.entry.now))) }
    ensures others { OnOk result (lists_of parted.new.others.items ≡ lists_of parted.old.others.items
        ++ filter has_no_only (option_to_list (demand thread command candidate.entry.atom.now candidate.entry.entry.now))) }
{
    match candidate.entry {
        Entry::Triple(triple) => {
            let numbers = triple.post.threads.as_slice();
            let images = candidate.atom.threads.as_slice();
            if triple.command != command
                || triple.post.predicate != candidate.atom.predicate
                || !renames(thread, numbers, images)
            {
                return Ok(());
            }
            let pre = triple.pre.as_slice();
            if pre.len() == 1 {
                parted
                    .alone
                    .push(renamed_atom(alloc, thread, numbers, images, &pre[0])?)?;
            } else {
                parted
                    .others
                    .push(renamed_atoms(alloc, thread, numbers, images, pre)?)?;
            }
            Ok(())
        }
        Entry::Initial(_) => Ok(()),
    }
}
