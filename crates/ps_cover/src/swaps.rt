//! Threads of the larger configuration that can be swapped.
ghost use Rattle.std.specs.Prelude.{◌≡◌};
ghost use Rattle.std.specs.List.{list_all, list_any};
ghost use Rattle.ps_cover.specs.inner.Swaps.{atom_swaps, maps_swapped, place_swaps, swap_keeps, swap_maps, swapped};

use crate::fits::{has, has_place};
use ps_atom::Atom;

/// Whether the image differs by a mere swap of two threads from one of those that failed.
pub(crate) fn is_like_failed(at: &[(u32, u32)], atoms: &[Atom], failed: &[u32], image: u32) -> bool
    ensures { result ≡ list_any (λ other. swap_keeps at.now atoms.now other image) failed.now }
{
    failed
        .iter()
        .any(|other| are_alike(at, atoms, *other, image))
}

/// Whether the configuration stays the same where the two threads are swapped.
fn are_alike(at: &[(u32, u32)], atoms: &[Atom], one: u32, other: u32) -> bool
    ensures { result ≡ swap_keeps at.now atoms.now one other }
{
    keeps_places(at, one, other) && keeps_atoms(atoms, one, other)
}

fn keeps_places(at: &[(u32, u32)], one: u32, other: u32) -> bool
    ensures { result ≡ list_all (place_swaps at.now one other) at.now }
{
    at.iter().all(|place| keeps_place(at, one, other, *place))
}

fn keeps_atoms(atoms: &[Atom], one: u32, other: u32) -> bool
    ensures { result ≡ list_all (atom_swaps atoms.now one other) atoms.now }
{
    atoms.iter().all(|atom| keeps_atom(atoms, one, other, atom))
}

/// The other one of the two; any third thread stays.
fn swapped_thread(one: u32, other: u32, thread: u32) -> u32
    ensures { result ≡ swapped one other thread }
{
    if thread == one {
        other
    } else if thread == other {
        one
    } else {
        thread
    }
}

fn keeps_place(at: &[(u32, u32)], one: u32, other: u32, place: (u32, u32)) -> bool
    ensures { result ≡ place_swaps at.now one other place }
{
    let thread = swapped_thread(one, other, place.0);
    thread == place.0 || has_place(at, thread, place.1)
}

/// Whether the second threads are the first with the two swapped.
fn are_swapped(one: u32, other: u32, threads: &[u32], others: &[u32]) -> bool
    ensures { result ≡ maps_swapped one other threads.now others.now }
{
    if threads.len() != others.len() {
        return false;
    }
    for (at, thread) in threads.iter().enumerate() {
        if swapped_thread(one, other, *thread) != others[at] {
            return false;
        }
    }
    true
}

fn is_swapped(one: u32, other: u32, atom: &Atom, second: &Atom) -> bool
    ensures { result ≡ swap_maps one other atom.now second.now }
{
    atom.predicate == second.predicate
        && are_swapped(
            one,
            other,
            atom.threads.as_slice(),
            second.threads.as_slice(),
        )
}

fn has_swapped(atoms: &[Atom], one: u32, other: u32, atom: &Atom) -> bool
    ensures { result ≡ list_any (swap_maps one other atom.now) atoms.now }
{
    atoms
        .iter()
        .any(|second| is_swapped(one, other, atom, second))
}

fn keeps_atom(atoms: &[Atom], one: u32, other: u32, atom: &Atom) -> bool
    ensures { result ≡ atom_swaps atoms.now one other atom.now }
{
    let threads = atom.threads.as_slice();
    !(has(threads, one) || has(threads, other)) || has_swapped(atoms, one, other, atom)
}
