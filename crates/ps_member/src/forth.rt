// From the first letter of a trace to the last: which atoms are given.
ghost use Rattle.std.specs.Prelude.{◌≡◌, ◌↔◌, IfOk, IsTrue, map};
ghost use Rattle.std.specs.List.{filter};
ghost use Rattle.std.specs.List.Sorted.{IsStrictlySortedBy};
ghost use Rattle.ps_atom.specs.Atoms.{atom_cmp};
ghost use Rattle.ps_basis.specs.Demands.{IsGiven};
ghost use Rattle.ps_demand.specs.Demands.{AreTied};
ghost use Rattle.ps_member.specs.inner.Known.{is_initial_in, is_met};
ghost use Rattle.ps_member.specs.inner.Walks.{IsWalk, letter_of};
ghost use Rattle.ps_triple.specs.Entries.{false_atom};

use crate::cut::{Cut, Walk};
use crate::known::{is_initial, is_met};
use ps_atom::Atom;
use ps_basis::Shown;
use std::alloc::{AllocError, Global};

// Those whose predicate has an initial entry.
fn initial_among<B: Shown>(
    alloc: Global,
    basis: &B,
    atoms: Vec<Atom>,
) -> Result<Vec<Atom>, AllocError>
    ensures { IfOk result (λ known.
        known.items ≡ filter (is_initial_in (B.entries basis.now)) atoms.items) }
{
    let mut known = Vec::with_capacity(alloc, atoms.len())?;
    for atom in atoms {
        if !is_initial(basis, &atom) {
            continue;
        }
        known.push(atom)?;
    }
    Ok(known)
}

// Those after the letter of which some demand is known.
fn given_after<B: Shown>(
    alloc: Global,
    basis: &B,
    cut: Cut,
    known: &[Atom],
) -> Result<Vec<Atom>, AllocError>
    requires { IsStrictlySortedBy atom_cmp known.now }
    ensures { IfOk result (λ given. given.items
        ≡ filter (is_met (B.entries basis.now) cut.thread cut.command known.now) cut.after.items) }
{
    let Cut {
        thread,
        command,
        after,
    } = cut;
    let mut given = Vec::with_capacity(alloc, after.len())?;
    for atom in after {
        if !is_met(alloc, basis, known, &atom, thread, command)? {
            continue;
        }
        given.push(atom)?;
    }
    Ok(given)
}

// Whether the letters of the walk give false.
pub(crate) fn gives_false<B: Shown>(
    alloc: Global,
    basis: &B,
    walk: Walk,
) -> Result<bool, AllocError>
    requires tied { AreTied (B.entries basis.now) }
    requires walk { IsWalk (B.entries basis.now) walk }
    ensures { IfOk result (λ yes. IsTrue yes
        ↔ IsGiven (B.entries basis.now) (map letter_of walk.cuts.items) false_atom) }
{
    let Walk { mut cuts, first } = walk;
    let mut known = initial_among(alloc, basis, first)?;
    while let Some(cut) = cuts.pop() {
        known = given_after(alloc, basis, cut, known.as_slice())?;
    }
    Ok(!known.is_empty())
}
