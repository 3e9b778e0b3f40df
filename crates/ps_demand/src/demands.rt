//! The demands of a step.
ghost use Rattle.std.specs.Prelude.{◌≡◌, IfOk};
ghost use Rattle.ps_demand.specs.Candidates.{demanded_of, pairs_of};
ghost use Rattle.ps_demand.specs.Demands.{demands};
ghost use Rattle.ps_demand.specs.Pools.{lists_of};

use crate::candidate::Candidate;
use crate::candidates::candidates_of;
use crate::renaming::add_demand;
use ps_atom::Atom;
use ps_basis::Shown;
use std::alloc::{AllocError, Global};

/// For each atom in order, and each triple in order that can be renamed to have it as its post and the
/// command by the thread, the pre of the triple so renamed.
pub fn demands_of<B: Shown>(
    alloc: Global,
    basis: &B,
    atoms: &[Atom],
    thread: u32,
    command: u32,
) -> Result<Vec<Vec<Atom>>, AllocError>
    ensures { IfOk result (λ sets.
        lists_of sets.items ≡ demands (B.entries basis.now) atoms.now thread command) }
{
    let candidates = candidates_of(alloc, basis, atoms, command)?;
    let sets = demands_by(alloc, candidates.as_slice(), thread, command)?;
    Ok(sets)
}

/// What the candidates demand where the thread runs the command.
fn demands_by<'a>(
    alloc: Global,
    candidates: &[Candidate<'a>],
    thread: u32,
    command: u32,
) -> Result<Vec<Vec<Atom>>, AllocError>
    ensures { IfOk result (λ sets.
        lists_of sets.items ≡ demanded_of thread command (pairs_of candidates.now)) }
{
    let mut sets = Vec::with_capacity(alloc, candidates.len())?;
    for candidate in candidates {
        add_demand(alloc, *candidate, thread, command, &mut sets)?;
    }
    Ok(sets)
}
