//! The triples that may demand something for atoms, whichever thread runs.
ghost use Rattle.std.specs.Prelude.{◌≡◌, ◌++◌, IfOk, OnOk, map};
ghost use Rattle.std.specs.List.{filter};
ghost use Rattle.ps_demand.specs.Candidates.{candidates, entries_of, is_for, pairs_of};

use crate::candidate::Candidate;
use ps_atom::Atom;
use ps_basis::Shown;
use ps_triple::Entry;
use std::alloc::{AllocError, Global};

/// For each atom in order, the triples in order that have the command and, as their atom after, its predicate. It takes a
/// look-up for each predicate and one for each triple that is found, if atoms of one predicate stand together, as those of a
/// configuration do, whatever threads are tried with them.
pub fn candidates_of<'a, B: Shown>(
    alloc: Global,
    basis: &'a B,
    atoms: &'a [Atom],
    command: u32,
) -> Result<Vec<Candidate<'a>>, AllocError>
    ensures { IfOk result (λ found.
        pairs_of found.items ≡ candidates (B.entries basis.now) atoms.now command) }
{
    let mut found = Vec::with_capacity(alloc, atoms.len())?;
    let mut known = Vec::new(alloc);
    let mut predicate = None;
    for atom in atoms {
        if predicate != Some(atom.predicate) {
            known.clear();
            add_triples(basis, atom.predicate, command, &mut known)?;
            predicate = Some(atom.predicate);
        }
        add_candidates(atom, known.as_slice(), &mut found)?;
    }
    Ok(found)
}

/// Adds the triples that have the command and, as their atom after, this predicate.
fn add_triples<'a, B: Shown>(
    basis: &'a B,
    post: u32,
    command: u32,
    known: &mut Vec<&'a Entry>,
) -> Result<(), AllocError>
    ensures { OnOk result (entries_of known.new.items
        ≡ entries_of known.old.items ++ filter (is_for command post) (B.entries basis.now)) }
{
    // The count bounds the numbers of entries.
    let _count = basis.count();
    let mut from: u32 = 0;
    while let Some(n) = basis.next_for(post, command, from) {
        known.push(basis.entry(n))?;
        from = n + 1;
    }
    Ok(())
}

/// Adds the atom with each of the triples.
fn add_candidates<'a>(
    atom: &'a Atom,
    known: &[&'a Entry],
    found: &mut Vec<Candidate<'a>>,
) -> Result<(), AllocError>
    ensures { OnOk result (pairs_of found.new.items
        ≡ pairs_of found.old.items ++ map (λ e. (atom.now, e)) (entries_of known.now)) }
{
    for entry in known {
        found.push(Candidate {
            atom,
            entry: *entry,
        })?;
    }
    Ok(())
}
