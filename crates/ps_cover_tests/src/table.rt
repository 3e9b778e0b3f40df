//! Three hundred generated pairs, compared with the slow search.
use crate::slow::first;
use crate::text::{Lists, config_of};
use ps_atom::{Atom, Threads};
use ps_cover::covers_lists;
use std::alloc::{AllocError, Global};
use std::collections::BTreeSet;
use std::test::Fail;

fn next(state: u64) -> u64 {
    state
        .wrapping_mul(6_364_136_223_846_793_005)
        .wrapping_add(1_442_695_040_888_963_407)
}

fn below(state: u64, bound: u32) -> u32 {
    ((state >> 33) as u32) % bound.max(1)
}

/// Atoms from their predicates, each followed by its threads.
fn atoms_of(alloc: Global, keys: &BTreeSet<Vec<u32>>) -> Result<Vec<Atom>, AllocError> {
    let mut atoms = Vec::new(alloc);
    for key in keys.iter() {
        if let Some((predicate, threads)) = key.as_slice().split_first() {
            let threads = Threads::from_slice(alloc, threads)?;
            atoms.push(Atom {
                predicate: *predicate,
                threads,
            })?;
        }
    }
    Ok(atoms)
}

/// Up to so many atoms of none, one or two threads.
fn some_atoms(alloc: Global, seed: u64, count: u32, threads: u32) -> Result<Vec<Atom>, AllocError> {
    let mut state = next(next(seed));
    let mut keys = BTreeSet::new(alloc);
    for _atom in 0..count.min(8) {
        state = next(state);
        let predicate = below(state, 5);
        let mut key = Vec::new(alloc);
        key.push(predicate)?;
        for _slot in 0..predicate % 3 {
            state = next(state);
            key.push(below(state, threads))?;
        }
        keys.insert(key)?;
    }
    atoms_of(alloc, &keys)
}

/// Some of so many threads at two locations, and some atoms.
fn some_lists(alloc: Global, seed: u64, atoms: u32, threads: u32) -> Result<Lists, AllocError> {
    let mut state = next(seed);
    let mut at = Vec::new(alloc);
    for thread in 0..threads.min(8) {
        state = next(state);
        if below(state, 3) < 2 {
            at.push((thread, 3 + below(next(state), 2).min(1)))?;
        }
    }
    let atoms = some_atoms(alloc, state, atoms, threads)?;
    Ok(Lists { at, atoms })
}

/// Whether both searches find the same, and whether they find one.
fn agree(alloc: Global, seed: u64) -> Result<(bool, bool), AllocError> {
    let small = some_lists(alloc, seed, 2, 3)?;
    let large = some_lists(alloc, seed.wrapping_add(1_000_000), 7, 5)?;
    let Some(small) = config_of(small) else {
        return Ok((false, false));
    };
    let (at, atoms) = (large.at.as_slice(), large.atoms.as_slice());
    let slow = first(alloc, &small, at, atoms)?;
    let found = covers_lists(&small, at, atoms);
    match (slow, found) {
        (Some(all), Some(found)) => Ok((
            found.to.starts_with(all.as_slice()) && found.count as usize == all.len(),
            true,
        )),
        (None, None) => Ok((true, false)),
        (Some(_), None) => Ok((false, true)),
        (None, Some(_)) => Ok((false, true)),
    }
}

/// How many pairs are found, where both searches always agree.
fn found(alloc: Global, pairs: u64) -> Result<Option<u32>, AllocError> {
    let mut found: u32 = 0;
    for seed in 0..pairs.min(1000) {
        let (same, is_found) = agree(alloc, seed)?;
        if !same {
            return Ok(None);
        }
        found = found.wrapping_add(u32::from(is_found));
    }
    Ok(Some(found))
}

#[test]
fn agrees_with_the_slow_search(rt: HostRuntime) -> Result<(), Fail> {
    let found = found(rt.alloc(), 300)?.unwrap_or(0);
    assert!(rt; found > 30);
    assert!(rt; found < 270);
    Ok(())
}
