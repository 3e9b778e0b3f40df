//! Which injection is the first: a case is `SMALL in LARGE gives IMAGES`, or `none`.
use crate::text::{Lists, config, numbers};
use ps_atom::{Atom, Threads};
use ps_cover::{Injection, covers, covers_lists};
use std::alloc::{AllocError, Global};
use std::test::Fail;

// Whether these are the images.
fn is_answer(alloc: Global, found: Option<Injection>, images: &str) -> Result<bool, AllocError> {
    let Some(found) = found else {
        return Ok(images == "none");
    };
    let all = numbers(alloc, images, ' ')?;
    let count = found.count as usize;
    Ok(count == all.len() && found.to.starts_with(all.as_slice()))
}

fn is_right(alloc: Global, small: &str, large: &str, images: &str) -> Result<bool, AllocError> {
    let Some(small) = config(alloc, small)? else {
        return Ok(false);
    };
    let Some(large) = config(alloc, large)? else {
        return Ok(false);
    };
    is_answer(alloc, covers(&small, &large), images)
}

// Whether the case holds.
fn holds(alloc: Global, case: &str) -> Result<bool, AllocError> {
    let Some((small, rest)) = case.split_once(" in ") else {
        return Ok(false);
    };
    let Some((large, images)) = rest.split_once(" gives ") else {
        return Ok(false);
    };
    is_right(alloc, small, large, images)
}

fn all_hold(alloc: Global, cases: &str) -> Result<bool, AllocError> {
    for case in cases.lines() {
        if !holds(alloc, case)? {
            return Ok(false);
        }
    }
    Ok(true)
}

const LOCATED: &str = "0:3 1:3 in 0:3 gives none
0:0 2 in 0:3 1:0 2 gives 1
0:1 0 in 0:1 0 gives 0
0:3 in 0:4 gives none
0:3 in 1:3 2:3 gives 1
0:3 1:3 in 4:3 5:3 6:3 gives 4 5
5:3 9:4 in 0:4 1:3 2:4 gives 1 0
63:3 in 4294967295:3 gives 4294967295
0:3 1:3 2:4 in 0:3 1:4 2:4 gives none";

const ATOMS: &str = "0:3 2 in 0:3 3 gives none
2 3 in 2 gives none
0:3 4/0/5 in 1:3 7:2 4/1/7 gives 1 7
0:3 4/0/5 in 1:3 7:2 4/7/1 gives none
5/0/1/2/3 in 5/3/2/1/0 gives 3 2 1 0
5/0/1/2/0 in 5/3/2/1/0 gives none
1/0 in 0:3 1/0 gives 0
0:3 1/0 in 0:3 1:3 1/1 gives 1
0:3 1:3 1/0 2/1 in 0:3 1:3 1/0 2/0 gives none
0:3 1:3 1/0 2/1 in 0:3 1:3 2:3 1/0 1/1 2/0 gives 1 0
1/0/1 1/1/2 1/2/0 in 1/0/1 1/1/0 1/2/3 1/3/4 1/4/2 gives 2 3 4
1/0/1 1/1/2 1/2/0 in 1/0/1 1/1/0 1/2/3 1/3/4 1/4/5 gives none
1/0/1 1/1/2 1/2/0 in 1/0/1 1/1/0 1/3/4 1/4/5 1/5/3 gives 3 4 5
1/0 2/1 in 1/4 2/3 2/4 gives 4 3
1/4294967295 in 1/0 gives 0";

#[test]
fn finds_located_threads(rt: HostRuntime) -> Result<(), Fail> {
    assert!(rt; all_hold(rt.alloc(), LOCATED)?);
    Ok(())
}

#[test]
fn finds_atoms(rt: HostRuntime) -> Result<(), Fail> {
    assert!(rt; all_hold(rt.alloc(), ATOMS)?);
    Ok(())
}

// Forty threads at five locations in turn, each with five atoms.
fn many(alloc: Global) -> Result<Lists, AllocError> {
    let mut at = Vec::new(alloc);
    let mut atoms = Vec::new(alloc);
    for thread in 0..40u32 {
        at.push((thread, thread % 5))?;
    }
    for predicate in 0..5u32 {
        for thread in 0..40u32 {
            let threads = Threads::from_slice(alloc, &[thread])?;
            atoms.push(Atom { predicate, threads })?;
        }
    }
    Ok(Lists { at, atoms })
}

fn in_many(alloc: Global, small: &str, images: &str) -> Result<bool, AllocError> {
    let Some(small) = config(alloc, small)? else {
        return Ok(false);
    };
    let large = many(alloc)?;
    is_answer(
        alloc,
        covers_lists(&small, large.at.as_slice(), large.atoms.as_slice()),
        images,
    )
}

#[test]
fn finds_threads_among_many(rt: HostRuntime) -> Result<(), Fail> {
    let alloc = rt.alloc();
    assert!(rt; in_many(alloc, "0:3 1:3 0/0 4/1", "3 8")?);
    assert!(rt;
        in_many(
            alloc,
            "0:4 1:4 2:4 3:4 4:4 5:4 6:4 7:4 4/0 4/7",
            "4 9 14 19 24 29 34 39"
        )?
    );
    assert!(rt; in_many(alloc, "0:4 1:4 2:4 3:4 4:4 5:4 6:4 7:4 8:4", "none")?);
    assert!(rt; in_many(alloc, "7/0", "none")?);
    Ok(())
}
