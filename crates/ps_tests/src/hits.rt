//! Hitting sets up to the most that are asked for.
use ps_hit::{Hits, minimal_hits};
use std::alloc::{AllocError, Global};
use std::test::Fail;

// The pairs 0 1, 2 3 and so on, of which each choice of one number a pair is a minimal hitting set.
fn pairs(alloc: Global, count: u32) -> Result<Vec<Vec<u32>>, AllocError> {
    let mut all = Vec::new(alloc);
    for pair in 0..count.min(16) {
        all.push(Vec::from_slice(alloc, &[2 * pair, 2 * pair + 1])?)?;
    }
    Ok(all)
}

// How many hitting sets there are of so many pairs, if there are no more than the most.
fn count(alloc: Global, count: u32, most: u32) -> Result<Option<usize>, AllocError> {
    match minimal_hits(alloc, pairs(alloc, count)?.as_slice(), most)? {
        Hits::All(lists) => Ok(Some(lists.into_list().len())),
        Hits::TooMany => Ok(None),
    }
}

#[test]
fn stops_past_the_most(rt: HostRuntime) -> Result<(), Fail> {
    assert!(rt; count(rt.alloc(), 10, 1024)? == Some(1024));
    assert!(rt; count(rt.alloc(), 10, 1023)?.is_none());
    assert!(rt; count(rt.alloc(), 11, 1024)?.is_none());
    Ok(())
}
