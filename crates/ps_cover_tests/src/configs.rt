//! The form of configurations, their fresh threads, copies and order.
use crate::text::{config, read_lists};
use ps_config::{Config, next_thread, thread_count};
use std::alloc::{AllocError, Global};
use std::cmp::Ordering;
use std::test::Fail;

fn is_config(alloc: Global, text: &str) -> Result<bool, AllocError> {
    Ok(config(alloc, text)?.is_some())
}

#[test]
fn takes_ordered_lists(rt: HostRuntime) -> Result<(), Fail> {
    let alloc = rt.alloc();
    assert!(rt; is_config(alloc, "0:1 0")?);
    assert!(rt; is_config(alloc, "3:3 63:3 1/0/7 1/0/8 1/3 2")?);
    assert!(rt;
        is_config(
            alloc,
            "0:3 1:3 2:3 3:3 4:3 5:3 6:3 7:3 8:3 9:3 10:3 4294967295:3 1/0"
        )?
    );
    Ok(())
}

#[test]
fn refuses_other_lists(rt: HostRuntime) -> Result<(), Fail> {
    let alloc = rt.alloc();
    assert!(rt; !is_config(alloc, "1:3 0:3")?);
    assert!(rt; !is_config(alloc, "0:3 0:4")?);
    assert!(rt; !is_config(alloc, "2 1")?);
    assert!(rt; !is_config(alloc, "1/0 1/0")?);
    assert!(rt;
        !is_config(
            alloc,
            "0:3 1:3 2:3 3:3 4:3 5:3 6:3 7:3 8:3 9:3 10:3 11:3 1/12"
        )?
    );
    Ok(())
}

// The least number that is no thread's.
fn fresh(alloc: Global, text: &str) -> Result<Option<u32>, AllocError> {
    Ok(config(alloc, text)?.map(|config| config.fresh()))
}

#[test]
fn finds_the_fresh_thread(rt: HostRuntime) -> Result<(), Fail> {
    let alloc = rt.alloc();
    assert!(rt; fresh(alloc, "0:1 0")? == Some(1));
    assert!(rt; fresh(alloc, "1:3 2")? == Some(0));
    assert!(rt; fresh(alloc, "0:3 1:3 4/2/3 4/5")? == Some(4));
    assert!(rt; fresh(alloc, "0:3 1:3 2:3 3:3 4:3 5:3 6:3 7:3 8:3 9:3 10:3 1/11")? == Some(12));
    Ok(())
}

// Whether a copy of the configuration is the same, and how it compares with the other.
fn order(alloc: Global, text: &str, other: &str) -> Result<Option<Ordering>, AllocError> {
    let Some(one) = config(alloc, text)? else {
        return Ok(None);
    };
    let Some(other) = config(alloc, other)? else {
        return Ok(None);
    };
    let copy = one.copy(alloc)?;
    Ok(if copy.is_same(&one) {
        Some(copy.compare(&other))
    } else {
        None
    })
}

#[test]
fn compares(rt: HostRuntime) -> Result<(), Fail> {
    let alloc = rt.alloc();
    assert!(rt; order(alloc, "0:3 1", "0:3 1")? == Some(Ordering::Equal));
    assert!(rt; order(alloc, "0:3 1", "0:3 1 2")? == Some(Ordering::Less));
    assert!(rt; order(alloc, "0:4 1", "0:3 2")? == Some(Ordering::Greater));
    assert!(rt; order(alloc, "0:3 1/4", "0:3 1/3 2")? == Some(Ordering::Greater));
    assert!(rt; order(alloc, "0:3", "0:3 1:0")? == Some(Ordering::Less));
    Ok(())
}

fn is_start(alloc: Global, text: &str) -> Result<bool, AllocError> {
    let start = Config::start(alloc)?;
    Ok(config(alloc, text)?.is_some_and(|config| config.is_same(&start)))
}

#[test]
fn starts(rt: HostRuntime) -> Result<(), Fail> {
    assert!(rt; is_start(rt.alloc(), "0:1 0")?);
    assert!(rt; !is_start(rt.alloc(), "0:1 1")?);
    assert!(rt; !is_start(rt.alloc(), "0:2 0")?);
    Ok(())
}

fn count(alloc: Global, text: &str) -> Result<usize, AllocError> {
    let lists = read_lists(alloc, text)?;
    Ok(thread_count(lists.at.as_slice(), lists.atoms.as_slice()))
}

fn next(alloc: Global, text: &str, from: u64) -> Result<Option<u32>, AllocError> {
    let lists = read_lists(alloc, text)?;
    Ok(next_thread(lists.at.as_slice(), lists.atoms.as_slice(), from))
}

#[test]
fn counts_threads(rt: HostRuntime) -> Result<(), Fail> {
    let alloc = rt.alloc();
    assert!(rt; count(alloc, "0:3 7:3 1/7/9 2/0")? == 3);
    assert!(rt; count(alloc, "2")? == 0);
    assert!(rt; next(alloc, "0:3 7:3 1/7/9 2/0", 8)? == Some(9));
    assert!(rt; next(alloc, "0:3 4294967295:3", 4_294_967_295)? == Some(u32::MAX));
    assert!(rt; next(alloc, "0:3 4294967295:3", 4_294_967_296)?.is_none());
    Ok(())
}
