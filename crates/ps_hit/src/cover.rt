//! How the numbers chosen so far meet a set.
ghost use Rattle.std.specs.Prelude.{◌≡◌, ◌==◌, ◌⊎◌, ◌≢◌, ◌↔◌, ◌<◌, ◌≤◌, IfOk, IsTrue, All, Contains, length, IfSome, IfNone};
ghost use Rattle.std.specs.List.{AllZip, HoldsAt, list_any};
ghost use Rattle.std.specs.List.Sorted.{IsStrictlyIncreasing};
ghost use Rattle.ps_hit.specs.Hitting.{numbers_of};
ghost use Rattle.ps_hit.specs.inner.Covers.{IsCover, cover_seen, cover_with, covers_with, HasOwn};

use std::alloc::{AllocError, Global};

/// Which of the numbers chosen so far a set has.
#[derive(Clone, Copy, Debug, PartialEq, Eq)]
pub enum Cover {
    /// None of them.
    Unmet,
    /// This one alone.
    Once(u32),
    /// At least two.
    Again,
}

fn is_unmet(cover: Cover) -> bool
    ensures { IsTrue result ↔ (cover ≡ Cover.Unmet) }
{
    match cover {
        Cover::Unmet => true,
        Cover::Once(_) => false,
        Cover::Again => false,
    }
}

fn is_once(cover: Cover, number: u32) -> bool
    ensures { IsTrue result ↔ (cover ≡ Cover.Once number) }
{
    match cover {
        Cover::Unmet => false,
        Cover::Once(only) => only == number,
        Cover::Again => false,
    }
}

/// The cover once another number is chosen too, which the set has or not.
fn with(cover: Cover, number: u32, has: bool) -> Cover
    ensures { result ≡ cover_with cover number has }
{
    if !has {
        return cover;
    }
    match cover {
        Cover::Unmet => Cover::Once(number),
        Cover::Once(_) => Cover::Again,
        Cover::Again => Cover::Again,
    }
}

/// The covers of the sets where these numbers are chosen, which ascend.
pub fn covers_of(alloc: Global, sets: &[Vec<u32>], chosen: &[u32]) -> Result<Vec<Cover>, AllocError>
    requires { IsStrictlyIncreasing chosen.now }
    ensures { IfOk result
        (λ covers. AllZip (IsCover chosen.now) (numbers_of sets.now) covers.items) }
{
    let mut covers = Vec::with_capacity(alloc, sets.len())?;
    for set in sets {
        covers.push(cover_of(set.as_slice(), chosen))?;
    }
    Ok(covers)
}

fn cover_of(set: &[u32], chosen: &[u32]) -> Cover
    requires { IsStrictlyIncreasing chosen.now }
    ensures { IsCover chosen.now set.now result }
{
    let mut cover = Cover::Unmet;
    for number in set {
        cover = seen(cover, *number, is_among(*number, chosen));
    }
    cover
}

/// Whether the number is one of these, which ascend, by a binary search.
fn is_among(number: u32, numbers: &[u32]) -> bool
    requires { IsStrictlyIncreasing numbers.now }
    ensures { IsTrue result ↔ Contains numbers.now number }
{
    numbers.binary_search(&number).is_ok()
}

/// The cover once one more number of the set is seen, which is chosen or not.
fn seen(cover: Cover, number: u32, is_chosen: bool) -> Cover
    ensures { result ≡ cover_seen cover number is_chosen }
{
    if is_once(cover, number) {
        return cover;
    }
    with(cover, number, is_chosen)
}

/// The covers of the sets once another number is chosen too.
pub fn chosen_too(
    alloc: Global,
    sets: &[Vec<u32>],
    covers: &[Cover],
    number: u32,
) -> Result<Vec<Cover>, AllocError>
    requires { length covers.now ≡ length sets.now }
    ensures { IfOk result
        (λ after. after.items ≡ covers_with number (numbers_of sets.now) covers.now) }
{
    let mut after = Vec::with_capacity(alloc, sets.len())?;
    for (at, set) in sets.iter().enumerate() {
        after.push(with(covers[at], number, has(set.as_slice(), number)))?;
    }
    Ok(after)
}

fn has(set: &[u32], number: u32) -> bool
    ensures { result ≡ list_any (λ n. n == number) set.now }
{
    set.contains(&number)
}

/// Whether each of the numbers is the only chosen one of some set.
pub fn all_have_own(numbers: &[u32], covers: &[Cover]) -> bool
    ensures { IsTrue result ↔ All (HasOwn covers.now) numbers.now }
{
    for number in numbers {
        if !has_own(*number, covers) {
            return false;
        }
    }
    true
}

fn has_own(number: u32, covers: &[Cover]) -> bool
    ensures { IsTrue result ↔ HasOwn covers.now number }
{
    covers.iter().any(|cover| is_once(*cover, number))
}

/// How many numbers each set has.
pub fn sizes(alloc: Global, sets: &[Vec<u32>]) -> Result<Vec<usize>, AllocError> {
    let mut sizes = Vec::with_capacity(alloc, sets.len())?;
    for set in sets {
        sizes.push(set.len())?;
    }
    Ok(sizes)
}

/// Counts one number less as free in each set that has this one, which is barred from now on.
pub fn bar(sets: &[Vec<u32>], number: u32, free: &mut [usize]) {
    for (at, set) in sets.iter().enumerate() {
        if has(set.as_slice(), number) {
            lower(free, at);
        }
    }
}

fn lower(counts: &mut [usize], at: usize) {
    if let Some(count) = counts.get_mut(at) {
        *count = count.saturating_sub(1);
    }
}

/// Of the sets that are unmet the first with the fewest free numbers, by its place.
pub fn narrowest_unmet(covers: &[Cover], free: &[usize]) -> Option<usize>
    ensures within { IfSome result (λ at. at < length covers.now) }
    ensures unmet { IfSome result (λ at. HoldsAt (λ cover. cover ≡ Cover.Unmet) covers.now at) }
    ensures none { IfNone result (All (λ cover. cover ≢ Cover.Unmet) covers.now) }
{
    let mut best = None;
    for (at, cover) in covers.iter().enumerate() {
        if is_unmet(*cover) {
            best = Some(narrower(free, best, at));
        }
    }
    best
}

/// The place of the set with fewer free numbers: the one so far, or this one.
fn narrower(free: &[usize], best: Option<usize>, at: usize) -> usize
    ensures { (result ≡ at) ⊎ (best ≡ Some result) }
{
    match best {
        Some(place) => {
            if free_at(free, place) <= free_at(free, at) {
                place
            } else {
                at
            }
        }
        None => at,
    }
}

fn free_at(free: &[usize], at: usize) -> usize {
    free.get(at).copied().unwrap_or(0)
}
