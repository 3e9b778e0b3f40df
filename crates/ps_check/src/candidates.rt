//! Which configurations have their locations within others.
ghost use Rattle.std.specs.Prelude.{◌≡◌, IfOk, MatchOption, length};
ghost use Rattle.ps_check.specs.inner.Index.{AreStartsBefore, AreThoseWithin, IsBeyond};
ghost use Rattle.ps_cover.specs.Within.{IsWithinList, times};
ghost use Rattle.ps_demand.specs.Pools.{lists_of};

use crate::located::Located;
use std::alloc::{AllocError, Global};

/// The numbers of those whose locations are within the others, each at most as often.
///
/// They are gone through from the last to the first. Where the first few locations of one aren't within the others, all that
/// stand side by side up to it and begin with these are passed at once. So those are looked at that are found, and for each
/// list of locations that one begins with and that is within the others, one for each location that comes next and isn't. Each
/// takes a pass over its locations and the others for each of its locations.
pub(crate) fn candidates_in(
    alloc: Global,
    located: &[Located],
    starts: &[Vec<u32>],
    others: &[u32],
) -> Result<Vec<u32>, AllocError>
    requires { AreStartsBefore located.now (length located.now) (lists_of starts.now) }
    ensures { IfOk result (λ numbers. AreThoseWithin located.now others.now numbers.items) }
{
    let mut numbers = Vec::new(alloc);
    let mut end = located.len();
    while end > 0 {
        let place = end - 1;
        match first_beyond(located[place].locations.as_slice(), others) {
            None => {
                numbers.push(located[place].number)?;
                end = place;
            }
            Some(beyond) => end = starts[place].as_slice()[beyond] as usize,
        }
    }
    Ok(numbers)
}

/// The place of the first location that stands up to it more often than among the others.
fn first_beyond(locations: &[u32], others: &[u32]) -> Option<usize>
    ensures { MatchOption result
        (IsWithinList locations.now others.now) (IsBeyond locations.now others.now) }
{
    for place in 0..locations.len() {
        let location = locations[place];
        if times(&locations[..place + 1], location) > times(others, location) {
            return Some(place);
        }
    }
    None
}

/// How often the location stands in the list.
fn times(locations: &[u32], location: u32) -> usize
    ensures { result ≡ times location locations.now }
{
    locations.iter().filter(|other| **other == location).count()
}
