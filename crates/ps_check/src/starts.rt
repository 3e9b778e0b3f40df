//! Where those start that begin with the same locations.
ghost use Rattle.std.specs.Prelude.{◌≡◌, ◌≤◌, ◌<◌, ◌^◌, IfOk, length, take};
ghost use Rattle.ps_check.specs.inner.Index.{AreStartsAfter, AreStartsBefore, AreStartsOf, IsStart};
ghost use Rattle.ps_demand.specs.Pools.{lists_of};

use crate::located::Located;
use std::alloc::{AllocError, Global};

/// For each, where those start that stand side by side up to it and begin with its first location, with its first two,
/// and so on. In time and memory of a number for each location.
pub(crate) fn starts_of(alloc: Global, located: &[Located]) -> Result<Vec<Vec<u32>>, AllocError>
    requires { length located.now < 2 ^ 32 }
    ensures { IfOk result (λ starts.
        AreStartsBefore located.now (length located.now) (lists_of starts.items)) }
{
    let mut starts = Vec::with_capacity(alloc, located.len())?;
    for place in 0..located.len() {
        let own = own_starts(alloc, located, starts.as_slice(), place)?;
        starts.push(own)?;
    }
    Ok(starts)
}

/// Those of the one at this place, from those of the one before it.
fn own_starts(
    alloc: Global,
    located: &[Located],
    starts: &[Vec<u32>],
    place: usize,
) -> Result<Vec<u32>, AllocError>
    requires inside { place < length located.now }
    requires counted { length located.now < 2 ^ 32 }
    requires before { AreStartsBefore located.now place (lists_of starts.now) }
    ensures { IfOk result (λ own. AreStartsOf located.now place own.items) }
{
    let locations = located[place].locations.as_slice();
    if place == 0 {
        return starts_after(alloc, &[], 0, 0, locations.len());
    }
    let before = place - 1;
    let shared = shared(located[before].locations.as_slice(), locations);
    let starts_before = starts[before].as_slice();
    starts_after(alloc, starts_before, shared, place as u32, locations.len())
}

/// So many starts: those before as far as locations are shared, and then the place itself.
fn starts_after(
    alloc: Global,
    before: &[u32],
    shared: usize,
    place: u32,
    count: usize,
) -> Result<Vec<u32>, AllocError>
    requires { shared ≤ length before.now }
    ensures { IfOk result (λ starts.
        AreStartsAfter before.now shared place count starts.items) }
{
    let mut starts = Vec::with_capacity(alloc, count)?;
    for number in 0..count {
        let start = start_after(before, shared, place, number);
        starts.push(start)?;
    }
    Ok(starts)
}

fn start_after(before: &[u32], shared: usize, place: u32, number: usize) -> u32
    requires { shared ≤ length before.now }
    ensures { IsStart before.now shared place number result }
{
    if number < shared {
        before[number]
    } else {
        place
    }
}

/// How many locations both begin with.
fn shared(one: &[u32], other: &[u32]) -> usize
    ensures one { result ≤ length one.now }
    ensures other { result ≤ length other.now }
    ensures same { take result one.now ≡ take result other.now }
{
    let shorter = one.len().min(other.len());
    for place in 0..shorter {
        if one[place] != other[place] {
            return place;
        }
    }
    shorter
}
