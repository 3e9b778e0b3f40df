//! Configurations by the locations of their threads.
ghost use Rattle.std.specs.Prelude.{◌≡◌, ◌<◌, ◌^◌, IfOk, length};
ghost use Rattle.std.specs.List.Sorted.{IsPermutation};
ghost use Rattle.ps_check.specs.inner.Index.{AreLocated, locations_of};

use crate::counted::count_of;
use ps_config::Config;
use std::alloc::{AllocError, Global};

/// The number of a configuration, and the locations of its threads in ascending order.
#[derive(Drop)]
pub(crate) struct Located {
    pub number: u32,
    pub locations: Vec<u32>,
}

/// The configurations by their lists of locations, in the order of these: those that begin with the same locations stand
/// side by side. In time of a sort, and memory of a number for each located thread.
pub(crate) fn by_locations(alloc: Global, configs: &[Config]) -> Result<Vec<Located>, AllocError>
    requires { length configs.now < 2 ^ 32 }
    ensures { IfOk result (λ located. AreLocated configs.now (length configs.now) located.items) }
{
    let mut located = by_number(alloc, configs)?;
    located.sort_unstable_by(|one, other| {
        one.locations.as_slice().cmp(other.locations.as_slice())
    });
    Ok(located)
}

/// The same in the order of the configurations.
fn by_number(alloc: Global, configs: &[Config]) -> Result<Vec<Located>, AllocError>
    requires { length configs.now < 2 ^ 32 }
    ensures { IfOk result (λ located. AreLocated configs.now (length configs.now) located.items) }
{
    let mut located = Vec::with_capacity(alloc, configs.len())?;
    let count = count_of(configs);
    for number in 0..count {
        let locations = ascending(alloc, configs[number as usize].at())?;
        located.push(Located { number, locations })?;
    }
    Ok(located)
}

fn ascending(alloc: Global, at: &[(u32, u32)]) -> Result<Vec<u32>, AllocError>
    ensures { IfOk result (λ locations. IsPermutation (locations_of at.now) locations.items) }
{
    let mut locations = locations_of(alloc, at)?;
    locations.sort_unstable();
    Ok(locations)
}

/// The locations of the threads, in the order of the threads.
pub(crate) fn locations_of(alloc: Global, at: &[(u32, u32)]) -> Result<Vec<u32>, AllocError>
    ensures { IfOk result (λ locations. locations.items ≡ locations_of at.now) }
{
    let mut locations = Vec::with_capacity(alloc, at.len())?;
    for place in at {
        locations.push(place.1)?;
    }
    Ok(locations)
}
