//! Listed configurations, which are looked up by locations.
ghost use Rattle.std.specs.Prelude.{◌≡◌, ◌<◌, ◌^◌, IfOk, length};
ghost use Rattle.ps_check.specs.inner.Index.{AreCandidates};

use crate::candidates::candidates_in;
use crate::located::{Located, by_locations, locations_of};
use crate::starts::starts_of;
use ps_config::Config;
use ps_list::copies;
use std::alloc::{AllocError, Global};
use std::marker::Model;

/// Configurations by number, with an index by which those are found that can cover something with given located threads.
#[derive(Drop)]
pub(crate) struct Listed {
    configs: Vec<Config>,
    located: Vec<Located>,
    starts: Vec<Vec<u32>>,
}

impl Model for Listed {
    ghost use Rattle.std.specs.Prelude.{List};
    ghost use Rattle.ps_check.specs.inner.Index.{IsIndexed};
    ghost use Rattle.ps_config.specs.Configurations.{Configuration};
    ghost use Rattle.ps_demand.specs.Pools.{lists_of};

    ghost Value = { List Configuration };

    ghost view = { λ l. l.configs.items };

    ghost invariant = { λ l. IsIndexed l.configs.items l.located.items (lists_of l.starts.items) };
}

impl Listed {
    /// Copies of the configurations with their index. In time of a sort of them, and memory of the copies and of two
    /// numbers for each located thread.
    pub fn new(alloc: Global, configs: &[Config]) -> Result<Listed, AllocError>
        requires { length configs.now < 2 ^ 32 }
        ensures { IfOk result (λ listed. listed ≡ configs.now) }
    {
        let configs = copies(alloc, configs)?;
        let located = by_locations(alloc, configs.as_slice())?;
        let starts = starts_of(alloc, located.as_slice())?;
        Ok(Listed {
            configs,
            located,
            starts,
        })
    }

    pub fn as_slice(&self) -> &[Config]
        ensures { result.now ≡ self.now }
    {
        self.configs.as_slice()
    }

    /// The numbers of the configurations whose locations are within those of the threads, each at most as often; no other
    /// one covers anything with these located threads. In the time of `candidates_in`.
    pub fn candidates(&self, alloc: Global, at: &[(u32, u32)]) -> Result<Vec<u32>, AllocError>
        ensures { IfOk result (λ numbers. AreCandidates self.now at.now numbers.items) }
    {
        let locations = locations_of(alloc, at)?;
        candidates_in(
            alloc,
            self.located.as_slice(),
            self.starts.as_slice(),
            locations.as_slice(),
        )
    }
}
