//! Graphs.
ghost use Rattle.std.specs.Prelude.{◌≡◌, IfOk, IsTrue};
ghost use Rattle.ps_graph.specs.Facts.{IsDeterministic, entries_owned, error_is_final, names_exist, picks_fit, stay_in_bodies};

use crate::edge::Edge;
use ps_command::Setting;
use ps_list::Sequence;
use std::alloc::{AllocError, Global};

/// Control locations and the edges between them, by number. Location 1 is the error.
#[derive(Debug, Drop)]
pub struct Graph {
    pub locations: u32,
    pub edges: Sequence<Edge>,
    /// The location at which each body starts.
    pub entries: Sequence<u32>,
    /// The body that at most one thread runs, if there is one.
    pub once: Option<u32>,
    /// The body of each location; the error has none.
    pub owner: Sequence<Option<u32>>,
    pub setting: Setting,
    pub ghost numbers: { IsTrue (names_exist locations edges entries once owner setting.commands) },
    pub ghost entries_own: { IsTrue (entries_owned owner entries) },
    pub ghost error_final: { IsTrue (error_is_final owner edges) },
    pub ghost picks: { IsTrue (picks_fit setting.commands edges) },
    pub ghost stays: { IsTrue (stay_in_bodies owner edges) },
    pub ghost deterministic: { ∥ IsDeterministic setting.commands edges ∥₁ },
}

impl Graph {
    /// A copy, in time and memory of all that stands in it.
    pub fn copy(&self, alloc: Global) -> Result<Graph, AllocError>
        ensures { IfOk result (λ graph. graph ≡ self.now) }
    {
        Ok(Graph {
            locations: self.locations,
            edges: self.edges.copy(alloc)?,
            entries: Sequence::from_slice(alloc, self.entries.as_slice())?,
            once: self.once,
            owner: Sequence::from_slice(alloc, self.owner.as_slice())?,
            setting: self.setting.copy(alloc)?,
        })
    }
}
