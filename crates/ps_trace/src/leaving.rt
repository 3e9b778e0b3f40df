// The edges of a graph by the location that they leave.
ghost use Rattle.std.specs.Prelude.{◌≡◌, ◌<◌, ◌^◌, [], ◌∷◌, ◌++◌, length, replicate, slice_index_or, All, IfOk, OnOk};
ghost use Rattle.ps_trace.specs.inner.Leaving.{HoldsAll};

use ps_graph::{Edge, Graph};
use std::alloc::{AllocError, Global};
use std::marker::Model;

// The numbers of the edges that leave one location, in order.
#[derive(Drop)]
pub(crate) struct Exits {
    numbers: Vec<u32>,
}

impl Model for Exits {
    ghost use Rattle.std.specs.Prelude.{List, ℕ};

    ghost Value = { List ℕ };

    ghost view = { λ b. b.numbers.items };
}

impl Exits {
    fn new(alloc: Global) -> Exits
        ensures { result ≡ [] }
    {
        Exits {
            numbers: Vec::new(alloc),
        }
    }

    fn add(&mut self, number: u32) -> Result<(), AllocError>
        ensures { OnOk result (self.new ≡ self.old ++ number ∷ []) }
    {
        self.numbers.push(number).map_err(|_| AllocError)
    }

    fn as_slice(&self) -> &[u32]
        ensures { result.now ≡ self.now }
    {
        self.numbers.as_slice()
    }
}

// For each location the edges that leave it.
#[derive(Drop)]
pub(crate) struct Leaving {
    lists: Vec<Exits>,
}

impl Leaving {
    // The edges of the graph, in one pass.
    pub(crate) fn of(alloc: Global, graph: &Graph) -> Result<Leaving, AllocError>
        requires { length graph.now.edges < 2 ^ 32 }
        ensures { IfOk result (λ leaving. HoldsAll graph.now.edges leaving.lists.items) }
    {
        let mut lists = no_exits(alloc, graph.locations)?;
        add_all(&mut lists, graph.edges.as_slice())?;
        Ok(Leaving { lists })
    }

    // The edges that leave the location.
    pub(crate) fn from(&self, location: u32) -> &[u32]
        ensures { result.now ≡ slice_index_or self.now.lists.items location [] }
    {
        match self.lists.get(location as usize) {
            Some(exits) => exits.as_slice(),
            None => &[],
        }
    }
}

// As many empty lists.
fn no_exits(alloc: Global, count: u32) -> Result<Vec<Exits>, AllocError>
    ensures { IfOk result (λ lists. lists.items ≡ replicate count []) }
{
    let mut lists = Vec::with_capacity(alloc, count as usize)?;
    for _ in 0..count {
        lists.push(Exits::new(alloc)).map_err(|_| AllocError)?;
    }
    Ok(lists)
}

// Adds the number of each edge to the list of its source.
fn add_all(lists: &mut Vec<Exits>, edges: &[Edge]) -> Result<(), AllocError>
    requires few { length edges.now < 2 ^ 32 }
    requires sources { All (λ e. e.source < length lists.old.items) edges.now }
    requires empty { HoldsAll [] lists.old.items }
    ensures { OnOk result (HoldsAll edges.now lists.new.items) }
{
    for (i, edge) in edges.iter().enumerate() {
        lists[edge.source as usize].add(i as u32)?;
    }
    Ok(())
}
