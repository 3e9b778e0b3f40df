// The numbers of commands.
ghost use Rattle.std.specs.Prelude.{◌≡◌, ◌<◌, ◌+◌, ◌^◌, length, map, IfOk, OnOk};
ghost use Rattle.std.specs.List.{AllByRecursion};
ghost use Rattle.ps_compile.specs.inner.Keys.{command_of};
ghost use Rattle.ps_compile.specs.inner.Numbered.{AreNumberedDrafts, FitsEdge, AreNumberedSoFar};

use crate::command_key::{CommandKey, command_of, key_of};
use crate::draft::Draft;
use indexmap::IndexSet;
use ps_command::Command;
use ps_graph::Edge;
use std::alloc::{AllocError, Global};

// Commands by number, and edges that run them.
#[derive(Drop)]
pub(crate) struct Numbered {
    pub(crate) commands: Vec<Command>,
    pub(crate) edges: Vec<Edge>,
}

// The edges with numbers of commands, which are given in the order in which commands first stand. Each is
// looked up once.
pub(crate) fn number(alloc: Global, drafts: Vec<Draft>) -> Result<Numbered, AllocError>
    requires places { AllByRecursion FitsEdge drafts.items }
    requires few { length drafts.items < 2 ^ 32 }
    ensures { IfOk result (λ numbered. AreNumberedDrafts numbered.commands.items drafts.items numbered.edges.items) }
{
    let mut table = IndexSet::new(alloc);
    let mut edges = Vec::with_capacity(alloc, drafts.len())?;
    for draft in drafts {
        let edge = enter(alloc, &mut table, draft)?;
        edges.push(edge).map_err(|_| AllocError)?;
    }
    let _distinct = table.as_slice();
    Ok(Numbered {
        commands: commands_of(alloc, table)?,
        edges,
    })
}

// The edge with the number that its command has in the table, where it is entered if it is new.
fn enter(alloc: Global, table: &mut IndexSet<CommandKey>, draft: Draft) -> Result<Edge, AllocError>
    requires fits { FitsEdge draft }
    requires room { length table.old.keys + 1 < 2 ^ 32 }
    ensures { IfOk result (AreNumberedSoFar table.old.keys table.new.keys draft) }
{
    let Draft {
        source,
        target,
        route,
    } = draft;
    let key = key_of(alloc, route.command)?;
    let (number, _is_new) = table.insert_full(key).map_err(|_| AllocError)?;
    Ok(Edge {
        source: source as u32,
        target: target as u32,
        command: number as u32,
        picks: route.picks,
    })
}

// The commands of the table, in the order of their numbers.
fn commands_of(alloc: Global, table: IndexSet<CommandKey>) -> Result<Vec<Command>, AllocError>
    ensures { IfOk result (λ commands. commands.items ≡ map command_of table.keys) }
{
    let mut commands = Vec::with_capacity(alloc, table.len())?;
    for key in table {
        let command = command_of(alloc, key)?;
        commands.push(command).map_err(|_| AllocError)?;
    }
    Ok(commands)
}
