//! Whether lists can be numbered.
ghost use Rattle.std.specs.Prelude.{◌≡◌, ◌↔◌, ◌<◌, ◌^◌, IsTrue, Contains, length};
ghost use Rattle.ps_check.specs.inner.Stages.{AreCounted};
ghost use Rattle.ps_triple.specs.Short.{AreShort};
ghost use Rattle.ps_triple.specs.declared.entry.Entry.{Entry as AnEntry};

use ps_command::Setting;
use ps_file::Proof;
use ps_graph::Graph;
use ps_triple::{Entry, is_short};

/// Whether 32 bits can number the edges and the configurations, and count the rows and multipliers of each entry. In
/// time of the entries.
pub(crate) fn are_counted(graph: &Graph, proof: &Proof) -> bool
    ensures { IsTrue result ↔ AreCounted graph.now proof.now }
{
    if !is_counted(graph.edges.as_slice()) {
        return false;
    }
    if !is_counted(proof.configs.as_slice()) {
        return false;
    }
    are_short(&graph.setting, proof.entries.as_slice())
}

/// Whether 32 bits can number the members of the list.
fn is_counted<T>(list: &[T]) -> bool
    ensures { IsTrue result ↔ length list.now < 2 ^ 32 }
{
    list.len() <= u32::MAX as usize
}

/// Whether 32 bits can count the rows and multipliers of each of the entries.
fn are_short(setting: &Setting, entries: &[Entry]) -> bool
    ensures { IsTrue result ↔ ((entry : AnEntry) → Contains entries.now entry
        → AreShort setting.now entry) }
{
    for entry in entries {
        if !is_short(setting, entry) {
            return false;
        }
    }
    true
}

/// How many members the list has.
pub(crate) fn count_of<T>(list: &[T]) -> u32
    requires { length list.now < 2 ^ 32 }
    ensures { result ≡ length list.now }
{
    list.len() as u32
}
