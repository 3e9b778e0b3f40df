//! The faults of configurations by themselves.
ghost use Rattle.std.specs.Prelude.{◌≡◌, ◌≢◌, ◌<◌, ◌↔◌, ℕ, IsTrue, Contains, MatchOption, length};
ghost use Rattle.ps_atom.specs.Range.{IsInRange};
ghost use Rattle.ps_atom.specs.declared.atom.Atom.{Atom as AnAtom};
ghost use Rattle.ps_atom.specs.declared.predicate.Predicate.{Predicate as APredicate};
ghost use Rattle.ps_check.specs.Faults.{HasNumbers, HasThreadsApart, IsFirstFault, table_of};
ghost use Rattle.ps_check.specs.inner.Stages.{AreCounted, AreNamed, DoHold};
ghost use Rattle.ps_triple.specs.Tests.{HasThreadsOnce, IsAtomOf};

use crate::counted::count_of;
use crate::fault::CheckFault;
use ps_atom::{Atom, Predicate};
use ps_command::Setting;
use ps_config::Config;
use ps_file::Proof;
use ps_graph::Graph;
use ps_triple::has_threads_once;

/// The first fault of the configurations by themselves.
pub(crate) fn config_fault(graph: &Graph, proof: &Proof, table: &[Predicate]) -> Option<CheckFault>
    requires held { DoHold graph.now proof.now }
    requires table { table.now ≡ table_of proof.now }
    requires counted { AreCounted graph.now proof.now }
    ensures { MatchOption result (AreNamed graph.now proof.now) (IsFirstFault graph.now proof.now) }
{
    let configs = proof.configs.as_slice();
    let count = count_of(configs);
    for number in 0..count {
        let config = &configs[number as usize];
        if !has_numbers(graph, table, config) {
            return Some(CheckFault::ConfigNumber(number));
        }
        if !has_threads_apart(config) {
            return Some(CheckFault::ConfigThread(number));
        }
    }
    None
}

/// Whether its locations are some of the graph other than the error, and its atoms have predicates of the table, as
/// many threads as slots.
fn has_numbers(graph: &Graph, table: &[Predicate], config: &Config) -> bool
    requires { (p : APredicate) → Contains table.now p
        → IsInRange graph.now.setting.globals graph.now.setting.locals p }
    ensures { IsTrue result ↔ HasNumbers graph.now table.now config.now }
{
    if !are_locations(graph.locations, config.at()) {
        return false;
    }
    are_filled(&graph.setting, table, config.atoms())
}

fn are_locations(locations: u32, at: &[(u32, u32)]) -> bool
    ensures { IsTrue result ↔ ((thread location : ℕ) → Contains at.now (thread, location)
        → (location < locations) × (location ≢ 1)) }
{
    for place in at {
        if !is_location(locations, place.1) {
            return false;
        }
    }
    true
}

/// Whether it is a location other than the error.
fn is_location(locations: u32, location: u32) -> bool
    ensures { IsTrue result ↔ ((location < locations) × (location ≢ 1)) }
{
    location < locations && location != 1
}

fn are_filled(setting: &Setting, table: &[Predicate], atoms: &[Atom]) -> bool
    requires { (p : APredicate) → Contains table.now p
        → IsInRange setting.now.globals setting.now.locals p }
    ensures { IsTrue result ↔ ((q : AnAtom) → Contains atoms.now q
        → IsAtomOf setting.now table.now q) }
{
    for atom in atoms {
        if !is_filled(setting, table, atom) {
            return false;
        }
    }
    true
}

/// Whether the atom's predicate is there, and has as many slots as the atom has threads.
fn is_filled(setting: &Setting, table: &[Predicate], atom: &Atom) -> bool
    requires { (p : APredicate) → Contains table.now p
        → IsInRange setting.now.globals setting.now.locals p }
    ensures { IsTrue result ↔ IsAtomOf setting.now table.now atom.now }
{
    // That the table is in range for it is known.
    let _setting = setting;
    let number = atom.predicate as usize;
    if number >= table.len() {
        return false;
    }
    table[number].arity as usize == atom.threads.as_slice().len()
}

/// Whether no atom has a thread twice.
fn has_threads_apart(config: &Config) -> bool
    ensures { IsTrue result ↔ HasThreadsApart config.now }
{
    are_apart(config.atoms())
}

fn are_apart(atoms: &[Atom]) -> bool
    ensures { IsTrue result ↔ ((q : AnAtom) → Contains atoms.now q → HasThreadsOnce q) }
{
    for atom in atoms {
        if !has_threads_once(atom) {
            return false;
        }
    }
    true
}
