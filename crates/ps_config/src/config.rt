//! Configurations of a search.
ghost use Rattle.std.specs.Prelude.{◌≡◌, ◌↔◌, IfOk, IsTrue};
ghost use Rattle.ps_config.specs.Configurations.{Configuration};
ghost use Rattle.ps_config.specs.Forms.{AreThreads, IsConfig, IsFresh, config_cmp, start_configuration};

use crate::few::Few;
use crate::form::is_in_form;
use crate::order::{compare_atoms, compare_places};
use crate::threads::{fresh_thread, threads_in};
use ps_atom::{Atom, Threads};
use ps_list::{Duplicate, Sequence};
use std::alloc::{AllocError, Global};
use std::cmp::Ordering;
use std::marker::Model;

/// The most threads of a configuration, those of its atoms too.
pub const MOST_THREADS: usize = 12;

/// The most atoms of a configuration.
pub const MOST_ATOMS: usize = 64;

/// Threads with their locations, in ascending order of threads, and atoms, in ascending order: at most
/// `MOST_THREADS` threads, those of the atoms too, and at most `MOST_ATOMS` atoms.
#[derive(Drop)]
pub struct Config {
    at: Sequence<(u32, u32)>,
    atoms: Sequence<Atom>,
}

impl Model for Config {
    ghost use Rattle.ps_config.specs.Configurations.{Configuration};
    ghost use Rattle.ps_config.specs.Forms.{IsConfig};

    ghost Value = { Configuration };

    ghost view = { λ c. record { at = c.at; atoms = c.atoms } };

    ghost invariant = { λ c. IsConfig (record { at = c.at; atoms = c.atoms }) };
}

impl Config {
    /// Whether the lists are those of a configuration: both ascend and are within the limits. In a pass
    /// over both for each thread.
    pub fn is_in_form(at: &[(u32, u32)], atoms: &[Atom]) -> bool
        ensures { IsTrue result ↔ IsConfig (record { at = at.now; atoms = atoms.now }) }
    {
        is_in_form(at, atoms)
    }

    /// Takes the lists as they are; the call needs no memory.
    pub fn new(at: Vec<(u32, u32)>, atoms: Vec<Atom>) -> Config
        requires { IsConfig (record { at = at.items; atoms = atoms.items }) }
        ensures { result ≡ record { at = at.items; atoms = atoms.items } }
    {
        Config {
            at: Sequence::from_list(at),
            atoms: Sequence::from_list(atoms),
        }
    }

    /// Thread 0 at location 1, and the atom false.
    pub fn start(alloc: Global) -> Result<Config, AllocError>
        ensures { IfOk result (λ config. config ≡ start_configuration) }
    {
        let mut atoms = Vec::with_capacity(alloc, 1)?;
        atoms.push(Atom {
            predicate: 0,
            threads: Threads::new(alloc),
        })?;
        Ok(Config::new(Vec::from_slice(alloc, &[(0, 1)])?, atoms))
    }

    /// The threads that have a location, each with its location.
    pub fn at(&self) -> &[(u32, u32)]
        ensures list { result.now ≡ self.now.at }
        ensures form { IsConfig self.now }
    {
        self.at.as_slice()
    }

    pub fn atoms(&self) -> &[Atom]
        ensures list { result.now ≡ self.now.atoms }
        ensures form { IsConfig self.now }
    {
        self.atoms.as_slice()
    }

    /// The threads that occur, ascending, in one pass over both lists for each. It takes no memory.
    pub fn threads(&self) -> Few
        ensures { AreThreads self.now result }
    {
        threads_in(self.at.as_slice(), self.atoms.as_slice())
    }

    /// The least number that is no thread's, neither of one with a location nor of one of an atom. It
    /// takes no memory, and at most one pass more than there are threads.
    pub fn fresh(&self) -> u32
        ensures { IsFresh self.now result }
    {
        fresh_thread(self.at.as_slice(), self.atoms.as_slice())
    }

    /// The order of configurations: by threads with their locations, then by atoms. In time of the
    /// shorter lists.
    pub fn compare(&self, other: &Config) -> Ordering
        ensures { result ≡ config_cmp self.now other.now }
    {
        let by_atoms = compare_atoms(self.atoms.as_slice(), other.atoms.as_slice());
        compare_places(self.at.as_slice(), other.at.as_slice()).then(by_atoms)
    }

    /// Whether both have the same threads, locations and atoms.
    pub fn is_same(&self, other: &Config) -> bool
        ensures { IsTrue result ↔ (self.now ≡ other.now) }
    {
        self.compare(other).is_eq()
    }

    /// A copy, in time and memory of what the configuration holds.
    pub fn copy(&self, alloc: Global) -> Result<Config, AllocError>
        ensures { IfOk result (λ config. config ≡ self.now) }
    {
        Ok(Config {
            at: self.at.copy(alloc)?,
            atoms: self.atoms.copy(alloc)?,
        })
    }
}

impl Duplicate for Config {
    fn duplicate(&self, alloc: Global) -> Result<Config, AllocError> {
        self.copy(alloc)
    }
}
