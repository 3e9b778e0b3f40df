//! The step at which a search is too wide.

/// What there is too much of.
#[derive(Clone, Copy, Debug, PartialEq, Eq)]
pub enum WideName {
    /// Minimal sets of atoms that meet the demands of the step.
    Sets,
    /// Atoms of a configuration that the step leads to.
    Atoms,
    /// Threads of a configuration that the step leads to.
    Threads,
}

/// A step back that passes a limit: by which edge and thread, and how many there are of what.
#[derive(Clone, Copy, Debug, PartialEq, Eq)]
pub struct WideStep {
    pub edge: u32,
    pub thread: u32,
    pub what: WideName,
    pub count: u32,
}
