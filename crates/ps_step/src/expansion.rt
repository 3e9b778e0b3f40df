//! Expansions.
ghost use Rattle.std.specs.Prelude.{◌≡◌};

use ps_config::Config;
use ps_list::Sequence;
use ps_triple::Entry;

/// A smallest configuration that is a step back along the edge of this number by this thread.
#[derive(Drop)]
pub struct Successor {
    pub edge: u32,
    pub thread: u32,
    pub config: Config,
}

/// A configuration with its successors under the entries of a front.
#[derive(Drop)]
pub struct Expansion {
    pub config: Config,
    /// How many entries the front has.
    pub front: u32,
    pub successors: Sequence<Successor>,
    pub entries: Sequence<Entry>,
}

impl Expansion {
    /// The entries of the front; the call needs no memory.
    pub fn entries(&self) -> &[Entry]
        ensures { result.now ≡ self.now.entries }
    {
        self.entries.as_slice()
    }
}
