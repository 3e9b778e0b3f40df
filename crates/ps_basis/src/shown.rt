//! Lists of entries that are read by number.
ghost use Rattle.std.specs.Prelude.{◌≡◌, ◌<◌, ◌↔◌, IsTrue, List, Some, length, slice_get};
ghost use Rattle.ps_basis.specs.Shown.{IsNextFor};
ghost use Rattle.ps_triple.specs.Entries.{HasInitial};
ghost use Rattle.ps_triple.specs.declared.entry.Entry.{Entry};

use ps_triple::Entry;

/// A list of entries, which are numbered by their places. No call takes memory; of n entries a look-up takes time log n.
pub trait Shown {
    // The entries in the order of their numbers.
    ghost entries: { Self → List Entry };

    /// How many entries there are.
    fn count(&self) -> u32
        ensures { result ≡ length (entries self.now) };

    /// The entry of a number.
    fn entry(&self, n: u32) -> &Entry
        requires { n < length (entries self.now) }
        ensures { slice_get (entries self.now) n ≡ Some result.now };

    /// The least number, from `from` on, of a triple with this command whose atom after has this predicate, or `None`
    /// where there is none.
    fn next_for(&self, post: u32, command: u32, from: u32) -> Option<u32>
        ensures { IsNextFor (entries self.now) post command from result };

    /// Whether the predicate has an initial entry.
    fn is_initial(&self, predicate: u32) -> bool
        ensures { IsTrue result ↔ HasInitial (entries self.now) predicate };
}
