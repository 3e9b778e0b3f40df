//! What is wrong with a proof.

use ps_triple::EntryFault;

/// What is wrong with a proof. Of several faults the first is given: predicates in order, then entries, then
/// configurations, of each its numbers and then its threads; then the steps back from the start; then for each
/// configuration that it is accepting, and its steps back. Steps are ordered by edge, then by thread: those that
/// occur, ascending, and then the fresh one.
#[derive(Clone, Copy, Debug, PartialEq, Eq)]
pub enum CheckFault {
    /// A variable of the predicate of this number, a slot or its arity is out of range. Listed predicates count from 1.
    Predicate(u32),
    /// The entry of this number doesn't hold.
    Entry(u32, EntryFault),
    /// Of the configuration of this number a predicate or location isn't there, a location is the error, or an atom
    /// hasn't as many threads as its predicate has slots.
    ConfigNumber(u32),
    /// An atom of the configuration of this number has a thread twice.
    ConfigThread(u32),
    /// All located threads of the configuration of this number are at the entry of a body, and no atom has an initial
    /// entry.
    Accepting(u32),
    /// A step back isn't covered by a listed configuration: from the start where `config` is `None`, by the fresh
    /// thread where `thread` is.
    Uncovered {
        config: Option<u32>,
        edge: u32,
        thread: Option<u32>,
    },
}
