//! What entries are looked up by.
ghost use Rattle.std.specs.Prelude.{◌≡◌, None, Some};
ghost use Rattle.ps_basis.specs.inner.Index.{key_cmp, key_of};

use ps_triple::Entry;
use std::cmp::Ordering;

// A triple is looked up by the predicate of its atom after and by its command, an initial entry by its predicate alone.
#[derive(Clone, Copy)]
pub(crate) struct Key {
    pub(crate) predicate: u32,
    pub(crate) command: Option<u32>,
}

impl Key {
    // The key of triples with this command whose atom after has this predicate.
    pub(crate) fn triple(post: u32, command: u32) -> Key
        ensures { result ≡ record { predicate = post; command = Some command } }
    {
        Key {
            predicate: post,
            command: Some(command),
        }
    }

    // The key of initial entries of this predicate.
    pub(crate) fn initial(predicate: u32) -> Key
        ensures { result ≡ record { predicate = predicate; command = None } }
    {
        Key {
            predicate,
            command: None,
        }
    }

    pub(crate) fn of(entry: &Entry) -> Key
        ensures { result ≡ key_of entry.now }
    {
        match entry {
            Entry::Triple(triple) => Key::triple(triple.post.predicate, triple.command),
            Entry::Initial(initial) => Key::initial(initial.predicate),
        }
    }

    // The order of keys: by predicate, then initial entries before triples, and these by command.
    pub(crate) fn compare(&self, other: &Key) -> Ordering
        ensures { result ≡ key_cmp self.now other.now }
    {
        match self.predicate.cmp(&other.predicate) {
            Ordering::Equal => self.command.cmp(&other.command),
            unequal => unequal,
        }
    }
}
