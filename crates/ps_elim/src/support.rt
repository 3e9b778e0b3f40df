//! Supports of vectors, a bit for each place.
ghost use Rattle.std.specs.Prelude.{◌≡◌, ◌&&◌, not, length, IfOk};
ghost use Rattle.ps_elim.specs.Places.{is_part, support_of};

use crate::vector::Vector;
use crate::words::is_inside;
use std::alloc::{AllocError, Global};
use std::marker::Model;

/// The places at which a vector isn't 0. Contracts see for each place whether it is one of them.
#[derive(Debug, Drop)]
pub struct Support {
    // A bit for each place, the first one lowest, in words of 64; the bits past the last place are 0.
    words: Vec<u64>,
    places: usize,
}

impl Model for Support {
    ghost use Rattle.std.specs.Prelude.{Bool, List};
    ghost use Rattle.ps_elim.specs.inner.Words.{bits_of, HasPlaces};

    ghost Value = { List Bool };

    ghost view = { λ s. bits_of s.words.items s.places };

    ghost invariant = { λ s. HasPlaces s.words.items s.places };
}

impl Support {
    /// The support of the vector, in time of its entries that aren't 0 and memory of a bit for each entry.
    pub fn new(alloc: Global, vector: &Vector) -> Result<Support, AllocError>
        ensures { IfOk result (λ support. support ≡ support_of vector.now) }
    {
        Ok(Support {
            words: vector.words(alloc)?,
            places: vector.places(),
        })
    }

    /// Whether each place of this support is one of the other; a word at a time, without memory.
    pub fn inside(&self, other: &Support) -> bool
        requires { length self.now ≡ length other.now }
        ensures { result ≡ is_part self.now other.now }
    {
        is_inside(self.words.as_slice(), other.words.as_slice())
    }

    /// Whether the other support has each place of this one, and others too; a word at a time, without
    /// memory.
    pub fn strictly_inside(&self, other: &Support) -> bool
        requires { length self.now ≡ length other.now }
        ensures { result ≡ (is_part self.now other.now && not (is_part other.now self.now)) }
    {
        self.inside(other) && !other.inside(self)
    }

    /// Whether the two supports have the same places; a word at a time, without memory.
    pub fn is_same(&self, other: &Support) -> bool
        requires { length self.now ≡ length other.now }
        ensures { result ≡ (is_part self.now other.now && is_part other.now self.now) }
    {
        self.inside(other) && other.inside(self)
    }

    /// A copy, in time and memory of a bit for each place.
    pub fn copy(&self, alloc: Global) -> Result<Support, AllocError>
        ensures { IfOk result (λ copy. copy ≡ self.now) }
    {
        Ok(Support {
            words: self.words.to_vec(alloc)?,
            places: self.places,
        })
    }
}
