//! Vectors of multipliers.
ghost use Rattle.std.specs.Prelude.{◌≡◌, ◌≤◌, ◌<◌, ◌/◌, ◌^◌, pos, All, IfOk, IsErrOf, OnOk, length, map, replicate, slice_index, slice_set};
ghost use Rattle.std.specs.Int.{◌∣◌};
ghost use Rattle.std.specs.List.{AllZip};
ghost use Rattle.ps_elim.specs.Combining.{WeightedFits, weighted_entries};
ghost use Rattle.ps_elim.specs.Divisors.{divisor_of_all};
ghost use Rattle.ps_elim.specs.Supports.{is_less};
ghost use Rattle.ps_elim.specs.inner.Words.{AreWordsOf};

use crate::lexicographic::comes_before;
use crate::pair::Weights;
use crate::reduce::{divided_term, divisor_of};
use crate::sum::weighted_sum;
use crate::words::words_of;
use ps_list::Duplicate;
use ps_term::{Term, TermEnd, Var};
use std::alloc::{AllocError, Global};
use std::marker::Model;

/// A vector of multipliers, with one entry for each of some rows. Contracts see the list of all entries; those that
/// aren't 0 stand in memory.
#[derive(Debug, Drop)]
pub struct Vector {
    // The vector as a sum of rows: the variable `Global(n)` stands for row n, and its coefficient is the entry.
    entries: Term,
    places: usize,
}

impl Model for Vector {
    ghost use Rattle.std.specs.Prelude.{List, ℕ};
    ghost use Rattle.ps_elim.specs.inner.Entries.{AreEntries, entries_of};

    ghost Value = { List ℕ };

    ghost view = { λ v. entries_of v.entries v.places };

    ghost invariant = { λ v. AreEntries v.entries v.places };
}

impl Vector {
    // The vector that is 1 at the place and 0 elsewhere.
    pub(crate) fn unit(alloc: Global, place: usize, places: usize) -> Result<Vector, AllocError>
        requires within { place < places }
        requires few { places ≤ 2 ^ 32 }
        ensures { IfOk result (λ vector. vector ≡ slice_set (replicate places 0) place 1) }
    {
        Ok(Vector {
            entries: Term::from_variable(alloc, Var::Global(place as u32))?,
            places,
        })
    }

    /// How many entries there are, those that are 0 too.
    pub fn places(&self) -> usize
        ensures { result ≡ length self.now }
    {
        self.places
    }

    /// The entry at the place, by a binary search among those that aren't 0.
    pub fn entry(&self, place: usize) -> u128
        requires { place < length self.now }
        ensures { result ≡ slice_index self.now place }
    {
        self.entries
            .pairs
            .coefficient(Var::Global(place as u32))
            .unsigned_abs()
    }

    // So often this vector and so often the other one, in time of their entries that aren't 0.
    pub(crate) fn weighted_sum(
        &self,
        alloc: Global,
        weights: Weights,
        other: &Vector,
    ) -> Result<Vector, TermEnd>
        requires long { length self.now ≡ length other.now }
        requires first { weights.first < 2 ^ 127 }
        requires second { weights.second < 2 ^ 127 }
        ensures entries { IfOk result (λ sum.
            sum ≡ weighted_entries weights.first self.now weights.second other.now) }
        ensures small { IfOk result (λ sum. All (λ n. n < 2 ^ 127) sum) }
        ensures fits { OnOk result (AllZip (λ i j.
            WeightedFits weights.first (pos i) weights.second (pos j)) self.now other.now) }
        ensures past { IsErrOf result TermEnd.Past128 → ¬ AllZip (λ i j.
            WeightedFits weights.first (pos i) weights.second (pos j)) self.now other.now }
    {
        Ok(Vector {
            entries: weighted_sum(alloc, weights, &self.entries, &other.entries)?,
            places: self.places,
        })
    }

    // The greatest number that divides all entries.
    pub(crate) fn divisor(&self) -> u128
        ensures { result ≡ divisor_of_all self.now }
    {
        divisor_of(self.entries.pairs.as_slice())
    }

    // Each entry divided by a number that divides all of them.
    pub(crate) fn divided(&self, alloc: Global, divisor: u128) -> Result<Vector, AllocError>
        requires positive { 1 < divisor }
        requires small { divisor < 2 ^ 127 }
        requires divides { All (λ n. divisor ∣ n) self.now }
        ensures { IfOk result (λ vector. vector ≡ map (λ n. n / divisor) self.now) }
    {
        Ok(Vector {
            entries: divided_term(alloc, &self.entries, divisor)?,
            places: self.places,
        })
    }

    // Whether the vector comes before the other one in lexicographic order, in time of the entries that aren't 0.
    pub(crate) fn is_less(&self, other: &Vector) -> bool
        requires { length self.now ≡ length other.now }
        ensures { result ≡ is_less self.now other.now }
    {
        comes_before(
            self.entries.pairs.as_slice(),
            other.entries.pairs.as_slice(),
        )
    }

    // A bit for each place, set where the entry isn't 0, in words of 64.
    pub(crate) fn words(&self, alloc: Global) -> Result<Vec<u64>, AllocError>
        ensures { IfOk result (λ words. AreWordsOf self.now words.items) }
    {
        words_of(alloc, &self.entries, self.places)
    }

    /// All entries in order, in time of a binary search for each.
    pub fn to_list(&self, alloc: Global) -> Result<Vec<u128>, AllocError>
        ensures { IfOk result (λ list. list.items ≡ self.now) }
    {
        listed(alloc, self)
    }

    /// A copy, in time and memory of the entries that aren't 0.
    pub fn copy(&self, alloc: Global) -> Result<Vector, AllocError>
        ensures { IfOk result (λ copy. copy ≡ self.now) }
    {
        Ok(Vector {
            entries: self.entries.copy(alloc)?,
            places: self.places,
        })
    }
}

impl Duplicate for Vector {
    fn duplicate(&self, alloc: Global) -> Result<Vector, AllocError> {
        self.copy(alloc)
    }
}

fn listed(alloc: Global, vector: &Vector) -> Result<Vec<u128>, AllocError>
    ensures { IfOk result (λ list. list.items ≡ vector.now) }
{
    let places = vector.places();
    let mut list = Vec::with_capacity(alloc, places)?;
    for place in 0..places {
        list.push(vector.entry(place))?;
    }
    Ok(list)
}
