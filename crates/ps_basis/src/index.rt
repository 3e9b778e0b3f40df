//! An index of entries.
ghost use Rattle.std.specs.Prelude.{
  ◌≡◌,
  ◌<◌,
  ◌≤◌,
  ◌+◌,
  ◌↔◌,
  ◌⊎◌,
  Contains,
  IfOk,
  OnErr,
  OnOk,
  [],
  false,
  filter,
  length,
  true,
};
ghost use Rattle.std.specs.List.Sorted.{IsPartitionPoint, IsSorted};
ghost use Rattle.std.specs.Ordering.{is_lt};
ghost use Rattle.std.specs.Vec.{vec_capacity, vec_len};
ghost use Rattle.ps_basis.specs.declared.limits.TheConstants.{MOST_ENTRIES};
ghost use Rattle.ps_basis.specs.declared.place.Place.{Place};
ghost use Rattle.ps_basis.specs.inner.Index.{IsFirst, IsIndex, is_below, place_cmp};

use crate::key::Key;
use crate::place::Place;
use ps_triple::Entry;
use std::alloc::{AllocError, Global};
use std::cmp::Ordering;

// The places of entries, in order.
#[derive(Drop)]
pub(crate) struct Index {
    places: Vec<Place>,
}

impl Index {
    pub(crate) fn new(alloc: Global) -> Index
        ensures { result.places.items ≡ [] }
    {
        Index {
            places: Vec::new(alloc),
        }
    }

    // The index of these entries; of n in time n log n.
    pub(crate) fn of(alloc: Global, entries: &[Entry]) -> Result<Index, AllocError>
        requires { length entries.now ≤ MOST_ENTRIES }
        ensures { IfOk result (λ index. IsIndex entries.now index.places.items) }
    {
        let mut places = Vec::with_capacity(alloc, entries.len())?;
        for (n, entry) in entries.iter().enumerate() {
            places.push(Place {
                key: Key::of(entry),
                number: n as u32,
            })?;
        }
        places.sort_unstable_by(
            |a: &Place, b: &Place| -> Ordering
                ensures { result ≡ place_cmp a.now b.now }
            { a.compare(b) },
        );
        Ok(Index { places })
    }

    // Makes room for so many more places. Without memory nothing changes.
    pub(crate) fn reserve(&mut self, more: usize) -> Result<(), AllocError>
        ensures places { self.new.places.items ≡ self.old.places.items }
        ensures len { vec_len self.new.places ≡ vec_len self.old.places }
        ensures capacity { vec_capacity self.old.places ≤ vec_capacity self.new.places }
        ensures room { OnOk result (vec_len self.new.places + more ≤ vec_capacity self.new.places) }
    {
        self.places.reserve(more)
    }

    // Puts a place where it belongs; there is room for it.
    pub(crate) fn insert_reserved(&mut self, place: Place)
        requires room { vec_len self.old.places < vec_capacity self.old.places }
        requires ordered { IsSorted place_cmp self.old.places.items }
        ensures sorted { IsSorted place_cmp self.new.places.items }
        ensures places { (p : Place)
            → Contains self.new.places.items p ↔ (Contains self.old.places.items p ⊎ (place ≡ p)) }
        ensures len { vec_len self.new.places ≡ vec_len self.old.places + 1 }
        ensures capacity { vec_capacity self.old.places ≤ vec_capacity self.new.places }
    {
        let at = self.count_below(&place);
        let _ = self.places.insert(at, place);
    }

    // The least number from this one on that stands with this key, by a binary search.
    pub(crate) fn first(&self, key: Key, from: u32) -> Option<u32>
        requires { IsSorted place_cmp self.now.places.items }
        ensures { IsFirst self.now.places.items key from result }
    {
        let at = self.count_below(&Place { key, number: from });
        let place = self.places.get(at)?;
        if place.key.compare(&key).is_eq() {
            Some(place.number)
        } else {
            None
        }
    }

    // How many places are below this one.
    fn count_below(&self, place: &Place) -> usize
        requires { IsSorted place_cmp self.now.places.items }
        ensures within { result ≤ length self.now.places.items }
        ensures point { IsPartitionPoint (λ p. is_lt (place_cmp p place.now) ≡ true)
            (λ p. is_lt (place_cmp p place.now) ≡ false) self.now.places.items result }
    {
        self.places.partition_point(
            |other: &Place| -> bool
                ensures { result ≡ is_lt (place_cmp other.now place.entry.now) }
            { other.compare(place).is_lt() },
        )
    }

    // The places of numbers below this one, in time of all and memory of these.
    pub(crate) fn front(&self, alloc: Global, count: u32) -> Result<Index, AllocError>
        ensures { IfOk result (λ index.
            index.places.items ≡ filter (is_below count) self.now.places.items) }
    {
        let mut places = Vec::with_capacity(alloc, count as usize)?;
        for place in &self.places {
            if place.number < count {
                places.push(*place)?;
            }
        }
        Ok(Index { places })
    }

    // A copy, in time and memory of the places.
    pub(crate) fn copy(&self, alloc: Global) -> Result<Index, AllocError>
        ensures { IfOk result (λ index. index.places.items ≡ self.now.places.items) }
    {
        Ok(Index {
            places: self.places.to_vec(alloc)?,
        })
    }
}
