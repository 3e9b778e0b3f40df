//! Tables of predicates.
ghost use Rattle.std.specs.Prelude.{◌≡◌, ◌<◌, ◌≤◌, ◌++◌, ◌∷◌, [], IfErr, IfOk, IsErrOf, OnErr, OnOk, length};
ghost use Rattle.indexmap.specs.IndexMap.{get};
ghost use Rattle.ps_atom.specs.inner.Index.{IsIndex, IsNoted, IsSameIndex, key_of};
ghost use Rattle.ps_atom.specs.inner.Keys.{key_eq};
ghost use Rattle.ps_atom.specs.Numbers.{IsTable, false_predicate};
ghost use Rattle.ps_atom.specs.Places.{IsEndOf, IsPlaceOf};
ghost use Rattle.ps_atom.specs.inner.Ends.{IsBarePlace};
ghost use Rattle.ps_atom.specs.declared.predicates.TheConstants.Predicates.{MOST};

use crate::canonical::{Form, form_of};
use crate::key::Key;
use crate::place::{Place128, PlaceEnd};
use crate::predicate::Predicate;
use indexmap::IndexMap;
use ps_list::copies;
use ps_term::{Row, Term, tighten};
use std::alloc::{AllocError, Global};
use std::marker::Model;
use thiserror::Error;

/// A list of at most 128 predicates, which are numbered by their places. The first one is `1 <= 0`. A
/// predicate may stand twice.
#[derive(Drop)]
pub struct Predicates {
    list: Vec<Predicate>,
    // The least number of each predicate.
    index: IndexMap<Key, u32>,
}

/// Why a predicate was not taken.
#[derive(Debug, Drop, Error)]
pub enum PushEnd {
    /// The table has 128 predicates.
    #[error("the table of predicates is full")]
    Full,
    /// No memory was left.
    #[error("out of memory")]
    Memory(AllocError),
}

impl Model for Predicates {
    ghost use Rattle.std.specs.Prelude.{List};
    ghost use Rattle.ps_atom.specs.declared.predicate.Predicate.{Predicate};
    ghost use Rattle.ps_atom.specs.inner.Index.{IsIndexed};

    ghost Value = { List Predicate };

    ghost view = { λ p. p.list.items };

    ghost invariant = { λ p. IsIndexed p.list.items p.index };
}

impl Predicates {
    /// The most predicates that a table holds.
    pub const MOST: u32 = 128;

    /// The table of `1 <= 0` alone.
    pub fn new(alloc: Global) -> Result<Predicates, AllocError>
        ensures { IfOk result (λ table. table ≡ false_predicate ∷ []) }
    {
        let mut list = Vec::with_capacity(alloc, 1)?;
        list.push(Predicate {
            arity: 0,
            row: Row {
                term: Term::from_constant(alloc, 1),
            },
        })
        .map_err(|_| AllocError)?;
        let index = index_of(alloc, list.as_slice())?;
        Ok(Predicates { list, index })
    }

    /// The predicates in the order of their numbers; the call needs no memory.
    pub fn list(&self) -> &[Predicate]
        ensures list { result.now ≡ self.now }
        ensures table { IsTable result.now }
    {
        let _index = &self.index;
        self.list.as_slice()
    }

    /// Appends a predicate and gives its number. It is `Full` where the table has 128. After an error
    /// the table is as before. In time of the predicate's pairs, and memory of them where it is new.
    pub fn push(&mut self, alloc: Global, predicate: Predicate) -> Result<u32, PushEnd>
        ensures number { IfOk result (λ number. number ≡ length self.old) }
        ensures appended { OnOk result (self.new ≡ self.old ++ predicate ∷ []) }
        ensures unchanged { OnErr result (self.new ≡ self.old) }
        ensures room { OnOk result (length self.old < MOST) }
        ensures full { IsErrOf result PushEnd.Full → length self.old ≡ MOST }
        ensures table { IsTable self.new }
    {
        let number = self.list.len();
        if number >= Predicates::MOST as usize {
            return Err(PushEnd::Full);
        }
        self.list.reserve(1).map_err(PushEnd::Memory)?;
        match note(alloc, &mut self.index, predicate, number as u32) {
            Ok(predicate) => {
                self.list.push_reserved(predicate);
                Ok(number as u32)
            }
            Err(end) => Err(PushEnd::Memory(end)),
        }
    }

    /// Where the row stands: its canonical predicate, looked up in the table. That is the tightened row
    /// with slots put for its threads. They are ordered by their lists of pairs (local number,
    /// coefficient), which are compared pair by pair, by number first, a list that the other begins with
    /// coming first; threads with one list are ordered by their numbers.
    ///
    /// It is `Arity` where more than 4 threads occur (`count` says how many, and stays at the greatest
    /// number of 32 bits past it), and then `Full` where the predicate isn't in a table of 128. In time
    /// and memory of the row's pairs, with one look-up.
    pub fn number_of(&self, alloc: Global, row: &Row) -> Result<Place128, PlaceEnd>
        ensures place { IfOk result (IsPlaceOf self.now row.now) }
        ensures end { IfErr result (IsEndOf self.now row.now) }
    {
        if row.term.pairs.as_slice().is_empty() {
            return Ok(bare_place(row.term.constant));
        }
        let tight = match tighten(alloc, row) {
            Ok(tight) => tight,
            Err(end) => return Err(PlaceEnd::Memory(end)),
        };
        let Form { predicate, threads } = match form_of(alloc, &tight) {
            Ok(form) => form,
            Err(end) => return Err(end),
        };
        let key = Key { predicate };
        let number = number_in(&self.index, &key);
        let Key { predicate } = key;
        match number {
            Some(number) => Ok(Place128::Known { number, threads }),
            None if self.list.len() >= Predicates::MOST as usize => Err(PlaceEnd::Full),
            None => Ok(Place128::New { predicate, threads }),
        }
    }

    /// A copy, in time and memory of the predicates' pairs.
    pub fn copy(&self, alloc: Global) -> Result<Predicates, AllocError>
        ensures { IfOk result (λ table. table ≡ self.now) }
    {
        Ok(Predicates {
            list: copies(alloc, self.list.as_slice())?,
            index: index_of(alloc, self.list.as_slice())?,
        })
    }
}

// The place of a row without variables.
fn bare_place(constant: i128) -> Place128
    ensures { IsBarePlace constant result }
{
    if constant <= 0 {
        Place128::Trivial
    } else {
        Place128::False
    }
}

// The index of a list.
fn index_of(alloc: Global, list: &[Predicate]) -> Result<IndexMap<Key, u32>, AllocError>
    requires { length list.now ≤ MOST }
    ensures { IfOk result (IsIndex list.now) }
{
    let mut index = IndexMap::new(alloc);
    let mut number = 0;
    for predicate in list {
        let key = Key {
            predicate: predicate.copy(alloc)?,
        };
        enter(&mut index, key, number)?;
        number += 1;
    }
    Ok(index)
}

// Enters the number of the predicate, unless it has one, and hands the predicate back. It is copied
// only where it is new.
fn note(
    alloc: Global,
    index: &mut IndexMap<Key, u32>,
    predicate: Predicate,
    number: u32,
) -> Result<Predicate, AllocError>
    ensures noted { OnOk result (IsNoted index.old (key_of predicate) number index.new) }
    ensures same { IfOk result (λ back. back ≡ predicate) }
    ensures unchanged { OnErr result (IsSameIndex index.old index.new) }
{
    let key = Key { predicate };
    if number_in(index, &key).is_some() {
        let Key { predicate } = key;
        return Ok(predicate);
    }
    let predicate = key.predicate.copy(alloc)?;
    index.insert(key, number)?;
    Ok(predicate)
}

// Enters the number of the key, unless it has one.
fn enter(index: &mut IndexMap<Key, u32>, key: Key, number: u32) -> Result<(), AllocError>
    ensures { OnOk result (IsNoted index.old key number index.new) }
{
    if number_in(index, &key).is_some() {
        return Ok(());
    }
    index.insert(key, number)?;
    Ok(())
}

// The number of the key, if it has one.
fn number_in(index: &IndexMap<Key, u32>, key: &Key) -> Option<u32>
    ensures { result ≡ get key_eq index.now key.now }
{
    index.get(key).copied()
}
