//! Lists as fields of plain data.
ghost use Rattle.std.specs.Prelude.{◌≡◌, IfOk, length};

use std::alloc::{AllocError, Global};
use std::marker::Model;

/// Values that are copied one by one where a list of them is copied.
pub trait Duplicate: Drop {
    /// An equal value, in time and memory of what it holds.
    fn duplicate(&self, alloc: Global) -> Result<Self, AllocError>
        ensures { IfOk result (λ copy. copy ≡ self.now) };
}

/// A list that contracts see as the list of its members.
#[derive(Debug, Drop)]
pub struct Sequence<T> {
    list: Vec<T>,
}

impl<T> Model for Sequence<T> {
    ghost use Rattle.std.specs.Prelude.{List};
    ghost use Rattle.std.specs.Coded.{coded_list};

    ghost Value = { List T };

    ghost coded = { coded_list T.code };

    ghost view = { λ s. s.list.items };
}

impl<T> Sequence<T> {
    /// Takes the list as it is; the call needs no memory.
    pub fn from_list(list: Vec<T>) -> Sequence<T>
        ensures { result ≡ list.items }
    {
        Sequence { list }
    }

    /// Gives the list back; the call needs no memory.
    pub fn into_list(self) -> Vec<T>
        ensures { result.items ≡ self }
    {
        let Sequence { list } = self;
        list
    }

    pub fn as_slice(&self) -> &[T]
        ensures { result.now ≡ self.now }
    {
        self.list.as_slice()
    }
}

impl<T: Copy> Sequence<T> {
    /// The members of a slice, in time and memory of its length.
    pub fn from_slice(alloc: Global, members: &[T]) -> Result<Sequence<T>, AllocError>
        ensures { IfOk result (λ copy. copy ≡ members.now) }
    {
        Ok(Sequence {
            list: Vec::from_slice(alloc, members)?,
        })
    }
}

impl<T: Duplicate> Sequence<T> {
    /// A copy, in time and memory of its members.
    pub fn copy(&self, alloc: Global) -> Result<Sequence<T>, AllocError>
        ensures { IfOk result (λ copy. copy ≡ self.now) }
    {
        Ok(Sequence {
            list: copies(alloc, self.list.as_slice())?,
        })
    }
}

/// A list of copies of the members, in their order.
pub fn copies<T: Duplicate>(alloc: Global, list: &[T]) -> Result<Vec<T>, AllocError>
    ensures { IfOk result (λ copies. copies.items ≡ list.now) }
{
    let mut copies = Vec::with_capacity(alloc, list.len())?;
    for member in list {
        copies.push(member.duplicate(alloc)?)?;
    }
    Ok(copies)
}

impl Duplicate for i128 {
    fn duplicate(&self, _alloc: Global) -> Result<i128, AllocError> {
        Ok(*self)
    }
}

impl Duplicate for u128 {
    fn duplicate(&self, _alloc: Global) -> Result<u128, AllocError> {
        Ok(*self)
    }
}

impl Duplicate for u32 {
    fn duplicate(&self, _alloc: Global) -> Result<u32, AllocError> {
        Ok(*self)
    }
}

impl<T: Duplicate> Duplicate for Sequence<T> {
    fn duplicate(&self, alloc: Global) -> Result<Sequence<T>, AllocError> {
        self.copy(alloc)
    }
}

impl<A: Duplicate, B: Duplicate> Duplicate for (A, B) {
    fn duplicate(&self, alloc: Global) -> Result<(A, B), AllocError> {
        Ok((self.0.duplicate(alloc)?, self.1.duplicate(alloc)?))
    }
}
