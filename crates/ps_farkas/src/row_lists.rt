//! Rows that stand in several lists.
ghost use Rattle.std.specs.Prelude.{◌≡◌, ◌<◌, ◌++◌, length, get_or};

use ps_term::Row;
use std::marker::Model;

/// The rows of three lists, one list after another, which contracts see as one list. The lists are lent, so no row is
/// copied to be summed beside others.
#[derive(Drop)]
pub struct RowLists<'a> {
    first: &'a [Row],
    second: &'a [Row],
    third: &'a [Row],
}

impl<'a> Model for RowLists<'a> {
    ghost use Rattle.std.specs.Prelude.{◌++◌, List};
    ghost use Rattle.ps_term.specs.declared.row.Row.{Row};

    ghost Value = { List Row };

    ghost view = { λ r. r.first.now ++ (r.second.now ++ r.third.now) };
}

impl<'a> RowLists<'a> {
    /// The rows of the three lists; the call needs no memory.
    pub fn new(first: &'a [Row], second: &'a [Row], third: &'a [Row]) -> RowLists<'a>
        ensures { result ≡ first.now ++ (second.now ++ third.now) }
    {
        RowLists {
            first,
            second,
            third,
        }
    }

    // How many rows there are.
    pub(crate) fn len(&self) -> usize
        ensures { result ≡ length self.now }
    {
        self.first.len() + self.second.len() + self.third.len()
    }

    // The row at a place.
    pub(crate) fn row(&self, place: usize) -> &'a Row
        requires { place < length self.now }
        ensures { result.now ≡ get_or self.now place result.now }
    {
        if place < self.first.len() {
            return &self.first[place];
        }
        let later = place - self.first.len();
        if later < self.second.len() {
            return &self.second[later];
        }
        &self.third[later - self.second.len()]
    }
}
