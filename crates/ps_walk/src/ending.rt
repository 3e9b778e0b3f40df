// The given rows at the values that were found.
ghost use Rattle.std.specs.Prelude.{◌<◌, ◌^◌, length};
ghost use Rattle.ps_walk.specs.inner.Findings.{IsEnding, found_values};

use crate::sum::value_at;
use ps_term::{Row, Var};
use std::collections::BTreeMap;

// What the rows, taken in order, come to.
#[derive(Clone, Copy, Debug)]
pub(crate) enum Ending {
    // All hold.
    Holds,
    // The row of this number is the first that doesn't hold.
    Misses(u32),
    // Before such a row one isn't evaluated within 128 bits.
    Past128,
}

pub(crate) fn ending_of(found: &BTreeMap<Var, i128>, rows: &[Row]) -> Ending
    requires { length rows.now < 2 ^ 32 }
    ensures { IsEnding (found_values found.now) rows.now result }
{
    for (i, row) in rows.iter().enumerate() {
        match value_at(found, row, None) {
            None => return Ending::Past128,
            Some(value) => {
                if value > 0 {
                    return Ending::Misses(i as u32);
                }
            }
        }
    }
    Ending::Holds
}
