//! Finding the first word of a program text that has a cause of a refusal.

ghost use Rattle.std.specs.Prelude.{◌≤◌, length, IfOk};
ghost use Rattle.ps_parse.specs.Inner.Passed.{Finds};

use crate::cursor::Cursor;
use crate::items::item_rows;
use crate::passed::Passed;
use crate::spot::Spot;
use std::alloc::{AllocError, Global};

/// The first word that has a cause of a refusal, if any has one. Looks at each word a few times, and at all declared names
/// for each name; takes memory for those and for the relations of one item.
pub(crate) fn first_cause<'b>(
    alloc: Global,
    most: u32,
    cursor: &mut Cursor<'b>,
) -> Result<Option<Spot>, AllocError>
    requires { length cursor.old.words ≤ most }
    ensures { IfOk result (Finds cursor.old.words cursor.old.end) }
{
    let mut passed = Passed::new(alloc)?;
    'checking: loop {
        let rows = item_rows(alloc, most, &mut cursor.fork())?;
        let word = match cursor.take() {
            Some(word) => word,
            None => return Ok(None),
        };
        if let Some(refusal) = passed.cause(word, rows) {
            return Ok(Some(Spot {
                before: passed.words(),
                place: word.place,
                refusal,
            }));
        }
        passed.pass(word)?;
    }
}
