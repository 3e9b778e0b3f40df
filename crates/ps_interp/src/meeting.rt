// The cuts of a refuted trace are met one after another.
ghost use Rattle.std.specs.Prelude.{◌<◌, [], IfErr, IfOk, length};
ghost use Rattle.ps_interp.specs.Cuts.{IsFalseSum, sum_at};
ghost use Rattle.ps_interp.specs.Firsts.{AreFirst};
ghost use Rattle.ps_interp.specs.inner.Meetings.{AreCuts, AreMet, EndsMeeting, EndsMeetings, IsMet, falses_in, interpolant_in, interpolant_of, letters_in};

use crate::cuts::Cuts;
use crate::interp_end::InterpEnd;
use crate::listing::Listing;
use crate::standing::{Standing, standing_at};
use crate::tripling::{false_atom, false_triple, triple_of};
use ps_atom::Predicates;
use ps_triple::entry_holds;
use std::alloc::{AllocError, Global};

// The table with the predicates that were taken, and the entries.
#[derive(Drop)]
pub(crate) struct Found {
    pub(crate) table: Predicates,
    pub(crate) entries: Listing,
}

// Meets the cuts below the least false one in descending order, and answers what stands at the lowest, unless it is trivial.
pub(crate) fn meet_cuts(
    alloc: Global,
    cuts: &Cuts<'_>,
    found: &mut Found,
) -> Result<Option<Standing>, InterpEnd>
    requires { AreCuts cuts.now }
    ensures met { IfOk result (λ s. AreMet cuts.now.setting.now (letters_in cuts.now) found.old.table
        found.old.entries cuts.now.high cuts.now.low found.new (interpolant_in s)) }
    ensures ends { IfErr result (EndsMeetings cuts.now.setting.now (letters_in cuts.now)
        found.old.table cuts.now.low cuts.now.high) }
{
    // The clause of `list` says that no table has more than 128 predicates; the call does nothing else here.
    let _known = found.table.list();
    let mut after = Standing {
        atom: false_atom(alloc),
        divisor: 0,
    };
    let mut cut = cuts.high;
    while cut > cuts.low {
        cut -= 1;
        match meet(alloc, cuts, cut, &after, found) {
            Ok(Some(standing)) => after = standing,
            Ok(None) => return Ok(None),
            Err(end) => return Err(end),
        }
    }
    Ok(Some(after))
}

// Meets one cut, from what stands at the next one: its predicate is taken, and the triple of the letter between them, which
// holds where it has no value past 128 bits, is listed.
fn meet(
    alloc: Global,
    cuts: &Cuts<'_>,
    cut: usize,
    after: &Standing,
    found: &mut Found,
) -> Result<Option<Standing>, InterpEnd>
    requires cuts { AreCuts cuts.now }
    requires within { cut < length cuts.now.letters.items }
    requires some { ¬ IsFalseSum (sum_at (letters_in cuts.now) cut) }
    ensures met { IfOk result (λ s. IsMet cuts.now.setting.now (letters_in cuts.now) cut
        (interpolant_of after.now) found.old found.new (interpolant_in s)) }
    ensures ends { IfErr result (EndsMeeting cuts.now.setting.now (letters_in cuts.now) cut
        (interpolant_of after.now) found.old.table) }
{
    let before = match standing_at(alloc, &mut found.table, &cuts.sums[cut], cut as u32) {
        Ok(before) => before,
        Err(end) => return Err(end),
    };
    // As above, of the table with the predicate that was taken.
    let _table = found.table.list();
    let entry = match triple_of(alloc, &cuts.letters[cut], &before, after) {
        Ok(entry) => entry,
        Err(end) => return Err(InterpEnd::Memory(end)),
    };
    let stands = match entry_holds(alloc, cuts.setting, &found.table, &entry) {
        Ok(stands) => stands,
        Err(end) => return Err(InterpEnd::Memory(end)),
    };
    if !stands {
        return Err(InterpEnd::Past128);
    }
    match found.entries.push_once(entry) {
        Ok(()) => Ok(before),
        Err(end) => Err(InterpEnd::Memory(end)),
    }
}

// The triples from false to false of the letters from the least false cut on, the last one first, equal ones once. There is
// room for a triple of each letter, and for the initial entry.
pub(crate) fn false_triples(alloc: Global, cuts: &Cuts<'_>) -> Result<Listing, AllocError>
    requires { AreCuts cuts.now }
    ensures { IfOk result (λ entries. AreFirst [] (falses_in cuts.now) entries) }
{
    let letters = cuts.letters.as_slice();
    let mut entries = Listing::with_capacity(alloc, letters.len() + 1)?;
    let mut left = letters.len();
    while left > cuts.high {
        left -= 1;
        let entry = false_triple(alloc, cuts.setting, letters[left].command)?;
        entries.push_once(entry)?;
    }
    Ok(entries)
}
