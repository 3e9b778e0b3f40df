// What stands at a cut.
ghost use Rattle.std.specs.Prelude.{◌≡◌, ◌≢◌, ◌<◌, ◌^◌, [], IfErr, IfOk, IsErrOf, OnOk};
ghost use Rattle.ps_interp.specs.Cuts.{IsFalseSum};
ghost use Rattle.ps_interp.specs.Interpolants.{HasDivisor, StandsAt, interpolant_row};
ghost use Rattle.ps_interp.specs.Made.{InterpolantFits};
ghost use Rattle.ps_interp.specs.inner.Meetings.{EndsTaking, IsTaken, interpolant_in};
ghost use Rattle.ps_interp.specs.inner.Places.{EndsPlacing, IsPlaced, end_at};

use crate::interp_end::InterpEnd;
use crate::weighing::plus_scaled;
use ps_atom::{Atom, Place128, PlaceEnd, Predicates, PushEnd};
use ps_term::{Row, Term, TermEnd, tighten};
use std::alloc::{AllocError, Global};

// An interpolant as an atom of the trace's threads, with the divisor of its row.
#[derive(Drop)]
pub(crate) struct Standing {
    pub(crate) atom: Atom,
    pub(crate) divisor: u128,
}

// What stands at the cut with this sum, unless it is trivial; a predicate that is new is taken into the table.
pub(crate) fn standing_at(
    alloc: Global,
    table: &mut Predicates,
    sum: &Term,
    cut: u32,
) -> Result<Option<Standing>, InterpEnd>
    requires { ¬ IsFalseSum sum.now }
    ensures taken { OnOk result (IsTaken table.old sum.now table.new) }
    ensures stands { IfOk result (λ s. StandsAt table.new sum.now (interpolant_in s)) }
    ensures fits { OnOk result (InterpolantFits sum.now) }
    ensures ends { IfErr result (EndsTaking table.old sum.now cut) }
{
    // The clause of `as_slice` says that the pairs are in order; the call does nothing else here.
    let _pairs = sum.pairs.as_slice();
    let row = match interpolant_row(alloc, sum) {
        Ok(row) => row,
        Err(TermEnd::Past128) => return Err(InterpEnd::Past128),
        Err(TermEnd::Memory(end)) => return Err(InterpEnd::Memory(end)),
    };
    let atom = match atom_of(alloc, table, &row) {
        Ok(Some(atom)) => atom,
        Ok(None) => return Ok(None),
        Err(end) => return Err(end_at(cut, end)),
    };
    match divisor_of(alloc, &row) {
        Ok(divisor) => Ok(Some(Standing { atom, divisor })),
        Err(end) => Err(InterpEnd::Memory(end)),
    }
}

// The row `1 - sum <= 0`.
fn interpolant_row(alloc: Global, sum: &Term) -> Result<Row, TermEnd>
    ensures row { IfOk result (λ row. row ≡ interpolant_row sum.now) }
    ensures fits { OnOk result (InterpolantFits sum.now) }
    ensures past { IsErrOf result TermEnd.Past128 → ¬ InterpolantFits sum.now }
{
    let one = Term::from_constant(alloc, 1);
    match plus_scaled(alloc, &one, -1, sum) {
        Ok(term) => Ok(Row { term }),
        Err(end) => Err(end),
    }
}

// The atom of a row with variables; one without them that holds always has none.
fn atom_of(alloc: Global, table: &mut Predicates, row: &Row) -> Result<Option<Atom>, PlaceEnd>
    ensures placed { IfOk result (IsPlaced table.old row.now table.new) }
    ensures ends { IfErr result (EndsPlacing table.old row.now) }
{
    match table.number_of(alloc, row)? {
        Place128::Trivial => Ok(None),
        Place128::False => Ok(None),
        Place128::Known { number, threads } => Ok(Some(Atom {
            predicate: number,
            threads,
        })),
        Place128::New { predicate, threads } => match table.push(alloc, predicate) {
            Ok(number) => Ok(Some(Atom {
                predicate: number,
                threads,
            })),
            Err(PushEnd::Full) => Err(PlaceEnd::Full),
            Err(PushEnd::Memory(end)) => Err(PlaceEnd::Memory(end)),
        },
    }
}

// The end of a call at this cut.
fn end_at(cut: u32, end: PlaceEnd) -> InterpEnd
    ensures { result ≡ end_at cut end }
{
    match end {
        PlaceEnd::Arity { count } => InterpEnd::Arity { cut, count },
        PlaceEnd::Full => InterpEnd::Predicates { cut },
        PlaceEnd::Memory(end) => InterpEnd::Memory(end),
    }
}

// By what the row is divided where it is tightened.
fn divisor_of(alloc: Global, row: &Row) -> Result<u128, AllocError>
    requires { row.now.term.pairs ≢ [] }
    ensures { IfOk result (HasDivisor row.now) }
{
    let tight = tighten(alloc, row)?;
    let first = row.term.pairs.as_slice()[0];
    let reduced = tight.term.pairs.coefficient(first.0);
    Ok(first.1.unsigned_abs() / reduced.unsigned_abs())
}
