//! Which answer the words of a text are given, of what was read and the first word with a cause of a refusal.

ghost use Rattle.std.specs.Prelude.{◌≡◌, ◌≤◌, ◌+◌, IfSome};
ghost use Rattle.ps_parse.specs.Inner.Decided.{decided, first_refusal, goes_first, is_before, is_second, parsed};

use crate::read_refusal::ReadRefusal;
use crate::spot::Spot;
use ps_token::Place;
use ps_tree::Program;

fn is_before(place: Place, other: Place) -> bool
    ensures { result ≡ is_before place other }
{
    place.line < other.line || (place.line == other.line && place.column < other.column)
}

// Whether it is a second name of a product.
fn is_second(refusal: &ReadRefusal) -> bool
    ensures { result ≡ is_second refusal.now }
{
    match refusal {
        ReadRefusal::NotLinear(_place) => true,
        _ => false,
    }
}

// Whether a fault of the grammar goes before the cause.
fn goes_first(fault: Place, spot: &Spot) -> bool
    ensures { result ≡ goes_first fault spot.now }
{
    is_before(fault, spot.place) || (!is_before(spot.place, fault) && !is_second(&spot.refusal))
}

// The fault of the grammar or the cause, whichever goes first.
fn first_refusal(fault: Place, spot: Spot) -> ReadRefusal
    ensures { result ≡ first_refusal fault spot }
{
    if goes_first(fault, &spot) {
        return ReadRefusal::Grammar(fault);
    }
    spot.refusal
}

/// The answer: what was read where no word has a cause, and else the cause, unless a fault of the grammar goes before it.
pub(crate) fn decided(
    spot: Option<Spot>,
    read: Result<Program, ReadRefusal>,
) -> Result<Program, ReadRefusal>
    ensures { result ≡ decided spot read }
{
    let spot = match spot {
        Some(spot) => spot,
        None => return read,
    };
    match read {
        Ok(_program) => Err(spot.refusal),
        Err(ReadRefusal::Memory(e)) => Err(ReadRefusal::Memory(e)),
        Err(ReadRefusal::Grammar(fault)) => Err(first_refusal(fault, spot)),
        Err(_) => Err(spot.refusal),
    }
}

/// How many of so many words are parsed: those up to and with the one that has the first cause. So no more levels are open in
/// them than may be, and one.
pub(crate) fn parsed(spot: &Option<Spot>, all: usize) -> usize
    requires { IfSome spot.now (λ s. s.before + 1 ≤ all) }
    ensures { result ≡ parsed spot.now all }
{
    match spot {
        None => all,
        Some(spot) => spot.before as usize + 1,
    }
}
