// The sums at the cuts of a trace.
ghost use Rattle.std.specs.Prelude.{◌≡◌, ◌<◌, ◌-◌, ◌++◌, ◌∷◌, [], All, IfOk, IsErrOf, OnOk, length};
ghost use Rattle.ps_interp.specs.Sums.{SumFits};
ghost use Rattle.ps_interp.specs.inner.Parts.{IsWeighedIn, cut_sums, letters_by, part_of, sum_in, weighed_before};

use crate::sums::sum_before;
use crate::weights::{WeighedLetter, form_of};
use ps_command::Setting;
use ps_term::{Term, TermEnd};
use std::alloc::{AllocError, Global};

// The sums at all cuts, which are made from the last one, 0, to the first.
pub(crate) fn sums_at_cuts(
    alloc: Global,
    setting: &Setting,
    letters: &[WeighedLetter<'_>],
) -> Result<Vec<Term>, TermEnd>
    requires { All (IsWeighedIn setting.now) letters.now }
    ensures sums { IfOk result
        (λ sums. sums.items ≡ cut_sums (letters_by setting.now letters.now)) }
    ensures fits { OnOk result
        (All (SumFits setting.now) (letters_by setting.now letters.now)) }
    ensures past { IsErrOf result TermEnd.Past128
        → ¬ All (SumFits setting.now) (letters_by setting.now letters.now) }
{
    let mut sums = Vec::with_capacity(alloc, letters.len() + 1).map_err(TermEnd::Memory)?;
    push(&mut sums, Term::from_constant(alloc, 0))?;
    let mut left = letters.len();
    while left > 0 {
        left -= 1;
        let sum = match next_sum(alloc, setting, &letters[left], sums.as_slice()) {
            Ok(sum) => sum,
            Err(end) => return Err(end),
        };
        push(&mut sums, sum)?;
    }
    sums.reverse();
    Ok(sums)
}

// The sum before a letter, from that after it, the last one that was made.
fn next_sum(
    alloc: Global,
    setting: &Setting,
    letter: &WeighedLetter<'_>,
    sums: &[Term],
) -> Result<Term, TermEnd>
    requires letter { IsWeighedIn setting.now letter.now }
    requires some { 0 < length sums.now }
    ensures sum { IfOk result (λ sum. sum ≡ (weighed_before setting.now (part_of letter.now)
        (sum_in sums.now (length sums.now - 1))).before) }
    ensures fits { OnOk result (SumFits setting.now (weighed_before setting.now
        (part_of letter.now) (sum_in sums.now (length sums.now - 1)))) }
    ensures past { IsErrOf result TermEnd.Past128
        → ¬ SumFits setting.now (weighed_before setting.now
        (part_of letter.now) (sum_in sums.now (length sums.now - 1))) }
{
    let form = form_of(setting, letter.command);
    let next = &sums[sums.len() - 1];
    sum_before(alloc, letter.thread, form, letter.weights, next)
}

// Appends a sum.
fn push(sums: &mut Vec<Term>, sum: Term) -> Result<(), TermEnd>
    ensures sums { OnOk result (sums.new.items ≡ sums.old.items ++ sum ∷ []) }
    ensures fits { ¬ IsErrOf result TermEnd.Past128 }
{
    match sums.push(sum) {
        Ok(()) => Ok(()),
        Err(_) => Err(TermEnd::Memory(AllocError)),
    }
}
