//! Sums at the cuts of a trace.
ghost use Rattle.std.specs.Prelude.{◌≡◌, pos, IfOk, IsErrOf, IsTrue, OnOk, length, map};
ghost use Rattle.ps_interp.specs.Sums.{PlusRowsFit, letter_sum, rows_by, sum_before, terms_by};
ghost use Rattle.ps_term.specs.Exact.{number_term, substituted};
ghost use Rattle.ps_term.specs.Substitution.{SubstitutionFits};
ghost use Rattle.ps_term.specs.Sums.{TermFits};
ghost use Rattle.ps_trace.specs.Own.{is_own_form};

use crate::weighing::{plus_scaled, plus_weighted};
use ps_command::SymbolicForm;
use ps_term::{Term, TermEnd, Var, substitute};
use ps_trace::{of_thread, term_of_thread};
use std::alloc::{AllocError, Global};

/// The sum at the cut before a letter, from the sum at the cut after it: from 0 the rows of the command's form are added in order,
/// each times its multiplier, with the locals of the thread that runs it; then the sum after it, as `substitute` of ps_term puts
/// it after the command. It is `Past128` where a product or a partial sum of these lies outside `i128`, or a multiplier does whose
/// row isn't `0 <= 0`. In time of the form's rows and terms and of the sum after it.
pub fn sum_before(
    alloc: Global,
    thread: u32,
    form: &SymbolicForm,
    weights: &[u128],
    next: &Term,
) -> Result<Term, TermEnd>
    requires own { IsTrue (is_own_form form.now) }
    requires as_many { length weights.now ≡ length form.now.rows }
    ensures sum { IfOk result (λ sum. sum ≡ sum_before thread form.now weights.now next.now) }
    ensures rows_fit { OnOk result
        (PlusRowsFit (number_term (pos 0)) (rows_by thread form.now) weights.now) }
    ensures next_fits { OnOk result (SubstitutionFits (terms_by thread form.now) next.now) }
    ensures sum_fits { OnOk result (TermFits (letter_sum thread form.now weights.now) (pos 1)
        (substituted (terms_by thread form.now) next.now)) }
    ensures past { IsErrOf result TermEnd.Past128 →
        ¬ (PlusRowsFit (number_term (pos 0)) (rows_by thread form.now) weights.now
        × SubstitutionFits (terms_by thread form.now) next.now
        × TermFits (letter_sum thread form.now weights.now) (pos 1)
        (substituted (terms_by thread form.now) next.now)) }
{
    let own = letter_sum(alloc, thread, form, weights)?;
    let put = put_after(alloc, thread, form, next)?;
    let sum = plus_scaled(alloc, &own, 1, &put)?;
    Ok(sum)
}

// The letter's weighted rows.
fn letter_sum(
    alloc: Global,
    thread: u32,
    form: &SymbolicForm,
    weights: &[u128],
) -> Result<Term, TermEnd>
    requires own { IsTrue (is_own_form form.now) }
    requires as_many { length weights.now ≡ length form.now.rows }
    ensures sum { IfOk result (λ sum. sum ≡ letter_sum thread form.now weights.now) }
    ensures fits { OnOk result
        (PlusRowsFit (number_term (pos 0)) (rows_by thread form.now) weights.now) }
    ensures past { IsErrOf result TermEnd.Past128
        → ¬ PlusRowsFit (number_term (pos 0)) (rows_by thread form.now) weights.now }
{
    let rows = form.rows.as_slice();
    let mut sum = Term::from_constant(alloc, 0);
    'adding: for place in 0..rows.len() {
        let own = match term_of_thread(alloc, &rows[place].term, thread, 0, form.havocs) {
            Ok(own) => own,
            Err(end) => return Err(TermEnd::Memory(end)),
        };
        sum = match plus_weighted(alloc, &sum, weights[place], &own) {
            Ok(sum) => sum,
            Err(end) => return Err(end),
        };
    }
    Ok(sum)
}

// A term of the values after the letter, as one of those before it.
fn put_after(alloc: Global, thread: u32, form: &SymbolicForm, next: &Term) -> Result<Term, TermEnd>
    requires own { IsTrue (is_own_form form.now) }
    ensures term { IfOk result (λ put. put ≡ substituted (terms_by thread form.now) next.now) }
    ensures fits { OnOk result (SubstitutionFits (terms_by thread form.now) next.now) }
    ensures past { IsErrOf result TermEnd.Past128
        → ¬ SubstitutionFits (terms_by thread form.now) next.now }
{
    let after = match terms_by(alloc, thread, form) {
        Ok(after) => after,
        Err(end) => return Err(TermEnd::Memory(end)),
    };
    match substitute(alloc, next, after.as_slice()) {
        Ok(put) => Ok(put),
        Err(end) => Err(end),
    }
}

// What variables are worth after the letter.
fn terms_by(alloc: Global, thread: u32, form: &SymbolicForm) -> Result<Vec<(Var, Term)>, AllocError>
    requires own { IsTrue (is_own_form form.now) }
    ensures { IfOk result (λ terms. terms.items ≡ terms_by thread form.now) }
{
    let worth = form.after.as_slice();
    let mut terms = Vec::with_capacity(alloc, worth.len())?;
    for pair in worth {
        let term = term_of_thread(alloc, &pair.1, thread, 0, form.havocs)?;
        terms
            .push((of_thread(pair.0, thread, 0, 0), term))
            .map_err(|_| AllocError)?;
    }
    Ok(terms)
}
