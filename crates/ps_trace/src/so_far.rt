// What variables are worth after some letters of a trace.
ghost use Rattle.std.specs.Prelude.{◌≡◌, ◌<◌, ◌+◌, ◌++◌, ◌^◌, All, IfOk, IsErrOf, IsTrue, OnOk};
ghost use Rattle.ps_term.specs.Substitution.{SubstitutionFits};
ghost use Rattle.ps_trace.specs.Rows.{after_letter, letter_rows, letter_terms, LetterFits, nothing_yet, put_after, term_of_thread, with_terms};
ghost use Rattle.ps_trace.specs.Own.{is_own_form, is_own_term};
ghost use Rattle.ps_trace.specs.inner.SoFars.{so_far_of};

use crate::renaming::{of_thread, term_of_thread};
use ps_command::{Assignments, SymbolicForm};
use ps_term::{Row, Term, TermEnd, Var};
use std::alloc::{AllocError, Global};

// Terms over the values before the trace and its havocs, and how many havocs came.
#[derive(Drop)]
pub(crate) struct SoFar {
    after: Assignments,
    havocs: u32,
}

impl SoFar {
    pub(crate) fn new(alloc: Global) -> SoFar
        ensures { so_far_of result ≡ nothing_yet }
    {
        SoFar {
            after: Assignments::new(alloc),
            havocs: 0,
        }
    }

    // Takes one letter more, and appends the rows that it asks.
    pub(crate) fn take(
        &mut self,
        alloc: Global,
        thread: u32,
        form: &SymbolicForm,
        rows: &mut Vec<Row>,
    ) -> Result<(), TermEnd>
        requires own { IsTrue (is_own_form form.now) }
        requires havocs { self.old.havocs + form.now.havocs < 2 ^ 32 }
        ensures rows { OnOk result (rows.new.items
            ≡ rows.old.items ++ letter_rows (so_far_of self.old) thread form.now) }
        ensures after { OnOk result
            (so_far_of self.new ≡ after_letter (so_far_of self.old) thread form.now) }
        ensures fits { OnOk result (LetterFits (so_far_of self.old) thread form.now) }
        ensures past { IsErrOf result TermEnd.Past128
            → ¬ LetterFits (so_far_of self.old) thread form.now }
    {
        self.ask(alloc, thread, form, rows)?;
        let terms = self.terms_after(alloc, thread, form)?;
        set_all(alloc, &mut self.after, terms).map_err(TermEnd::Memory)?;
        self.havocs += form.havocs;
        Ok(())
    }

    // Appends the rows that the letter asks.
    fn ask(
        &self,
        alloc: Global,
        thread: u32,
        form: &SymbolicForm,
        rows: &mut Vec<Row>,
    ) -> Result<(), TermEnd>
        requires own { IsTrue (is_own_form form.now) }
        requires havocs { self.now.havocs + form.now.havocs < 2 ^ 32 }
        ensures rows { OnOk result (rows.new.items
            ≡ rows.old.items ++ letter_rows (so_far_of self.now) thread form.now) }
        ensures fits { OnOk result (All
            (λ r. SubstitutionFits self.now.after (term_of_thread thread self.now.havocs r.term))
            form.now.rows) }
        ensures past { IsErrOf result TermEnd.Past128 → ¬ All
            (λ r. SubstitutionFits self.now.after (term_of_thread thread self.now.havocs r.term))
            form.now.rows }
    {
        let asked = form.rows.as_slice();
        for row in asked {
            let term = self.put(alloc, thread, form.havocs, &row.term)?;
            rows.push(Row { term })
                .map_err(|_| TermEnd::Memory(AllocError))?;
        }
        Ok(())
    }

    // The terms that variables are worth after the letter.
    fn terms_after(
        &self,
        alloc: Global,
        thread: u32,
        form: &SymbolicForm,
    ) -> Result<Vec<(Var, Term)>, TermEnd>
        requires own { IsTrue (is_own_form form.now) }
        requires havocs { self.now.havocs + form.now.havocs < 2 ^ 32 }
        ensures terms { IfOk result
            (λ terms. terms.items ≡ letter_terms (so_far_of self.now) thread form.now) }
        ensures fits { OnOk result (All
            (λ p. SubstitutionFits self.now.after (term_of_thread thread self.now.havocs p.1))
            form.now.after) }
        ensures past { IsErrOf result TermEnd.Past128 → ¬ All
            (λ p. SubstitutionFits self.now.after (term_of_thread thread self.now.havocs p.1))
            form.now.after }
    {
        let worth = form.after.as_slice();
        let mut terms = Vec::with_capacity(alloc, worth.len()).map_err(TermEnd::Memory)?;
        for pair in worth {
            let term = self.put(alloc, thread, form.havocs, &pair.1)?;
            terms
                .push((of_thread(pair.0, thread, self.havocs, 0), term))
                .map_err(|_| TermEnd::Memory(AllocError))?;
        }
        Ok(terms)
    }

    // The term of a command of so many havocs, over the values before the trace.
    fn put(&self, alloc: Global, thread: u32, havocs: u32, term: &Term) -> Result<Term, TermEnd>
        requires own { IsTrue (is_own_term havocs term.now) }
        requires havocs { self.now.havocs + havocs < 2 ^ 32 }
        ensures term { IfOk result (λ put. put ≡ put_after (so_far_of self.now) thread term.now) }
        ensures fits { OnOk result (SubstitutionFits self.now.after
            (term_of_thread thread self.now.havocs term.now)) }
        ensures past { IsErrOf result TermEnd.Past128 → ¬ SubstitutionFits self.now.after
            (term_of_thread thread self.now.havocs term.now) }
    {
        let own = term_of_thread(alloc, term, thread, self.havocs, havocs).map_err(
            TermEnd::Memory,
        )?;
        match self.after.put_in(alloc, &own) {
            Ok(put) => Ok(put),
            Err(end) => Err(end),
        }
    }
}

// Makes each variable worth its term.
fn set_all(
    alloc: Global,
    after: &mut Assignments,
    terms: Vec<(Var, Term)>,
) -> Result<(), AllocError>
    ensures { OnOk result (after.new ≡ with_terms terms.items after.old) }
{
    let mut left = terms;
    while let Some((variable, term)) = left.pop() {
        after.set(alloc, variable, term)?;
    }
    Ok(())
}
