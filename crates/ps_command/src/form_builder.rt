// A symbolic form that is being made.
ghost use Rattle.std.specs.Prelude.{◌≡◌, ◌<◌, ◌≤◌, ◌+◌, ◌^◌, suc, OnOk, IsErrOf};
ghost use Rattle.ps_command.specs.Form.{empty_form, OpFits, with_op};
ghost use Rattle.ps_command.specs.inner.Builder.{form_so_far};

use crate::assignments::Assignments;
use crate::op::Op;
use crate::symbolic_form::SymbolicForm;
use ps_list::Sequence;
use ps_term::{Row, Term, TermEnd, Var};
use std::alloc::{AllocError, Global};

// What the ops so far ask and give.
#[derive(Drop)]
pub(crate) struct FormBuilder {
    rows: Vec<Row>,
    after: Assignments,
    havocs: u32,
}

impl FormBuilder {
    pub(crate) fn new(alloc: Global) -> FormBuilder
        ensures { form_so_far result ≡ empty_form }
    {
        FormBuilder {
            rows: Vec::new(alloc),
            after: Assignments::new(alloc),
            havocs: 0,
        }
    }

    pub(crate) fn into_form(self) -> SymbolicForm
        ensures { result ≡ form_so_far self }
    {
        SymbolicForm {
            rows: Sequence::from_list(self.rows),
            after: self.after,
            havocs: self.havocs,
        }
    }

    // Takes one op more.
    pub(crate) fn take(&mut self, alloc: Global, op: &Op) -> Result<(), TermEnd>
        requires { self.old.havocs + 1 < 2 ^ 32 }
        ensures form { OnOk result (form_so_far self.new ≡ with_op (form_so_far self.old) op.now) }
        ensures fits { OnOk result (OpFits (form_so_far self.old) op.now) }
        ensures past { IsErrOf result TermEnd.Past128 → ¬ OpFits (form_so_far self.old) op.now }
        ensures havocs { self.new.havocs ≤ self.old.havocs + 1 }
    {
        match op {
            Op::Assume(row) => {
                let term = self.after.put_in(alloc, &row.term)?;
                self.rows
                    .push(Row { term })
                    .map_err(|_| TermEnd::Memory(AllocError))?;
            }
            Op::Assign(variable, term) => {
                let worth = self.after.put_in(alloc, term)?;
                self.after
                    .set(alloc, *variable, worth)
                    .map_err(TermEnd::Memory)?;
            }
            Op::Havoc(variable) => {
                let chosen = Term::from_variable(alloc, Var::Havoc(self.havocs)).map_err(
                    TermEnd::Memory,
                )?;
                self.after
                    .set(alloc, *variable, chosen)
                    .map_err(TermEnd::Memory)?;
                self.havocs += 1;
            }
        }
        Ok(())
    }
}
