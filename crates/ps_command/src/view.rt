// What one thread sees of a state while it runs ops.
ghost use Rattle.std.specs.Prelude.{◌≡◌, IsNone, IsSome, IsTrue, SomeIff, length, slice_set};
ghost use Rattle.ps_command.specs.Named.{is_declared, is_declared_op, is_declared_term};
ghost use Rattle.ps_command.specs.Values.{value_at, with_value};
ghost use Rattle.ps_command.specs.inner.View.{after_op, is_passed, OpRunFits, seen};
ghost use Rattle.ps_term.specs.Evaluation.{EvaluationFits};
ghost use Rattle.ps_term.specs.Term.{value};

use crate::evaluation::{evaluate, value_of};
use crate::op::Op;
use ps_term::{Term, Var};

// The values of the globals, and those of the thread's locals.
#[derive(Drop)]
pub(crate) struct View {
    pub(crate) globals: Vec<i128>,
    pub(crate) locals: Vec<i128>,
}

impl View {
    pub(crate) fn value_of(&self, variable: Var) -> i128
        requires { IsTrue (is_declared (length self.now.globals.items)
            (length self.now.locals.items) variable) }
        ensures { result ≡ value_at (seen self.now) variable }
    {
        value_of(self.globals.as_slice(), self.locals.as_slice(), variable)
    }

    // Sets the variable, or nothing where it isn't there.
    pub(crate) fn set(&mut self, variable: Var, value: i128)
        ensures { seen self.new ≡ with_value (seen self.old) variable value }
    {
        match variable {
            Var::Global(n) => set_at(&mut self.globals, n as usize, value),
            Var::Local(_, n) => set_at(&mut self.locals, n as usize, value),
            Var::Havoc(_) => {}
        }
    }

    // The term's value, or `None` where a product or a sum lies outside `i128`.
    pub(crate) fn evaluate(&self, term: &Term) -> Option<i128>
        requires { IsTrue (is_declared_term (length self.now.globals.items)
            (length self.now.locals.items) term.now) }
        ensures { SomeIff result (EvaluationFits (value_at (seen self.now)) term.now)
            (value (value_at (seen self.now)) term.now) }
    {
        evaluate(self.globals.as_slice(), self.locals.as_slice(), term)
    }

    // Takes one op with this havoc value, and answers whether it isn't an assume that fails, or `None` where a product or a
    // sum lies outside `i128`.
    pub(crate) fn take(&mut self, op: &Op, havoc: i128) -> Option<bool>
        requires { IsTrue (is_declared_op (length self.old.globals.items)
            (length self.old.locals.items) op.now) }
        ensures answer { SomeIff result (OpRunFits (seen self.old) op.now)
            (is_passed (seen self.old) op.now) }
        ensures after { IsSome result → seen self.new ≡ after_op (seen self.old) op.now havoc }
        ensures kept { IsNone result → seen self.new ≡ seen self.old }
    {
        match op {
            Op::Assume(row) => Some(self.evaluate(&row.term)? <= 0),
            Op::Assign(variable, term) => {
                let value = self.evaluate(term)?;
                self.set(*variable, value);
                Some(true)
            }
            Op::Havoc(variable) => {
                self.set(*variable, havoc);
                Some(true)
            }
        }
    }
}

// Sets the value at the place, or nothing where there is none.
fn set_at(values: &mut Vec<i128>, place: usize, value: i128)
    ensures { values.new.items ≡ slice_set values.old.items place value }
{
    if place < values.len() {
        values[place] = value;
    }
}
