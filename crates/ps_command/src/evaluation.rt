// What variables and terms are worth, and whether rows hold, at the values that one thread sees.
ghost use Rattle.std.specs.Prelude.{◌≡◌, IsTrue, SomeIff, length};
ghost use Rattle.std.specs.List.{list_all};
ghost use Rattle.ps_command.specs.Named.{is_declared, is_declared_row, is_declared_term};
ghost use Rattle.ps_command.specs.Run.{holds};
ghost use Rattle.ps_command.specs.RunFits.{TestsFit};
ghost use Rattle.ps_command.specs.Values.{value_at};
ghost use Rattle.ps_command.specs.inner.View.{values_from};
ghost use Rattle.ps_term.specs.Evaluation.{EvaluationFits};
ghost use Rattle.ps_term.specs.Term.{value};

use ps_term::{Row, Term, Var, scaled_sum};

pub(crate) fn value_of(globals: &[i128], locals: &[i128], variable: Var) -> i128
    requires { IsTrue (is_declared (length globals.now) (length locals.now) variable) }
    ensures { result ≡ value_at (values_from globals.now locals.now) variable }
{
    match variable {
        Var::Global(n) => globals[n as usize],
        Var::Local(_, n) => locals[n as usize],
        Var::Havoc(_) => 0,
    }
}

// The term's value, or `None` where a product or a sum lies outside `i128`.
pub(crate) fn evaluate(globals: &[i128], locals: &[i128], term: &Term) -> Option<i128>
    requires { IsTrue (is_declared_term (length globals.now) (length locals.now) term.now) }
    ensures { SomeIff result (EvaluationFits
        (value_at (values_from globals.now locals.now)) term.now)
        (value (value_at (values_from globals.now locals.now)) term.now) }
{
    let mut sum: i128 = 0;
    for pair in term.pairs.as_slice() {
        sum = scaled_sum(sum, pair.1, value_of(globals, locals, pair.0))?;
    }
    sum.checked_add(term.constant)
}

// Whether all rows hold, or `None` where a product or a sum lies outside `i128` before a row fails.
pub(crate) fn all_hold(globals: &[i128], locals: &[i128], rows: &[Row]) -> Option<bool>
    requires { IsTrue (list_all (is_declared_row (length globals.now)
        (length locals.now)) rows.now) }
    ensures { SomeIff result (TestsFit (value_at (values_from globals.now locals.now)) rows.now)
        (list_all (holds (value_at (values_from globals.now locals.now))) rows.now) }
{
    for row in rows {
        if evaluate(globals, locals, &row.term)? > 0 {
            return Some(false);
        }
    }
    Some(true)
}
