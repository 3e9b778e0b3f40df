//! How runs and symbolic forms agree: each function does no work, and its clause is the fact.
ghost use Rattle.std.specs.Prelude.{◌≡◌, ◌<◌, ℕ, ℤ, List, length, IsTrue, IsFalse, MatchOption, Some};
ghost use Rattle.std.specs.List.{list_all};
ghost use Rattle.ps_command.specs.Agreement.{AreSeenBy, RanAs};
ghost use Rattle.ps_command.specs.Fitting.{CanRun, IsSized};
ghost use Rattle.ps_command.specs.Form.{form_of};
ghost use Rattle.ps_command.specs.Named.{is_declared_op};
ghost use Rattle.ps_command.specs.Run.{holds, run_by};
ghost use Rattle.ps_command.specs.Symbolic.{IsForm, with_havocs};
ghost use Rattle.ps_command.specs.Values.{value_at, value_in, values_of};
ghost use Rattle.ps_command.specs.declared.op.Op.{Op};
ghost use Rattle.ps_command.specs.declared.setting.Setting.{Setting};
ghost use Rattle.ps_command.specs.declared.state.State.{State};
ghost use Rattle.ps_term.specs.Row.{Holds};
ghost use Rattle.ps_term.specs.declared.row.Row.{Row};
ghost use Rattle.ps_term.specs.declared.var.Var.{Var};
ghost use Rattle.ps_term.specs.declared.var.Var.TheVariants.{Global, Local};

/// The test of a row answers whether the row holds.
pub fn rows_are_tested()
    ensures holds { (values : Var → ℤ) (r : Row) → IsTrue (holds values r) → Holds values r }
    ensures tested { (values : Var → ℤ) (r : Row) → Holds values r → IsTrue (holds values r) }
{}

/// At all values and havoc values, ops run exactly where the rows of their form hold, and give the values
/// that it says.
pub fn forms_say_runs()
    ensures { (ops : List Op) → IsForm ops (form_of ops) }
{}

/// In a state that has the thread and all named variables, a run fails exactly where a row of the form
/// fails, and else gives the state that the form says.
pub fn runs_are_as_forms()
    ensures { (ops : List Op) (s : State) (thread : ℕ) (values : Var → ℤ) (hs : List ℤ)
        → CanRun thread ops s → AreSeenBy thread s values
        → MatchOption (run_by thread ops s hs)
        (IsFalse (list_all (holds (with_havocs values hs)) (form_of ops).rows))
        (RanAs thread (form_of ops) (with_havocs values hs) s) }
{}

/// A state of the setting's sizes that has the thread can run ops that name declared variables alone.
pub fn sized_states_can_run()
    ensures { (setting : Setting) (ops : List Op) (s : State) (thread : ℕ)
        → IsTrue (list_all (is_declared_op setting.globals setting.locals) ops)
        → IsSized setting s → thread < length s.locals → CanRun thread ops s }
{}

/// A run keeps the sizes.
pub fn runs_keep_sizes()
    ensures { (setting : Setting) (ops : List Op) (s after : State) (thread : ℕ) (hs : List ℤ)
        → IsSized setting s → thread < length s.locals
        → run_by thread ops s hs ≡ Some after → IsSized setting after }
{}

/// A thread sees the values of the whole state, its own locals as those of thread 0.
pub fn threads_see_the_state()
    ensures globals { (s : State) (k n : ℕ)
        → value_at (values_of k s) (Global n) ≡ value_in s (Global n) }
    ensures locals { (s : State) (k n : ℕ)
        → value_at (values_of k s) (Local 0 n) ≡ value_in s (Local k n) }
{}
