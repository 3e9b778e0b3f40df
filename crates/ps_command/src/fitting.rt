//! Tests of the conditions of runs.
ghost use Rattle.std.specs.Prelude.{◌≡◌, ◌↔◌, IsTrue};
ghost use Rattle.std.specs.List.{list_all};
ghost use Rattle.ps_command.specs.Fitting.{CanRun, IsSized};
ghost use Rattle.ps_command.specs.Named.{is_declared, is_declared_op, is_declared_term};

use crate::command::Command;
use crate::op::Op;
use crate::setting::Setting;
use crate::state::State;
use ps_term::{Term, Var};

/// Whether the state has a value for each declared variable and no other, in time of the number of threads. It takes no
/// memory.
pub fn is_sized(setting: &Setting, state: &State) -> bool
    ensures { IsTrue result ↔ IsSized setting.now state.now }
{
    state.globals.as_slice().len() == setting.globals as usize
        && state.locals.as_slice().iter().all(|locals| locals.as_slice().len()
            == setting.locals as usize)
}

/// Whether the state has the thread and each variable that the command names, in time of the command's pairs. It takes no
/// memory.
pub fn can_run(command: &Command, state: &State, thread: u32) -> bool
    ensures { IsTrue result ↔ CanRun thread command.now.ops state.now }
{
    match state.locals.as_slice().get(thread as usize) {
        Some(locals) => names_declared(
            command.ops.as_slice(),
            state.globals.as_slice().len(),
            locals.as_slice().len(),
        ),
        None => false,
    }
}

// Whether each variable of the ops is one of so many globals and so many locals.
fn names_declared(ops: &[Op], globals: usize, locals: usize) -> bool
    ensures { result ≡ list_all (is_declared_op globals locals) ops.now }
{
    ops.iter().all(|op| is_declared_op(op, globals, locals))
}

fn is_declared_op(op: &Op, globals: usize, locals: usize) -> bool
    ensures { result ≡ is_declared_op globals locals op.now }
{
    match op {
        Op::Assume(row) => is_declared_term(&row.term, globals, locals),
        Op::Assign(variable, term) => is_declared(*variable, globals, locals)
            && is_declared_term(term, globals, locals),
        Op::Havoc(variable) => is_declared(*variable, globals, locals),
    }
}

fn is_declared_term(term: &Term, globals: usize, locals: usize) -> bool
    ensures { result ≡ is_declared_term globals locals term.now }
{
    term.pairs
        .as_slice()
        .iter()
        .all(|pair| is_declared(pair.0, globals, locals))
}

fn is_declared(variable: Var, globals: usize, locals: usize) -> bool
    ensures { result ≡ is_declared globals locals variable }
{
    match variable {
        Var::Global(n) => (n as usize) < globals,
        Var::Local(thread, n) => thread == 0 && (n as usize) < locals,
        Var::Havoc(_) => false,
    }
}
