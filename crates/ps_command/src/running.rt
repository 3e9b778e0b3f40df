//! Runs of commands.
ghost use Rattle.std.specs.Prelude.{◌≡◌, ◌<◌, ◌++◌, ℤ, IfOk, IsErrOf, IsTrue, OnErr, OnOk, [], ◌∷◌, length, pos, slice_index_or};
ghost use Rattle.std.specs.List.{list_all};
ghost use Rattle.ps_command.specs.Fitting.{CanRun};
ghost use Rattle.ps_command.specs.Named.{is_declared_op};
ghost use Rattle.ps_command.specs.Run.{havocs_in, run, run_by};
ghost use Rattle.ps_command.specs.RunFits.{RunFits};
ghost use Rattle.ps_command.specs.Values.{values_of, with_values};
ghost use Rattle.ps_command.specs.inner.View.{after_op, havocs_left, IsRunTo, seen, undone};

use crate::command::Command;
use crate::op::Op;
use crate::run_end::RunEnd;
use crate::state::State;
use crate::view::View;
use ps_list::{Sequence, copies};
use ps_term::Var;
use std::alloc::{AllocError, Global};

/// The state after the thread ran the command with these havoc values, or `None` where an assume fails. It is `Past128`
/// where a value lies outside `i128` before an assume fails; a term is evaluated by its pairs in order, each product added
/// to the sum so far, and then its constant. The time is that of the ops, and for `Some` of a copy of the state.
pub fn run(
    alloc: Global,
    command: &Command,
    state: &State,
    thread: u32,
    values: &[i128],
) -> Result<Option<State>, RunEnd>
    requires can_run { CanRun thread command.now.ops state.now }
    requires values { length values.now ≡ havocs_in command.now.ops }
    ensures state { IfOk result
        (λ after. after ≡ run_by thread command.now.ops state.now values.now) }
    ensures fits { OnOk result
        (RunFits command.now.ops (values_of thread state.now) values.now) }
    ensures past { IsErrOf result RunEnd.Past128
        → ¬ RunFits command.now.ops (values_of thread state.now) values.now }
{
    let mut view = view_of(alloc, state, thread as usize).map_err(RunEnd::Memory)?;
    let mut undo = Vec::new(alloc);
    if !run_ops(&mut view, &mut undo, command.ops.as_slice(), values)? {
        return Ok(None);
    }
    let after = state_after(alloc, state, thread as usize, view).map_err(RunEnd::Memory)?;
    Ok(Some(after))
}

// A copy of what the thread sees.
fn view_of(alloc: Global, state: &State, thread: usize) -> Result<View, AllocError>
    requires { thread < length state.now.locals }
    ensures { IfOk result (λ view. seen view ≡ values_of thread state.now) }
{
    Ok(View {
        globals: state.globals.copy(alloc)?.into_list(),
        locals: state.locals.as_slice()[thread].copy(alloc)?.into_list(),
    })
}

// Runs the ops, and answers whether no assume fails; what is appended to `undo` sets the values back.
pub(crate) fn run_ops(
    view: &mut View,
    undo: &mut Vec<(Var, i128)>,
    ops: &[Op],
    values: &[i128],
) -> Result<bool, RunEnd>
    requires empty { undo.old.items ≡ [] }
    requires named { IsTrue
        (list_all (is_declared_op (length view.old.globals.items)
        (length view.old.locals.items)) ops.now) }
    requires values { length values.now ≡ havocs_in ops.now }
    ensures runs { IfOk result
        (λ on. IsRunTo on (run ops.now (seen view.old) values.now) (seen view.new)) }
    ensures fits { OnOk result (RunFits ops.now (seen view.old) values.now) }
    ensures past { IsErrOf result RunEnd.Past128 → ¬ RunFits ops.now (seen view.old) values.now }
    ensures undo { undone undo.new.items (seen view.new) ≡ seen view.old }
{
    let mut left = values;
    for op in ops {
        note(undo, view, op)?;
        if !view.take(op, next_value(left)).ok_or(RunEnd::Past128)? {
            return Ok(false);
        }
        left = values_left(op, left);
    }
    Ok(true)
}

// Appends what the variable that the op sets is worth.
fn note(undo: &mut Vec<(Var, i128)>, view: &View, op: &Op) -> Result<(), RunEnd>
    requires { IsTrue (is_declared_op (length view.now.globals.items)
        (length view.now.locals.items) op.now) }
    ensures noted { OnOk result ((havoc : ℤ)
        → undone undo.new.items (after_op (seen view.now) op.now havoc)
        ≡ undone undo.old.items (seen view.now)) }
    ensures kept { undone undo.new.items (seen view.now) ≡ undone undo.old.items (seen view.now) }
    ensures memory { ¬ IsErrOf result RunEnd.Past128 }
{
    match op {
        Op::Assume(_) => Ok(()),
        Op::Assign(variable, _) => append(undo, *variable, view.value_of(*variable)),
        Op::Havoc(variable) => append(undo, *variable, view.value_of(*variable)),
    }
}

fn append(undo: &mut Vec<(Var, i128)>, variable: Var, value: i128) -> Result<(), RunEnd>
    ensures appended { OnOk result (undo.new.items ≡ undo.old.items ++ (variable, value) ∷ []) }
    ensures kept { OnErr result (undo.new.items ≡ undo.old.items) }
    ensures memory { ¬ IsErrOf result RunEnd.Past128 }
{
    undo.push((variable, value))
        .map_err(|_| RunEnd::Memory(AllocError))
}

// The next havoc value, or 0 where there is none.
fn next_value(values: &[i128]) -> i128
    ensures { result ≡ slice_index_or values.now 0 (pos 0) }
{
    match values.first() {
        Some(value) => *value,
        None => 0,
    }
}

// The havoc values that are left after the op.
fn values_left<'a>(op: &Op, values: &'a [i128]) -> &'a [i128]
    ensures { result.now ≡ havocs_left op.now values.now }
{
    match op {
        Op::Havoc(_) => values.get(1..).unwrap_or(values),
        _ => values,
    }
}

// The state in which the thread has the view's values, and the others their own locals as before.
fn state_after(alloc: Global, state: &State, thread: usize, view: View) -> Result<State, AllocError>
    requires { thread < length state.now.locals }
    ensures { IfOk result (λ after. after ≡ with_values thread state.now (seen view)) }
{
    let all = state.locals.as_slice();
    let mut locals = Vec::with_capacity(alloc, all.len())?;
    append_copies(alloc, &mut locals, &all[..thread])?;
    locals
        .push(Sequence::from_list(view.locals))
        .map_err(|_| AllocError)?;
    append_copies(alloc, &mut locals, &all[thread + 1..])?;
    Ok(State {
        globals: Sequence::from_list(view.globals),
        locals: Sequence::from_list(locals),
    })
}

fn append_copies(
    alloc: Global,
    list: &mut Vec<Sequence<i128>>,
    more: &[Sequence<i128>],
) -> Result<(), AllocError>
    ensures { OnOk result (list.new.items ≡ list.old.items ++ more.now) }
{
    for locals in more {
        list.push(locals.copy(alloc)?).map_err(|_| AllocError)?;
    }
    Ok(())
}
