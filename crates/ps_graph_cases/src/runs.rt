//! Runs of commands. A state is the values of its globals, and after each `;` those of a thread's locals.
ghost use Rattle.std.specs.Prelude.{◌≡◌, ◌<◌, ◌^◌, IfOk, IsTrue, length};
ghost use Rattle.ps_command.specs.Run.{havocs_in};

use crate::ops::read_command;
use ps_case::{read_number, truth, two_parts, word};
use ps_command::{Command, RunEnd, Setting, State, can_run, is_sized, run, symbolic};
use ps_list::Sequence;
use ps_text::{put_signed_digits, put_word, read_i128};
use std::alloc::{AllocError, Global};

/// The state after the thread ran the ops with these havoc values, `STATE|THREAD|OPS|VALUES`; `failed` where an assume fails,
/// or `past`. The thread and the variables must be there, and as many values as havocs.
pub fn ran(alloc: Global, input: &str) -> Result<Vec<u8>, AllocError> {
    let (state, rest) = two_parts(input, '|')?;
    let (thread, rest) = two_parts(rest, '|')?;
    let (ops, values) = two_parts(rest, '|')?;
    let command = read_command(alloc, ops)?;
    let before = read_state(alloc, state)?;
    let values = read_values(alloc, values)?;
    match run_of(
        alloc,
        &command,
        &before,
        read_number(thread)?,
        values.as_slice(),
    ) {
        Ok(Some(after)) => shown(alloc, &after),
        Ok(None) => word(alloc, "failed"),
        Err(RunEnd::Past128) => word(alloc, "past"),
        Err(RunEnd::Memory(end)) => Err(end),
    }
}

fn run_of(
    alloc: Global,
    command: &Command,
    before: &State,
    thread: u32,
    values: &[i128],
) -> Result<Option<State>, RunEnd> {
    if command.ops.as_slice().len() > 1000 || !can_run(command, before, thread) {
        return Err(RunEnd::Memory(AllocError));
    }
    if !has_values(alloc, command, values).map_err(RunEnd::Memory)? {
        return Err(RunEnd::Memory(AllocError));
    }
    run(alloc, command, before, thread, values)
}

// Whether there are as many values as havocs.
fn has_values(alloc: Global, command: &Command, values: &[i128]) -> Result<bool, AllocError>
    requires { length command.now.ops < 2 ^ 32 }
    ensures { IfOk result (λ yes. IsTrue yes → length values.now ≡ havocs_in command.now.ops) }
{
    match symbolic(alloc, command) {
        Ok(form) => Ok(form.havocs as usize == values.len()),
        Err(_) => Err(AllocError),
    }
}

/// Whether the state has a value for each of so many globals and locals, and no other: `GLOBALS|LOCALS|STATE`.
pub fn sized(alloc: Global, input: &str) -> Result<Vec<u8>, AllocError> {
    let (globals, rest) = two_parts(input, '|')?;
    let (locals, state) = two_parts(rest, '|')?;
    let setting = setting(alloc, read_number(globals)?, read_number(locals)?);
    truth(alloc, is_sized(&setting, &read_state(alloc, state)?))
}

// A setting without rows and commands.
fn setting(alloc: Global, globals: u32, locals: u32) -> Setting {
    Setting {
        globals,
        locals,
        init_once: Sequence::from_list(Vec::new(alloc)),
        init_each: Sequence::from_list(Vec::new(alloc)),
        commands: Sequence::from_list(Vec::new(alloc)),
        symbols: Sequence::from_list(Vec::new(alloc)),
    }
}

fn read_state(alloc: Global, text: &str) -> Result<State, AllocError> {
    let (globals, threads) = two_parts(text, ';')?;
    let mut locals = Vec::new(alloc);
    for values in threads.split(';') {
        locals.push(Sequence::from_list(read_values(alloc, values)?))?;
    }
    Ok(State {
        globals: Sequence::from_list(read_values(alloc, globals)?),
        locals: Sequence::from_list(locals),
    })
}

fn read_values(alloc: Global, text: &str) -> Result<Vec<i128>, AllocError> {
    let mut values = Vec::new(alloc);
    for word in text.split_whitespace() {
        values.push(read_i128(word.as_bytes()).ok_or(AllocError)?)?;
    }
    Ok(values)
}

fn shown(alloc: Global, state: &State) -> Result<Vec<u8>, AllocError> {
    let mut out = Vec::new(alloc);
    put_values(&mut out, state.globals.as_slice())?;
    for locals in state.locals.as_slice() {
        put_word(&mut out, b";")?;
        put_values(&mut out, locals.as_slice())?;
    }
    Ok(out)
}

// The values with a blank between them.
fn put_values(out: &mut Vec<u8>, values: &[i128]) -> Result<(), AllocError> {
    for (at, value) in values.iter().enumerate() {
        if at > 0 {
            put_word(out, b" ")?;
        }
        put_signed_digits(out, *value)?;
    }
    Ok(())
}
