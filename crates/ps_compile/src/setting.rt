// The setting of a program's commands.
ghost use Rattle.std.specs.Prelude.{◌≡◌, IfOk, IsTrue};
ghost use Rattle.std.specs.List.{AllByRecursion, list_all};
ghost use Rattle.ps_command.specs.Commands.{forms_of};
ghost use Rattle.ps_command.specs.Form.{form_of, FormFits};
ghost use Rattle.ps_command.specs.declared.command.Command.{Command};
ghost use Rattle.ps_compile.specs.Conditions.{IsCompilable};
ghost use Rattle.ps_compile.specs.inner.Settings.{AreDeclaredIn, IsSettingOf};

use crate::starts::start_rows;
use ps_command::{Command, Setting, SymbolicForm, symbolic};
use ps_list::Sequence;
use ps_term::TermEnd;
use ps_tree::Program;
use std::alloc::{AllocError, Global};

// The setting of the commands in a program: how many variables it declares, and the rows that hold at the
// start, those that name a local on their own. More than 2^32 variables have no room in memory.
pub(crate) fn setting_of(
    alloc: Global,
    program: &Program,
    commands: Vec<Command>,
) -> Result<Setting, AllocError>
    requires compilable { IsCompilable program.now }
    requires declared { AreDeclaredIn program.now commands.items }
    requires fits { AllByRecursion (λ (c : Command). ¬ (¬ FormFits c.ops)) commands.items }
    ensures { IfOk result (IsSettingOf program.now commands.items) }
{
    let globals = u32::try_from(program.globals.as_slice().len()).map_err(|_| AllocError)?;
    let locals = u32::try_from(program.locals.as_slice().len()).map_err(|_| AllocError)?;
    let rows = match start_rows(alloc, program) {
        Ok(rows) => rows,
        Err(TermEnd::Memory(end)) => return Err(end),
        Err(TermEnd::Past128) => unreachable!(),
    };
    let symbols = symbols_of(alloc, commands.as_slice())?;
    Ok(Setting {
        globals,
        locals,
        init_once: Sequence::from_list(rows.once),
        init_each: Sequence::from_list(rows.each),
        commands: Sequence::from_list(commands),
        symbols: Sequence::from_list(symbols),
    })
}

// The symbolic forms of the commands.
fn symbols_of(alloc: Global, commands: &[Command]) -> Result<Vec<SymbolicForm>, AllocError>
    requires { AllByRecursion (λ (c : Command). ¬ (¬ FormFits c.ops)) commands.now }
    ensures { IfOk result (λ symbols. symbols.items ≡ forms_of commands.now) }
{
    let mut symbols = Vec::with_capacity(alloc, commands.len())?;
    for command in commands {
        let form = form_of(alloc, command)?;
        symbols.push(form).map_err(|_| AllocError)?;
    }
    Ok(symbols)
}

// The symbolic form of a command that has one. A command of 2^32 ops has no room in memory.
fn form_of(alloc: Global, command: &Command) -> Result<SymbolicForm, AllocError>
    requires { ¬ (¬ FormFits command.now.ops) }
    ensures { IfOk result (λ form. form ≡ form_of command.now.ops) }
{
    if command.ops.as_slice().len() > u32::MAX as usize {
        return Err(AllocError);
    }
    match symbolic(alloc, command) {
        Ok(form) => Ok(form),
        Err(TermEnd::Memory(end)) => Err(end),
        Err(TermEnd::Past128) => unreachable!(),
    }
}
