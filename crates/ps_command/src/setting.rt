//! Settings: what the commands of a graph run in.
ghost use Rattle.std.specs.Prelude.{◌≡◌, IfOk, IsTrue};
ghost use Rattle.std.specs.List.{list_all};
ghost use Rattle.ps_command.specs.Commands.{forms_of};
ghost use Rattle.ps_command.specs.Named.{is_declared_command, is_declared_row, names_local};

use crate::command::Command;
use crate::symbolic_form::SymbolicForm;
use ps_list::Sequence;
use ps_term::Row;
use std::alloc::{AllocError, Global};

/// How many globals and locals there are, the rows that hold of initial states, and the commands with
/// their symbolic forms. Rows and commands name declared variables alone, a local as `Local(0, n)`.
#[derive(Debug, Drop)]
pub struct Setting {
    pub globals: u32,
    pub locals: u32,
    /// Rows that name globals alone, which hold once.
    pub init_once: Sequence<Row>,
    /// Rows that name a local, which hold for every thread.
    pub init_each: Sequence<Row>,
    pub commands: Sequence<Command>,
    /// The symbolic form of each command, place by place.
    pub symbols: Sequence<SymbolicForm>,
    pub ghost once_declared: { IsTrue (list_all (is_declared_row globals 0) init_once) },
    pub ghost each_declared: { IsTrue (list_all (is_declared_row globals locals) init_each) },
    pub ghost each_local: { IsTrue (list_all names_local init_each) },
    pub ghost commands_declared: { IsTrue
        (list_all (is_declared_command globals locals) commands) },
    pub ghost formed: { symbols ≡ forms_of commands },
}

impl Setting {
    /// A copy, in time and memory of its rows, commands and symbolic forms.
    pub fn copy(&self, alloc: Global) -> Result<Setting, AllocError>
        ensures { IfOk result (λ setting. setting ≡ self.now) }
    {
        Ok(Setting {
            globals: self.globals,
            locals: self.locals,
            init_once: self.init_once.copy(alloc)?,
            init_each: self.init_each.copy(alloc)?,
            commands: self.commands.copy(alloc)?,
            symbols: self.symbols.copy(alloc)?,
        })
    }
}
