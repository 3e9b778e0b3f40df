//! Runs of commands in place.
ghost use Rattle.std.specs.Prelude.{◌≡◌, [], IfOk, IsErrOf, IsFalse, IsTrue, OnErr, OnOk, Some, None, if◌then◌else◌, length};
ghost use Rattle.std.specs.List.{list_all};
ghost use Rattle.ps_command.specs.Named.{is_declared_op};
ghost use Rattle.ps_command.specs.Run.{havocs_in, run};
ghost use Rattle.ps_command.specs.RunFits.{RunFits};
ghost use Rattle.ps_command.specs.inner.View.{seen, undone};

use crate::command::Command;
use crate::run_end::RunEnd;
use crate::running::run_ops;
use crate::view::View;
use ps_term::Var;
use std::alloc::Global;
use std::marker::Model;
use std::mem;

/// The values that one thread sees, on which commands are run in place.
#[derive(Drop)]
pub struct Runner {
    view: View,
    // What each variable was worth before an op of the command that runs set it.
    undo: Vec<(Var, i128)>,
}

impl Model for Runner {
    ghost use Rattle.std.specs.Prelude.{◌≡◌, []};
    ghost use Rattle.ps_command.specs.Values.{Values};
    ghost use Rattle.ps_command.specs.inner.View.{seen};

    ghost Value = { Values };

    ghost view = { λ r. seen r.view };

    ghost invariant = { λ r. r.undo.items ≡ [] };
}

impl Runner {
    /// Takes the values of the globals, and no locals; the call needs no memory.
    pub fn new(alloc: Global, globals: Vec<i128>) -> Runner
        ensures { result ≡ record { globals = globals.items; locals = [] } }
    {
        Runner {
            view: View {
                globals,
                locals: Vec::new(alloc),
            },
            undo: Vec::new(alloc),
        }
    }

    /// Exchanges the locals for these, in constant time.
    pub fn exchange_locals(&mut self, locals: &mut Vec<i128>)
        ensures seen { self.new
            ≡ record { globals = self.old.globals; locals = locals.old.items } }
        ensures given { locals.new.items ≡ self.old.locals }
    {
        mem::swap(&mut self.view.locals, locals);
    }

    /// Runs the command with these havoc values, and answers whether no assume fails; where one fails, and after an `Err`,
    /// all values are as before. It is `Past128` where a value lies outside `i128` before an assume fails; a term is
    /// evaluated by its pairs in order, each product added to the sum so far, and then its constant. The time is that of the
    /// ops; the memory is that of the assignments and havocs, and is used again by the next command.
    pub fn run(&mut self, command: &Command, values: &[i128]) -> Result<bool, RunEnd>
        requires named { IsTrue (list_all
            (is_declared_op (length self.old.globals) (length self.old.locals)) command.now.ops) }
        requires values { length values.now ≡ havocs_in command.now.ops }
        ensures runs { IfOk result (λ on. run command.now.ops self.old values.now
            ≡ (if on then Some self.new else None)) }
        ensures fails { IfOk result (λ on. IsFalse on → self.new ≡ self.old) }
        ensures kept { OnErr result (self.new ≡ self.old) }
        ensures fits { OnOk result (RunFits command.now.ops self.old values.now) }
        ensures past { IsErrOf result RunEnd.Past128
            → ¬ RunFits command.now.ops self.old values.now }
    {
        let ended = run_ops(
            &mut self.view,
            &mut self.undo,
            command.ops.as_slice(),
            values,
        );
        match ended {
            Ok(true) => {
                self.undo.clear();
                Ok(true)
            }
            Ok(false) => {
                roll_back(&mut self.view, &mut self.undo);
                Ok(false)
            }
            Err(end) => {
                roll_back(&mut self.view, &mut self.undo);
                Err(end)
            }
        }
    }
}

// Sets each variable back to what it was worth, the latest first.
fn roll_back(view: &mut View, undo: &mut Vec<(Var, i128)>)
    ensures view { seen view.new ≡ undone undo.old.items (seen view.old) }
    ensures undo { undo.new.items ≡ [] }
{
    while let Some((variable, value)) = undo.pop() {
        view.set(variable, value);
    }
}
