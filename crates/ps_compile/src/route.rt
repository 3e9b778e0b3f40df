// What a path does.
ghost use Rattle.std.specs.Prelude.{◌≡◌, ◌∷◌, [], false, IfOk};
ghost use Rattle.ps_command.specs.declared.op.Op.TheVariants as op;
ghost use Rattle.ps_compile.specs.inner.Routes.{join};
ghost use Rattle.ps_graph.specs.declared.edge.Pick.TheVariants as pick;

use ps_command::{Command, Op};
use ps_graph::Pick;
use ps_list::Sequence;
use ps_term::Var;
use std::alloc::{AllocError, Global};

// What a path does: its command, its picks, and whether it fails an assertion.
#[derive(Drop)]
pub(crate) struct Route {
    pub(crate) command: Command,
    pub(crate) picks: Sequence<Pick>,
    pub(crate) fails: bool,
}

impl Route {
    // That of no act; the call needs no memory.
    pub(crate) fn empty(alloc: Global) -> Route
        ensures { result ≡ record { command = record { ops = [] }; picks = []; fails = false } }
    {
        Route {
            command: no_ops(alloc),
            picks: Sequence::from_list(Vec::new(alloc)),
            fails: false,
        }
    }

    // That of one choice of a `*`.
    pub(crate) fn choosing(alloc: Global, holds: bool) -> Result<Route, AllocError>
        ensures { IfOk result (λ r. r ≡ record {
          command = record { ops = [] };
          picks = pick.Star holds ∷ [];
          fails = false;
        }) }
    {
        Ok(Route {
            command: no_ops(alloc),
            picks: Sequence::from_slice(alloc, &[Pick::Star(holds)])?,
            fails: false,
        })
    }

    // That of one havoc.
    pub(crate) fn havoc(alloc: Global, variable: Var) -> Result<Route, AllocError>
        ensures { IfOk result (λ r. r ≡ record {
          command = record { ops = op.Havoc variable ∷ [] };
          picks = pick.Value ∷ [];
          fails = false;
        }) }
    {
        Ok(Route {
            command: one_op(alloc, Op::Havoc(variable))?,
            picks: Sequence::from_slice(alloc, &[Pick::Value])?,
            fails: false,
        })
    }

    // A copy, in time and memory of its ops and picks.
    pub(crate) fn copy(&self, alloc: Global) -> Result<Route, AllocError>
        ensures { IfOk result (λ r. r ≡ self.now) }
    {
        Ok(Route {
            command: self.command.copy(alloc)?,
            picks: Sequence::from_slice(alloc, self.picks.as_slice())?,
            fails: self.fails,
        })
    }

    // The route with another after it, in time and memory of both.
    pub(crate) fn join(&self, alloc: Global, other: &Route) -> Result<Route, AllocError>
        ensures { IfOk result (λ r. r ≡ join self.now other.now) }
    {
        let mut ops = self.command.ops.copy(alloc)?.into_list();
        let mut more = other.command.ops.copy(alloc)?.into_list();
        ops.append(&mut more)?;
        let mut picks = Vec::from_slice(alloc, self.picks.as_slice())?;
        picks.extend_from_slice(other.picks.as_slice())?;
        Ok(Route {
            command: Command {
                ops: Sequence::from_list(ops),
            },
            picks: Sequence::from_list(picks),
            fails: other.fails,
        })
    }
}

// The command of no ops; the call needs no memory.
fn no_ops(alloc: Global) -> Command
    ensures { result ≡ record { ops = [] } }
{
    Command {
        ops: Sequence::from_list(Vec::new(alloc)),
    }
}

// The command of one op.
pub(crate) fn one_op(alloc: Global, op: Op) -> Result<Command, AllocError>
    ensures { IfOk result (λ c. c ≡ record { ops = op ∷ [] }) }
{
    let mut ops = Vec::new(alloc);
    ops.push(op).map_err(|_| AllocError)?;
    Ok(Command {
        ops: Sequence::from_list(ops),
    })
}
