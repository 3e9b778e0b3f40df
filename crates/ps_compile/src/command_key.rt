// What the table of commands looks commands up by.
ghost use Rattle.std.specs.Prelude.{◌≡◌, IfOk};
ghost use Rattle.ps_compile.specs.inner.Keys.{command_of, key_of, term_eq, term_fed};

use ps_command::{Command, Op};
use ps_list::Sequence;
use ps_term::Term;
use std::alloc::{AllocError, Global};
use std::hash::{Hash, Hasher};

// An op that is compared and hashed by all that it holds.
#[derive(Drop)]
pub(crate) struct OpKey {
    pub(crate) op: Op,
}

// The ops of a command, which are compared and hashed one by one.
#[derive(Drop)]
pub(crate) struct CommandKey {
    pub(crate) ops: Sequence<OpKey>,
}

impl PartialEq for OpKey {
    ghost use Rattle.ps_compile.specs.inner.KeyLaws.{op_key_laws};
    ghost use Rattle.ps_compile.specs.inner.Keys.{op_key_eq};

    ghost eq = { op_key_eq };

    ghost laws = { op_key_laws };

    fn eq(&self, other: &OpKey) -> bool {
        match (&self.op, &other.op) {
            (Op::Assume(left), Op::Assume(right)) => same_terms(&left.term, &right.term),
            (Op::Assign(x, left), Op::Assign(y, right)) => *x == *y && same_terms(left, right),
            (Op::Havoc(x), Op::Havoc(y)) => *x == *y,
            _ => false,
        }
    }
}

impl Eq for OpKey {
    ghost use Rattle.ps_compile.specs.inner.KeyLaws.{op_key_equiv};

    ghost laws = { op_key_equiv };
}

impl Hash for OpKey {
    ghost use Rattle.ps_compile.specs.inner.KeyLaws.{op_key_alike};
    ghost use Rattle.ps_compile.specs.inner.Keys.{op_key_fed};

    ghost hash_input = { op_key_fed };

    ghost respects_eq = { op_key_alike };

    fn hash<H: Hasher>(&self, state: &mut H) {
        match &self.op {
            Op::Assume(row) => {
                row.term.constant.hash(state);
                row.term.pairs.as_slice().hash(state);
            }
            Op::Assign(_variable, term) => {
                term.constant.hash(state);
                term.pairs.as_slice().hash(state);
            }
            Op::Havoc(variable) => variable.hash(state),
        }
    }
}

impl PartialEq for CommandKey {
    ghost use Rattle.ps_compile.specs.inner.KeyLaws.{key_laws};
    ghost use Rattle.ps_compile.specs.inner.Keys.{key_eq};

    ghost eq = { key_eq };

    ghost laws = { key_laws };

    fn eq(&self, other: &CommandKey) -> bool {
        self.ops.as_slice() == other.ops.as_slice()
    }
}

impl Eq for CommandKey {
    ghost use Rattle.ps_compile.specs.inner.KeyLaws.{key_equiv};

    ghost laws = { key_equiv };
}

impl Hash for CommandKey {
    ghost use Rattle.ps_compile.specs.inner.KeyLaws.{key_alike};
    ghost use Rattle.ps_compile.specs.inner.Keys.{key_fed};

    ghost hash_input = { key_fed };

    ghost respects_eq = { key_alike };

    fn hash<H: Hasher>(&self, state: &mut H) {
        self.ops.as_slice().hash(state);
    }
}

// Whether the two terms are one.
fn same_terms(left: &Term, right: &Term) -> bool
    ensures { result ≡ term_eq left.now right.now }
{
    left.constant == right.constant && left.pairs.as_slice() == right.pairs.as_slice()
}

// The command as a key, in time of its ops.
pub(crate) fn key_of(alloc: Global, command: Command) -> Result<CommandKey, AllocError>
    ensures { IfOk result (λ key. key ≡ key_of command) }
{
    let ops = command.ops.into_list();
    let mut keys = Vec::with_capacity(alloc, ops.len())?;
    for op in ops {
        keys.push(OpKey { op }).map_err(|_| AllocError)?;
    }
    Ok(CommandKey {
        ops: Sequence::from_list(keys),
    })
}

// The command of a key, in time of its ops.
pub(crate) fn command_of(alloc: Global, key: CommandKey) -> Result<Command, AllocError>
    ensures { IfOk result (λ command. command ≡ command_of key) }
{
    let keys = key.ops.into_list();
    let mut ops = Vec::with_capacity(alloc, keys.len())?;
    for key in keys {
        let OpKey { op } = key;
        ops.push(op).map_err(|_| AllocError)?;
    }
    Ok(Command {
        ops: Sequence::from_list(ops),
    })
}
