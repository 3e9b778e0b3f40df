//! Copies of commands and of their symbolic forms: each is spelled as what it copies.
use ps_command::{Assignments, Command, Op, SymbolicForm};
use ps_list::{Duplicate, Sequence};
use ps_term::{Pairs, Row, Term, Var};
use std::alloc::{AllocError, Global};
use std::test::Fail;

const X: Var = Var::Global(0);

fn number(alloc: Global, constant: i128) -> Term {
    Term {
        pairs: Pairs::from_list(Vec::new(alloc)),
        constant,
    }
}

fn below_one(alloc: Global) -> Row {
    Row {
        term: number(alloc, -1),
    }
}

fn command(alloc: Global) -> Result<Command, AllocError> {
    let mut ops = Vec::new(alloc);
    ops.push(Op::Havoc(X))?;
    ops.push(Op::Assign(X, number(alloc, 3)))?;
    ops.push(Op::Assume(below_one(alloc)))?;
    Ok(Command {
        ops: Sequence::from_list(ops),
    })
}

fn are_alike(alloc: Global, given: &Command, copied: &Command) -> Result<bool, AllocError> {
    let want = format!(in alloc; "{given:?}")?;
    let got = format!(in alloc; "{copied:?}")?;
    Ok(got.as_str() == want.as_str())
}

#[test]
fn copies_commands(rt: HostRuntime) -> Result<(), Fail> {
    let given = command(rt.alloc())?;
    let copied = given.duplicate(rt.alloc())?;
    assert!(rt; copied.ops.as_slice().len() == 3);
    assert!(rt; are_alike(rt.alloc(), &given, &copied)?);
    Ok(())
}

fn symbolic_form(alloc: Global) -> Result<SymbolicForm, AllocError> {
    let rows = vec![in alloc; below_one(alloc)]?;
    Ok(SymbolicForm {
        rows: Sequence::from_list(rows),
        after: Assignments::from_list(vec![in alloc; (X, number(alloc, 3))]?),
        havocs: 2,
    })
}

fn copies_a_form(alloc: Global) -> Result<bool, AllocError> {
    let given = symbolic_form(alloc)?;
    let copied = given.duplicate(alloc)?;
    let want = format!(in alloc; "{given:?}")?;
    let got = format!(in alloc; "{copied:?}")?;
    Ok(got.as_str() == want.as_str())
}

#[test]
fn copies_symbolic_forms(rt: HostRuntime) -> Result<(), Fail> {
    assert!(rt; copies_a_form(rt.alloc())?);
    Ok(())
}
