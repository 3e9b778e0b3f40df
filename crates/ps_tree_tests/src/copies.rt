//! A program with each kind of statement and condition is copied: its copy is spelled as it is.
use crate::small_programs::{declared, name};
use ps_syntax::{
    Cond, Program, ReadRefusal, Relation, Sign, Stmt, StmtKind, Sum, Test, refusal_line,
};
use ps_term::Var;
use ps_text::Place;
use sqlite_items::{Boxed, Items};
use std::alloc::{AllocError, Global};
use std::test::Fail;

const X: Var = Var::Global(0);

fn sum(alloc: Global, number: i128) -> Result<Sum, AllocError> {
    Ok(Sum {
        terms: Items::from_slice(alloc, &[(number, None), (1, Some(X))])?,
    })
}

fn relation(alloc: Global, sign: Sign) -> Result<Relation, AllocError> {
    Ok(Relation {
        left: sum(alloc, 0)?,
        sign,
        right: sum(alloc, 7)?,
    })
}

fn negated(alloc: Global) -> Result<Cond, AllocError> {
    Ok(Cond::Not(Boxed::new(alloc, Cond::Rel(relation(alloc, Sign::Less)?))?))
}

fn either(alloc: Global) -> Result<Cond, AllocError> {
    let member = Cond::Rel(relation(alloc, Sign::Equal)?);
    Ok(Cond::Or(Items::from_vec(vec![in alloc; member]?)))
}

fn cond(alloc: Global) -> Result<Cond, AllocError> {
    let mut members = Vec::new(alloc);
    members.push(negated(alloc)?)?;
    members.push(either(alloc)?)?;
    Ok(Cond::And(Items::from_vec(members)))
}

fn stmt(column: u32, kind: StmtKind) -> Stmt {
    Stmt {
        place: Place { line: 1, column },
        kind,
    }
}

fn simple(alloc: Global) -> Result<Items<Stmt>, AllocError> {
    let mut block = Vec::new(alloc);
    block.push(stmt(1, StmtKind::Assign(X, sum(alloc, 2)?)))?;
    block.push(stmt(2, StmtKind::Havoc(X)))?;
    block.push(stmt(3, StmtKind::Assume(cond(alloc)?)))?;
    block.push(stmt(4, StmtKind::Assert(cond(alloc)?)))?;
    block.push(stmt(5, StmtKind::Skip))?;
    Ok(Items::from_vec(block))
}

fn branching(alloc: Global) -> Result<StmtKind, AllocError> {
    Ok(StmtKind::If(Test::Star, simple(alloc)?, Items::new(alloc)))
}

fn looping(alloc: Global) -> Result<StmtKind, AllocError> {
    Ok(StmtKind::While(Test::Cond(cond(alloc)?), simple(alloc)?))
}

fn body(alloc: Global) -> Result<Items<Stmt>, AllocError> {
    let mut block = Vec::new(alloc);
    block.push(stmt(6, StmtKind::Atomic(simple(alloc)?)))?;
    block.push(stmt(7, branching(alloc)?))?;
    block.push(stmt(8, looping(alloc)?))?;
    Ok(Items::from_vec(block))
}

fn program(alloc: Global) -> Result<Program, AllocError> {
    Ok(Program {
        globals: Items::from_vec(vec![in alloc; declared(alloc, "x", Some(-4))?]?),
        locals: Items::from_vec(vec![in alloc; name(alloc, "x")?]?),
        inits: Items::from_vec(vec![in alloc; relation(alloc, Sign::Greater)?]?),
        body: body(alloc)?,
    })
}

fn are_alike(alloc: Global, given: &Program, copied: &Program) -> Result<bool, AllocError> {
    let want = format!(in alloc; "{given:?}")?;
    let got = format!(in alloc; "{copied:?}")?;
    Ok(got.as_str() == want.as_str())
}

#[test]
fn copies_programs(rt: HostRuntime) -> Result<(), Fail> {
    let given = program(rt.alloc())?;
    let copied = given.copy(rt.alloc())?;
    assert!(rt; copied.body.len() == 3);
    assert!(rt; are_alike(rt.alloc(), &given, &copied)?);
    Ok(())
}

#[test]
fn want_of_memory_has_no_line(rt: HostRuntime) -> Result<(), Fail> {
    let line = refusal_line(rt.alloc(), &ReadRefusal::Memory(AllocError))?;
    assert!(rt; line.is_none());
    Ok(())
}
