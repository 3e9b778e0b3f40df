//! What statements and declarations are printed as.
use crate::small_programs::{A, B, body_is, declared, name, one, p, q, relation, stmt_is};
use ps_syntax::{GlobalDecl, Name, Program, Relation, Sign, StmtKind, Test, print_program};
use ps_term::Var;
use sqlite_items::Items;
use std::alloc::{AllocError, Global};
use std::test::Fail;

#[test]
fn prints_simple_statements(rt: HostRuntime) -> Result<(), Fail> {
    let alloc = rt.alloc();
    assert!(rt; body_is(alloc, Items::new(alloc), "")?);
    assert!(rt; stmt_is(alloc, StmtKind::Skip, "skip ;\n")?);
    assert!(rt; stmt_is(alloc, StmtKind::Havoc(B), "havoc b ;\n")?);
    assert!(rt; stmt_is(alloc, StmtKind::Assert(q(alloc)?), "assert b >= 1 ;\n")?);
    Ok(())
}

fn alone(alloc: Global) -> Result<StmtKind, AllocError> {
    let skips = one(alloc, StmtKind::Skip)?;
    Ok(StmtKind::If(Test::Star, skips, Items::new(alloc)))
}

fn both(alloc: Global) -> Result<StmtKind, AllocError> {
    let skips = one(alloc, StmtKind::Skip)?;
    let havocs = one(alloc, StmtKind::Havoc(A))?;
    Ok(StmtKind::If(Test::Cond(p(alloc)?), skips, havocs))
}

fn nested(alloc: Global) -> Result<StmtKind, AllocError> {
    let havocs = one(alloc, StmtKind::Havoc(A))?;
    let nested = one(alloc, StmtKind::Atomic(havocs))?;
    Ok(StmtKind::While(Test::Cond(q(alloc)?), nested))
}

#[test]
fn prints_statements_with_blocks(rt: HostRuntime) -> Result<(), Fail> {
    let alloc = rt.alloc();
    assert!(rt; stmt_is(alloc, alone(alloc)?, "if ( * ) {\nskip ;\n}\n")?);
    let text = "if ( a < 0 ) {\nskip ;\n}\nelse {\nhavoc a ;\n}\n";
    assert!(rt; stmt_is(alloc, both(alloc)?, text)?);
    let text = "while ( b >= 1 ) {\natomic {\nhavoc a ;\n}\n}\n";
    assert!(rt; stmt_is(alloc, nested(alloc)?, text)?);
    Ok(())
}

fn globals(alloc: Global) -> Result<Items<GlobalDecl>, AllocError> {
    let mut globals = Vec::new(alloc);
    globals.push(declared(alloc, "x", Some(-4))?)?;
    globals.push(declared(alloc, "total", Some(0))?)?;
    globals.push(declared(alloc, "_y1", None)?)?;
    Ok(Items::from_vec(globals))
}

fn locals(alloc: Global) -> Result<Items<Name>, AllocError> {
    let mut locals = Vec::new(alloc);
    locals.push(name(alloc, "k")?)?;
    locals.push(name(alloc, "i")?)?;
    Ok(Items::from_vec(locals))
}

fn inits(alloc: Global) -> Result<Items<Relation>, AllocError> {
    let mut inits = Vec::new(alloc);
    inits.push(relation(alloc, A, Sign::LessEq, -1)?)?;
    inits.push(relation(alloc, Var::Local(0, 1), Sign::Equal, 3)?)?;
    Ok(Items::from_vec(inits))
}

fn program(alloc: Global) -> Result<Program, AllocError> {
    Ok(Program {
        globals: globals(alloc)?,
        locals: locals(alloc)?,
        inits: inits(alloc)?,
        body: one(alloc, StmtKind::Skip)?,
    })
}

const DECLARED: &str =
    "global x = - 4 ;\nglobal total = 0 ;\nglobal _y1 ;\nlocal k ;\nlocal i ;\ninit x <= - 1 ;\ninit i == 3 ;\nthread {\nskip ;\n}\n";

#[test]
fn prints_declarations(rt: HostRuntime) -> Result<(), Fail> {
    let got = print_program(rt.alloc(), &program(rt.alloc())?)?;
    assert!(rt; got.as_slice() == DECLARED.as_bytes());
    Ok(())
}
