//! Small programs that are built by hand, of the globals `a` and `b` and the local `k`, and whether they are printed as they
//! should be.
use ps_syntax::{
    Cond, GlobalDecl, Name, Program, Relation, Sign, Stmt, StmtKind, Sum, print_program,
};
use ps_term::Var;
use ps_text::Place;
use sqlite_items::{Boxed, Items};
use std::alloc::{AllocError, Global};

pub const A: Var = Var::Global(0);

pub const B: Var = Var::Global(1);

pub const K: Var = Var::Local(0, 0);

pub fn name(alloc: Global, text: &str) -> Result<Name, AllocError> {
    Ok(Name::from_bytes(Vec::from_slice(alloc, text.as_bytes())?))
}

pub fn sum(alloc: Global, products: &[(i128, Option<Var>)]) -> Result<Sum, AllocError> {
    Ok(Sum {
        terms: Items::from_slice(alloc, products)?,
    })
}

pub fn relation(
    alloc: Global,
    variable: Var,
    sign: Sign,
    number: i128,
) -> Result<Relation, AllocError> {
    Ok(Relation {
        left: sum(alloc, &[(1, Some(variable))])?,
        sign,
        right: sum(alloc, &[(number, None)])?,
    })
}

/// The condition `variable sign number`.
pub fn is(alloc: Global, variable: Var, sign: Sign, number: i128) -> Result<Cond, AllocError> {
    Ok(Cond::Rel(relation(alloc, variable, sign, number)?))
}

/// The condition `a < 0`.
pub fn p(alloc: Global) -> Result<Cond, AllocError> {
    is(alloc, A, Sign::Less, 0)
}

/// The condition `b >= 1`.
pub fn q(alloc: Global) -> Result<Cond, AllocError> {
    is(alloc, B, Sign::GreaterEq, 1)
}

fn two(alloc: Global, first: Cond, second: Cond) -> Result<Items<Cond>, AllocError> {
    let mut members = Vec::new(alloc);
    members.push(first)?;
    members.push(second)?;
    Ok(Items::from_vec(members))
}

pub fn and(alloc: Global, first: Cond, second: Cond) -> Result<Cond, AllocError> {
    Ok(Cond::And(two(alloc, first, second)?))
}

pub fn or(alloc: Global, first: Cond, second: Cond) -> Result<Cond, AllocError> {
    Ok(Cond::Or(two(alloc, first, second)?))
}

pub fn not(alloc: Global, cond: Cond) -> Result<Cond, AllocError> {
    Ok(Cond::Not(Boxed::new(alloc, cond)?))
}

/// The block of one statement.
pub fn one(alloc: Global, kind: StmtKind) -> Result<Items<Stmt>, AllocError> {
    let place = Place { line: 1, column: 1 };
    Ok(Items::from_vec(vec![in alloc; Stmt { place, kind }]?))
}

pub fn declared(alloc: Global, text: &str, value: Option<i128>) -> Result<GlobalDecl, AllocError> {
    Ok(GlobalDecl {
        name: name(alloc, text)?,
        value,
    })
}

fn globals(alloc: Global) -> Result<Items<GlobalDecl>, AllocError> {
    let mut globals = Vec::new(alloc);
    globals.push(declared(alloc, "a", None)?)?;
    globals.push(declared(alloc, "b", None)?)?;
    Ok(Items::from_vec(globals))
}

fn program(alloc: Global, body: Items<Stmt>) -> Result<Program, AllocError> {
    Ok(Program {
        globals: globals(alloc)?,
        locals: Items::from_vec(vec![in alloc; name(alloc, "k")?]?),
        inits: Items::new(alloc),
        body,
    })
}

/// Whether the text stands between the braces of the thread.
pub fn body_is(alloc: Global, body: Items<Stmt>, text: &str) -> Result<bool, AllocError> {
    let got = print_program(alloc, &program(alloc, body)?)?;
    let want = format!(in alloc; "global a ;\nglobal b ;\nlocal k ;\nthread {{\n{text}}}\n")?;
    Ok(got.as_slice() == want.as_bytes())
}

pub fn stmt_is(alloc: Global, kind: StmtKind, text: &str) -> Result<bool, AllocError> {
    body_is(alloc, one(alloc, kind)?, text)
}

pub fn cond_is(alloc: Global, cond: Cond, text: &str) -> Result<bool, AllocError> {
    let text = format!(in alloc; "assume {text} ;\n")?;
    stmt_is(alloc, StmtKind::Assume(cond), text.as_str())
}

pub fn sum_is(
    alloc: Global,
    products: &[(i128, Option<Var>)],
    text: &str,
) -> Result<bool, AllocError> {
    let text = format!(in alloc; "k := {text} ;\n")?;
    let kind = StmtKind::Assign(K, sum(alloc, products)?);
    stmt_is(alloc, kind, text.as_str())
}
