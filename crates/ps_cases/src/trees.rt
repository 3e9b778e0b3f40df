//! The trees of program texts, as texts: globals with their values, locals and inits, each part ended by `;`, and then the
//! statements with their columns. `g0` is the first global, `l0` the first local; a relation stands in brackets, a product is
//! `NUMBER*VARIABLE`, the members of an `And` stand after `(&` and those of an `Or` after `(|`.
use crate::programs::program_of;
use ps_syntax::{Cond, Program, Relation, Sign, Stmt, StmtKind, Sum, Test};
use ps_term::Var;
use ps_text::{put_digits, put_signed_digits, put_word};
use std::alloc::{AllocError, Global};

/// The tree that the text is read as.
pub fn tree(alloc: Global, text: &[u8]) -> Result<Vec<u8>, AllocError> {
    let program = program_of(alloc, text)?;
    let mut out = Vec::new(alloc);
    put_declared(&mut out, &program)?;
    for stmt in program.body.as_slice() {
        put_stmt(&mut out, stmt)?;
    }
    Ok(out)
}

/// Appends the variable: `g0` for the first global, `l0` for the first local.
pub fn put_var(out: &mut Vec<u8>, variable: Var) -> Result<(), AllocError> {
    match variable {
        Var::Global(n) => {
            put_word(out, b"g")?;
            put_digits(out, u128::from(n))
        }
        Var::Local(_, n) => {
            put_word(out, b"l")?;
            put_digits(out, u128::from(n))
        }
        Var::Havoc(_) => put_word(out, b"?"),
    }
}

fn put_sum(out: &mut Vec<u8>, sum: &Sum) -> Result<(), AllocError> {
    for (number, variable) in sum.terms.as_slice() {
        put_word(out, b" ")?;
        put_signed_digits(out, *number)?;
        if let Some(variable) = variable {
            put_word(out, b"*")?;
            put_var(out, *variable)?;
        }
    }
    Ok(())
}

fn put_relation(out: &mut Vec<u8>, relation: &Relation) -> Result<(), AllocError> {
    put_word(out, b"[")?;
    put_sum(out, &relation.left)?;
    match relation.sign {
        Sign::Less => put_word(out, b"<")?,
        Sign::LessEq => put_word(out, b"<=")?,
        Sign::Greater => put_word(out, b">")?,
        Sign::GreaterEq => put_word(out, b">=")?,
        Sign::Equal => put_word(out, b"==")?,
        Sign::NotEqual => put_word(out, b"!=")?,
    }
    put_sum(out, &relation.right)?;
    put_word(out, b"]")
}

#[cycle(cond_dump)]
fn put_cond(out: &mut Vec<u8>, cond: &Cond) -> Result<(), AllocError> {
    match cond {
        Cond::Rel(relation) => put_relation(out, relation),
        Cond::Not(negated) => {
            put_word(out, b"!")?;
            put_cond(out, negated.get())
        }
        Cond::And(members) => put_conds(out, b"(&", members.as_slice()),
        Cond::Or(members) => put_conds(out, b"(|", members.as_slice()),
    }
}

#[cycle(cond_dump)]
fn put_conds(out: &mut Vec<u8>, open: &[u8], members: &[Cond]) -> Result<(), AllocError> {
    put_word(out, open)?;
    for member in members {
        put_cond(out, member)?;
    }
    put_word(out, b")")
}

fn put_test(out: &mut Vec<u8>, test: &Test) -> Result<(), AllocError> {
    match test {
        Test::Star => put_word(out, b"*"),
        Test::Cond(cond) => put_cond(out, cond),
    }
}

#[cycle(stmt_dump)]
fn put_kind(out: &mut Vec<u8>, kind: &StmtKind) -> Result<(), AllocError> {
    match kind {
        StmtKind::Assign(variable, sum) => {
            put_var(out, *variable)?;
            put_word(out, b"=")?;
            put_sum(out, sum)?;
            put_word(out, b".")
        }
        StmtKind::Havoc(variable) => {
            put_word(out, b"havoc ")?;
            put_var(out, *variable)?;
            put_word(out, b".")
        }
        StmtKind::Assume(cond) => {
            put_word(out, b"assume")?;
            put_cond(out, cond)?;
            put_word(out, b".")
        }
        StmtKind::Assert(cond) => {
            put_word(out, b"assert")?;
            put_cond(out, cond)?;
            put_word(out, b".")
        }
        StmtKind::Skip => put_word(out, b"skip."),
        StmtKind::Atomic(block) => {
            put_word(out, b"atomic")?;
            put_block(out, block.as_slice())
        }
        StmtKind::If(test, held, failed) => {
            put_word(out, b"if")?;
            put_test(out, test)?;
            put_block(out, held.as_slice())?;
            put_block(out, failed.as_slice())
        }
        StmtKind::While(test, block) => {
            put_word(out, b"while")?;
            put_test(out, test)?;
            put_block(out, block.as_slice())
        }
    }
}

#[cycle(stmt_dump)]
fn put_stmt(out: &mut Vec<u8>, stmt: &Stmt) -> Result<(), AllocError> {
    put_digits(out, u128::from(stmt.place.column))?;
    put_word(out, b":")?;
    put_kind(out, &stmt.kind)
}

#[cycle(stmt_dump)]
fn put_block(out: &mut Vec<u8>, block: &[Stmt]) -> Result<(), AllocError> {
    put_word(out, b"{")?;
    for stmt in block {
        put_stmt(out, stmt)?;
    }
    put_word(out, b"}")
}

fn put_declared(out: &mut Vec<u8>, program: &Program) -> Result<(), AllocError> {
    for global in program.globals.as_slice() {
        put_word(out, global.name.as_slice())?;
        if let Some(value) = global.value {
            put_word(out, b"=")?;
            put_signed_digits(out, value)?;
        }
        put_word(out, b",")?;
    }
    put_word(out, b";")?;
    for local in program.locals.as_slice() {
        put_word(out, local.as_slice())?;
        put_word(out, b",")?;
    }
    put_word(out, b";")?;
    for relation in program.inits.as_slice() {
        put_relation(out, relation)?;
    }
    put_word(out, b";")
}
