//! Statements.
ghost use Rattle.std.specs.Prelude.{◌≡◌, IfOk};

use crate::cond::{Cond, Test};
use crate::sum::Sum;
use ps_term::Var;
use ps_token::Place;
use sqlite_items::Items;
use std::alloc::{AllocError, Global};

/// A statement and the place in the text where it begins.
#[derive(Debug, Drop)]
#[cycle(stmt)]
pub struct Stmt {
    pub place: Place,
    pub kind: StmtKind,
}

/// What a statement does. Its variables are `Global(n)` and `Local(0, n)`.
#[derive(Debug, Drop)]
#[cycle(stmt)]
pub enum StmtKind {
    /// Sets the variable to what the sum is worth.
    Assign(Var, Sum),
    /// Sets the variable to any whole number.
    Havoc(Var),
    /// Goes on only where the condition holds.
    Assume(Cond),
    /// Fails where the condition doesn't hold.
    Assert(Cond),
    Skip,
    /// Runs the whole block in one step.
    Atomic(Items<Stmt>),
    If(Test, Items<Stmt>, Items<Stmt>),
    While(Test, Items<Stmt>),
}

impl Stmt {
    /// A copy, in time and memory of all that stands in it.
    #[cycle(stmt_copy)]
    pub fn copy(&self, alloc: Global) -> Result<Stmt, AllocError>
        ensures { IfOk result (λ stmt. stmt ≡ self.now) }
    {
        Ok(Stmt {
            place: self.place,
            kind: self.kind.copy(alloc)?,
        })
    }
}

impl StmtKind {
    /// A copy, in time and memory of all that stands in it.
    #[cycle(stmt_copy)]
    pub fn copy(&self, alloc: Global) -> Result<StmtKind, AllocError>
        ensures { IfOk result (λ kind. kind ≡ self.now) }
    {
        match self {
            StmtKind::Assign(variable, sum) => Ok(StmtKind::Assign(*variable, sum.copy(alloc)?)),
            StmtKind::Havoc(variable) => Ok(StmtKind::Havoc(*variable)),
            StmtKind::Assume(cond) => Ok(StmtKind::Assume(cond.copy(alloc)?)),
            StmtKind::Assert(cond) => Ok(StmtKind::Assert(cond.copy(alloc)?)),
            StmtKind::Skip => Ok(StmtKind::Skip),
            StmtKind::Atomic(block) => Ok(StmtKind::Atomic(copy_block(alloc, block.as_slice())?)),
            StmtKind::If(test, held, failed) => Ok(StmtKind::If(
                test.copy(alloc)?,
                copy_block(alloc, held.as_slice())?,
                copy_block(alloc, failed.as_slice())?,
            )),
            StmtKind::While(test, block) => Ok(StmtKind::While(
                test.copy(alloc)?,
                copy_block(alloc, block.as_slice())?,
            )),
        }
    }
}

/// Copies of the statements, in their order.
#[cycle(stmt_copy)]
pub(crate) fn copy_block(alloc: Global, block: &[Stmt]) -> Result<Items<Stmt>, AllocError>
    ensures { IfOk result (λ copies. copies ≡ block.now) }
{
    let mut copies = Items::new(alloc);
    for stmt in block {
        copies.push(stmt.copy(alloc)?)?;
    }
    Ok(copies)
}
