//! Programs.
ghost use Rattle.std.specs.Prelude.{◌≡◌, IfOk};

use crate::global_decl::GlobalDecl;
use crate::name::Name;
use crate::relation::Relation;
use crate::stmt::{Stmt, copy_block};
use sqlite_items::Items;
use std::alloc::{AllocError, Global};

/// Declared globals and locals, the relations that hold at the start, and the body that each thread
/// runs.
#[derive(Debug, Drop)]
pub struct Program {
    pub globals: Items<GlobalDecl>,
    pub locals: Items<Name>,
    pub inits: Items<Relation>,
    pub body: Items<Stmt>,
}

impl Program {
    /// A copy, in time and memory of all that stands in it.
    pub fn copy(&self, alloc: Global) -> Result<Program, AllocError>
        ensures { IfOk result (λ program. program ≡ self.now) }
    {
        Ok(Program {
            globals: copy_globals(alloc, self.globals.as_slice())?,
            locals: copy_names(alloc, self.locals.as_slice())?,
            inits: copy_relations(alloc, self.inits.as_slice())?,
            body: copy_block(alloc, self.body.as_slice())?,
        })
    }
}

fn copy_globals(alloc: Global, globals: &[GlobalDecl]) -> Result<Items<GlobalDecl>, AllocError>
    ensures { IfOk result (λ copies. copies ≡ globals.now) }
{
    let mut copies = Items::new(alloc);
    for global in globals {
        copies.push(global.copy(alloc)?)?;
    }
    Ok(copies)
}

fn copy_names(alloc: Global, names: &[Name]) -> Result<Items<Name>, AllocError>
    ensures { IfOk result (λ copies. copies ≡ names.now) }
{
    let mut copies = Items::new(alloc);
    for name in names {
        copies.push(name.copy(alloc)?)?;
    }
    Ok(copies)
}

fn copy_relations(alloc: Global, relations: &[Relation]) -> Result<Items<Relation>, AllocError>
    ensures { IfOk result (λ copies. copies ≡ relations.now) }
{
    let mut copies = Items::new(alloc);
    for relation in relations {
        copies.push(relation.copy(alloc)?)?;
    }
    Ok(copies)
}
