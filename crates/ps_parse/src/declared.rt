//! What a program declares.

ghost use Rattle.std.specs.Prelude.{◌≡◌, ◌<◌, ◌^◌, [], ◌∷◌, ◌++◌, map, length, IfOk};
ghost use Rattle.ps_grammar.specs.Names.{position_from};
ghost use Rattle.ps_grammar.specs.Declarations.{names_of, nothing_declared};
ghost use Rattle.ps_grammar.specs.Trees.{variable_named};
ghost use Rattle.ps_tree.specs.declared.global_decl.GlobalDecl.{GlobalDecl};

use ps_term::Var;
use ps_tree::{GlobalDecl, Name, Program, Relation, Stmt};
use sqlite_items::Items;
use std::alloc::{AllocError, Global};
use std::marker::Model;

// The most names of one sort.
const MOST_NAMES: usize = u32::MAX as usize;

/// What is declared so far. Its rows aren't counted.
#[derive(Drop)]
pub(crate) struct Declared {
    globals: Vec<GlobalDecl>,
    locals: Vec<Name>,
    inits: Vec<Relation>,
}

impl Model for Declared {
    ghost use Rattle.std.specs.Prelude.{◌<◌, ◌^◌, length};
    ghost use Rattle.ps_grammar.specs.Declarations.{Declared};

    ghost Value = { Declared };

    ghost view = { λ d. record { globals = d.globals.items; locals = d.locals.items; inits = d.inits.items; rows = 0 } };

    ghost invariant = { λ d. (length d.globals.items < 2 ^ 32) × (length d.locals.items < 2 ^ 32) };
}

// The place of a name among the globals.
fn global_position(globals: &[GlobalDecl], name: &[u8]) -> Option<u32>
    requires { length globals.now < 2 ^ 32 }
    ensures { result ≡ position_from 0 name.now (map (λ (g : GlobalDecl). g.name) globals.now) }
{
    for (i, global) in globals.iter().enumerate() {
        if global.name.as_slice() == name {
            return Some(i as u32);
        }
    }
    None
}

// The place of a name among the locals.
fn local_position(locals: &[Name], name: &[u8]) -> Option<u32>
    requires { length locals.now < 2 ^ 32 }
    ensures { result ≡ position_from 0 name.now locals.now }
{
    for (i, local) in locals.iter().enumerate() {
        if local.as_slice() == name {
            return Some(i as u32);
        }
    }
    None
}

impl Declared {
    pub(crate) fn new(alloc: Global) -> Declared
        ensures { result ≡ nothing_declared }
    {
        Declared {
            globals: Vec::new(alloc),
            locals: Vec::new(alloc),
            inits: Vec::new(alloc),
        }
    }

    /// The variable that a name stands for: the first global for one that isn't declared. Looks at all names.
    pub(crate) fn variable(&self, name: &[u8]) -> Var
        ensures { result ≡ variable_named (names_of self.now) name.now }
    {
        if let Some(n) = global_position(&self.globals, name) {
            return Var::Global(n);
        }
        match local_position(&self.locals, name) {
            Some(n) => Var::Local(0, n),
            None => Var::Global(0),
        }
    }

    /// With a further global. More than 32 bits can number are answered as want of memory, which so many are.
    pub(crate) fn with_global(self, global: GlobalDecl) -> Result<Declared, AllocError>
        ensures { IfOk result
            (λ d. d ≡ record {
              globals = self.globals ++ global ∷ [];
              locals = self.locals;
              inits =
                  self.inits;
              rows = self.rows;
            }) }
    {
        let Declared {
            mut globals,
            locals,
            inits,
        } = self;
        if globals.len() >= MOST_NAMES {
            return Err(AllocError);
        }
        globals.push(global)?;
        Ok(Declared {
            globals,
            locals,
            inits,
        })
    }

    /// With a further local, of which there may be as many as globals.
    pub(crate) fn with_local(self, local: Name) -> Result<Declared, AllocError>
        ensures { IfOk result
            (λ d. d ≡ record {
              globals = self.globals;
              locals = self.locals ++ local ∷ [];
              inits =
                  self.inits;
              rows = self.rows;
            }) }
    {
        let Declared {
            globals,
            mut locals,
            inits,
        } = self;
        if locals.len() >= MOST_NAMES {
            return Err(AllocError);
        }
        locals.push(local)?;
        Ok(Declared {
            globals,
            locals,
            inits,
        })
    }

    /// With further relations that hold at the start.
    pub(crate) fn with_inits(self, mut relations: Vec<Relation>) -> Result<Declared, AllocError>
        ensures { IfOk result
            (λ d. d ≡ record {
              globals = self.globals;
              locals = self.locals;
              inits = self.inits ++
                  relations.items;
              rows = self.rows;
            }) }
    {
        let Declared {
            globals,
            locals,
            mut inits,
        } = self;
        inits.append(&mut relations)?;
        Ok(Declared {
            globals,
            locals,
            inits,
        })
    }

    /// The program with these declarations and this body.
    pub(crate) fn into_program(self, body: Items<Stmt>) -> Program
        ensures { result ≡ record
            { globals = self.globals; locals = self.locals; inits = self.inits; body = body } }
    {
        let Declared {
            globals,
            locals,
            inits,
        } = self;
        Program {
            globals: Items::from_vec(globals),
            locals: Items::from_vec(locals),
            inits: Items::from_vec(inits),
            body,
        }
    }
}
