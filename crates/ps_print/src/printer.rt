//! What a variable of a program is called in its text.

ghost use Rattle.std.specs.Prelude.{◌≡◌, ◌++◌, [], ◌∷◌, OnOk, map, get_or};
ghost use Rattle.ps_print.specs.Canonical.{name_of};
ghost use Rattle.ps_print.specs.Printed.{Puts};
ghost use Rattle.ps_grammar.specs.Spelling.{NamePiece};
ghost use Rattle.ps_tree.specs.declared.global_decl.GlobalDecl.{GlobalDecl};

use crate::print_words::put_name;
use ps_term::Var;
use ps_tree::{GlobalDecl, Name};
use std::alloc::AllocError;
use std::marker::Model;

/// The declared variables, by which a program is printed. Its calls put texts at the end of what was
/// written before.
#[derive(Debug, Drop)]
pub(crate) struct Printer<'a> {
    globals: &'a [GlobalDecl],
    locals: &'a [Name],
}

impl<'a> Model for Printer<'a> {
    ghost use Rattle.std.specs.Prelude.{map};
    ghost use Rattle.ps_grammar.specs.Names.{Names};
    ghost use Rattle.ps_tree.specs.declared.global_decl.GlobalDecl.{GlobalDecl};

    ghost Value = { Names };

    ghost view = { λ p. record { globals = map (λ (g : GlobalDecl). g.name) p.globals.now; locals = p.locals.now } };
}

impl<'a> Printer<'a> {
    pub(crate) fn new(globals: &'a [GlobalDecl], locals: &'a [Name]) -> Printer<'a>
        ensures { result ≡ record {
          globals = map
              (λ (g : GlobalDecl). g.name) globals.now;
          locals = locals.now;
        } }
    {
        Printer { globals, locals }
    }

    /// A variable that isn't declared has the empty name.
    fn name_of(&self, variable: Var) -> &[u8]
        ensures { result.now ≡ name_of self.now variable }
    {
        match variable {
            Var::Global(number) => global_name(self.globals, number),
            Var::Local(_thread, number) => local_name(self.locals, number),
            Var::Havoc(_number) => b"",
        }
    }

    /// Puts the name of a variable.
    pub(crate) fn put_variable(&self, out: &mut Vec<u8>, variable: Var) -> Result<(), AllocError>
        ensures { OnOk result
            (Puts out.old.items out.new.items (NamePiece (name_of self.now variable) ∷ [])) }
    {
        put_name(out, self.name_of(variable))
    }
}

fn global_name(globals: &[GlobalDecl], number: u32) -> &[u8]
    ensures { result.now ≡ get_or (map (λ (g : GlobalDecl). g.name) globals.now) number [] }
{
    let index = number as usize;
    if index < globals.len() {
        globals[index].name.as_slice()
    } else {
        b""
    }
}

fn local_name(locals: &[Name], number: u32) -> &[u8]
    ensures { result.now ≡ get_or locals.now number [] }
{
    let index = number as usize;
    if index < locals.len() {
        locals[index].as_slice()
    } else {
        b""
    }
}
