//! Printing programs.

ghost use Rattle.std.specs.Prelude.{◌≡◌, ◌++◌, [], ◌∷◌, ℕ, List, OnOk, IfOk, map};
ghost use Rattle.std.specs.List.{flat_map};
ghost use Rattle.ps_grammar.specs.Grammar.{local};
ghost use Rattle.ps_print.specs.Printed.{global_item, init_item, Puts, printed_program, value_text};
ghost use Rattle.ps_grammar.specs.Texts.{IsTreeOfText};
ghost use Rattle.ps_print.specs.ReadBack.{ReadsBack};
ghost use Rattle.ps_grammar.specs.Spelling.{item_pieces, value_pieces};
ghost use Rattle.ps_grammar.specs.Programs.{IsProgram};
ghost use Rattle.ps_print.specs.ReadBack.{IsSameProgram};

use crate::print_sums::put_signed;
use crate::print_words::{put_mark, put_name};
use crate::printer::Printer;
use ps_token::TokenKind;
use ps_tree::{GlobalDecl, Name, Program, Relation};
use std::alloc::{AllocError, Global};

/// The text of a program: globals, locals, one `init` for each relation, then the thread. There is
/// one blank after each word, and a line feed in its place after each `;`, `{` and `}`. Nothing is
/// written that can be left out: a coefficient 1, an `else` with an empty block, parentheses other than those
/// around an `And` or `Or` inside an `And` or after `!` and around an `Or` inside an `Or`. A variable that isn't
/// declared has the empty name.
///
/// What is printed of a program that was read is read as the same program, but for places.
///
/// It takes time and memory of all that stands in the program, and of the names where they are used.
pub fn print_program(alloc: Global, program: &Program) -> Result<Vec<u8>, AllocError>
    ensures text { IfOk result (λ text. text.items ≡ printed_program program.now) }
    ensures again { IfOk result
        (λ text. IsTreeOfText program.now → ReadsBack text.items program.now) }
    // What is printed of a program that a text is, is that program again, but for places.
    ensures same { IfOk result
        (λ text. (bytes : List ℕ) → IsProgram bytes program.now
        → IsSameProgram text.items program.now) }
{
    let printer = Printer::new(program.globals.as_slice(), program.locals.as_slice());
    let mut out = Vec::new(alloc);
    put_globals(&mut out, program.globals.as_slice())?;
    put_locals(&mut out, program.locals.as_slice())?;
    printer.put_inits(&mut out, program.inits.as_slice())?;
    put_mark(&mut out, TokenKind::Thread)?;
    printer.put_block(&mut out, program.body.as_slice())?;
    Ok(out)
}

fn put_value(out: &mut Vec<u8>, value: Option<i128>) -> Result<(), AllocError>
    ensures { OnOk result (Puts out.old.items out.new.items (value_pieces (value_text value))) }
{
    match value {
        None => Ok(()),
        Some(number) => {
            put_mark(out, TokenKind::Equal)?;
            put_signed(out, number)?;
            Ok(())
        }
    }
}

fn put_global(out: &mut Vec<u8>, global: &GlobalDecl) -> Result<(), AllocError>
    ensures { OnOk result
        (Puts out.old.items out.new.items (item_pieces (global_item global.now))) }
{
    put_mark(out, TokenKind::Global)?;
    put_name(out, global.name.as_slice())?;
    put_value(out, global.value)?;
    put_mark(out, TokenKind::Semicolon)?;
    Ok(())
}

fn put_globals(out: &mut Vec<u8>, globals: &[GlobalDecl]) -> Result<(), AllocError>
    ensures { OnOk result
        (Puts out.old.items out.new.items (flat_map item_pieces (map global_item globals.now))) }
{
    for global in globals {
        put_global(out, global)?;
    }
    Ok(())
}

fn put_local(out: &mut Vec<u8>, name: &Name) -> Result<(), AllocError>
    ensures { OnOk result (Puts out.old.items out.new.items (item_pieces (local name.now))) }
{
    put_mark(out, TokenKind::Local)?;
    put_name(out, name.as_slice())?;
    put_mark(out, TokenKind::Semicolon)?;
    Ok(())
}

fn put_locals(out: &mut Vec<u8>, locals: &[Name]) -> Result<(), AllocError>
    ensures { OnOk result
        (Puts out.old.items out.new.items (flat_map item_pieces (map local locals.now))) }
{
    for name in locals {
        put_local(out, name)?;
    }
    Ok(())
}

impl<'a> Printer<'a> {
    fn put_init(&self, out: &mut Vec<u8>, relation: &Relation) -> Result<(), AllocError>
        ensures { OnOk result
            (Puts out.old.items out.new.items (item_pieces (init_item self.now relation.now))) }
    {
        put_mark(out, TokenKind::Init)?;
        self.put_relation(out, relation)?;
        put_mark(out, TokenKind::Semicolon)?;
        Ok(())
    }

    fn put_inits(&self, out: &mut Vec<u8>, relations: &[Relation]) -> Result<(), AllocError>
        ensures { OnOk result
            (Puts out.old.items out.new.items
            (flat_map item_pieces (map (init_item self.now) relations.now))) }
    {
        for relation in relations {
            self.put_init(out, relation)?;
        }
        Ok(())
    }
}
