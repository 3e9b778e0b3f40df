//! Printing statements and blocks.

ghost use Rattle.std.specs.Prelude.{◌≡◌, ◌++◌, [], ◌∷◌, OnOk};
ghost use Rattle.ps_print.specs.Canonical.{cond_text, name_of, stmt_text, sum_text};
ghost use Rattle.ps_print.specs.Printed.{Puts, stmts_text};
ghost use Rattle.ps_grammar.specs.Spelling.{NamePiece, Mark, block_pieces, cond_pieces, stmt_pieces, sum_pieces};
ghost use Rattle.ps_grammar.specs.Grammar.{assign, havoc};
ghost use Rattle.ps_token.specs.declared.token_kind.TokenKind.TheVariants.{Semicolon};

use crate::print_words::put_mark;
use crate::printer::Printer;
use ps_term::Var;
use ps_token::TokenKind;
use ps_tree::{Cond, Stmt, StmtKind, Sum};
use std::alloc::AllocError;

impl<'a> Printer<'a> {
    fn put_assign(&self, out: &mut Vec<u8>, variable: Var, sum: &Sum) -> Result<(), AllocError>
        ensures { OnOk result
            (Puts out.old.items out.new.items
            (stmt_pieces (assign (name_of self.now variable) (sum_text self.now sum.now)))) }
    {
        self.put_variable(out, variable)?;
        put_mark(out, TokenKind::Becomes)?;
        self.put_sum(out, sum)?;
        put_mark(out, TokenKind::Semicolon)?;
        Ok(())
    }

    fn put_havoc(&self, out: &mut Vec<u8>, variable: Var) -> Result<(), AllocError>
        ensures { OnOk result
            (Puts out.old.items out.new.items (stmt_pieces (havoc (name_of self.now variable)))) }
    {
        put_mark(out, TokenKind::Havoc)?;
        self.put_variable(out, variable)?;
        put_mark(out, TokenKind::Semicolon)?;
        Ok(())
    }

    /// Puts `assume` or `assert` with its condition.
    fn put_claim(&self, out: &mut Vec<u8>, word: TokenKind, cond: &Cond) -> Result<(), AllocError>
        ensures { OnOk result
            (Puts out.old.items out.new.items
            (Mark word ∷ (cond_pieces (cond_text self.now cond.now) ++ Mark Semicolon ∷ []))) }
    {
        put_mark(out, word)?;
        self.put_cond(out, cond)?;
        put_mark(out, TokenKind::Semicolon)?;
        Ok(())
    }

    /// Puts a statement.
    #[cycle(put_block)]
    fn put_stmt(&self, out: &mut Vec<u8>, kind: &StmtKind) -> Result<(), AllocError>
        ensures { OnOk result
            (Puts out.old.items out.new.items (stmt_pieces (stmt_text self.now kind.now))) }
    {
        match kind {
            StmtKind::Assign(variable, sum) => {
                self.put_assign(out, *variable, sum)?;
                Ok(())
            }
            StmtKind::Havoc(variable) => {
                self.put_havoc(out, *variable)?;
                Ok(())
            }
            StmtKind::Assume(cond) => {
                self.put_claim(out, TokenKind::Assume, cond)?;
                Ok(())
            }
            StmtKind::Assert(cond) => {
                self.put_claim(out, TokenKind::Assert, cond)?;
                Ok(())
            }
            StmtKind::Skip => {
                put_mark(out, TokenKind::Skip)?;
                put_mark(out, TokenKind::Semicolon)?;
                Ok(())
            }
            StmtKind::Atomic(block) => {
                put_mark(out, TokenKind::Atomic)?;
                self.put_block(out, block.as_slice())?;
                Ok(())
            }
            StmtKind::If(test, held, failed) => {
                put_mark(out, TokenKind::If)?;
                self.put_test(out, test)?;
                self.put_block(out, held.as_slice())?;
                if failed.is_empty() {
                    return Ok(());
                }
                put_mark(out, TokenKind::Else)?;
                self.put_block(out, failed.as_slice())?;
                Ok(())
            }
            StmtKind::While(test, block) => {
                put_mark(out, TokenKind::While)?;
                self.put_test(out, test)?;
                self.put_block(out, block.as_slice())?;
                Ok(())
            }
        }
    }

    /// Puts statements in braces.
    #[cycle(put_block)]
    pub(crate) fn put_block(&self, out: &mut Vec<u8>, block: &[Stmt]) -> Result<(), AllocError>
        ensures { OnOk result
            (Puts out.old.items out.new.items (block_pieces (stmts_text self.now block.now))) }
    {
        put_mark(out, TokenKind::OpenBrace)?;
        for stmt in block {
            self.put_stmt(out, &stmt.kind)?;
        }
        put_mark(out, TokenKind::CloseBrace)?;
        Ok(())
    }
}
