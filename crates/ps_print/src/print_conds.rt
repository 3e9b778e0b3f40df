//! Printing conditions and tests.

ghost use Rattle.std.specs.Prelude.{◌≡◌, ◌++◌, [], ◌∷◌, OnOk, decimal};
ghost use Rattle.ps_tree.specs.declared.cond.Cond.TheVariants.{And, Or};
ghost use Rattle.ps_print.specs.Canonical.{cond_text, conj_text, test_text, unary_text};
ghost use Rattle.ps_print.specs.Printed.{Puts, word_between};
ghost use Rattle.ps_grammar.specs.Spelling.{NumberPiece, Mark, cond_pieces, conj_pieces, test_pieces, unary_pieces};

use crate::print_words::{put_mark, put_number};
use crate::printer::Printer;
use ps_token::TokenKind;
use ps_tree::{Cond, Test};
use std::alloc::AllocError;

/// Puts the relation of 0 to 0: a condition that is `==` or `!=` of the same.
fn put_zeros(out: &mut Vec<u8>, sign: TokenKind) -> Result<(), AllocError>
    ensures { OnOk result
        (Puts out.old.items out.new.items
        (NumberPiece (decimal 0) ∷ Mark sign ∷ NumberPiece (decimal 0) ∷ [])) }
{
    put_number(out, 0)?;
    put_mark(out, sign)?;
    put_number(out, 0)?;
    Ok(())
}

/// Puts the word before each member but the first.
fn put_between(out: &mut Vec<u8>, kind: TokenKind, is_first: bool) -> Result<(), AllocError>
    ensures { OnOk result (Puts out.old.items out.new.items (word_between kind is_first)) }
{
    if is_first {
        return Ok(());
    }
    put_mark(out, kind)?;
    Ok(())
}

impl<'a> Printer<'a> {
    /// Puts a condition that stands by itself.
    pub(crate) fn put_cond(&self, out: &mut Vec<u8>, cond: &Cond) -> Result<(), AllocError>
        ensures { OnOk result
            (Puts out.old.items out.new.items (cond_pieces (cond_text self.now cond.now))) }
    {
        match cond {
            Cond::Rel(relation) => {
                self.put_relation(out, relation)?;
                Ok(())
            }
            Cond::Not(inner) => {
                put_mark(out, TokenKind::Not)?;
                self.put_unary(out, inner.get())?;
                Ok(())
            }
            Cond::And(members) => {
                self.put_all(out, members.as_slice())?;
                Ok(())
            }
            Cond::Or(members) => {
                self.put_some(out, members.as_slice())?;
                Ok(())
            }
        }
    }

    /// Puts a condition that stands between `||`.
    #[cycle(put_unary)]
    fn put_conj(&self, out: &mut Vec<u8>, cond: &Cond) -> Result<(), AllocError>
        ensures { OnOk result
            (Puts out.old.items out.new.items (conj_pieces (conj_text self.now cond.now))) }
    {
        match cond {
            Cond::Rel(relation) => {
                self.put_relation(out, relation)?;
                Ok(())
            }
            Cond::Not(negated) => {
                put_mark(out, TokenKind::Not)?;
                self.put_unary(out, negated.get())?;
                Ok(())
            }
            Cond::And(members) => {
                self.put_all(out, members.as_slice())?;
                Ok(())
            }
            Cond::Or(members) => {
                put_mark(out, TokenKind::OpenParen)?;
                self.put_some(out, members.as_slice())?;
                put_mark(out, TokenKind::CloseParen)?;
                Ok(())
            }
        }
    }

    /// Puts a condition that stands between `&&` or after `!`.
    #[cycle(put_unary)]
    fn put_unary(&self, out: &mut Vec<u8>, cond: &Cond) -> Result<(), AllocError>
        ensures { OnOk result
            (Puts out.old.items out.new.items (unary_pieces (unary_text self.now cond.now))) }
    {
        match cond {
            Cond::Rel(relation) => {
                self.put_relation(out, relation)?;
                Ok(())
            }
            Cond::Not(negated) => {
                put_mark(out, TokenKind::Not)?;
                self.put_unary(out, negated.get())?;
                Ok(())
            }
            Cond::And(members) => {
                put_mark(out, TokenKind::OpenParen)?;
                self.put_all(out, members.as_slice())?;
                put_mark(out, TokenKind::CloseParen)?;
                Ok(())
            }
            Cond::Or(members) => {
                put_mark(out, TokenKind::OpenParen)?;
                self.put_some(out, members.as_slice())?;
                put_mark(out, TokenKind::CloseParen)?;
                Ok(())
            }
        }
    }

    /// Puts the members of an `And`.
    #[cycle(put_unary)]
    fn put_all(&self, out: &mut Vec<u8>, members: &[Cond]) -> Result<(), AllocError>
        ensures { OnOk result
            (Puts out.old.items out.new.items
            (cond_pieces (cond_text self.now (And members.now)))) }
    {
        if members.is_empty() {
            put_zeros(out, TokenKind::EqualEqual)?;
            return Ok(());
        }
        let mut is_first = true;
        for member in members {
            put_between(out, TokenKind::And, is_first)?;
            self.put_unary(out, member)?;
            is_first = false;
        }
        Ok(())
    }

    /// Puts the members of an `Or`.
    #[cycle(put_unary)]
    fn put_some(&self, out: &mut Vec<u8>, members: &[Cond]) -> Result<(), AllocError>
        ensures { OnOk result
            (Puts out.old.items out.new.items (cond_pieces (cond_text self.now (Or members.now)))) }
    {
        if members.is_empty() {
            put_zeros(out, TokenKind::NotEqual)?;
            return Ok(());
        }
        let mut is_first = true;
        for member in members {
            put_between(out, TokenKind::Or, is_first)?;
            self.put_conj(out, member)?;
            is_first = false;
        }
        Ok(())
    }

    /// Puts a test with its parentheses.
    pub(crate) fn put_test(&self, out: &mut Vec<u8>, test: &Test) -> Result<(), AllocError>
        ensures { OnOk result
            (Puts out.old.items out.new.items (test_pieces (test_text self.now test.now))) }
    {
        put_mark(out, TokenKind::OpenParen)?;
        match test {
            Test::Star => {
                put_mark(out, TokenKind::Star)?;
                put_mark(out, TokenKind::CloseParen)?;
                Ok(())
            }
            Test::Cond(cond) => {
                self.put_cond(out, cond)?;
                put_mark(out, TokenKind::CloseParen)?;
                Ok(())
            }
        }
    }
}
