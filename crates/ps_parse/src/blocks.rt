//! Reading statements and blocks.

ghost use Rattle.std.specs.Prelude.{◌≡◌, suc};
ghost use Rattle.ps_token.specs.declared.token_kind.TokenKind.TheVariants as kind;
ghost use Rattle.ps_parse.specs.Inner.Reading.{ReadsTo, with_front, words_while, next_is, after_word, next_word};
ghost use Rattle.ps_grammar.specs.Declarations.{names_of};
ghost use Rattle.ps_parse.specs.Inner.Conds.{cond_at};
ghost use Rattle.ps_parse.specs.Inner.Blocks.{assign_at, ended_at, havoc_at, skip_at, atomic_at, else_at, if_at, while_stmt_at, kind_at, stmt_at, has_more, block_at};

use crate::cursor::Cursor;
use crate::parser::Parser;
use crate::read_refusal::ReadRefusal;
use ps_token::TokenKind;
use ps_tree::{Cond, Stmt, StmtKind};
use sqlite_items::Items;

#[tactic(auto, unfolding(crate::specs::Inner::Blocks::skip_at, crate::specs::Inner::Reading::after_word, ps_lines::specs::Steps::and_then))]
fn skip<'b>(cursor: &mut Cursor<'b>) -> Result<StmtKind, ReadRefusal>
    ensures { ReadsTo (λ x. x) result cursor.new (skip_at cursor.old) }
{
    cursor.word(TokenKind::Skip)?;
    cursor.word(TokenKind::Semicolon)?;
    Ok(StmtKind::Skip)
}

impl<'a> Parser<'a> {
    #[tactic(auto, unfolding(crate::specs::Inner::Blocks::assign_at, crate::specs::Inner::Blocks::ended_at, crate::specs::Inner::Reading::after_word, ps_lines::specs::Steps::and_then))]
    fn assign<'b>(&self, most: u32, cursor: &mut Cursor<'b>) -> Result<StmtKind, ReadRefusal>
        ensures { ReadsTo (λ x. x) result cursor.new
            (assign_at (names_of self.now.declared.now) most cursor.old) }
    {
        let variable = self.variable(cursor)?;
        cursor.word(TokenKind::Becomes)?;
        let sum = self.sum(most, cursor)?;
        cursor.word(TokenKind::Semicolon)?;
        Ok(StmtKind::Assign(variable, sum))
    }

    #[tactic(auto, unfolding(crate::specs::Inner::Blocks::havoc_at, crate::specs::Inner::Blocks::ended_at, crate::specs::Inner::Reading::after_word, ps_lines::specs::Steps::and_then))]
    fn havoc<'b>(&self, cursor: &mut Cursor<'b>) -> Result<StmtKind, ReadRefusal>
        ensures { ReadsTo (λ x. x) result cursor.new
            (havoc_at (names_of self.now.declared.now) cursor.old) }
    {
        cursor.word(TokenKind::Havoc)?;
        let variable = self.variable(cursor)?;
        cursor.word(TokenKind::Semicolon)?;
        Ok(StmtKind::Havoc(variable))
    }

    // The condition after `assume` or `assert`, up to `;`.
    #[tactic(auto, unfolding(crate::specs::Inner::Blocks::ended_at, crate::specs::Inner::Reading::after_word, ps_lines::specs::Steps::and_then))]
    fn claim<'b>(
        &self,
        word: TokenKind,
        most: u32,
        cursor: &mut Cursor<'b>,
    ) -> Result<Cond, ReadRefusal>
        ensures { ReadsTo (λ x. x) result cursor.new
            (after_word word (ended_at
            (cond_at (names_of self.now.declared.now) most)) cursor.old) }
    {
        cursor.word(word)?;
        let cond = self.cond(most, cursor)?;
        cursor.word(TokenKind::Semicolon)?;
        Ok(cond)
    }

    #[cycle(block)]
    #[tactic(auto, unfolding(crate::specs::Inner::Blocks::atomic_at, crate::specs::Inner::Reading::after_word, ps_lines::specs::Steps::and_then))]
    fn atomic<'b>(&self, most: u32, cursor: &mut Cursor<'b>) -> Result<StmtKind, ReadRefusal>
        ensures { ReadsTo (λ x. x) result cursor.new
            (atomic_at (block_at (names_of self.now.declared.now) most) cursor.old) }
    {
        cursor.word(TokenKind::Atomic)?;
        let block = self.block(most, cursor)?;
        Ok(StmtKind::Atomic(block))
    }

    // `else` and its block, or nothing.
    #[cycle(block)]
    #[tactic(auto, unfolding(crate::specs::Inner::Blocks::else_at, crate::specs::Inner::Reading::after_word, ps_lines::specs::Steps::and_then))]
    fn otherwise<'b>(&self, most: u32, cursor: &mut Cursor<'b>) -> Result<Items<Stmt>, ReadRefusal>
        ensures { ReadsTo (λ x. x) result cursor.new
            (else_at (block_at (names_of self.now.declared.now) most) cursor.old) }
    {
        if !cursor.next_is(TokenKind::Else) {
            return Ok(Items::new(self.alloc));
        }
        cursor.word(TokenKind::Else)?;
        self.block(most, cursor)
    }

    #[cycle(block)]
    #[tactic(auto, unfolding(crate::specs::Inner::Blocks::if_at, crate::specs::Inner::Reading::after_word, ps_lines::specs::Steps::and_then))]
    fn choice<'b>(&self, most: u32, cursor: &mut Cursor<'b>) -> Result<StmtKind, ReadRefusal>
        ensures { ReadsTo (λ x. x) result cursor.new
            (if_at (block_at (names_of self.now.declared.now) most)
            (names_of self.now.declared.now) most cursor.old) }
    {
        cursor.word(TokenKind::If)?;
        let test = self.parens(most, cursor)?;
        let held = self.block(most, cursor)?;
        let failed = self.otherwise(most, cursor)?;
        Ok(StmtKind::If(test, held, failed))
    }

    #[cycle(block)]
    #[tactic(auto, unfolding(crate::specs::Inner::Blocks::while_stmt_at, crate::specs::Inner::Reading::after_word, ps_lines::specs::Steps::and_then))]
    fn repetition<'b>(&self, most: u32, cursor: &mut Cursor<'b>) -> Result<StmtKind, ReadRefusal>
        ensures { ReadsTo (λ x. x) result cursor.new
            (while_stmt_at (block_at (names_of self.now.declared.now) most)
            (names_of self.now.declared.now) most cursor.old) }
    {
        cursor.word(TokenKind::While)?;
        let test = self.parens(most, cursor)?;
        let block = self.block(most, cursor)?;
        Ok(StmtKind::While(test, block))
    }

    // What a statement does, told by its first word.
    #[cycle(block)]
    #[tactic(auto, unfolding(crate::specs::Inner::Blocks::kind_at, crate::specs::Inner::Blocks::cond_stmt_at, ps_lines::specs::Steps::and_then))]
    fn kind<'b>(&self, most: u32, cursor: &mut Cursor<'b>) -> Result<StmtKind, ReadRefusal>
        ensures { ReadsTo (λ x. x) result cursor.new
            (kind_at (block_at (names_of self.now.declared.now) most)
            (names_of self.now.declared.now) most cursor.old) }
    {
        if cursor.next_is(TokenKind::Name) {
            self.assign(most, cursor)
        } else if cursor.next_is(TokenKind::Havoc) {
            self.havoc(cursor)
        } else if cursor.next_is(TokenKind::Assume) {
            Ok(StmtKind::Assume(self.claim(TokenKind::Assume, most, cursor)?))
        } else if cursor.next_is(TokenKind::Assert) {
            Ok(StmtKind::Assert(self.claim(TokenKind::Assert, most, cursor)?))
        } else if cursor.next_is(TokenKind::Skip) {
            skip(cursor)
        } else if cursor.next_is(TokenKind::Atomic) {
            self.atomic(most, cursor)
        } else if cursor.next_is(TokenKind::If) {
            self.choice(most, cursor)
        } else if cursor.next_is(TokenKind::While) {
            self.repetition(most, cursor)
        } else {
            Err(ReadRefusal::Grammar(cursor.place()))
        }
    }

    #[cycle(block)]
    #[tactic(auto, unfolding(crate::specs::Inner::Blocks::stmt_at, ps_lines::specs::Steps::and_then))]
    fn stmt<'b>(&self, most: u32, cursor: &mut Cursor<'b>) -> Result<Stmt, ReadRefusal>
        ensures { ReadsTo (λ x. x) result cursor.new
            (stmt_at (block_at (names_of self.now.declared.now) most)
            (names_of self.now.declared.now) most cursor.old) }
    {
        let place = cursor.place();
        let kind = self.kind(most, cursor)?;
        Ok(Stmt { place, kind })
    }

    // The statements of a block, up to its end.
    #[cycle(block)]
    #[tactic(auto, using(crate::proofs::Repeated::repeats_first, crate::proofs::Repeated::repeats_more, crate::proofs::Repeated::repeats_stop, crate::proofs::Repeated::repeats_all))]
    fn stmts<'b>(&self, most: u32, cursor: &mut Cursor<'b>) -> Result<Vec<Stmt>, ReadRefusal>
        ensures { ReadsTo (λ v. v.items) result cursor.new
            (words_while has_more (stmt_at
            (block_at (names_of self.now.declared.now) most)
            (names_of self.now.declared.now) most) most cursor.old) }
    {
        let mut stmts = Vec::new(self.alloc);
        for _ in 0..most {
            if cursor.next_is(TokenKind::CloseBrace) {
                return Ok(stmts);
            }
            stmts.push(self.stmt(most, cursor)?)?;
        }
        Ok(stmts)
    }

    // A block, where so many words at most are left after the next one.
    #[cycle(block)]
    #[tactic(auto, unfolding(crate::specs::Inner::Blocks::block_at, ps_lines::specs::Steps::and_then))]
    fn next_block<'b>(&self, left: u32, cursor: &mut Cursor<'b>) -> Result<Items<Stmt>, ReadRefusal>
        ensures { ReadsTo (λ x. x) result cursor.new
            (block_at (names_of self.now.declared.now) (suc left) cursor.old) }
    {
        cursor.word(TokenKind::OpenBrace)?;
        let stmts = self.stmts(left, cursor)?;
        cursor.word(TokenKind::CloseBrace)?;
        Ok(Items::from_vec(stmts))
    }

    /// Takes a block.
    #[cycle(block)]
    #[tactic(auto, unfolding(crate::specs::Inner::Blocks::block_at))]
    pub(crate) fn block<'b>(
        &self,
        most: u32,
        cursor: &mut Cursor<'b>,
    ) -> Result<Items<Stmt>, ReadRefusal>
        ensures { ReadsTo (λ x. x) result cursor.new
            (block_at (names_of self.now.declared.now) most cursor.old) }
    {
        if most == 0 {
            return Err(ReadRefusal::Grammar(cursor.place()));
        }
        self.next_block(most - 1, cursor)
    }
}
