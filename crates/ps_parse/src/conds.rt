//! Reading conditions and tests.

ghost use Rattle.std.specs.Prelude.{◌≡◌, ◌+◌, ◌<◌, ◌^◌, suc, [], ◌∷◌, List};
ghost use Rattle.ps_token.specs.declared.token_kind.TokenKind.TheVariants as kind;
ghost use Rattle.ps_tree.specs.declared.cond.Cond.{Cond};
ghost use Rattle.ps_tree.specs.declared.cond.Cond.TheVariants as cond;
ghost use Rattle.ps_parse.specs.Inner.Reading.{ReadsTo, with_front, words_while, next_is, after_word};
ghost use Rattle.ps_grammar.specs.Declarations.{names_of};
ghost use Rattle.ps_parse.specs.Inner.Conds.{one_or_all, conj_with, unary_at, cond_at, test_at, parens_at};

use crate::cursor::Cursor;
use crate::parser::Parser;
use crate::read_refusal::ReadRefusal;
use crate::signs::Signs;
use ps_token::TokenKind;
use ps_tree::{Cond, Test};
use sqlite_items::{Boxed, Items};

// One member is itself, several are an `And`.
fn all_of(mut members: Vec<Cond>) -> Cond
    ensures { (c : Cond) (cs : List Cond) → members.items ≡ c ∷ cs
        → result ≡ one_or_all cond.And c cs }
{
    if members.len() == 1 {
        members.remove(0)
    } else {
        Cond::And(Items::from_vec(members))
    }
}

// One member is itself, several are an `Or`.
fn any_of(mut members: Vec<Cond>) -> Cond
    ensures { (c : Cond) (cs : List Cond) → members.items ≡ c ∷ cs
        → result ≡ one_or_all cond.Or c cs }
{
    if members.len() == 1 {
        members.remove(0)
    } else {
        Cond::Or(Items::from_vec(members))
    }
}

impl<'a> Parser<'a> {
    // A condition without `&&` and `||`, where so many words at most are left after the next one.
    #[cycle(cond)]
    #[tactic(auto, unfolding(crate::specs::Inner::Conds::unary_at, crate::specs::Inner::Conds::cond_at, crate::specs::Inner::Reading::after_word, ps_lines::specs::Steps::and_then))]
    fn next_unary<'b>(&self, left: u32, cursor: &mut Cursor<'b>) -> Result<Cond, ReadRefusal>
        requires { left + 1 < 2 ^ 32 }
        ensures { ReadsTo (λ x. x) result cursor.new
            (unary_at (names_of self.now.declared.now) (suc left) cursor.old) }
    {
        if cursor.next_is(TokenKind::Not) {
            cursor.word(TokenKind::Not)?;
            let negated = self.unary(left, cursor)?;
            return Ok(Cond::Not(Boxed::new(self.alloc, negated)?));
        }
        if cursor.next_is(TokenKind::OpenParen) {
            cursor.word(TokenKind::OpenParen)?;
            let cond = self.cond(left, cursor)?;
            cursor.word(TokenKind::CloseParen)?;
            return Ok(cond);
        }
        let relation = self.relation(Signs::All, left + 1, cursor)?;
        Ok(Cond::Rel(relation))
    }

    // A condition without `&&` and `||`.
    #[cycle(cond)]
    #[tactic(auto, unfolding(crate::specs::Inner::Conds::unary_at))]
    fn unary<'b>(&self, most: u32, cursor: &mut Cursor<'b>) -> Result<Cond, ReadRefusal>
        ensures { ReadsTo (λ x. x) result cursor.new
            (unary_at (names_of self.now.declared.now) most cursor.old) }
    {
        if most == 0 {
            return Err(ReadRefusal::Grammar(cursor.place()));
        }
        self.next_unary(most - 1, cursor)
    }

    // The further members of an `And`, after those that were read.
    #[cycle(cond)]
    #[tactic(auto, using(crate::proofs::Repeated::repeats_none, crate::proofs::Repeated::repeats_more, crate::proofs::Repeated::repeats_stop, crate::proofs::Repeated::repeats_all), unfolding(crate::specs::Inner::Reading::after_word, ps_lines::specs::Steps::and_then))]
    fn further_unaries<'b>(
        &self,
        most: u32,
        mut members: Vec<Cond>,
        cursor: &mut Cursor<'b>,
    ) -> Result<Vec<Cond>, ReadRefusal>
        ensures { ReadsTo (λ v. v.items) result cursor.new
            (with_front members.items
            (words_while (next_is kind.And)
            (after_word kind.And
            (unary_at (names_of self.now.declared.now) most)) most cursor.old)) }
    {
        for _ in 0..most {
            if !cursor.next_is(TokenKind::And) {
                return Ok(members);
            }
            cursor.word(TokenKind::And)?;
            members.push(self.unary(most, cursor)?)?;
        }
        Ok(members)
    }

    // Conditions with `&&` between them.
    #[cycle(cond)]
    #[tactic(auto, unfolding(crate::specs::Inner::Conds::conj_with, crate::specs::Inner::Conds::members_at, ps_lines::specs::Steps::and_then))]
    fn conj<'b>(&self, most: u32, cursor: &mut Cursor<'b>) -> Result<Cond, ReadRefusal>
        ensures { ReadsTo (λ x. x) result cursor.new
            (conj_with (unary_at
            (names_of self.now.declared.now) most) most cursor.old) }
    {
        let first = self.unary(most, cursor)?;
        let mut members = Vec::new(self.alloc);
        members.push(first)?;
        let members = self.further_unaries(most, members, cursor)?;
        Ok(all_of(members))
    }

    // The further members of an `Or`, after those that were read.
    #[cycle(cond)]
    #[tactic(auto, using(crate::proofs::Repeated::repeats_none, crate::proofs::Repeated::repeats_more, crate::proofs::Repeated::repeats_stop, crate::proofs::Repeated::repeats_all), unfolding(crate::specs::Inner::Reading::after_word, ps_lines::specs::Steps::and_then))]
    fn further_conjs<'b>(
        &self,
        most: u32,
        mut members: Vec<Cond>,
        cursor: &mut Cursor<'b>,
    ) -> Result<Vec<Cond>, ReadRefusal>
        ensures { ReadsTo (λ v. v.items) result cursor.new
            (with_front members.items
            (words_while (next_is kind.Or)
            (after_word kind.Or (conj_with
            (unary_at (names_of self.now.declared.now) most) most)) most
            cursor.old)) }
    {
        for _ in 0..most {
            if !cursor.next_is(TokenKind::Or) {
                return Ok(members);
            }
            cursor.word(TokenKind::Or)?;
            members.push(self.conj(most, cursor)?)?;
        }
        Ok(members)
    }

    /// Takes a condition.
    #[cycle(cond)]
    #[tactic(auto, unfolding(crate::specs::Inner::Conds::cond_at, crate::specs::Inner::Conds::cond_with, crate::specs::Inner::Conds::members_at, ps_lines::specs::Steps::and_then))]
    pub(crate) fn cond<'b>(&self, most: u32, cursor: &mut Cursor<'b>) -> Result<Cond, ReadRefusal>
        ensures { ReadsTo (λ x. x) result cursor.new
            (cond_at (names_of self.now.declared.now) most cursor.old) }
    {
        let first = self.conj(most, cursor)?;
        let mut members = Vec::new(self.alloc);
        members.push(first)?;
        let members = self.further_conjs(most, members, cursor)?;
        Ok(any_of(members))
    }

    // What stands in the parentheses after `if` and `while`.
    #[tactic(auto, unfolding(crate::specs::Inner::Conds::test_at, ps_lines::specs::Steps::and_then))]
    fn test<'b>(&self, most: u32, cursor: &mut Cursor<'b>) -> Result<Test, ReadRefusal>
        ensures { ReadsTo (λ x. x) result cursor.new
            (test_at (names_of self.now.declared.now) most cursor.old) }
    {
        if cursor.next_is(TokenKind::Star) {
            cursor.word(TokenKind::Star)?;
            return Ok(Test::Star);
        }
        let cond = self.cond(most, cursor)?;
        Ok(Test::Cond(cond))
    }

    /// Takes a test in its parentheses.
    #[tactic(auto, unfolding(crate::specs::Inner::Conds::parens_at, ps_lines::specs::Steps::and_then))]
    pub(crate) fn parens<'b>(&self, most: u32, cursor: &mut Cursor<'b>) -> Result<Test, ReadRefusal>
        ensures { ReadsTo (λ x. x) result cursor.new
            (parens_at (names_of self.now.declared.now) most cursor.old) }
    {
        cursor.word(TokenKind::OpenParen)?;
        let test = self.test(most, cursor)?;
        cursor.word(TokenKind::CloseParen)?;
        Ok(test)
    }
}
