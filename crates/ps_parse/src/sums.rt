//! Reading sums and relations.

ghost use Rattle.std.specs.Prelude.{◌≡◌, ℤ, neg_ℤ, [], ◌∷◌, Option, Some, None, ◌≤ℤ◌, ◌<ℤ◌, pos};
ghost use Rattle.ps_term.specs.declared.var.Var.{Var};
ghost use Rattle.ps_token.specs.declared.token_kind.TokenKind.TheVariants as kind;
ghost use Rattle.ps_parse.specs.Inner.Reading.{ReadsTo, with_front, words_while, next_is};
ghost use Rattle.ps_parse.specs.Inner.Variables.{variable_at};
ghost use Rattle.ps_grammar.specs.Declarations.{names_of};
ghost use Rattle.ps_parse.specs.Inner.Signed.{signs_of};
ghost use Rattle.ps_parse.specs.Inner.Sums.{number_product_at, name_product_at, product_at, first_product_at, further_product_at, adds, sum_at, sign_ahead, sign_of, relation_at};
ghost use Rattle.ps_grammar.specs.Numbers.{signed};

use crate::cursor::Cursor;
use crate::parser::Parser;
use crate::read_refusal::ReadRefusal;
use crate::signs::Signs;
use ps_term::Var;
use ps_token::TokenKind;
use ps_tree::{Relation, Sign, Sum};
use sqlite_items::Items;

// Whether a sum goes on.
fn adds<'b>(cursor: &Cursor<'b>) -> bool
    ensures { result ≡ adds cursor.now }
{
    cursor.next_is(TokenKind::Plus) || cursor.next_is(TokenKind::Minus)
}

impl<'a> Parser<'a> {
    /// Takes a name, which stands for a variable.
    #[tactic(auto, unfolding(crate::specs::Inner::Variables::variable_at, ps_lines::specs::Steps::and_then))]
    pub(crate) fn variable<'b>(&self, cursor: &mut Cursor<'b>) -> Result<Var, ReadRefusal>
        ensures { ReadsTo (λ x. x) result cursor.new
            (variable_at (names_of self.now.declared.now) cursor.old) }
    {
        let name = cursor.word(TokenKind::Name)?;
        Ok(self.declared.variable(name.text))
    }

    // A number, and the name that follows it and `*`.
    #[tactic(auto, unfolding(crate::specs::Inner::Sums::number_product_at, crate::specs::Inner::Reading::after_word, ps_lines::specs::Steps::and_then))]
    fn number_product<'b>(&self, cursor: &mut Cursor<'b>) -> Result<(i64, Option<Var>), ReadRefusal>
        ensures { ReadsTo (λ x. x) result cursor.new
            (number_product_at (names_of self.now.declared.now) cursor.old) }
    {
        let number = cursor.number()?;
        if !cursor.next_is(TokenKind::Star) {
            return Ok((number, None));
        }
        cursor.word(TokenKind::Star)?;
        let variable = self.variable(cursor)?;
        Ok((number, Some(variable)))
    }

    // A name, and the number that follows it and `*`.
    #[tactic(auto, unfolding(crate::specs::Inner::Sums::name_product_at, crate::specs::Inner::Sums::factor_at, crate::specs::Inner::Reading::after_word, ps_lines::specs::Steps::and_then))]
    fn name_product<'b>(&self, cursor: &mut Cursor<'b>) -> Result<(i64, Option<Var>), ReadRefusal>
        ensures { ReadsTo (λ x. x) result cursor.new
            (name_product_at (names_of self.now.declared.now) cursor.old) }
    {
        let variable = self.variable(cursor)?;
        if !cursor.next_is(TokenKind::Star) {
            return Ok((1, Some(variable)));
        }
        cursor.word(TokenKind::Star)?;
        let number = cursor.number()?;
        Ok((number, Some(variable)))
    }

    #[tactic(auto, unfolding(crate::specs::Inner::Sums::product_at))]
    fn product<'b>(&self, cursor: &mut Cursor<'b>) -> Result<(i64, Option<Var>), ReadRefusal>
        ensures { ReadsTo (λ x. x) result cursor.new
            (product_at (names_of self.now.declared.now) cursor.old) }
    {
        if cursor.next_is(TokenKind::Number) {
            self.number_product(cursor)
        } else {
            self.name_product(cursor)
        }
    }

    // The first product of a sum, which may have a `-` before it.
    #[tactic(auto, unfolding(crate::specs::Inner::Sums::first_product_at, crate::specs::Inner::Reading::after_word, ps_lines::specs::Steps::and_then))]
    fn first_product<'b>(&self, cursor: &mut Cursor<'b>) -> Result<(i128, Option<Var>), ReadRefusal>
        ensures { ReadsTo (λ x. x) result cursor.new
            (first_product_at (names_of self.now.declared.now) cursor.old) }
    {
        if !cursor.next_is(TokenKind::Minus) {
            let (number, variable) = self.product(cursor)?;
            return Ok((i128::from(number), variable));
        }
        cursor.word(TokenKind::Minus)?;
        let (number, variable) = self.product(cursor)?;
        Ok((-i128::from(number), variable))
    }

    // A further product with its `+` or `-`.
    #[tactic(auto, unfolding(crate::specs::Inner::Sums::further_product_at, crate::specs::Inner::Reading::after_word, ps_lines::specs::Steps::and_then))]
    fn further_product<'b>(
        &self,
        cursor: &mut Cursor<'b>,
    ) -> Result<(i128, Option<Var>), ReadRefusal>
        ensures { ReadsTo (λ x. x) result cursor.new
            (further_product_at (names_of self.now.declared.now) cursor.old) }
    {
        if cursor.next_is(TokenKind::Plus) {
            cursor.word(TokenKind::Plus)?;
            let (number, variable) = self.product(cursor)?;
            return Ok((i128::from(number), variable));
        }
        cursor.word(TokenKind::Minus)?;
        let (subtracted, variable) = self.product(cursor)?;
        Ok((-i128::from(subtracted), variable))
    }

    // The further products, after those that were read.
    #[tactic(auto, using(crate::proofs::Repeated::repeats_none, crate::proofs::Repeated::repeats_more, crate::proofs::Repeated::repeats_stop, crate::proofs::Repeated::repeats_all))]
    fn further_products<'b>(
        &self,
        most: u32,
        mut terms: Vec<(i128, Option<Var>)>,
        cursor: &mut Cursor<'b>,
    ) -> Result<Vec<(i128, Option<Var>)>, ReadRefusal>
        ensures { ReadsTo (λ v. v.items) result cursor.new
            (with_front terms.items
            (words_while adds (further_product_at
            (names_of self.now.declared.now)) most cursor.old)) }
    {
        for _ in 0..most {
            if !adds(cursor) {
                return Ok(terms);
            }
            terms.push(self.further_product(cursor)?)?;
        }
        Ok(terms)
    }

    /// Takes a sum.
    #[tactic(auto, unfolding(crate::specs::Inner::Sums::sum_at, ps_lines::specs::Steps::and_then))]
    pub(crate) fn sum<'b>(&self, most: u32, cursor: &mut Cursor<'b>) -> Result<Sum, ReadRefusal>
        ensures { ReadsTo (λ x. x) result cursor.new
            (sum_at (names_of self.now.declared.now) most cursor.old) }
    {
        let first = self.first_product(cursor)?;
        let mut terms = Vec::new(self.alloc);
        terms.push(first)?;
        let terms = self.further_products(most, terms, cursor)?;
        Ok(Sum {
            terms: Items::from_vec(terms),
        })
    }

    /// Takes a relation.
    #[tactic(auto, unfolding(crate::specs::Inner::Sums::relation_at, ps_lines::specs::Steps::and_then))]
    pub(crate) fn relation<'b>(
        &self,
        signs: Signs,
        most: u32,
        cursor: &mut Cursor<'b>,
    ) -> Result<Relation, ReadRefusal>
        ensures { ReadsTo (λ x. x) result cursor.new
            (relation_at (signs_of signs) (names_of self.now.declared.now) most cursor.old) }
    {
        let left = self.sum(most, cursor)?;
        let sign = cursor.sign(signs)?;
        let right = self.sum(most, cursor)?;
        Ok(Relation { left, sign, right })
    }
}
