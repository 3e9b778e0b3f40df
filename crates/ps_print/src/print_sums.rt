//! Printing sums and relations.

ghost use Rattle.std.specs.Prelude.{◌≡◌, ◌++◌, [], ◌∷◌, OnOk, Some, decimal, unsigned_abs};
ghost use Rattle.ps_print.specs.Canonical.{is_negative, product_of, product_text, products_text, relation_text, sum_text};
ghost use Rattle.ps_print.specs.Printed.{Puts, sign_before};
ghost use Rattle.ps_grammar.specs.Spelling.{Mark, NumberPiece, minus_pieces, product_pieces, relation_pieces, sign_kind, sum_pieces};

use crate::print_words::{put_mark, put_number};
use crate::printer::Printer;
use ps_term::Var;
use ps_token::TokenKind;
use ps_tree::{Relation, Sign, Sum};
use std::alloc::AllocError;

fn kind_of(sign: Sign) -> TokenKind
    ensures { result ≡ sign_kind sign }
{
    match sign {
        Sign::Less => TokenKind::Less,
        Sign::LessEq => TokenKind::LessEq,
        Sign::Greater => TokenKind::Greater,
        Sign::GreaterEq => TokenKind::GreaterEq,
        Sign::Equal => TokenKind::EqualEqual,
        Sign::NotEqual => TokenKind::NotEqual,
    }
}

/// Puts `-` before a number that is negative.
fn put_minus(out: &mut Vec<u8>, number: i128) -> Result<(), AllocError>
    ensures { OnOk result (Puts out.old.items out.new.items (minus_pieces (is_negative number))) }
{
    if number < 0 {
        return put_mark(out, TokenKind::Minus);
    }
    Ok(())
}

/// Puts a number with its sign.
pub(crate) fn put_signed(out: &mut Vec<u8>, number: i128) -> Result<(), AllocError>
    ensures { OnOk result
        (Puts out.old.items out.new.items
        (minus_pieces (is_negative number) ++ NumberPiece (decimal (unsigned_abs number)) ∷ [])) }
{
    put_minus(out, number)?;
    put_number(out, number.unsigned_abs())?;
    Ok(())
}

/// Puts the sign of a product: the first one of a sum has none where it isn't negative.
fn put_sign(out: &mut Vec<u8>, is_first: bool, number: i128) -> Result<(), AllocError>
    ensures { OnOk result
        (Puts out.old.items out.new.items (sign_before is_first (is_negative number))) }
{
    if is_first {
        return put_minus(out, number);
    }
    if number < 0 {
        return put_mark(out, TokenKind::Minus);
    }
    put_mark(out, TokenKind::Plus)?;
    Ok(())
}

impl<'a> Printer<'a> {
    /// Puts a product without its sign.
    fn put_product(
        &self,
        out: &mut Vec<u8>,
        number: i128,
        variable: Option<Var>,
    ) -> Result<(), AllocError>
        ensures { OnOk result
            (Puts out.old.items out.new.items
            (product_pieces (product_of self.now (number, variable)))) }
    {
        let factor = number.unsigned_abs();
        match variable {
            None => put_number(out, factor),
            Some(variable) => self.put_multiple(out, factor, variable),
        }
    }

    /// Puts a variable, after a factor other than 1.
    fn put_multiple(&self, out: &mut Vec<u8>, factor: u128, variable: Var) -> Result<(), AllocError>
        ensures { OnOk result
            (Puts out.old.items out.new.items
            (product_pieces (product_text self.now factor (Some variable)))) }
    {
        if factor == 1 {
            return self.put_variable(out, variable);
        }
        put_number(out, factor)?;
        put_mark(out, TokenKind::Star)?;
        self.put_variable(out, variable)?;
        Ok(())
    }

    /// Puts a product with its sign.
    fn put_term(
        &self,
        out: &mut Vec<u8>,
        is_first: bool,
        product: &(i128, Option<Var>),
    ) -> Result<(), AllocError>
        ensures { OnOk result
            (Puts out.old.items out.new.items
            (sign_before is_first (is_negative product.now.0) ++ product_pieces
            (product_of self.now product.now))) }
    {
        put_sign(out, is_first, product.0)?;
        self.put_product(out, product.0, product.1)?;
        Ok(())
    }

    fn put_products(
        &self,
        out: &mut Vec<u8>,
        products: &[(i128, Option<Var>)],
    ) -> Result<(), AllocError>
        ensures { OnOk result
            (Puts out.old.items out.new.items (sum_pieces (products_text self.now products.now))) }
    {
        if products.is_empty() {
            return put_number(out, 0);
        }
        let mut is_first = true;
        for product in products {
            self.put_term(out, is_first, product)?;
            is_first = false;
        }
        Ok(())
    }

    /// Puts a sum; one without products is 0.
    pub(crate) fn put_sum(&self, out: &mut Vec<u8>, sum: &Sum) -> Result<(), AllocError>
        ensures { OnOk result
            (Puts out.old.items out.new.items (sum_pieces (sum_text self.now sum.now))) }
    {
        self.put_products(out, sum.terms.as_slice())
    }

    /// Puts a relation.
    pub(crate) fn put_relation(
        &self,
        out: &mut Vec<u8>,
        relation: &Relation,
    ) -> Result<(), AllocError>
        ensures { OnOk result
            (Puts out.old.items out.new.items
            (relation_pieces (relation_text self.now relation.now))) }
    {
        self.put_sum(out, &relation.left)?;
        put_mark(out, kind_of(relation.sign))?;
        self.put_sum(out, &relation.right)?;
        Ok(())
    }
}
