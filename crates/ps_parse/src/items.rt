//! Reading declarations.

ghost use Rattle.std.specs.Prelude.{◌≡◌, ℕ, ◌+◌, ◌*◌, ◌<◌, ◌≤◌, ℤ, None, Some, Option, [], ◌∷◌, length, IfOk};
ghost use Rattle.ps_token.specs.declared.token_kind.TokenKind.TheVariants as kind;
ghost use Rattle.ps_tree.specs.declared.relation.Relation.{Relation};
ghost use Rattle.ps_parse.specs.Inner.Reading.{WordsAhead, ReadsTo, with_front, words_while, next_is, after_word};
ghost use Rattle.ps_parse.specs.Inner.Sums.{init_sign_of, relation_at};
ghost use Rattle.ps_parse.specs.Inner.Steps.{declared_value_at, relations_at, rows_then};
ghost use Rattle.ps_parse.specs.Inner.Items.{name_at, signed_number_ahead, declared_value_ahead, rows_counted_on, rows_from, item_rows, global_at, local_at, init_at, item_at, has_item, items_at};
ghost use Rattle.ps_grammar.specs.Declarations.{names_of, rows_of_sign, rows_of_value, nothing_declared};

use crate::cursor::Cursor;
use crate::declared::Declared;
use crate::parser::Parser;
use crate::read_refusal::ReadRefusal;
use crate::signs::Signs;
use ps_token::TokenKind;
use ps_tree::{GlobalDecl, Name, Relation, Sign};
use std::alloc::{AllocError, Global};

// A number, which may have a `-` before it.
#[tactic(auto, unfolding(crate::specs::Inner::Items::signed_number_ahead, crate::specs::Inner::Reading::after_word, ps_lines::specs::Steps::and_then))]
fn number<'b>(cursor: &mut Cursor<'b>) -> Result<i128, ReadRefusal>
    ensures { ReadsTo (λ x. x) result cursor.new (signed_number_ahead cursor.old) }
{
    if !cursor.next_is(TokenKind::Minus) {
        let number = cursor.number()?;
        return Ok(i128::from(number));
    }
    cursor.word(TokenKind::Minus)?;
    let number = cursor.number()?;
    Ok(-i128::from(number))
}

// `=` and a number, or nothing.
#[tactic(auto, unfolding(crate::specs::Inner::Items::declared_value_ahead, crate::specs::Inner::Reading::after_word, ps_lines::specs::Steps::and_then))]
fn value<'b>(cursor: &mut Cursor<'b>) -> Result<Option<i128>, ReadRefusal>
    ensures { ReadsTo (λ x. x) result cursor.new (declared_value_ahead cursor.old) }
{
    if !cursor.next_is(TokenKind::Equal) {
        return Ok(None);
    }
    cursor.word(TokenKind::Equal)?;
    let number = number(cursor)?;
    Ok(Some(number))
}

// A name.
#[tactic(auto, unfolding(ps_lines::specs::Steps::and_then))]
fn name<'b>(alloc: Global, cursor: &mut Cursor<'b>) -> Result<Name, ReadRefusal>
    ensures { ReadsTo (λ x. x) result cursor.new (name_at cursor.old) }
{
    let word = cursor.word(TokenKind::Name)?;
    Ok(Name::from_bytes(Vec::from_slice(alloc, word.text)?))
}

// ---- the rows of an item, whatever names it has

fn rows_of_sign(sign: Sign) -> u64
    ensures is { result ≡ rows_of_sign sign }
    ensures few { result ≤ 2 }
{
    match sign {
        Sign::Equal => 2,
        _ => 1,
    }
}

// How many rows the next relation gives, or none where it isn't whole.
fn next_rows<'a, 'b>(
    parser: &Parser<'a>,
    most: u32,
    cursor: &mut Cursor<'b>,
) -> Result<Option<u64>, AllocError>
    ensures is { IfOk result
        (λ rows. (rest : WordsAhead → ℕ)
        → rows_counted_on (λ (r : Relation). rows_of_sign r.sign) rest
        (relation_at init_sign_of (names_of parser.now.declared.now) most cursor.old)
        ≡ rows_then rows (rest cursor.new)) }
    ensures few { IfOk result (λ rows. rows_then rows 0 ≤ 2) }
{
    match parser.relation(Signs::AtStart, most, cursor) {
        Ok(relation) => Ok(Some(rows_of_sign(relation.sign))),
        Err(ReadRefusal::Memory(e)) => Err(e),
        Err(_) => Ok(None),
    }
}

// How many rows the relations give that are whole.
fn init_rows<'b>(alloc: Global, most: u32, cursor: &mut Cursor<'b>) -> Result<u64, AllocError>
    ensures is { IfOk result (λ rows. rows ≡ rows_from most most cursor.old) }
    ensures few { IfOk result (λ rows. rows ≤ 2 * most) }
{
    let declared = Declared::new(alloc);
    let parser = Parser {
        alloc,
        declared: &declared,
    };
    let mut rows = 0;
    for _ in 0..most {
        match next_rows(&parser, most, cursor)? {
            Some(more) => rows += more,
            None => return Ok(rows),
        }
        if !cursor.passes(TokenKind::And) {
            return Ok(rows);
        }
    }
    Ok(rows)
}

// The value of a global, which stands after its name.
#[tactic(auto, unfolding(crate::specs::Inner::Steps::declared_value_at, crate::specs::Inner::Reading::after_word, ps_lines::specs::Steps::and_then))]
fn declared_value<'b>(cursor: &mut Cursor<'b>) -> Result<Option<i128>, ReadRefusal>
    ensures { ReadsTo (λ x. x) result cursor.new (declared_value_at cursor.old) }
{
    cursor.word(TokenKind::Global)?;
    cursor.word(TokenKind::Name)?;
    value(cursor)
}

// How many rows the value of a global gives.
#[tactic(auto, unfolding(crate::specs::Inner::Steps::declared_value_at))]
fn value_rows<'b>(cursor: &mut Cursor<'b>) -> Result<u64, AllocError>
    ensures is { IfOk result
        (λ rows. rows ≡ rows_counted_on rows_of_value (λ _. 0) (declared_value_at cursor.old)) }
    ensures few { IfOk result (λ rows. rows ≤ 2) }
{
    match declared_value(cursor) {
        Ok(Some(_value)) => Ok(2),
        Ok(None) => Ok(0),
        Err(ReadRefusal::Memory(e)) => Err(e),
        Err(_) => Ok(0),
    }
}

/// How many rows an item gives, as far as it is of the grammar.
#[tactic(auto, unfolding(crate::specs::Inner::Items::item_rows, crate::specs::Inner::Steps::declared_value_at))]
pub(crate) fn item_rows<'b>(
    alloc: Global,
    most: u32,
    cursor: &mut Cursor<'b>,
) -> Result<u64, AllocError>
    ensures is { IfOk result (λ rows. rows ≡ item_rows most cursor.old) }
    ensures few { IfOk result (λ rows. rows ≤ 2 * most + 2) }
{
    if cursor.next_is(TokenKind::Global) {
        return value_rows(cursor);
    }
    if !cursor.next_is(TokenKind::Init) {
        return Ok(0);
    }
    if !cursor.passes(TokenKind::Init) {
        return Ok(0);
    }
    init_rows(alloc, most, cursor)
}

// ---- items

// `global NAME (= number)? ;`
#[tactic(auto, unfolding(crate::specs::Inner::Items::global_at, crate::specs::Inner::Blocks::ended_at, crate::specs::Inner::Reading::after_word, ps_lines::specs::Steps::and_then))]
fn global<'b>(
    alloc: Global,
    declared: Declared,
    cursor: &mut Cursor<'b>,
) -> Result<Declared, ReadRefusal>
    ensures { ReadsTo (λ x. x) result cursor.new (global_at declared cursor.old) }
{
    cursor.word(TokenKind::Global)?;
    let name = name(alloc, cursor)?;
    let value = value(cursor)?;
    cursor.word(TokenKind::Semicolon)?;
    Ok(declared.with_global(GlobalDecl { name, value })?)
}

// `local NAME ;`
#[tactic(auto, unfolding(crate::specs::Inner::Items::local_at, crate::specs::Inner::Blocks::ended_at, crate::specs::Inner::Reading::after_word, ps_lines::specs::Steps::and_then))]
fn local<'b>(
    alloc: Global,
    declared: Declared,
    cursor: &mut Cursor<'b>,
) -> Result<Declared, ReadRefusal>
    ensures { ReadsTo (λ x. x) result cursor.new (local_at declared cursor.old) }
{
    cursor.word(TokenKind::Local)?;
    let name = name(alloc, cursor)?;
    cursor.word(TokenKind::Semicolon)?;
    Ok(declared.with_local(name)?)
}

impl<'a> Parser<'a> {
    // The further relations of an `init` item, after those that were read.
    #[tactic(auto, using(crate::proofs::Repeated::repeats_none, crate::proofs::Repeated::repeats_more, crate::proofs::Repeated::repeats_stop, crate::proofs::Repeated::repeats_all), unfolding(crate::specs::Inner::Reading::after_word, ps_lines::specs::Steps::and_then))]
    fn further_relations<'b>(
        &self,
        most: u32,
        mut relations: Vec<Relation>,
        cursor: &mut Cursor<'b>,
    ) -> Result<Vec<Relation>, ReadRefusal>
        ensures { ReadsTo (λ v. v.items) result cursor.new
            (with_front relations.items
            (words_while (next_is kind.And)
            (after_word kind.And
            (relation_at init_sign_of (names_of self.now.declared.now) most)) most cursor.old)) }
    {
        for _ in 0..most {
            if !cursor.next_is(TokenKind::And) {
                return Ok(relations);
            }
            cursor.word(TokenKind::And)?;
            relations.push(self.relation(Signs::AtStart, most, cursor)?)?;
        }
        Ok(relations)
    }

    // The relations of an `init` item.
    #[tactic(auto, unfolding(crate::specs::Inner::Steps::relations_at, crate::specs::Inner::Blocks::ended_at, crate::specs::Inner::Reading::after_word, ps_lines::specs::Steps::and_then))]
    fn relations<'b>(
        &self,
        most: u32,
        cursor: &mut Cursor<'b>,
    ) -> Result<Vec<Relation>, ReadRefusal>
        ensures { ReadsTo (λ v. v.items) result cursor.new
            (relations_at (names_of self.now.declared.now) most cursor.old) }
    {
        cursor.word(TokenKind::Init)?;
        let first = self.relation(Signs::AtStart, most, cursor)?;
        let mut relations = Vec::new(self.alloc);
        relations.push(first)?;
        let relations = self.further_relations(most, relations, cursor)?;
        cursor.word(TokenKind::Semicolon)?;
        Ok(relations)
    }
}

// `init rel (&& rel)* ;`
#[tactic(auto, unfolding(crate::specs::Inner::Items::init_at, crate::specs::Inner::Steps::relations_at, ps_lines::specs::Steps::and_then))]
fn init<'b>(
    alloc: Global,
    most: u32,
    declared: Declared,
    cursor: &mut Cursor<'b>,
) -> Result<Declared, ReadRefusal>
    ensures { ReadsTo (λ x. x) result cursor.new (init_at declared most cursor.old) }
{
    let parser = Parser {
        alloc,
        declared: &declared,
    };
    let relations = parser.relations(most, cursor)?;
    Ok(declared.with_inits(relations)?)
}

// An item.
#[tactic(auto, unfolding(crate::specs::Inner::Items::item_at))]
fn item<'b>(
    alloc: Global,
    most: u32,
    declared: Declared,
    cursor: &mut Cursor<'b>,
) -> Result<Declared, ReadRefusal>
    ensures { ReadsTo (λ x. x) result cursor.new (item_at declared most cursor.old) }
{
    if cursor.next_is(TokenKind::Global) {
        global(alloc, declared, cursor)
    } else if cursor.next_is(TokenKind::Local) {
        local(alloc, declared, cursor)
    } else {
        init(alloc, most, declared, cursor)
    }
}

// Whether an item follows.
fn has_item<'b>(cursor: &Cursor<'b>) -> bool
    ensures { result ≡ has_item cursor.now }
{
    cursor.next_is(TokenKind::Global)
        || cursor.next_is(TokenKind::Local)
        || cursor.next_is(TokenKind::Init)
}

/// Takes the declarations, as long as there are any.
#[tactic(auto, using(crate::proofs::Declarations::items_more, crate::proofs::Declarations::items_stop, crate::proofs::Declarations::items_all))]
pub(crate) fn items<'b>(
    alloc: Global,
    most: u32,
    cursor: &mut Cursor<'b>,
) -> Result<Declared, ReadRefusal>
    ensures { ReadsTo (λ x. x) result cursor.new (items_at most nothing_declared most cursor.old) }
{
    let mut declared = Declared::new(alloc);
    for _ in 0..most {
        if !has_item(cursor) {
            return Ok(declared);
        }
        declared = item(alloc, most, declared, cursor)?;
    }
    Ok(declared)
}
