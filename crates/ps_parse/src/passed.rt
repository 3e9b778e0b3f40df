//! What is kept of the words that were passed, to find the cause of a refusal at the next one.

ghost use Rattle.std.specs.Prelude.{◌≡◌, ◌+◌, ◌<◌, ◌^◌, ◌≤◌, IfOk, OnOk, true, false, ◌||◌, ◌&&◌, nat_le, nat_lt, List, [], ◌∷◌, length, map};
ghost use Rattle.ps_token.specs.declared.token_kind.TokenKind.TheVariants as kind;
ghost use Rattle.ps_grammar.specs.Declarations.{most_levels, most_rows};
ghost use Rattle.ps_grammar.specs.Words as words;
ghost use Rattle.ps_parse.specs.Causes.{opens_level};
ghost use Rattle.ps_parse.specs.Inner.Passed.{Blames, IsSpelledWord, MostRows, Tells, added, declares, has_many_globals, has_atomic, has_many_locals, has_name, is_declaring, is_kind_of, multiplies, ones, row_weight};
ghost use Rattle.ps_parse.specs.Inner.Seen.{seen_word};
ghost use Rattle.ps_parse.specs.Kinds.{is_kind};

use crate::cursor::is_kind;
use crate::level::Level;
use crate::levels::{has_atomic, pass_levels};
use crate::read_refusal::ReadRefusal;
use crate::word::Word;
use ps_grammar::{MOST_GLOBALS, MOST_LEVELS, MOST_LOCALS, MOST_ROWS};
use ps_token::{Place, TokenKind};
use ps_tree::LimitName;
use std::alloc::{AllocError, Global};
use std::marker::Model;

/// What is kept of the words that were passed. As long as none of them has a cause of a refusal, at most
/// `MOST_GLOBALS + MOST_LOCALS` names and `MOST_LEVELS` levels are.
#[derive(Drop)]
pub(crate) struct Passed<'a> {
    words: u32,
    nearest: Option<TokenKind>,
    second: Option<TokenKind>,
    globals: u32,
    locals: u32,
    rows: u64,
    names: Vec<&'a [u8]>,
    levels: Vec<Level>,
}

impl<'a> Model for Passed<'a> {
    ghost use Rattle.std.specs.Prelude.{◌≤◌, ◌*◌, map, reverse};
    ghost use Rattle.ps_parse.specs.Inner.Passed.{Tally};

    ghost Value = { Tally };

    ghost view = { λ p. record {
      words = p.words;
      nearest = p.nearest;
      second = p.second;
      globals = p.globals;
      locals = p.locals;
      rows = p.rows;
      names = map (λ n. n.now) p.names.items;
      levels = reverse p.levels.items;
    } };

    ghost invariant = { λ p. (p.globals ≤ p.words) × (p.locals ≤ p.words) × (p.rows ≤ 2 * p.words) };
}

// Whether the kind, if there is one, is this.
fn is_kind_of(kind: Option<TokenKind>, wanted: TokenKind) -> bool
    ensures { result ≡ is_kind_of kind wanted }
{
    match kind {
        Some(kind) => is_kind(kind, wanted),
        None => false,
    }
}

// Whether a word of the kind is a name that is declared.
fn is_declared(nearest: Option<TokenKind>, next: TokenKind) -> bool
    ensures { result ≡ (is_declaring nearest && is_kind next kind.Name) }
{
    (is_kind_of(nearest, TokenKind::Global) || is_kind_of(nearest, TokenKind::Local))
        && is_kind(next, TokenKind::Name)
}

// One where the kind is this.
fn ones(wanted: TokenKind, kind: TokenKind) -> u32
    ensures is { result ≡ ones wanted kind }
    ensures few { result ≤ 1 }
{
    if is_kind(kind, wanted) { 1 } else { 0 }
}

// The rows that a word of the kind stands for.
fn row_weight(kind: TokenKind) -> u64
    ensures is { result ≡ row_weight kind }
    ensures few { result ≤ 2 }
{
    match kind {
        TokenKind::Equal => 2,
        TokenKind::Init | TokenKind::And | TokenKind::EqualEqual => 1,
        _ => 0,
    }
}

fn opens_level(kind: TokenKind) -> bool
    ensures { result ≡ opens_level kind }
{
    is_kind(kind, TokenKind::OpenBrace)
        || is_kind(kind, TokenKind::OpenParen)
        || is_kind(kind, TokenKind::Not)
}

// Whether the name is one of these.
fn has_name(names: &[&[u8]], name: &[u8]) -> bool
    ensures { result ≡ has_name name.now (map (λ n. n.now) names.now) }
{
    for known in names {
        if *known == name {
            return true;
        }
    }
    false
}

// With a name more, where it is wanted.
fn add_name<'a>(names: &mut Vec<&'a [u8]>, wanted: bool, name: &'a [u8]) -> Result<(), AllocError>
    ensures { OnOk result (map (λ n. n.now) names.new.items
        ≡ added wanted (map (λ n. n.now) names.old.items) name.now) }
{
    if !wanted {
        return Ok(());
    }
    names.push(name)?;
    Ok(())
}

impl<'a> Passed<'a> {
    /// Before the first word.
    pub(crate) fn new(alloc: Global) -> Result<Passed<'a>, AllocError>
        ensures { IfOk result (λ p. Tells p []) }
    {
        Ok(Passed {
            words: 0,
            nearest: None,
            second: None,
            globals: 0,
            locals: 0,
            rows: 0,
            names: Vec::with_capacity(alloc, MOST_GLOBALS + MOST_LOCALS)?,
            levels: Vec::with_capacity(alloc, MOST_LEVELS as usize)?,
        })
    }

    /// How many words were passed.
    pub(crate) fn words(&self) -> u32
        ensures { result ≡ self.now.words }
    {
        self.words
    }

    // Whether the next word declares a name.
    fn declares(&self) -> bool
        ensures { result ≡ declares self.now }
    {
        is_kind_of(self.nearest, TokenKind::Global) || is_kind_of(self.nearest, TokenKind::Local)
    }

    // Whether the next word is a factor after a name.
    fn multiplies(&self) -> bool
        ensures { result ≡ multiplies self.now }
    {
        is_kind_of(self.nearest, TokenKind::Star) && is_kind_of(self.second, TokenKind::Name)
    }

    /// Passes the next word.
    pub(crate) fn pass(&mut self, word: Word<'a>) -> Result<(), AllocError>
        requires { self.old.words + 1 < 2 ^ 32 }
        ensures { OnOk result
            ((back : List words.Word) → Tells self.old back → IsSpelledWord (seen_word word.entry)
            → Tells self.new (seen_word word.entry ∷ back)) }
    {
        let wanted = is_declared(self.nearest, word.kind);
        let atomic = is_kind_of(self.nearest, TokenKind::Atomic);
        add_name(&mut self.names, wanted, word.text)?;
        pass_levels(&mut self.levels, atomic, word.kind)?;
        self.words += 1;
        self.second = self.nearest;
        self.nearest = Some(word.kind);
        self.globals += ones(TokenKind::Global, word.kind);
        self.locals += ones(TokenKind::Local, word.kind);
        self.rows += row_weight(word.kind);
        Ok(())
    }

    // Whether the next word declares a global too many.
    fn has_many_globals(&self) -> bool
        ensures { result ≡ has_many_globals self.now }
    {
        is_kind_of(self.nearest, TokenKind::Global) && (MOST_GLOBALS as u32) < self.globals
    }

    // Whether the next word declares a local too many.
    fn has_many_locals(&self) -> bool
        ensures { result ≡ has_many_locals self.now }
    {
        is_kind_of(self.nearest, TokenKind::Local) && (MOST_LOCALS as u32) < self.locals
    }

    // Whether the name is declared.
    fn knows(&self, name: &[u8]) -> bool
        ensures { result ≡ has_name name.now self.now.names }
    {
        has_name(&self.names, name)
    }

    // Whether the next word stands in a block of `atomic`.
    fn is_atomic(&self) -> bool
        ensures { result ≡ has_atomic self.now.levels }
    {
        has_atomic(&self.levels)
    }

    // Whether the next word opens a level too many, if it opens one.
    fn has_many_levels(&self) -> bool
        ensures { result ≡ nat_le most_levels (length self.now.levels) }
    {
        MOST_LEVELS as usize <= self.levels.len()
    }

    // Whether an item that gives so many rows, if it gives any, gives too many.
    fn has_many_rows(&self, rows: u64) -> bool
        requires { self.now.rows + rows < 2 ^ 64 }
        ensures { result ≡ (nat_lt 0 rows && nat_lt most_rows (self.now.rows + rows)) }
    {
        0 < rows && MOST_ROWS < self.rows + rows
    }

    // What refuses a name where one is declared.
    fn new_name_cause(&self, word: Word<'a>) -> Option<ReadRefusal>
        ensures { (back ahead : List words.Word) → Tells self.now back → IsSpelledWord (seen_word word.entry)
            → word.entry.kind ≡ kind.Name → declares self.now ≡ true
            → Blames back (seen_word word.entry) ahead result }
    {
        if self.knows(word.text) {
            return Some(ReadRefusal::Twice(word.place));
        }
        if self.has_many_globals() {
            return Some(ReadRefusal::Limit(word.place, LimitName::Globals));
        }
        if self.has_many_locals() {
            return Some(ReadRefusal::Limit(word.place, LimitName::Locals));
        }
        None
    }

    // What refuses a name.
    fn name_cause(&self, word: Word<'a>) -> Option<ReadRefusal>
        ensures { (back ahead : List words.Word) → Tells self.now back → IsSpelledWord (seen_word word.entry)
            → is_kind word.entry.kind kind.Name ≡ true → Blames back (seen_word word.entry) ahead result }
    {
        if self.multiplies() {
            return Some(ReadRefusal::NotLinear(word.place));
        }
        if self.declares() {
            return self.new_name_cause(word);
        }
        if self.knows(word.text) {
            return None;
        }
        Some(ReadRefusal::UnknownName(word.place))
    }

    // What refuses a `while`.
    fn loop_cause(&self, word: Word<'a>) -> Option<ReadRefusal>
        ensures { (back ahead : List words.Word) → Tells self.now back
            → is_kind word.entry.kind kind.While ≡ true → Blames back (seen_word word.entry) ahead result }
    {
        if self.is_atomic() {
            return Some(ReadRefusal::LoopInAtomic(word.place));
        }
        None
    }

    // What refuses a word that opens a level.
    fn level_cause(&self, word: Word<'a>) -> Option<ReadRefusal>
        ensures { (back ahead : List words.Word) → Tells self.now back
            → opens_level word.entry.kind ≡ true → Blames back (seen_word word.entry) ahead result }
    {
        if self.has_many_levels() {
            return Some(ReadRefusal::Limit(word.place, LimitName::Depth));
        }
        None
    }

    // What refuses another word, with which an item may begin that gives so many rows.
    fn item_cause(&self, word: Word<'a>, rows: u64) -> Option<ReadRefusal>
        requires { self.now.rows + rows < 2 ^ 64 }
        ensures { (back ahead : List words.Word) → Tells self.now back
            → MostRows (seen_word word.entry ∷ ahead) rows
            → (is_kind word.entry.kind kind.Name || is_kind word.entry.kind kind.While
            || opens_level word.entry.kind) ≡ false → Blames back (seen_word word.entry) ahead result }
    {
        if self.has_many_rows(rows) {
            return Some(ReadRefusal::Limit(word.place, LimitName::Init));
        }
        None
    }

    /// What refuses the next word, with which an item may begin that gives so many rows: the first of its causes, if it
    /// has any.
    pub(crate) fn cause(&self, word: Word<'a>, rows: u64) -> Option<ReadRefusal>
        requires { self.now.rows + rows < 2 ^ 64 }
        ensures { (back ahead : List words.Word) → Tells self.now back → IsSpelledWord (seen_word word.entry)
            → MostRows (seen_word word.entry ∷ ahead) rows → Blames back (seen_word word.entry) ahead result }
    {
        if is_kind(word.kind, TokenKind::Name) {
            return self.name_cause(word);
        }
        if is_kind(word.kind, TokenKind::While) {
            return self.loop_cause(word);
        }
        if opens_level(word.kind) {
            return self.level_cause(word);
        }
        self.item_cause(word, rows)
    }
}
