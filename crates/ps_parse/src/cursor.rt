//! A place in the words of a program text, from which one word is taken after the other.

ghost use Rattle.std.specs.Prelude.{◌≡◌, ◌≤◌, ℕ, Ok, IfOk, IfSome, length, option_map, take, if◌then◌else◌};
ghost use Rattle.ps_token.specs.declared.token_kind.TokenKind.TheVariants.{Number};
ghost use Rattle.ps_token.specs.Lexing.{IsNumber};
ghost use Rattle.ps_parse.specs.Inner.Reading.{WordsAhead, place_at, next_is, next_word, words_end, IsTaken, ReadsTo};
ghost use Rattle.ps_parse.specs.Kinds.{is_kind};
ghost use Rattle.ps_parse.specs.Promises.{ReadsWhole};
ghost use Rattle.ps_lines.specs.Steps.{and_then};
ghost use Rattle.ps_grammar.specs.Words.{words_of};
ghost use Rattle.ps_parse.specs.Inner.Seen.{seen_word};
ghost use Rattle.ps_parse.specs.Inner.Steps.{passed};
ghost use Rattle.ps_parse.specs.Inner.Within.{AreWithin};
ghost use Rattle.ps_parse.specs.Inner.Passed.{IsSpelledWord};
ghost use Rattle.ps_parse.specs.Inner.Signed.{signs_of};
ghost use Rattle.ps_grammar.specs.Numbers.{number_value};
ghost use Rattle.ps_parse.specs.Inner.Sums.{sign_ahead};

use crate::read_refusal::ReadRefusal;
use crate::signs::Signs;
use crate::word::Word;
use ps_token::{Place, Token, TokenKind, number_value, text_of};
use ps_tree::Sign;
use std::marker::Model;

/// A place in the words of a program text. A call takes no memory.
#[derive(Drop)]
pub(crate) struct Cursor<'a> {
    bytes: &'a [u8],
    tokens: &'a [Token],
    end: Place,
}

impl<'a> Model for Cursor<'a> {
    ghost use Rattle.ps_parse.specs.Inner.Reading.{WordsAhead};
    ghost use Rattle.ps_grammar.specs.Words.{words_of};
    ghost use Rattle.ps_parse.specs.Inner.Within.{AreWithin};

    ghost Value = { WordsAhead };

    ghost view = { λ c. record { words = words_of c.bytes.now c.tokens.now; end = c.end } };

    ghost invariant = { λ c. AreWithin c.bytes.now c.tokens.now };
}

/// Whether the kinds are one.
pub(crate) fn is_kind(kind: TokenKind, wanted: TokenKind) -> bool
    ensures { result ≡ is_kind kind wanted }
{
    kind == wanted
}

impl<'a> Cursor<'a> {
    /// Before the first of the tokens.
    pub(crate) fn new(bytes: &'a [u8], tokens: &'a [Token], end: Place) -> Cursor<'a>
        requires { AreWithin bytes.now tokens.now }
        ensures { result ≡ record { words = words_of bytes.now tokens.now; end = end } }
    {
        Cursor { bytes, tokens, end }
    }

    /// Where the next word stands, or where the text ends.
    pub(crate) fn place(&self) -> Place
        ensures { result ≡ place_at self.now }
    {
        if self.tokens.is_empty() {
            self.end
        } else {
            self.tokens[0].place
        }
    }

    /// Whether the next word is of the kind.
    pub(crate) fn next_is(&self, kind: TokenKind) -> bool
        ensures { result ≡ next_is kind self.now }
    {
        !self.tokens.is_empty() && is_kind(self.tokens[0].kind, kind)
    }

    /// Takes the next word, which is of the kind.
    #[tactic(auto, unfolding(crate::specs::Inner::Reading::next_word))]
    pub(crate) fn word(&mut self, kind: TokenKind) -> Result<Word<'a>, ReadRefusal>
        ensures gives { ReadsTo seen_word result self.new (next_word kind self.old) }
        ensures number { kind ≡ Number → IfOk result (λ word. IsNumber word.text.now) }
    {
        if self.tokens.is_empty() {
            return Err(ReadRefusal::Grammar(self.end));
        }
        let token = self.tokens[0];
        if !is_kind(token.kind, kind) {
            return Err(ReadRefusal::Grammar(token.place));
        }
        let bytes = self.bytes;
        let (_, rest) = self.tokens.split_at(1);
        self.tokens = rest;
        Ok(Word {
            kind: token.kind,
            text: text_of(bytes, token),
            place: token.place,
        })
    }

    /// Takes the next word, which is a number.
    #[tactic(auto, unfolding(ps_lines::specs::Steps::and_then))]
    pub(crate) fn number(&mut self) -> Result<i64, ReadRefusal>
        ensures { ReadsTo (λ n. n) result self.new
            (and_then (next_word Number self.old) (λ w. Ok (number_value w.0.text, w.1))) }
    {
        let word = self.word(TokenKind::Number)?;
        Ok(number_value(word.text) as i64)
    }

    /// Takes the next word, which is a sign.
    #[tactic(auto, unfolding(crate::specs::Inner::Sums::sign_ahead, ps_lines::specs::Steps::and_then))]
    pub(crate) fn sign(&mut self, signs: Signs) -> Result<Sign, ReadRefusal>
        ensures { ReadsTo (λ sign. sign) result self.new (sign_ahead (signs_of signs) self.old) }
    {
        if self.tokens.is_empty() {
            return Err(ReadRefusal::Grammar(self.end));
        }
        let token = self.tokens[0];
        let (_, rest) = self.tokens.split_at(1);
        match signs.sign_of(token.kind) {
            Some(sign) => {
                self.tokens = rest;
                Ok(sign)
            }
            None => Err(ReadRefusal::Grammar(token.place)),
        }
    }

    /// Takes the next word if it is of the kind, and says whether it was.
    #[tactic(auto, unfolding(crate::specs::Inner::Reading::next_word))]
    pub(crate) fn passes(&mut self, kind: TokenKind) -> bool
        ensures { (rest : WordsAhead → ℕ)
            → passed rest (next_word kind self.old) ≡ (if result then rest self.new else 0) }
    {
        if self.tokens.is_empty() {
            return false;
        }
        if !is_kind(self.tokens[0].kind, kind) {
            return false;
        }
        let (_, rest) = self.tokens.split_at(1);
        self.tokens = rest;
        true
    }

    /// The same place once more.
    pub(crate) fn fork(&self) -> Cursor<'a>
        ensures { result ≡ self.now }
    {
        Cursor {
            bytes: self.bytes,
            tokens: self.tokens,
            end: self.end,
        }
    }

    /// The same place, with so many words ahead.
    pub(crate) fn front(&self, count: usize) -> Cursor<'a>
        requires { count ≤ length self.now.words }
        ensures { result ≡ record { words = take count self.now.words; end = self.now.end } }
    {
        let (tokens, _) = self.tokens.split_at(count);
        Cursor {
            bytes: self.bytes,
            tokens,
            end: self.end,
        }
    }

    /// Takes the next word, if there is one.
    pub(crate) fn take(&mut self) -> Option<Word<'a>>
        ensures gives { IsTaken self.old self.new (option_map seen_word result) }
        ensures spelled { IfSome result (λ word. IsSpelledWord (seen_word word)) }
    {
        if self.tokens.is_empty() {
            return None;
        }
        let token = self.tokens[0];
        let bytes = self.bytes;
        let (_, rest) = self.tokens.split_at(1);
        self.tokens = rest;
        Some(Word {
            kind: token.kind,
            text: text_of(bytes, token),
            place: token.place,
        })
    }

    /// Whether the text ends here: `Grammar` at the next word where there is one.
    pub(crate) fn end(&self) -> Result<(), ReadRefusal>
        ensures { ReadsWhole (λ x. x) result (words_end self.now) }
    {
        if self.tokens.is_empty() {
            return Ok(());
        }
        Err(ReadRefusal::Grammar(self.tokens[0].place))
    }
}
