//! Reading a program, or its first refusal.

ghost use Rattle.std.specs.Prelude.{◌≡◌, ◌+◌, ◌<◌, ◌^◌, length, IfOk, IfErr, Ok, Err};
ghost use Rattle.ps_token.specs.declared.place.Place.{Place};
ghost use Rattle.ps_token.specs.Lexing.{AreTokens, IsBadAt};
ghost use Rattle.ps_tree.specs.declared.program.Program.{Program};
ghost use Rattle.ps_parse.specs.declared.read_refusal.ReadRefusal.TheVariants as refusal;
ghost use Rattle.ps_parse.specs.Inner.Within.{AreWithin};
ghost use Rattle.ps_parse.specs.Promises.{ReadsWhole};
ghost use Rattle.ps_grammar.specs.Words.{words_of};
ghost use Rattle.ps_parse.specs.Inner.Decided.{AreAnswered};
ghost use Rattle.ps_parse.specs.Inner.Items.{program_at};
ghost use Rattle.ps_parse.specs.Texts.{end_of, uncut, TokenIsBad, GrammarIsFault, RefusalIsInText, RefusalIsFirst};
ghost use Rattle.ps_grammar.specs.Programs.{IsProgram};

use crate::check::first_cause;
use crate::cursor::Cursor;
use crate::deciding::{decided, parsed};
use crate::items::items;
use crate::parser::Parser;
use crate::read_refusal::ReadRefusal;
use ps_token::{Token, TokenEnd, TokenKind, end_place, tokens};
use ps_tree::Program;
use std::alloc::Global;

// The whole text, of at most so many words.
#[tactic(auto, unfolding(crate::specs::Inner::Items::program_at, crate::specs::Inner::Reading::after_word, ps_lines::specs::Steps::and_then))]
fn program<'b>(alloc: Global, most: u32, cursor: &mut Cursor<'b>) -> Result<Program, ReadRefusal>
    ensures { ReadsWhole (λ x. x) result (program_at most cursor.old) }
{
    let declared = items(alloc, most, cursor)?;
    cursor.word(TokenKind::Thread)?;
    let parser = Parser {
        alloc,
        declared: &declared,
    };
    let body = parser.block(most, cursor)?;
    cursor.end()?;
    Ok(declared.into_program(body))
}

// The program of a text that has these tokens.
fn program_of(alloc: Global, bytes: &[u8], list: &[Token]) -> Result<Program, ReadRefusal>
    requires room { length bytes.now + 1 < 2 ^ 32 }
    requires cut { AreTokens bytes.now list.now }
    requires within { AreWithin bytes.now list.now }
    requires few { length list.now < 2 ^ 32 }
    ensures { AreAnswered (words_of bytes.now list.now) (end_of bytes.now) result }
{
    let cursor = Cursor::new(bytes, list, end_place(bytes));
    let spot = first_cause(alloc, list.len() as u32, &mut cursor.fork())?;
    let count = parsed(&spot, list.len());
    let read = program(alloc, count as u32, &mut cursor.front(count));
    decided(spot, read)
}

fn uncut(end: TokenEnd) -> ReadRefusal
    ensures { result ≡ uncut end }
{
    match end {
        TokenEnd::BadToken(place) => ReadRefusal::Token(place),
        TokenEnd::Memory(e) => ReadRefusal::Memory(e),
    }
}

/// The program that the bytes are, or the first refusal: `Token` at a byte that starts no token, wherever it stands, and
/// else the refusal whose place is first in the text. Looks at each byte and each token a few times, and at all declared
/// names for each name; takes memory for the tokens and the program. No token after the first word with a cause is parsed.
pub fn read_program(alloc: Global, bytes: &[u8]) -> Result<Program, ReadRefusal>
    requires { length bytes.now + 1 < 2 ^ 32 }
    // What is read is the tree of a text of the grammar that fits and is spelled by the words of the bytes.
    ensures found { IfOk result (IsProgram bytes.now) }
    // A text of the grammar that fits is read as its tree, unless memory runs out.
    ensures only { (program : Program) → IsProgram bytes.now program
        → ReadsWhole (λ x. x) result (Ok program) }
    // A bad byte goes before all other refusals, and `Token` is said of nothing else.
    ensures bad { (place : Place) → IsBadAt bytes.now place
        → ReadsWhole {A = Program} (λ x. x) result (Err (refusal.Token place)) }
    ensures token { IfErr result (TokenIsBad bytes.now) }
    // `Grammar` stands at the first word, or the end, with which no text of the grammar goes on.
    ensures grammar { IfErr result (GrammarIsFault bytes.now) }
    // No other refusal of the words stands after that place: before each the words go on as some text of the grammar. And
    // none but `NotLinear` stands at it: with the refused word they go on so too.
    ensures in_text { IfErr result (RefusalIsInText bytes.now) }
    // A refusal of the words stands at a word with its cause, as the words before tell it. No cause of a refusal that goes
    // before it holds there, and none at a word before.
    ensures first { IfErr result (RefusalIsFirst bytes.now) }
{
    match tokens(alloc, bytes) {
        Ok(list) => program_of(alloc, bytes, &list),
        Err(end) => Err(uncut(end)),
    }
}
