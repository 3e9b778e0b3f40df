//! Tokens of a program text.

ghost use Rattle.std.specs.Prelude.{◌≡◌, ◌≤◌, length, slice_range};

use crate::place::Place;
use crate::token_kind::TokenKind;

/// A token: the bytes of the text from `start` to before `end`, and the place of the first of them.
#[derive(Clone, Copy, Debug, PartialEq, Eq)]
pub struct Token {
    pub kind: TokenKind,
    pub start: u32,
    pub end: u32,
    pub place: Place,
}

/// The bytes of a token of this text, in constant time.
pub fn text_of(bytes: &[u8], token: Token) -> &[u8]
    requires ordered { token.start ≤ token.end }
    requires inside { token.end ≤ length bytes.now }
    ensures { result.now ≡ slice_range bytes.now token.start token.end }
{
    &bytes[token.start as usize..token.end as usize]
}
