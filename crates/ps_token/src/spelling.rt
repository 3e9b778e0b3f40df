//! How reserved names and signs are spelled.

ghost use Rattle.std.specs.Prelude.{◌≡◌};
ghost use Rattle.ps_token.specs.Lexing.{spelling};

use crate::token_kind::TokenKind;

impl TokenKind {
    /// The bytes of a reserved name or a sign. Names and numbers have no spelling of their own: no bytes.
    pub fn spelling(self) -> &'static [u8]
        ensures { result.now ≡ spelling self }
    {
        match self {
            TokenKind::Name => b"",
            TokenKind::Number => b"",
            TokenKind::Global => b"global",
            TokenKind::Local => b"local",
            TokenKind::Init => b"init",
            TokenKind::Thread => b"thread",
            TokenKind::Havoc => b"havoc",
            TokenKind::Assume => b"assume",
            TokenKind::Assert => b"assert",
            TokenKind::Skip => b"skip",
            TokenKind::Atomic => b"atomic",
            TokenKind::If => b"if",
            TokenKind::Else => b"else",
            TokenKind::While => b"while",
            TokenKind::Becomes => b":=",
            TokenKind::LessEq => b"<=",
            TokenKind::GreaterEq => b">=",
            TokenKind::EqualEqual => b"==",
            TokenKind::NotEqual => b"!=",
            TokenKind::And => b"&&",
            TokenKind::Or => b"||",
            TokenKind::Less => b"<",
            TokenKind::Greater => b">",
            TokenKind::Not => b"!",
            TokenKind::Equal => b"=",
            TokenKind::Plus => b"+",
            TokenKind::Minus => b"-",
            TokenKind::Star => b"*",
            TokenKind::OpenParen => b"(",
            TokenKind::CloseParen => b")",
            TokenKind::OpenBrace => b"{",
            TokenKind::CloseBrace => b"}",
            TokenKind::Semicolon => b";",
        }
    }
}
