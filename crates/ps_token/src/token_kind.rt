//! What the tokens of a program text are.

/// A name, a number, a reserved name or a sign.
#[derive(Clone, Copy, Debug, PartialEq, Eq)]
pub enum TokenKind {
    Name,
    Number,
    /// `global`
    Global,
    /// `local`
    Local,
    /// `init`
    Init,
    /// `thread`
    Thread,
    /// `havoc`
    Havoc,
    /// `assume`
    Assume,
    /// `assert`
    Assert,
    /// `skip`
    Skip,
    /// `atomic`
    Atomic,
    /// `if`
    If,
    /// `else`
    Else,
    /// `while`
    While,
    /// `:=`
    Becomes,
    /// `<=`
    LessEq,
    /// `>=`
    GreaterEq,
    /// `==`
    EqualEqual,
    /// `!=`
    NotEqual,
    /// `&&`
    And,
    /// `||`
    Or,
    /// `<`
    Less,
    /// `>`
    Greater,
    /// `!`
    Not,
    /// `=`
    Equal,
    /// `+`
    Plus,
    /// `-`
    Minus,
    /// `*`
    Star,
    /// `(`
    OpenParen,
    /// `)`
    CloseParen,
    /// `{`
    OpenBrace,
    /// `}`
    CloseBrace,
    /// `;`
    Semicolon,
}
