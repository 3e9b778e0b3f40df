//! What stands at the front of a program text: blanks and comments, or a token.

ghost use Rattle.std.specs.Prelude.{◌≡◌, ◌≤◌, ◌<◌, length, slice_index, Some, None};
ghost use Rattle.std.specs.List.{prefix_len};
ghost use Rattle.ps_token.specs.Lexing.{is_blank, is_letter, is_digit, is_name_byte};
ghost use Rattle.ps_token.specs.inner.Scanning.{first_spelled, gap_step, gap_len, word_kind, double_sign, single_sign, sign_token, number_token, token_at};

use crate::number::MOST_DIGITS;
use crate::token_kind::TokenKind;

// The reserved names.
const RESERVED: [TokenKind; 12] = [
    TokenKind::Global,
    TokenKind::Local,
    TokenKind::Init,
    TokenKind::Thread,
    TokenKind::Havoc,
    TokenKind::Assume,
    TokenKind::Assert,
    TokenKind::Skip,
    TokenKind::Atomic,
    TokenKind::If,
    TokenKind::Else,
    TokenKind::While,
];

// The signs of two bytes.
const DOUBLE_SIGNS: [TokenKind; 7] = [
    TokenKind::Becomes,
    TokenKind::LessEq,
    TokenKind::GreaterEq,
    TokenKind::EqualEqual,
    TokenKind::NotEqual,
    TokenKind::And,
    TokenKind::Or,
];

// The signs of one byte.
const SINGLE_SIGNS: [TokenKind; 12] = [
    TokenKind::Less,
    TokenKind::Greater,
    TokenKind::Not,
    TokenKind::Equal,
    TokenKind::Plus,
    TokenKind::Minus,
    TokenKind::Star,
    TokenKind::OpenParen,
    TokenKind::CloseParen,
    TokenKind::OpenBrace,
    TokenKind::CloseBrace,
    TokenKind::Semicolon,
];

fn is_blank(byte: u8) -> bool
    ensures { result ≡ is_blank byte }
{
    byte == b' ' || byte == b'\t' || byte == b'\r' || byte == b'\n'
}

fn is_letter(byte: u8) -> bool
    ensures { result ≡ is_letter byte }
{
    byte.is_ascii_alphabetic() || byte == b'_'
}

fn is_digit(byte: u8) -> bool
    ensures { result ≡ is_digit byte }
{
    byte.is_ascii_digit()
}

fn is_name_byte(byte: u8) -> bool
    ensures { result ≡ is_name_byte byte }
{
    is_letter(byte) || is_digit(byte)
}

// The byte at an index, or 0 past the end.
fn byte_at(bytes: &[u8], at: usize) -> u8
    ensures { result ≡ slice_index bytes.now at }
{
    if at < bytes.len() { bytes[at] } else { 0 }
}

// Whether a gap goes on in a comment after this byte, or none where it has ended before it.
fn gap_step(in_comment: bool, byte: u8, next: u8) -> Option<bool>
    ensures { result ≡ gap_step in_comment byte next }
{
    if in_comment {
        Some(byte != b'\n')
    } else if is_blank(byte) {
        Some(false)
    } else if byte == b'/' && next == b'/' {
        Some(true)
    } else {
        None
    }
}

/// How many bytes of blanks and comments stand at the front.
pub(crate) fn gap_len(bytes: &[u8]) -> usize
    ensures value { result ≡ gap_len bytes.now }
    ensures within { result ≤ length bytes.now }
{
    let mut in_comment = false;
    for (i, byte) in bytes.iter().enumerate() {
        match gap_step(in_comment, *byte, byte_at(bytes, i + 1)) {
            Some(next) => in_comment = next,
            None => return i,
        }
    }
    bytes.len()
}

fn name_len(bytes: &[u8]) -> usize
    ensures value { result ≡ prefix_len is_name_byte bytes.now }
    ensures within { result ≤ length bytes.now }
{
    bytes.iter().take_while(|byte| is_name_byte(**byte)).count()
}

fn digits_len(bytes: &[u8]) -> usize
    ensures value { result ≡ prefix_len is_digit bytes.now }
    ensures within { result ≤ length bytes.now }
{
    bytes.iter().take_while(|byte| is_digit(**byte)).count()
}

// The kind, of these, that is spelled by the bytes.
fn spelled(kinds: &[TokenKind], text: &[u8]) -> Option<TokenKind>
    ensures { result ≡ first_spelled (λ kind. Some kind) None kinds.now text.now }
{
    for kind in kinds {
        if text == kind.spelling() {
            return Some(*kind);
        }
    }
    None
}

fn word_kind(word: &[u8]) -> TokenKind
    ensures { result ≡ word_kind word.now }
{
    match spelled(&RESERVED, word) {
        Some(kind) => kind,
        None => TokenKind::Name,
    }
}

fn double_sign(first: u8, second: u8) -> Option<TokenKind>
    ensures { result ≡ double_sign first second }
{
    spelled(&DOUBLE_SIGNS, &[first, second])
}

fn single_sign(first: u8) -> Option<TokenKind>
    ensures { result ≡ single_sign first }
{
    spelled(&SINGLE_SIGNS, &[first])
}

// The sign at the front, the longer one first, and how many bytes it has.
fn sign_at(first: u8, second: u8) -> Option<(TokenKind, usize)>
    ensures { result ≡ sign_token first second }
{
    match double_sign(first, second) {
        Some(kind) => Some((kind, 2)),
        None => match single_sign(first) {
            Some(kind) => Some((kind, 1)),
            None => None,
        },
    }
}

// A number has no more digits than the most.
fn number_at(digits: usize) -> Option<(TokenKind, usize)>
    ensures { result ≡ number_token digits }
{
    if digits <= MOST_DIGITS {
        Some((TokenKind::Number, digits))
    } else {
        None
    }
}

/// The token at the front, and how many bytes it has. Looks at each of its bytes a few times, and at one byte more.
pub(crate) fn token_at(bytes: &[u8]) -> Option<(TokenKind, usize)>
    requires { 0 < length bytes.now }
    ensures { result ≡ token_at bytes.now }
{
    let first = bytes[0];
    if is_letter(first) {
        let len = name_len(bytes);
        Some((word_kind(&bytes[..len]), len))
    } else if is_digit(first) {
        number_at(digits_len(bytes))
    } else {
        sign_at(first, byte_at(bytes, 1))
    }
}
