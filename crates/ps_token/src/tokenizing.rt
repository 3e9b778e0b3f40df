//! Cutting a program text into tokens.

ghost use Rattle.std.specs.Prelude.{◌≡◌, ◌+◌, ◌<◌, ◌≤◌, ◌^◌, length, drop, IfOk, IfErr, All};
ghost use Rattle.ps_token.specs.Lexing.{next_place, place_of, AreTokens, IsBadText, IsInside};
ghost use Rattle.ps_token.specs.inner.Scanning.{gap_len, IsFrom};

use crate::place::Place;
use crate::scanning::{gap_len, token_at};
use crate::token::Token;
use crate::token_end::TokenEnd;
use crate::token_kind::TokenKind;
use std::alloc::Global;

// Where a text begins.
const FIRST: Place = Place { line: 1, column: 1 };

// Where the gap that begins at an index ends.
fn gap_end(bytes: &[u8], at: usize) -> usize
    requires { at ≤ length bytes.now }
    ensures value { result ≡ at + gap_len (drop at bytes.now) }
    ensures inside { result ≤ length bytes.now }
{
    let (_, rest) = bytes.split_at(at);
    at + gap_len(rest)
}

// The token that begins at an index, and where it ends.
fn token_from(bytes: &[u8], start: usize) -> Option<(TokenKind, usize)>
    requires { start < length bytes.now }
    ensures { IsFrom bytes.now start result }
{
    let (_, rest) = bytes.split_at(start);
    match token_at(rest) {
        Some((kind, len)) => Some((kind, start + len)),
        None => None,
    }
}

// The place after a byte.
fn next_place(place: Place, byte: u8) -> Place
    requires line { place.line + 1 < 2 ^ 32 }
    requires column { place.column + 1 < 2 ^ 32 }
    ensures { result ≡ next_place place byte }
{
    if byte == b'\n' {
        Place {
            line: place.line + 1,
            column: 1,
        }
    } else {
        Place {
            line: place.line,
            column: place.column + 1,
        }
    }
}

// The place of the byte at `to`, from that of the byte at `from`.
fn place_at(bytes: &[u8], from: usize, to: usize, place: Place) -> Place
    requires ordered { from ≤ to }
    requires inside { to ≤ length bytes.now }
    requires room { length bytes.now + 1 < 2 ^ 32 }
    requires is { place ≡ place_of bytes.now from }
    ensures { result ≡ place_of bytes.now to }
{
    let mut moved = place;
    for byte in &bytes[from..to] {
        moved = next_place(moved, *byte);
    }
    moved
}

/// The place just after the last byte of a text. Looks at each byte once.
pub fn end_place(bytes: &[u8]) -> Place
    requires { length bytes.now + 1 < 2 ^ 32 }
    ensures { result ≡ place_of bytes.now (length bytes.now) }
{
    place_at(bytes, 0, bytes.len(), FIRST)
}

/// Cuts a program text into names, numbers and signs, with their places. Blanks and comments only separate them.
/// `BadToken` stands at the first byte that starts none of these. Looks at each byte a few times, and takes memory for the tokens alone.
pub fn tokens(alloc: Global, bytes: &[u8]) -> Result<Vec<Token>, TokenEnd>
    requires { length bytes.now + 1 < 2 ^ 32 }
    ensures tokens { IfOk result (λ list. AreTokens bytes.now list.items) }
    ensures bad { IfErr result (IsBadText bytes.now) }
    // So each token's bytes can be taken out of the text.
    ensures inside { IfOk result (λ list. All (IsInside (length bytes.now)) list.items) }
{
    let mut list = Vec::new(alloc);
    let mut at = 0;
    let mut place = FIRST;
    'cutting: loop {
        let start = gap_end(bytes, at);
        place = place_at(bytes, at, start, place);
        if start == bytes.len() {
            return Ok(list);
        }
        match token_from(bytes, start) {
            Some((kind, end)) => {
                list.push(Token {
                    kind,
                    start: start as u32,
                    end: end as u32,
                    place,
                })?;
                place = place_at(bytes, start, end, place);
                at = end;
            }
            None => return Err(TokenEnd::BadToken(place)),
        }
    }
}
