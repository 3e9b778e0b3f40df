//! Words of a program text.
use ps_token::{Place, TokenKind};

/// A token with its bytes.
#[derive(Clone, Copy)]
pub(crate) struct Word<'a> {
    pub(crate) kind: TokenKind,
    pub(crate) text: &'a [u8],
    pub(crate) place: Place,
}
