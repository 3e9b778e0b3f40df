//! Why a text has no tokens.

ghost use Rattle.std.specs.Prelude.{◌≡◌};
ghost use Rattle.ps_token.specs.declared.token_end.TokenEnd.TheVariants.{Memory};

use crate::place::Place;
use std::alloc::{AllocError, AllocFailed};
use thiserror::Error;

/// Why a text was not cut into tokens.
#[derive(Debug, Drop, Error)]
pub enum TokenEnd {
    /// The first byte that starts no token.
    #[error("a byte starts no token")]
    BadToken(Place),
    /// No memory was left.
    #[error("out of memory")]
    Memory(AllocError),
}

impl From<AllocError> for TokenEnd {
    ghost from_gives = { λ e end. end ≡ Memory e };

    fn from(e: AllocError) -> TokenEnd {
        TokenEnd::Memory(e)
    }
}

impl<T: Drop> From<AllocFailed<T>> for TokenEnd {
    ghost from_gives = { λ _ end. end ≡ Memory (record {}) };

    fn from(_e: AllocFailed<T>) -> TokenEnd {
        TokenEnd::Memory(AllocError)
    }
}
