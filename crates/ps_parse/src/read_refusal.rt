//! Why a text is no program.

ghost use Rattle.std.specs.Prelude.{◌≡◌};
ghost use Rattle.ps_parse.specs.declared.read_refusal.ReadRefusal.TheVariants.{Memory};

use ps_token::Place;
use ps_tree::LimitName;
use std::alloc::{AllocError, AllocFailed};
use thiserror::Error;

/// Why no program was read: the first refusal, with its place.
#[derive(Debug, Drop, Error)]
pub enum ReadRefusal {
    /// The byte starts no token.
    #[error("token")]
    Token(Place),
    /// No text of the grammar goes on with this token, or ends here.
    #[error("grammar")]
    Grammar(Place),
    /// The name isn't declared before.
    #[error("unknown name")]
    UnknownName(Place),
    /// The name is declared before.
    #[error("name twice")]
    Twice(Place),
    /// The second name of a product.
    #[error("not linear")]
    NotLinear(Place),
    /// A `while` inside an `atomic`.
    #[error("loop in atomic")]
    LoopInAtomic(Place),
    /// There is more than the limit.
    #[error("limit")]
    Limit(Place, LimitName),
    /// No memory was left.
    #[error("out of memory")]
    Memory(AllocError),
}

impl From<AllocError> for ReadRefusal {
    ghost from_gives = { λ e refusal. refusal ≡ Memory e };

    fn from(e: AllocError) -> ReadRefusal {
        ReadRefusal::Memory(e)
    }
}

impl<T: Drop> From<AllocFailed<T>> for ReadRefusal {
    ghost from_gives = { λ _ refusal. refusal ≡ Memory (record {}) };

    fn from(_e: AllocFailed<T>) -> ReadRefusal {
        ReadRefusal::Memory(AllocError)
    }
}
