//! A failure of the outside.

use thiserror::Error;

/// A source could not read, or a sink could not write. What the device said isn't kept.
#[derive(Clone, Copy, Debug, PartialEq, Eq, Error)]
#[error("a failure of the outside")]
pub struct Fault;
