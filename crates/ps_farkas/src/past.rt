// The fault of a sum that leaves 128 bits.
use thiserror::Error;

/// A product or a partial sum of the weighted rows lies outside `i128`.
#[derive(Clone, Copy, Debug, PartialEq, Eq, Error)]
#[error("a value is past 128 bits")]
pub struct Past128;
