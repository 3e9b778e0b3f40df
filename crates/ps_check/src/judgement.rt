//! What is found of a proof.

use crate::fault::CheckFault;

/// What is found of a proof.
#[derive(Clone, Copy, Debug, PartialEq, Eq)]
pub enum Judgement {
    /// Its entries hold, and its configurations are a closed covering.
    Accepted,
    /// It has this fault, and none before it.
    Refused(CheckFault),
}
