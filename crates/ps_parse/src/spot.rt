//! Where a text is refused.

use crate::read_refusal::ReadRefusal;
use ps_token::Place;

/// The first word that has a cause of a refusal: how many words stand before it, its place, and that refusal.
#[derive(Drop)]
pub(crate) struct Spot {
    pub(crate) before: u32,
    pub(crate) place: Place,
    pub(crate) refusal: ReadRefusal,
}
