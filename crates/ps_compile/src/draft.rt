// Edges whose commands have no numbers yet.

use crate::route::Route;

// An edge whose command has no number yet.
#[derive(Drop)]
pub(crate) struct Draft {
    pub(crate) source: usize,
    pub(crate) target: usize,
    pub(crate) route: Route,
}
