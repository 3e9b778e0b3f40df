//! Limits of program texts.

/// What there is too much of.
#[derive(Clone, Copy, Debug, PartialEq, Eq)]
pub enum LimitName {
    Globals,
    Locals,
    Init,
    Depth,
    Alternatives,
    Paths,
    Rows,
    Numbers,
    Locations,
    Edges,
}
