// What the rows of a stage leave to its variable.

// The number that the walk takes, or why it takes none.
#[derive(Clone, Copy, Debug)]
pub(crate) enum Finding {
    Value(i128),
    // The bounds allow no number.
    Nothing { lower: i128, upper: i128 },
    // A product, a sum or a bound lies outside `i128`.
    Past128,
}
