//! What a text of lines can lack.

/// What is wrong with a text that isn't of its form.
#[derive(Clone, Copy, Debug, PartialEq, Eq)]
pub enum FormName {
    /// The text ends before the line feed of a line that is due.
    Cut,
    /// A fixed word isn't the one that is due, or something follows the last line.
    Word,
    /// A field isn't of its form.
    Field,
    /// A decimal isn't canonical, or isn't in its range.
    Number,
    /// Members don't strictly ascend, or a coefficient is 0.
    Order,
    /// A field is missing, or is too much.
    Count,
    /// A count, or a list, is above its limit.
    Limit,
}
