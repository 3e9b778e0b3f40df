//! Ends of lists of fields.

ghost use Rattle.std.specs.Prelude.{◌≡◌};

/// Up to where a list of fields goes.
#[derive(Clone, Copy, Debug)]
pub enum Until<'a> {
    /// Up to the end of the line.
    LineEnd,
    /// Up to this word.
    Word(&'a [u8]),
    /// Up to the first field without this byte.
    Lacks(u8),
}

impl<'a> Until<'a> {
    ghost use Rattle.ps_lines.specs.Until.{goes};

    /// Whether the list goes on with this field.
    pub fn passes(&self, field: &[u8]) -> bool
        ensures { result ≡ goes self.now field.now }
    {
        match self {
            Until::LineEnd => true,
            Until::Word(word) => field != *word,
            Until::Lacks(byte) => field.contains(byte),
        }
    }
}
