// The rows of an entry.
ghost use Rattle.std.specs.Prelude.{◌≡◌};
ghost use Rattle.ps_triple.specs.inner.Lent.{all_rows};

use ps_farkas::RowLists;
use ps_term::Row;

// The rows that are made for an entry, and those of the setting that stand between them.
#[derive(Drop)]
pub(crate) struct EntryRows<'a> {
    pub before: Vec<Row>,
    // Rows of the setting, which are lent.
    pub lent: &'a [Row],
    pub after: Vec<Row>,
}

impl<'a> EntryRows<'a> {
    // All of them in order, without memory.
    pub(crate) fn lists(&self) -> RowLists<'_>
        ensures { result ≡ all_rows self.now }
    {
        RowLists::new(self.before.as_slice(), self.lent, self.after.as_slice())
    }
}
