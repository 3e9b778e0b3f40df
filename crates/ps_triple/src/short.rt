//! Whether 32 bits can count what an entry is checked over.
ghost use Rattle.std.specs.Prelude.{◌↔◌, ◌<◌, ◌^◌, IsTrue, length};
ghost use Rattle.ps_triple.specs.Short.{AreShort};

use crate::entry::Entry;
use ps_command::Setting;

/// Whether 32 bits can count the rows of initial states and the entry's multipliers, as `check_entry` needs it. In
/// constant time and no memory.
pub fn is_short(setting: &Setting, entry: &Entry) -> bool
    ensures { IsTrue result ↔ AreShort setting.now entry.now }
{
    is_counted(setting.init_once.as_slice())
        && is_counted(setting.init_each.as_slice())
        && is_counted(entry.lambda())
}

// Whether 32 bits can count the members of the list.
fn is_counted<T>(list: &[T]) -> bool
    ensures { IsTrue result ↔ length list.now < 2 ^ 32 }
{
    list.len() <= u32::MAX as usize
}
