// The numbers of threads, one after another.
ghost use Rattle.std.specs.Prelude.{◌≡◌, ◌==◌};
ghost use Rattle.ps_trace_text.specs.WitnessReading.{due_thread, next_thread};

use ps_text::{FormName, Leaf, Natural32};

// A field with the number of the thread after the one before.
pub(crate) struct DueThread;

impl Leaf for DueThread {
    type Value = u32;

    ghost reading = { due_thread };

    fn read(before: Option<u32>, field: &[u8]) -> Result<u32, FormName>
        ensures { result ≡ due_thread before field.now }
    {
        match <Natural32 as Leaf>::read(None, field) {
            Ok(number) => {
                if is_due(before, number) {
                    Ok(number)
                } else {
                    Err(FormName::Number)
                }
            }
            Err(what) => Err(what),
        }
    }
}

// Whether the number is that of the thread after the one before.
fn is_due(before: Option<u32>, number: u32) -> bool
    ensures { result ≡ (number == next_thread before) }
{
    match before {
        Some(last) => number > 0 && number - 1 == last,
        None => number == 0,
    }
}
