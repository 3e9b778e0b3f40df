//! Whether numbers are among others.
ghost use Rattle.std.specs.Prelude.{◌≡◌, ◌↔◌, ◌≤◌, IsTrue, length};
ghost use Rattle.std.specs.List.Sorted.{IsNonDecreasing};
ghost use Rattle.ps_cover.specs.Within.{IsWithinList};
ghost use Rattle.ps_cover.specs.inner.Parts.{IsFoundMore, is_sublist};

/// Whether each number stands in the first list at most as often as in the second, where both ascend,
/// in one pass over both. It takes no memory.
pub fn within(small: &[u32], large: &[u32]) -> bool
    requires small { IsNonDecreasing small.now }
    requires large { IsNonDecreasing large.now }
    ensures { IsTrue result ↔ IsWithinList small.now large.now }
{
    is_found_in(small, large)
}

/// Whether the first list is left where some numbers are taken out of the second.
fn is_found_in(small: &[u32], large: &[u32]) -> bool
    ensures { result ≡ is_sublist small.now large.now }
{
    let mut done = 0;
    for number in large {
        done = found_more(small, done, *number);
    }
    done == small.len()
}

/// How many of the numbers are found with one more number.
fn found_more(small: &[u32], done: usize, number: u32) -> usize
    requires { done ≤ length small.now }
    ensures { IsFoundMore small.now done number result }
{
    if done < small.len() && small[done] == number {
        done + 1
    } else {
        done
    }
}
