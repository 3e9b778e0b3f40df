//! Which lists of numbers are within which: a case is `NUMBERS in NUMBERS`.
ghost use Rattle.std.specs.Prelude.{IfOk};
ghost use Rattle.std.specs.List.Sorted.{IsNonDecreasing};

use crate::text::number;
use ps_cover::within;
use std::alloc::{AllocError, Global};
use std::test::Fail;

/// The numbers of the text in ascending order; of `-` there are none.
fn sorted(alloc: Global, text: &str) -> Result<Vec<u32>, AllocError>
    ensures { IfOk result (λ numbers. IsNonDecreasing numbers.items) }
{
    let mut numbers = Vec::new(alloc);
    for word in text.split_whitespace() {
        if word != "-" {
            numbers.push(number(word))?;
        }
    }
    numbers.sort()?;
    Ok(numbers)
}

// Whether in each case the numbers are within the others, or in none.
fn all_are(alloc: Global, cases: &str, are_within: bool) -> Result<bool, AllocError> {
    for case in cases.lines() {
        if is_within(alloc, case)? != Some(are_within) {
            return Ok(false);
        }
    }
    Ok(true)
}

fn is_within(alloc: Global, case: &str) -> Result<Option<bool>, AllocError> {
    let Some((small, large)) = case.split_once(" in ") else {
        return Ok(None);
    };
    let small = sorted(alloc, small)?;
    let large = sorted(alloc, large)?;
    Ok(Some(within(small.as_slice(), large.as_slice())))
}

const WITHIN: &str = "- in -
- in 3
3 in 3
3 in 1 2 3 4
3 3 in 3 3 3
1 4294967295 in 0 1 1 4294967295
0 2 2 5 in 0 1 2 2 2 3 5";

const NOT_WITHIN: &str = "3 in -
3 in 2 4
3 3 in 3
3 3 in 1 3 5
1 2 3 in 1 2
0 2 2 5 in 0 2 5 5
4294967295 in 4294967294";

#[test]
fn counts_numbers(rt: HostRuntime) -> Result<(), Fail> {
    assert!(rt; all_are(rt.alloc(), WITHIN, true)?);
    assert!(rt; all_are(rt.alloc(), NOT_WITHIN, false)?);
    Ok(())
}
