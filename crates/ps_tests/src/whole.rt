//! Whole numbers, small ones and those at the ends of the type.
use ps_term::{ceil_div, gcd};
use std::test::Fail;

fn divides_both() -> bool {
    gcd(0, 0) == 0
        && gcd(0, 5) == 5
        && gcd(12, 18) == 6
        && gcd(1 << 127, 1 << 126) == 1 << 126
        && gcd(u128::MAX, 2) == 1
}

fn rounds_halves_up() -> bool {
    ceil_div(7, 2) == 4 && ceil_div(6, 2) == 3 && ceil_div(-7, 2) == -3 && ceil_div(0, 2) == 0
}

fn divides_at_the_ends() -> bool {
    ceil_div(i128::MIN, 1) == i128::MIN
        && ceil_div(i128::MAX, i128::MAX) == 1
        && ceil_div(i128::MIN, i128::MAX) == -1
}

#[test]
fn divides_whole_numbers(rt: HostRuntime) -> Result<(), Fail> {
    assert!(rt; divides_both());
    assert!(rt; rounds_halves_up());
    assert!(rt; divides_at_the_ends());
    Ok(())
}
