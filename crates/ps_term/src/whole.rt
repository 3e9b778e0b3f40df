//! Whole-number arithmetic. No call takes memory.
ghost use Rattle.std.specs.Prelude.{◌≡◌, ◌↔◌, ◌≤◌, ◌≤ℤ◌, ◌^◌, pos, neg_ℤ};
ghost use Rattle.std.specs.Int.{IsGcd};
ghost use Rattle.ps_term.specs.Whole.{IsCeiling};

/// The greatest common divisor: it divides both, and every common divisor divides it. It is 0 only for
/// 0 and 0.
pub fn gcd(a: u128, b: u128) -> u128
    ensures greatest { IsGcd a b result }
    ensures zero { (result ≡ 0) ↔ ((a ≡ 0) × (b ≡ 0)) }
{
    let mut greater = a;
    let mut lesser = b;
    'dividing: while lesser != 0 {
        let rest = greater % lesser;
        greater = lesser;
        lesser = rest;
    }
    greater
}

/// The least number whose `b`-fold is at least `a`.
pub fn ceil_div(a: i128, b: i128) -> i128
    requires { pos 1 ≤ℤ b }
    ensures { IsCeiling a b result }
{
    ceil_quotient(a, b as u128)
}

// The same for any divisor of 128 bits.
pub(crate) fn ceil_quotient(a: i128, b: u128) -> i128
    requires { 1 ≤ b }
    ensures { IsCeiling a (pos b) result }
{
    if a > 0 {
        positive_quotient(a, b)
    } else {
        negative(a.unsigned_abs() / b)
    }
}

fn positive_quotient(a: i128, b: u128) -> i128
    requires positive { pos 1 ≤ℤ a }
    requires divisor { 1 ≤ b }
    ensures { IsCeiling a (pos b) result }
{
    a.unsigned_abs().div_ceil(b) as i128
}

// The number with this magnitude that isn't positive.
fn negative(magnitude: u128) -> i128
    requires { magnitude ≤ 2 ^ 127 }
    ensures { result ≡ neg_ℤ (pos magnitude) }
{
    if magnitude == 0 {
        0
    } else {
        -1 - (magnitude - 1) as i128
    }
}
