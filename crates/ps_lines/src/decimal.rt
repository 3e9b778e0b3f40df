//! Canonical decimals: `0`, or digits without a leading zero, with `-` before a negative number.

ghost use Rattle.std.specs.Prelude.{◌≡◌, ◌≢◌, ℕ, ◌<◌, ◌^◌, ℤ, MatchOption, drop};
ghost use Rattle.std.specs.Prelude.{FitsSigned, length, ◌+◌, ◌*◌, Bool, true, nat_lt, Some, None, if◌then◌else◌, pos};
ghost use Rattle.std.specs.Option.{SomeIff};
ghost use Rattle.std.specs.Str.Parse.{digits_value};
ghost use Rattle.std.specs.Int.{w128};
ghost use Rattle.ps_lines.specs.Decimal.{IsDecimal, IsSignedDecimal, are_digits, is_run, counts_as_decimal, u128_of, u32_of, i128_of, narrow, positive_of, negative_of};
ghost use Rattle.ps_lines.specs.inner.Digits.{begins_canonical, decimal_fault, value_below, value_from, value_with};
ghost use Rattle.ps_lines.specs.Reading.{natural32, natural, integer, count};

use crate::form_name::FormName;

// The most digits of which every number is below 2 ^ 64.
const MOST_SHORT: usize = 19;

fn are_digits(bytes: &[u8]) -> bool
    ensures { result ≡ are_digits bytes.now }
{
    for byte in bytes {
        if *byte < b'0' || *byte > b'9' {
            return false;
        }
    }
    true
}

fn is_run(bytes: &[u8]) -> bool
    ensures { result ≡ is_run bytes.now }
{
    !bytes.is_empty() && are_digits(bytes)
}

// Whether a decimal that begins so is canonical, if it is one.
fn begins_canonical(field: &[u8]) -> bool
    ensures { result ≡ begins_canonical field.now }
{
    !field.is_empty() && (field[0] != b'0' || field.len() == 1)
}

/// Whether the field is a run of digits, with or without `-` before it.
pub fn counts_as_decimal(field: &[u8]) -> bool
    ensures { result ≡ counts_as_decimal field.now }
{
    match field {
        [b'-', digits @ ..] => is_run(digits),
        _ => is_run(field),
    }
}

// The value with one digit more at its end, below 2 ^ 64.
fn push_digit64(value: u64, byte: u8) -> Option<u64>
    ensures { result ≡ value_with (2 ^ 64) value byte }
{
    if byte < b'0' || byte > b'9' {
        return None;
    }
    value.checked_mul(10)?.checked_add(u64::from(byte - b'0'))
}

// The value with one digit more at its end, below 2 ^ 128.
fn push_digit128(value: u128, byte: u8) -> Option<u128>
    ensures { result ≡ value_with (2 ^ 128) value byte }
{
    if byte < b'0' || byte > b'9' {
        return None;
    }
    value.checked_mul(10)?.checked_add(u128::from(byte - b'0'))
}

fn value64(bytes: &[u8]) -> Option<u64>
    ensures { result ≡ value_from (2 ^ 64) 0 bytes.now }
{
    let mut value: u64 = 0;
    for byte in bytes {
        match push_digit64(value, *byte) {
            Some(next) => value = next,
            None => return None,
        }
    }
    Some(value)
}

fn value128(bytes: &[u8]) -> Option<u128>
    ensures { result ≡ value_from (2 ^ 128) 0 bytes.now }
{
    let mut value: u128 = 0;
    for byte in bytes {
        match push_digit128(value, *byte) {
            Some(next) => value = next,
            None => return None,
        }
    }
    Some(value)
}

// The value of digits, in the arithmetic of 64 bits where it has so few of them.
fn value_of(bytes: &[u8]) -> Option<u128>
    ensures { result ≡ value_below (2 ^ 128) bytes.now }
{
    if bytes.len() > MOST_SHORT {
        return value128(bytes);
    }
    match value64(bytes) {
        Some(n) => Some(u128::from(n)),
        None => value128(bytes),
    }
}

/// The value of a run of digits, which may have leading zeros, or none past 128 bits. Looks at each byte once or twice.
pub fn read_digits(digits: &[u8]) -> Option<u128>
    requires { are_digits digits.now ≡ true }
    ensures { result ≡ (if nat_lt (digits_value 10 digits.now) (2 ^ 128) then Some
        (digits_value 10 digits.now) else None) }
{
    value_of(digits)
}

fn number_of(field: &[u8]) -> Option<u128>
    ensures { result ≡ u128_of field.now }
{
    if begins_canonical(field) {
        value_of(field)
    } else {
        None
    }
}

/// The number of which the field is the canonical decimal. Looks at each byte at most twice.
pub fn read_u128(field: &[u8]) -> Option<u128>
    ensures canonical { MatchOption result ((n : ℕ) → n < 2 ^ 128 → IsDecimal field.now n → ⊥)
        (λ n. (n < 2 ^ 128) × IsDecimal field.now n) }
    ensures function { result ≡ u128_of field.now }
{
    number_of(field)
}

fn narrow(n: u64) -> Option<u32>
    ensures { result ≡ narrow n }
{
    if n < 1 << 32 { Some(n as u32) } else { None }
}

fn short_number_of(field: &[u8]) -> Option<u32>
    ensures { result ≡ u32_of field.now }
{
    if !begins_canonical(field) {
        return None;
    }
    match value64(field) {
        Some(n) => narrow(n),
        None => None,
    }
}

/// The number below 2 ^ 32 of which the field is the canonical decimal. Looks at each byte at most twice.
pub fn read_u32(field: &[u8]) -> Option<u32>
    ensures canonical { MatchOption result ((n : ℕ) → n < 2 ^ 32 → IsDecimal field.now n → ⊥)
        (λ n. (n < 2 ^ 32) × IsDecimal field.now n) }
    ensures function { result ≡ u32_of field.now }
{
    short_number_of(field)
}

fn positive_of(n: u128) -> Option<i128>
    ensures { result ≡ positive_of n }
{
    if n < 1 << 127 { Some(n as i128) } else { None }
}

fn negative_of(n: u128) -> Option<i128>
    ensures { result ≡ negative_of n }
{
    if n == 0 {
        None
    } else if n < 1 << 127 {
        Some(-(n as i128))
    } else if n == 1 << 127 {
        Some(i128::MIN)
    } else {
        None
    }
}

fn signed_number_of(field: &[u8]) -> Option<i128>
    ensures { result ≡ i128_of field.now }
{
    match field {
        [b'-', digits @ ..] => match number_of(digits) {
            Some(n) => negative_of(n),
            None => None,
        },
        _ => match number_of(field) {
            Some(n) => positive_of(n),
            None => None,
        },
    }
}

/// The signed number of which the field is the canonical decimal. Looks at each byte at most twice.
pub fn read_i128(field: &[u8]) -> Option<i128>
    ensures canonical { MatchOption result ((z : ℤ) → FitsSigned w128 z
        → IsSignedDecimal field.now z → ⊥) (λ z. FitsSigned w128 z × IsSignedDecimal field.now z) }
    ensures function { result ≡ i128_of field.now }
{
    signed_number_of(field)
}

// What is wrong with a field that isn't a decimal of its type.
fn decimal_fault(field: &[u8]) -> FormName
    ensures { result ≡ decimal_fault field.now }
{
    if counts_as_decimal(field) {
        FormName::Number
    } else {
        FormName::Field
    }
}

/// A field of a form that is a decimal of 32 bits.
pub fn natural32(field: &[u8]) -> Result<u32, FormName>
    ensures { result ≡ natural32 field.now }
{
    match read_u32(field) {
        Some(n) => Ok(n),
        None => Err(decimal_fault(field)),
    }
}

/// A field of a form that is a decimal of 128 bits.
pub fn natural(field: &[u8]) -> Result<u128, FormName>
    ensures { result ≡ natural field.now }
{
    match read_u128(field) {
        Some(n) => Ok(n),
        None => Err(decimal_fault(field)),
    }
}

/// A field of a form that is a signed decimal of 128 bits.
pub fn integer(field: &[u8]) -> Result<i128, FormName>
    ensures { result ≡ integer field.now }
{
    match read_i128(field) {
        Some(n) => Ok(n),
        None => Err(decimal_fault(field)),
    }
}

/// A field of a form that is a stated count, at most its limit.
pub fn count(limit: u32, field: &[u8]) -> Result<u32, FormName>
    ensures { result ≡ count limit field.now }
{
    match natural32(field) {
        Ok(n) => {
            if n <= limit {
                Ok(n)
            } else {
                Err(FormName::Limit)
            }
        }
        Err(what) => Err(what),
    }
}
