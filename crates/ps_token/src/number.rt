//! What the numbers of a program text are worth.

ghost use Rattle.std.specs.Prelude.{◌≡◌, ◌<◌, ◌^◌, pos};
ghost use Rattle.std.specs.Str.Parse.{digits_value};
ghost use Rattle.ps_token.specs.Lexing.{IsNumber};
ghost use Rattle.ps_token.specs.declared.number.TheConstants.{MOST_DIGITS};

use ps_lines::read_digits;

/// The most digits of a number of a program text.
pub const MOST_DIGITS: usize = 18;

/// The value of a number of a program text, which may have leading zeros. Looks at each byte once.
pub fn number_value(digits: &[u8]) -> i128
    requires { IsNumber digits.now }
    ensures value { result ≡ pos (digits_value 10 digits.now) }
    ensures range { digits_value 10 digits.now < 10 ^ MOST_DIGITS }
{
    match read_digits(digits) {
        Some(n) => n as i128,
        None => unreachable!(),
    }
}
