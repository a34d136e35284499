//! The number in a value.
ghost use Rattle.std.specs.Prelude.{◌≡◌, ◌<◌, ◌^◌, true};
ghost use Rattle.std.specs.Str.Parse.{digits_value};
ghost use Rattle.command_line.specs.Numbers.{are_digits, number_of};

use limits::MAX_SESSIONS;

/// The maximum number of digits.
const MAX_DIGITS: usize = 5;

/// Whether the text is 1 to 5 ASCII digits.
fn are_digits(text: &str) -> bool
    ensures { result ≡ are_digits text.now }
{
    if text.is_empty() || text.len() > MAX_DIGITS {
        return false;
    }
    for digit in text.as_bytes() {
        if !digit.is_ascii_digit() {
            return false;
        }
    }
    true
}

/// The number that 1 to 5 digits write.
fn value_of(digits: &str) -> u32
    requires { are_digits digits.now ≡ true }
    ensures value { result ≡ digits_value 10 digits.now }
    ensures small { result < 10 ^ 5 }
{
    let mut number = 0;
    for digit in digits.as_bytes() {
        number = number * 10 + u32::from(*digit - b'0');
    }
    number
}

/// The number in the text: 1 to 5 ASCII digits with a value from 1 to `MAX_SESSIONS`. Leading zeros are allowed. `None` for any
/// other text.
pub fn number_of(text: &str) -> Option<u32>
    ensures { result ≡ number_of text.now }
{
    if !are_digits(text) {
        return None;
    }
    let number = value_of(text);
    if number < 1 || number > MAX_SESSIONS {
        return None;
    }
    Some(number)
}
