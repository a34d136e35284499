//! The time that a text gives.
ghost use Rattle.std.specs.Prelude.{◌≡◌, ◌<◌, ◌≤◌, ◌^◌, ◌-◌, IfSome, length, take, true};
ghost use Rattle.std.specs.List.{list_all};
ghost use Rattle.std.specs.Str.Parse.{digits_value};
ghost use Rattle.line_rules.specs.Times.{IsHead, billionths, is_digit, time_of};

/// How many billionths one has.
const BILLION: u128 = 1_000_000_000;

/// How many bytes are tested together.
const TOGETHER: usize = 8;

/// Whether the first `TOGETHER` bytes are digits.
#[inline(always)]
fn begins_with_digits(text: &[u8]) -> bool
    requires { TOGETHER ≤ length text.now }
    ensures { result ≡ list_all is_digit (take TOGETHER text.now) }
{
    // No early exit, so that all bytes are tested at once.
    let mut all = true;
    for place in 0..TOGETHER {
        all = all & text[place].is_ascii_digit();
    }
    all
}

/// The number that the first `TOGETHER` bytes represent. They are digits.
#[inline(always)]
fn first_number(text: &[u8]) -> u64
    requires inside { TOGETHER ≤ length text.now }
    requires digits { list_all is_digit (take TOGETHER text.now) ≡ true }
    ensures { result ≡ digits_value 10 (take TOGETHER text.now) }
{
    let mut number = 0;
    for place in 0..TOGETHER {
        number = number * 10 + u64::from(text[place] - b'0');
    }
    number
}

/// The number that the first digits of the text represent, and how many digits these are: at most `most`. The first `read` bytes
/// are digits, and represent `number`.
#[inline(always)]
fn head_after(text: &[u8], most: usize, number: u64, read: usize) -> (u64, usize)
    requires most { (read ≤ most) × (most ≤ 18) }
    requires inside { read ≤ length text.now }
    requires digits { list_all is_digit (take read text.now) ≡ true }
    requires value { number ≡ digits_value 10 (take read text.now) }
    ensures { IsHead most text.now result.0 result.1 }
{
    let mut number = number;
    for place in read..most {
        if place == text.len() || !text[place].is_ascii_digit() {
            return (number, place);
        }
        number = number * 10 + u64::from(text[place] - b'0');
    }
    (number, most)
}

/// The number that the first digits of the text represent, and how many digits these are: at most 18.
#[inline(always)]
fn whole_head(text: &[u8]) -> (u64, usize)
    ensures { IsHead 18 text.now result.0 result.1 }
{
    if text.len() >= TOGETHER && begins_with_digits(text) {
        return head_after(text, 18, first_number(text), TOGETHER);
    }
    head_after(text, 18, 0, 0)
}

/// How many billionths a one in the last of this many decimal places has.
fn unit(digits: usize) -> u64
    requires { digits ≤ 9 }
    ensures { result ≡ 10 ^ (9 - digits) }
{
    match digits {
        0 => 1_000_000_000,
        1 => 100_000_000,
        2 => 10_000_000,
        3 => 1_000_000,
        4 => 100_000,
        5 => 10_000,
        6 => 1_000,
        7 => 100,
        8 => 10,
        _ => 1,
    }
}

/// The billionths of a fraction of 1 to 9 digits.
fn billionths(fraction: &[u8]) -> Option<u64>
    ensures value { result ≡ billionths fraction.now }
    ensures small { IfSome result (λ part. part < 10 ^ 9) }
{
    let (number, digits) = head_after(fraction, 9, 0, 0);
    if digits == 0 || digits < fraction.len() {
        return None;
    }
    Some(number * unit(digits))
}

/// The time in billionths that the text gives. The text has 1 to 18 ASCII digits, which a point and
/// 1 to 9 ASCII digits may follow. For any other text, None is returned.
pub(crate) fn time_of(text: &str) -> Option<u128>
    ensures { result ≡ time_of text.now }
{
    let bytes = text.as_bytes();
    let (number, digits) = whole_head(bytes);
    if digits == 0 {
        return None;
    }
    let whole = u128::from(number) * BILLION;
    if digits == bytes.len() {
        return Some(whole);
    }
    if bytes[digits] != b'.' {
        return None;
    }
    match billionths(&bytes[digits + 1..]) {
        Some(part) => Some(whole + u128::from(part)),
        None => None,
    }
}
