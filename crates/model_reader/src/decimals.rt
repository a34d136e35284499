//! Decimal numbers at the start of bytes.
//!
//! These functions take a slice and return what is left of it. So the slice stays a local variable while digits are read: a
//! field behind a reference would be loaded and stored for each digit.
ghost use Rattle.std.specs.Prelude.{◌≡◌, ◌<◌, ◌≤◌, ◌+◌, ◌∷◌, ◌++◌, IfSome, decimal, length, take};
ghost use Rattle.model_reader.specs.Lists.{list_text};

/// The decimal digit that these bytes begin with, and the bytes after it.
#[inline(always)]
fn digit_and_others(bytes: &[u8]) -> Option<(u32, &[u8])>
    ensures { IfSome result (λ digit. (digit.0 < 10) × (bytes.now ≡ (48 + digit.0) ∷ digit.1.now)) }
{
    let [first, others @ ..] = bytes else {
        return None;
    };
    let digit = first.wrapping_sub(b'0');
    if digit > 9 {
        return None;
    }
    Some((digit as u32, others))
}

/// The number of at most nine digits without leading zeros that these bytes begin with, and the bytes after it.
#[inline(always)]
fn number_and_others(bytes: &[u8]) -> Option<(u32, &[u8])>
    ensures { IfSome result (λ number. bytes.now ≡ decimal number.0 ++ number.1.now) }
{
    let (mut number, mut others) = digit_and_others(bytes)?;
    if number == 0 {
        return Some((0, others));
    }
    'digits: while let Some((digit, fewer)) = digit_and_others(others) {
        if number > 99_999_999 {
            return None;
        }
        number = number * 10 + digit;
        others = fewer;
    }
    Some((number, others))
}

/// The number that these bytes begin with, if the byte `end` comes after it, and the bytes after that.
#[inline(always)]
pub(crate) fn number_before(bytes: &[u8], end: u8) -> Option<(u32, &[u8])>
    ensures { IfSome result (λ number. bytes.now ≡ decimal number.0 ++ end ∷ number.1.now) }
{
    let (number, others) = number_and_others(bytes)?;
    let [next, others @ ..] = others else {
        return None;
    };
    if *next != end {
        return None;
    }
    Some((number, others))
}

/// Reads the numbers of a list, after its opening bracket, to the start of `numbers`. Returns how many there are, and the bytes
/// after the closing bracket. It gives up if there are more than `numbers` has room for.
pub(crate) fn numbers_in_list<'b>(numbers: &mut [u32], bytes: &'b [u8]) -> Option<(usize, &'b [u8])>
    ensures count { IfSome result (λ list. list.0 ≤ length numbers.new) }
    ensures text { IfSome result
        (λ list. 91 ∷ bytes.now ≡ list_text (take list.0 numbers.new) ++ list.1.now) }
{
    if let [b']', others @ ..] = bytes {
        return Some((0, others));
    }
    let mut count = 0;
    let mut rest = bytes;
    'numbers: while count < numbers.len() {
        let (number, others) = number_and_others(rest)?;
        let [next, others @ ..] = others else {
            return None;
        };
        numbers[count] = number;
        count = count + 1;
        if *next == b']' {
            return Some((count, others));
        }
        if *next != b',' {
            return None;
        }
        rest = others;
    }
    None
}
