//! The tokens of a JSON text, one value at a time: skipped values, whole numbers, strings and opening brackets.
ghost use Rattle.std.specs.Prelude.{◌≡◌, ◌<◌, ◌≤◌, ◌^◌, ◌==◌, ◌∷◌, ℕ, true, false, length, slice_index, IsTrue, OnSome, IfSome, OnOk, IfOk, IfErr, MatchResult, Some, None, option_map};
ghost use Rattle.json.specs.Json.{parse_map};
ghost use Rattle.json.specs.Reads.{token_of};
ghost use Rattle.serde_json.specs.Data.{no_members};
ghost use Rattle.serde_json.specs.Find.{as_str};
ghost use Rattle.serde_json.specs.Read.{number_of, number_from, float_of};
ghost use Rattle.model_file.specs.declared.stream.Stop.TheVariants.{NotJson};
ghost use Rattle.model_file.specs.Streams.{after, digits_after, data_at, items_at, members_at, whole_in, whole_from, IsStopped, Answers, Opens};

use fast_float::Numeral;
use json::{Invalid, Reader, Token};

/// Why a text is read no further.
#[derive(Clone, Copy)]
pub(crate) enum Stop {
    /// The text is not JSON.
    NotJson,
    /// Out of memory.
    Memory,
}

impl From<Invalid> for Stop {
    ghost from_gives = { λ _ e. e ≡ NotJson };

    fn from(_: Invalid) -> Stop {
        Stop::NotJson
    }
}

fn has_minus(bytes: &[u8]) -> bool
    ensures value { result ≡ (slice_index bytes.now 0 == 45) }
    ensures len { IsTrue result → 0 < length bytes.now }
{
    !bytes.is_empty() && bytes[0] == b'-'
}

/// A number that is not a whole number of 64 bits. If it is too large for a float, the text is not JSON.
fn float(negative: bool, numeral: &Numeral<'_>) -> Result<Option<u64>, Stop>
    ensures { result ≡ whole_from (float_of negative numeral.now) }
{
    if numeral.to_float::<f64>(negative).is_finite() {
        Ok(None)
    } else {
        Err(Stop::NotJson)
    }
}

#[inline(never)]
fn unsigned(numeral: &Numeral<'_>) -> Result<Option<u64>, Stop>
    ensures { result ≡ whole_from (number_from false numeral.now) }
{
    match numeral.to_u64() {
        Some(n) => Ok(Some(n)),
        None => float(false, numeral),
    }
}

#[inline(never)]
fn negative(numeral: &Numeral<'_>) -> Result<Option<u64>, Stop>
    ensures { result ≡ whole_from (number_from true numeral.now) }
{
    if let Some(n) = numeral.to_i64(true) {
        if n < 0 {
            return Ok(None);
        }
    }
    float(true, numeral)
}

/// The number that at most nine decimal digits write; `None` for anything else.
#[inline(always)]
fn few_digits(bytes: &[u8]) -> Option<u64>
    ensures value { IfSome result (λ n. (digits_after 0 bytes.now ≡ Some n) × (n < 2 ^ 64)) }
    ensures some { OnSome result (0 < length bytes.now) }
{
    if bytes.is_empty() {
        return None;
    }
    let mut n = 0;
    'digits: for byte in bytes {
        if *byte < b'0' || *byte > b'9' || n > 99_999_999 {
            return None;
        }
        n = n * 10 + (*byte - b'0') as u64;
    }
    Some(n)
}

/// The whole number that a number's text writes.
#[inline(always)]
fn whole(text: &str) -> Result<Option<u64>, Stop>
    ensures { result ≡ whole_from (number_of text.now) }
{
    let bytes = text.as_bytes();
    if let Some(n) = few_digits(bytes) {
        return Ok(Some(n));
    }
    if has_minus(bytes) {
        negative(&Numeral::scan(&bytes[1..]))
    } else {
        unsigned(&Numeral::scan(bytes))
    }
}

/// Skips the value that begins with this token, already taken. Arrays and objects may nest `depth` deep.
#[cycle(pass)]
pub(crate) fn pass_rest(
    reader: &mut Reader<'_>,
    token: Token<'_>,
    depth: usize,
) -> Result<(), Invalid>
    ensures value { MatchResult result
        (λ _. after (data_at depth (token_of token.entry ∷ reader.old)) ≡ Some reader.new)
        (λ _. data_at depth (token_of token.entry ∷ reader.old) ≡ None) }
    ensures shorter { OnOk result (length reader.new ≤ length reader.old) }
{
    match token {
        Token::String(_) | Token::Bool(_) | Token::Null => Ok(()),
        Token::Number(text) => match whole(text) {
            Ok(_) => Ok(()),
            Err(_) => Err(Invalid),
        },
        Token::EndObject | Token::EndArray | Token::Key(_) | Token::Bad => Err(Invalid),
        Token::BeginArray => if depth == 0 {
            Err(Invalid)
        } else {
            pass_items(reader, depth - 1)
        },
        Token::BeginObject => if depth == 0 {
            Err(Invalid)
        } else {
            pass_members(reader, depth - 1)
        },
    }
}

/// Skips the next value.
#[cycle(pass)]
pub(crate) fn pass_value(reader: &mut Reader<'_>, depth: usize) -> Result<(), Invalid>
    ensures value { MatchResult result (λ _. after (data_at depth reader.old) ≡ Some reader.new)
        (λ _. data_at depth reader.old ≡ None) }
    ensures shorter { OnOk result (length reader.new < length reader.old) }
{
    let Some(token) = reader.next() else {
        return Err(Invalid);
    };
    pass_rest(reader, token, depth)
}

/// Skips the items up to the bracket that closes an array.
#[cycle(pass)]
#[inline(never)]
pub(crate) fn pass_items(reader: &mut Reader<'_>, depth: usize) -> Result<(), Invalid>
    ensures value { (n : ℕ) → length reader.old ≤ n → MatchResult result
        (λ _. after (items_at n depth reader.old) ≡ Some reader.new)
        (λ _. items_at n depth reader.old ≡ None) }
    ensures shorter { OnOk result (length reader.new < length reader.old) }
{
    'items: while !reader.take_end_array() {
        match pass_value(reader, depth) {
            Ok(()) => {}
            Err(e) => return Err(e),
        }
    }
    Ok(())
}

/// Skips the members up to the brace that closes an object.
#[cycle(pass)]
#[inline(never)]
fn pass_members(reader: &mut Reader<'_>, depth: usize) -> Result<(), Invalid>
    ensures value { MatchResult result
        (λ _. after (members_at no_members depth reader.old) ≡ Some reader.new)
        (λ _. members_at no_members depth reader.old ≡ None) }
    ensures shorter { OnOk result (length reader.new < length reader.old) }
{
    'members: while let Some(_) = reader.next_key()? {
        pass_value(reader, depth)?;
    }
    Ok(())
}

/// The next value, if it is a whole number of 64 bits.
#[inline(always)]
pub(crate) fn number(reader: &mut Reader<'_>, depth: usize) -> Result<Option<u64>, Stop>
    ensures value { Answers result (parse_map whole_in (data_at depth reader.old)) reader.new }
    ensures shorter { OnOk result (length reader.new < length reader.old) }
{
    let Some(token) = reader.next() else {
        return Err(Stop::NotJson);
    };
    if let Token::Number(text) = token {
        return whole(text);
    }
    match pass_rest(reader, token, depth) {
        Ok(()) => Ok(None),
        Err(_) => Err(Stop::NotJson),
    }
}

/// The next value, if it is a string.
pub(crate) fn string<'a>(reader: &mut Reader<'a>, depth: usize) -> Result<Option<&'a str>, Stop>
    ensures ok { IfOk result (λ text. parse_map as_str (data_at depth reader.old)
        ≡ Some (option_map (λ t. t.now) text, reader.new)) }
    ensures err { IfErr result (λ e. IsStopped e (data_at depth reader.old)) }
    ensures shorter { OnOk result (length reader.new < length reader.old) }
{
    let Some(token) = reader.next() else {
        return Err(Stop::NotJson);
    };
    if let Token::String(text) = token {
        return Ok(Some(text));
    }
    match pass_rest(reader, token, depth) {
        Ok(()) => Ok(None),
        Err(_) => Err(Stop::NotJson),
    }
}

/// Takes the bracket that opens an array, or skips a value that is not an array.
pub(crate) fn open(reader: &mut Reader<'_>, depth: usize) -> Result<bool, Stop>
    ensures value { Opens depth result reader.old reader.new }
    ensures shorter { OnOk result (length reader.new < length reader.old) }
{
    let Some(token) = reader.next() else {
        return Err(Stop::NotJson);
    };
    if let Token::BeginArray = token {
        if depth == 0 {
            return Err(Stop::NotJson);
        }
        return Ok(true);
    }
    match pass_rest(reader, token, depth) {
        Ok(()) => Ok(false),
        Err(_) => Err(Stop::NotJson),
    }
}
