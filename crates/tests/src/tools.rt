//! What several parts use: numbers and kinds of texts, and things that are made of others.
ghost use Rattle.std.specs.Prelude.{◌≡◌, IfOk, Ok};

use invariants::{Kind, Kinds};
use std::alloc::{AllocError, Global};

/// The parts before and after the first such letter; if there is none, all and nothing.
pub fn halves<'a>(words: &'a str, at: char) -> (&'a str, &'a str) {
    words.split_once(at).unwrap_or((words, ""))
}

/// The parts before and after the first such letter; if there is none, nothing.
pub fn parted<'a>(words: &'a str, at: char) -> (&'a str, &'a str) {
    words.split_once(at).unwrap_or(("", ""))
}

/// The number of a text; 0 if it is not a number.
pub fn number(text: &str) -> u32 {
    text.parse().unwrap_or(0)
}

/// The kind of this name.
pub fn kind(name: &str) -> Kind {
    match name {
        "AF" => Kind::AF,
        "NF" => Kind::NF,
        "AP" => Kind::AP,
        _ => Kind::IB,
    }
}

/// Three or four kinds, by their number.
pub fn kinds(number: &str) -> Kinds {
    if number == "4" {
        Kinds::Four
    } else {
        Kinds::Three
    }
}

/// The list of one number: that of a call that fails.
pub fn listed(alloc: Global, number: u64) -> Result<Vec<u64>, AllocError> {
    Ok(vec![in alloc; number]?)
}

/// Both, or out of memory if either ran out. The other one is dropped here, once for all callers.
pub fn both<A: Drop, B: Drop>(
    first: Result<A, AllocError>,
    second: Result<B, AllocError>,
) -> Result<(A, B), AllocError>
    ensures first { IfOk result (λ pair. first ≡ Ok pair.0) }
    ensures second { IfOk result (λ pair. second ≡ Ok pair.1) }
{
    match (first, second) {
        (Ok(first), Ok(second)) => Ok((first, second)),
        _ => Err(AllocError),
    }
}

/// Replaces what was there by what was made.
pub fn put<T: Drop>(place: &mut Option<T>, made: Result<T, AllocError>) -> Result<(), AllocError> {
    *place = Some(made?);
    Ok(())
}

/// Appends what was made to a list.
pub fn push<T: Drop>(list: &mut Vec<T>, made: Result<T, AllocError>) -> Result<(), AllocError> {
    Ok(list.push(made?)?)
}
