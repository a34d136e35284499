//! Candidates, monitors, lists and texts.

use crate::tools::{halves, kind, kinds, number};
use invariants::{Invariant, Monitor, Seq, Text, candidate, candidate_count, index_of};
use limits::MAX_TYPES;
use std::alloc::{AllocError, Global};

/// The invariant of an argument, for example `AF,0,2`.
pub fn invariant(word: &str) -> Invariant {
    let (name, types) = halves(word, ',');
    let (a, b) = halves(types, ',');
    Invariant {
        kind: kind(name),
        a: a.parse().unwrap_or(0),
        b: b.parse().unwrap_or(0),
    }
}

/// `candidate KINDS TYPES INDEX`: how many candidates there are, the one at the index, and its index.
pub fn at_index(words: &str, out: &mut String) -> Result<(), AllocError> {
    let (number_of_kinds, rest) = halves(words, ' ');
    let (types, index) = halves(rest, ' ');
    let kinds = kinds(number_of_kinds);
    let types = number(types).min(MAX_TYPES);
    let found = candidate(kinds, types, number(index));
    let back = match found {
        Some(inv) => index_of(kinds, types, inv),
        None => None,
    };
    write!(out, "{} {found:?} {back:?}", candidate_count(kinds, types))
}

/// `index KINDS TYPES INVARIANT`
pub fn index(words: &str, out: &mut String) -> Result<(), AllocError> {
    let (number_of_kinds, rest) = halves(words, ' ');
    let (types, inv) = halves(rest, ' ');
    let types = number(types).min(MAX_TYPES);
    let found = index_of(kinds(number_of_kinds), types, invariant(inv));
    write!(out, "{found:?}")
}

/// `monitor INVARIANT TYPE TYPE ..`: the state after each type, and whether the last is bad.
pub fn monitor(words: &str, out: &mut String) -> Result<(), AllocError> {
    let (inv, word) = halves(words, ' ');
    let inv = invariant(inv);
    let mut state = Monitor::start();
    'states: for x in word.split(' ') {
        state = Monitor::step(inv, state, x.parse().unwrap_or(0));
        write!(out, "{state} ")?;
    }
    write!(out, "{}", Monitor::bad(inv, state))
}

/// `seq NUMBER NUMBER ..`
pub fn seq(alloc: Global, words: &str, out: &mut String) -> Result<(), AllocError> {
    let numbers = words.split(' ').filter(|word| !word.is_empty()).map(number);
    let list = Seq::from_vec(numbers.collect(alloc)?);
    let (count, none) = (list.len(), list.is_empty());
    write!(out, "{count} {none} {:?}", list.as_slice())
}

/// `text TEXT`
pub fn text(alloc: Global, word: &str, out: &mut String) -> Result<(), AllocError> {
    let text = Text::from_string(String::from_str(alloc, word)?);
    write!(out, "{} {:?}", text.len(), text.as_str())
}
