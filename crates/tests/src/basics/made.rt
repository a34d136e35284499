//! Logs that are made.

use crate::basics::words::{checksum, text};
use crate::tools::{halves, number};
use limits::MAX_SESSIONS;
use load_maker::make_log;
use std::alloc::{AllocError, Global};

/// Appends the number of lines, some bytes at both ends, and the checksum of all bytes to the text.
fn put_ends(out: &mut String, bytes: &[u8], some: usize) -> Result<(), AllocError> {
    let lines = bytes.iter().filter(|byte| **byte == 10).count();
    let some = some.min(bytes.len());
    let (first, last) = (text(&bytes[..some]), text(&bytes[bytes.len() - some..]));
    write!(out, "{lines} lines, {first:?} {last:?} {}", checksum(bytes))
}

/// `made SESSIONS SOME`
pub fn made(alloc: Global, words: &str, out: &mut String) -> Result<(), AllocError> {
    let (sessions, some) = halves(words, ' ');
    let sessions = number(sessions).max(1).min(MAX_SESSIONS);
    let made = make_log(alloc, sessions)?;
    put_ends(out, made.as_slice(), number(some) as usize)
}
