//! The arguments of a case, and bytes as they are printed.

use std::alloc::{AllocError, Global};

/// The letter that a letter of an argument stands for.
fn meant(letter: char) -> char {
    match letter {
        '~' => '\n',
        '^' => '\r',
        '_' => ' ',
        other => other,
    }
}

/// The text that an argument stands for: `~` is a line feed, `^` a carriage return, `_` a space and `%` nothing.
pub fn plain(alloc: Global, word: &str) -> Result<String, AllocError> {
    word.chars()
        .filter(|letter| *letter != '%')
        .map(meant)
        .collect(alloc)
}

/// The bytes as a text.
pub fn text(bytes: &[u8]) -> &str {
    str::from_utf8(bytes).unwrap_or("?")
}

/// A checksum, to compare long texts.
pub fn checksum(bytes: &[u8]) -> u64 {
    bytes.iter().fold(7, |checksum: u64, byte| {
        checksum
            .wrapping_mul(1_000_003)
            .wrapping_add(u64::from(*byte))
    })
}

/// Appends the bytes to the text if they are few; otherwise their number and their checksum.
pub fn put_shown(out: &mut String, bytes: &[u8]) -> Result<(), AllocError> {
    if bytes.len() > 99 {
        return write!(out, "{} bytes, {}", bytes.len(), checksum(bytes));
    }
    write!(out, "{:?}", text(bytes))
}
