//! Bytes cut at line feeds, and the fields of lines.

use crate::basics::words::{plain, text};
use crate::tools::{both, halves};
use lines::{next_piece, plain_fields_ahead, without_return};
use std::alloc::{AllocError, Global};

/// Appends the first piece of bytes to the text, its line, and what follows its line feed.
fn put_cut(out: &mut String, bytes: &[u8]) -> Result<(), AllocError> {
    if bytes.is_empty() {
        return out.push_str("none");
    }
    let (piece, rest) = next_piece(bytes);
    let (piece, line, rest) = (text(piece), text(without_return(piece)), text(rest));
    write!(out, "{piece:?} {line:?} {rest:?}")
}

/// `piece BYTES`
pub fn piece(alloc: Global, word: &str, out: &mut String) -> Result<(), AllocError> {
    let bytes = plain(alloc, word)?;
    put_cut(out, bytes.as_bytes())
}

/// The fields of a line, with what follows them as a text.
fn shown<'a>(ahead: Option<(&'a str, &'a str, &'a [u8])>) -> Option<(&'a str, &'a str, &'a str)> {
    let (trace, typ, rest) = ahead?;
    Some((trace, typ, text(rest)))
}

/// Appends the fields of a line with what follows it to the text.
fn put_parted(alloc: Global, out: &mut String, line: &str, behind: &str) -> Result<(), AllocError> {
    let mut bytes = String::from_str(alloc, line)?;
    bytes.push_str(behind)?;
    let ahead = shown(plain_fields_ahead(line, bytes.as_bytes()));
    write!(out, "{ahead:?}")
}

/// `fields LINE BEHIND`
pub fn fields(alloc: Global, words: &str, out: &mut String) -> Result<(), AllocError> {
    let (line, behind) = halves(words, ' ');
    let (line, behind) = both(plain(alloc, line), plain(alloc, behind))?;
    put_parted(alloc, out, &line, &behind)
}
