//! How bytes are written in cases: each stands for itself, and `~{65536 97}` is 65,536 times the byte 97.

use crate::tools::{halves, number, parted};
use std::alloc::{AllocError, Global};
use std::fmt::Write;

/// Appends a byte a number of times. The text has both numbers.
fn put_run(bytes: &mut Vec<u8>, run: &str) -> Result<(), AllocError> {
    let (count, byte) = parted(run, ' ');
    let byte = byte.parse().unwrap_or(0u8);
    for _ in 0..number(count) {
        bytes.push(byte)?;
    }
    Ok(())
}

/// Appends a run of bytes, and the bytes after the brace that ends it.
fn put_piece(bytes: &mut Vec<u8>, piece: &str) -> Result<(), AllocError> {
    let (run, plain) = parted(piece, '}');
    put_run(bytes, run).and(bytes.extend_from_slice(plain.as_bytes()))
}

/// The bytes that a text writes.
pub fn bytes_of(alloc: Global, text: &str) -> Result<Vec<u8>, AllocError> {
    let (front, runs) = text.split_once("~{").unwrap_or((text, ""));
    let mut bytes = front.as_bytes().to_vec(alloc)?;
    for piece in runs.split("~{") {
        put_piece(&mut bytes, piece)?;
    }
    Ok(bytes)
}

/// The text with these bytes.
pub fn text_of(alloc: Global, text: &str) -> Result<String, AllocError> {
    let bytes = bytes_of(alloc, text)?;
    let read = String::from_utf8_lossy(alloc, &bytes);
    drop(bytes);
    read
}

/// Writes a byte that occurs a number of times in a row.
fn write_run(out: &mut String, byte: u8, count: usize) -> Result<(), AllocError> {
    let is_plain = matches!(byte, b' '..=b'}') && count < 4;
    if !is_plain {
        return write!(out, "~{{{count} {byte}}}");
    }
    for _ in 0..count {
        out.push(char::from(byte))?;
    }
    Ok(())
}

/// Writes these bytes. Up to three equal bytes are written as they are if they are plain ASCII; otherwise their number and
/// value are written.
pub fn write_bytes(out: &mut String, bytes: &[u8]) -> Result<(), AllocError> {
    let (mut last, mut count) = (b' ', 0usize);
    for &byte in bytes {
        if byte != last {
            write_run(out, last, count)?;
            count = 0;
        }
        last = byte;
        count = count.saturating_add(1);
    }
    write_run(out, last, count)
}

/// The first number of a text of numbers separated by spaces, and what follows it. It is 0 if it has more than 32 bits.
pub fn u32_of(text: &str) -> (u32, &str) {
    let (number, rest) = number_of(text);
    (u32::try_from(number).unwrap_or(0), rest)
}

/// The same for a number of the size of an address.
pub fn usize_of(text: &str) -> (usize, &str) {
    let (number, rest) = number_of(text);
    (usize::try_from(number).unwrap_or(0), rest)
}

/// The first number of a text of numbers separated by spaces, and what follows it.
pub fn number_of(text: &str) -> (u128, &str) {
    let (number, rest) = halves(text, ' ');
    (number.parse().unwrap_or(0), rest)
}
