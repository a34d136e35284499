//! Changes of a text.

use crate::formats::notation::{bytes_of, usize_of};
use std::alloc::{AllocError, Global};

/// Appends the three parts of a changed text.
fn put_parts(to: &mut Vec<u8>, first: &[u8], new: &[u8], last: &[u8]) -> Result<(), AllocError> {
    to.extend_from_slice(first)
        .and(to.extend_from_slice(new))
        .and(to.extend_from_slice(last))
}

/// The bytes with others in the place of some: `5 2 abc` takes out two after the first five, and puts in `abc`.
pub fn changed(alloc: Global, base: &[u8], change: &str) -> Result<Vec<u8>, AllocError> {
    let (at, count_and_text) = usize_of(change);
    let (count, text) = usize_of(count_and_text);
    let after = at.saturating_add(count);
    let (first, last) = (
        base.get(..at).unwrap_or(&[]),
        base.get(after..).unwrap_or(&[]),
    );
    let new = bytes_of(alloc, text)?;
    let mut bytes = Vec::new(alloc);
    put_parts(&mut bytes, first, &new, last).and(Ok(bytes))
}
