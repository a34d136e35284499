//! The bytes that each match of a pattern contains: its needle. A line without them has no match, and needs no search for one.
ghost use Rattle.std.specs.Prelude.{◌≡◌, ℕ, false, IfOk, IfSome};
ghost use Rattle.line_rules.specs.Needles.{AreBytes, IsInEach, IsNeedleOf, Lacks};

use memchr::memmem::Finder;
use regex_extract::required;
use regex_hir::Hir;
use regex_syntax::{Config, parse};
use std::alloc::{AllocError, Global};

/// The needle of the pattern with this tree, if there is only one.
fn only_needle(alloc: Global, tree: &Hir) -> Result<Option<Vec<u8>>, AllocError>
    ensures { IfOk result (λ found. IfSome found (λ needle. IsInEach tree.now needle.items)) }
{
    let Some(mut needles) = required(alloc, tree)? else {
        return Ok(None);
    };
    if needles.len() != 1 {
        return Ok(None);
    }
    Ok(needles.pop())
}

/// The needle of the pattern that the grammar reads from the text, if there is only one.
fn needle_in(alloc: Global, text: &str) -> Result<Option<Vec<u8>>, AllocError>
    ensures { IfOk result (λ found. IfSome found (λ needle. IsNeedleOf text.now needle.items)) }
{
    match parse(alloc, text, &Config::default()) {
        Ok(parsed) => {
            let found = only_needle(alloc, &parsed.hir);
            drop(parsed);
            found
        }
        Err(_) => Ok(None),
    }
}

/// The needle of the pattern that the grammar reads from the text. It is empty, and stands in each line, if no needle is
/// known.
pub(crate) fn needle_of(alloc: Global, text: &str) -> Result<Vec<u8>, AllocError>
    ensures { IfOk result (λ needle. IsNeedleOf text.now needle.items) }
{
    match needle_in(alloc, text)? {
        Some(needle) => Ok(needle),
        None => Ok(Vec::new(alloc)),
    }
}

/// Whether the needle stands in the line.
pub(crate) fn stands_in(needle: &Finder<'_>, line: &[u8]) -> bool
    ensures lacks { result ≡ false → Lacks line.now needle.now }
    ensures bytes { AreBytes line.now }
{
    needle.find(line).is_some()
}
