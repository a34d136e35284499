//! The labels of an invariant, a digit for each.
ghost use Rattle.std.specs.Prelude.{◌≡◌, ◌↔◌, ◌-◌, map, IfOk, IsTrue, All};
ghost use Rattle.invariants.specs.Labels.{IsDigit};
ghost use Rattle.model_file.specs.Entries.{labels_of};

use crate::lists::Entry;
use crate::stream::{Stop, string};
use json::Reader;
use std::alloc::{AllocError, Global};

/// Whether all bytes are digits from `0` to `7`.
fn are_labels(bytes: &[u8]) -> bool
    ensures { IsTrue result ↔ All IsDigit bytes.now }
{
    // No early exit, so that many bytes are tested at once.
    let mut all = true;
    for byte in bytes {
        all = all & (*byte >= b'0') & (*byte <= b'7');
    }
    all
}

/// The labels that digits from `0` to `7` write; `None` for any other byte.
fn labels_of(alloc: Global, digits: &[u8]) -> Result<Option<invariants::Labels>, AllocError>
    ensures { IfOk result (λ found. found ≡ labels_of digits.now) }
{
    if are_labels(digits) {
        Ok(Some(invariants::Labels::from_digits(alloc, digits)?))
    } else {
        Ok(None)
    }
}

/// The labels of an invariant.
#[derive(Drop)]
pub(crate) struct Labels {
    pub(crate) labels: invariants::Labels,
}

impl Entry for Labels {
    ghost use Rattle.model_file.specs.Rows.{labels_as};

    ghost read_as = { labels_as };

    fn read(alloc: Global, reader: &mut Reader<'_>, depth: usize) -> Result<Option<Labels>, Stop> {
        let digits = match string(reader, depth) {
            Ok(Some(digits)) => digits,
            Ok(None) => return Ok(None),
            Err(e) => return Err(e),
        };
        match labels_of(alloc, digits.as_bytes()) {
            Ok(Some(labels)) => Ok(Some(Labels { labels })),
            Ok(None) => Ok(None),
            Err(_) => Err(Stop::Memory),
        }
    }
}
