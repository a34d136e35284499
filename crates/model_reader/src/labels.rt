//! Labels in the bytes of a file.
ghost use Rattle.std.specs.Prelude.{◌≡◌, ◌↔◌, ◌≤◌, ◌+◌, drop, length, map, take, All, IfSome, IsTrue};
ghost use Rattle.json.specs.Print.{escape};
ghost use Rattle.invariants.specs.Labels.{IsDigit, digit_of};

use invariants::Labels;
use limits::MAX_PARTITIONS;
use std::rc::Rc;

/// Whether all bytes are digits from `0` to `7`.
fn are_digits(bytes: &[u8]) -> bool
    ensures { IsTrue result ↔ All IsDigit bytes.now }
{
    // No early exit, so that many bytes are tested at once.
    let mut all = true;
    for byte in bytes {
        all = all & (*byte >= b'0') & (*byte <= b'7');
    }
    all
}

/// The labels whose digits are the `count` bytes of the text from the place `from` on, if these are digits from `0` to `7`, and
/// at most as many as a model has partitions. Many labels share the text.
///
/// It is also `None` if the text has too many owners.
pub(crate) fn labels_at(text: &Rc<Vec<u8>>, from: usize, count: usize) -> Option<Labels>
    requires { from + count ≤ length (text.now).value.items }
    ensures text { IfSome result (λ labels. take count (drop from (text.now).value.items) ≡ map digit_of labels) }
    ensures plain { IfSome result (λ labels. escape (map digit_of labels) ≡ map digit_of labels) }
{
    if count > MAX_PARTITIONS as usize {
        return None;
    }
    if !are_digits(&text.as_slice()[from..from + count]) {
        return None;
    }
    match Labels::part_of(text, from, count) {
        Ok(labels) => Some(labels),
        Err(_) => None,
    }
}
