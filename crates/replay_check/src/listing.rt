//! Comparisons of the lists of a model with those that are made from a log, and of the words of two traces.
ghost use Rattle.std.specs.Prelude.{◌≡◌, ◌↔◌, IsTrue};

use invariants::{Edge, Partition, Text};

/// Whether two lists of texts are the same.
pub fn are_same(these: &[Text], those: &[Text]) -> bool
    ensures { IsTrue result ↔ (these.now ≡ those.now) }
{
    if these.len() != those.len() {
        return false;
    }
    for (i, text) in these.iter().enumerate() {
        if text.as_str() != those[i].as_str() {
            return false;
        }
    }
    true
}

/// Whether two lists of numbers are the same.
pub fn same_numbers(these: &[u16], those: &[u16]) -> bool
    ensures { IsTrue result ↔ (these.now ≡ those.now) }
{
    if these.len() != those.len() {
        return false;
    }
    for (i, x) in these.iter().enumerate() {
        if *x != those[i] {
            return false;
        }
    }
    true
}

/// Whether two lists of partitions are the same.
pub fn same_partitions(these: &[Partition], those: &[Partition]) -> bool
    ensures { IsTrue result ↔ (these.now ≡ those.now) }
{
    if these.len() != those.len() {
        return false;
    }
    for (i, x) in these.iter().enumerate() {
        if *x != those[i] {
            return false;
        }
    }
    true
}

/// Whether two lists of edges are the same.
pub fn same_edges(these: &[Edge], those: &[Edge]) -> bool
    ensures { IsTrue result ↔ (these.now ≡ those.now) }
{
    if these.len() != those.len() {
        return false;
    }
    for (i, x) in these.iter().enumerate() {
        if *x != those[i] {
            return false;
        }
    }
    true
}
