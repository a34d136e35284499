//! Rows of ids: the ids that edges enter from each id, the ids of each type, and sets of ids that were met.
ghost use Rattle.std.specs.Prelude.{◌≡◌, ◌≢◌, ◌↔◌, ◌<◌, ◌≤◌, ◌+◌, ℕ, true, ◌||◌, IfSome, All};
ghost use Rattle.limits.specs.declared.TheConstants.{MAX_PARTITIONS};
ghost use Rattle.models.specs.Models.{has_edge};
ghost use Rattle.model_check.specs.Rows.{bit, marked, IsMarkable, IsEdgeWithin};
ghost use Rattle.model_check.specs.Successors.{in_set, IsEnteredFrom, IsSet};

use crate::rows::IdRows;
use invariants::{Edge, Partition};
use limits::{FIRST_TYPE, MAX_PARTITIONS, MAX_TYPES};

/// The maximum number of ids. The first rows are those of the ids: each has the ids that edges enter from there.
pub(crate) const IDS: usize = MAX_PARTITIONS as usize;

/// The maximum number of types, including the two ends.
pub(crate) const TYPES: usize = MAX_TYPES as usize + FIRST_TYPE as usize;

/// The first row of the types. Each has the ids of one type.
pub(crate) const MEMBERS: usize = IDS;

/// The row of all ids that are listed.
pub(crate) const LISTED: usize = MEMBERS + TYPES;

/// The row of the next set. The rows before it contain the graph.
pub(crate) const NEXT: usize = LISTED + 1;

/// The row in which two sets are compared.
pub(crate) const SPARE: usize = LISTED + 2;

/// The first row of the kept sets.
pub(crate) const KEPT: usize = LISTED + 3;

/// The maximum number of kept sets.
pub(crate) const ROOM: usize = 256;

/// The row of a set that is not kept.
pub(crate) const LOOSE: usize = KEPT + ROOM;

/// The number of rows.
pub(crate) const ROWS: usize = LOOSE + 1;

/// Puts each partition into the row of all ids and into that of its type.
pub fn mark_partitions(rows: &mut IdRows, partitions: &[Partition])
    requires { All IsMarkable partitions.now }
    ensures { (r k : ℕ) → bit rows.new r k ≡ (bit rows.old r k || marked r k partitions.now) }
{
    for partition in partitions {
        let id = partition.id as usize;
        rows.put(LISTED, id);
        rows.put(MEMBERS + usize::from(partition.typ), id);
    }
}

/// Puts the end of each edge into the row of its start.
pub fn mark_edges(rows: &mut IdRows, edges: &[Edge])
    requires { All IsEdgeWithin edges.now }
    ensures { (r k : ℕ) → bit rows.new r k ≡ (bit rows.old r k || has_edge r k edges.now) }
{
    for edge in edges {
        rows.put(edge.from as usize, edge.to as usize);
    }
}

/// The only id of the next set; `None` if it has none or several.
pub fn only_one(rows: &IdRows) -> Option<usize>
    ensures within { IfSome result (λ p. p < IDS) }
    ensures only { IfSome result (λ p. (q : ℕ) → (bit rows.now NEXT q ≡ true) ↔ (q ≡ p)) }
{
    let p = rows.next(NEXT, 0)?;
    match rows.next(NEXT, p + 1) {
        Some(_) => None,
        None => Some(p),
    }
}

/// Replaces the next set by the ids of this type that edges enter from the set in a row.
fn advance_from_row(rows: &mut IdRows, set: usize, typ: usize)
    requires row { KEPT ≤ set }
    requires within { set < ROWS }
    requires typ { typ < TYPES }
    ensures others { (r k : ℕ) → r ≢ NEXT → bit rows.new r k ≡ bit rows.old r k }
    ensures next { (q : ℕ) → (bit rows.new NEXT q ≡ true) ↔ IsEnteredFrom (bit rows.old set) rows.old typ q }
{
    rows.clear(NEXT);
    let mut from = 0;
    while let Some(p) = rows.next(set, from) {
        rows.join(NEXT, p, MEMBERS + typ);
        from = p + 1;
    }
}

/// Replaces the next set by the ids of this type that edges enter from a set.
pub fn advance(rows: &mut IdRows, set: usize, typ: usize)
    requires set { IsSet (ROOM + 1) set }
    requires typ { typ < TYPES }
    ensures others { (r k : ℕ) → r ≢ NEXT → bit rows.new r k ≡ bit rows.old r k }
    ensures next { (q : ℕ) → (bit rows.new NEXT q ≡ true) ↔ IsEnteredFrom (in_set rows.old set) rows.old typ q }
{
    if set >= IDS {
        return advance_from_row(rows, set, typ);
    }
    rows.clear(NEXT);
    rows.join(NEXT, set, MEMBERS + typ);
}
