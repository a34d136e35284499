//! The rules of a well-shaped model.
ghost use Rattle.std.specs.Prelude.{◌↔◌, IsTrue, IfOk, length, ◌≡◌, ◌≤◌, map, unwrap_or, nat_lt, nat_le};
ghost use Rattle.limits.specs.declared.TheConstants.{MAX_TYPES};
ghost use Rattle.std.specs.List.{list_any, list_all};
ghost use Rattle.std.specs.Str.{bytes_eq};
ghost use Rattle.model_file.specs.Table.{type_at};
ghost use Rattle.model_file.specs.Rules.{ascends, pair_less, are_distinct, type_holds, types_hold, ends_hold, partition_holds, partitions_hold, edge_holds, edges_hold, place_of, listed_holds, invariants_hold, others_hold};
ghost use Rattle.model_shape.specs.Shapes.{IsWellShaped};

use crate::history::{blocks_hold, merges_hold, splits_hold};
use crate::table::{type_at, types_by_id};
use invariants::{Edge, Invariant, Kinds, Listed, Model, Partition, Text, index_of};
use limits::{
    FIRST_TYPE, INITIAL, MAX_EDGE_COUNT, MAX_EVENTS, MAX_PARTITIONS, MAX_TYPE_BYTES, MAX_TYPES,
    TERMINAL,
};
use std::alloc::{AllocError, Global};

/// The number of partitions before those of events: INITIAL and TERMINAL.
const ENDS: usize = 2;

fn stands_in(text: &str, types: &[Text]) -> bool
    ensures { result ≡ list_any (bytes_eq text.now) types.now }
{
    'later: for other in types {
        if text == other.as_str() {
            return true;
        }
    }
    false
}

fn are_distinct(types: &[Text]) -> bool
    ensures { result ≡ are_distinct types.now }
{
    'texts: for (i, text) in types.iter().enumerate() {
        if stands_in(text.as_str(), &types[i + 1..]) {
            return false;
        }
    }
    true
}

fn type_holds(text: &Text) -> bool
    ensures { result ≡ type_holds text.now }
{
    1 <= text.len() && text.len() <= MAX_TYPE_BYTES
}

/// Whether there are no more types than the limit, each has 1 to `MAX_TYPE_BYTES` bytes, and no two are equal.
#[tactic(auto, unfolding(crate::specs::Rules::types_hold))]
pub(crate) fn types_hold(limit: u32, types: &[Text]) -> bool
    ensures { result ≡ types_hold limit types.now }
{
    if types.len() > limit as usize {
        return false;
    }
    'types: for text in types {
        if !type_holds(text) {
            return false;
        }
    }
    are_distinct(types)
}

fn ends_hold(partitions: &[Partition]) -> bool
    ensures { result ≡ ends_hold partitions.now }
{
    match partitions {
        [first, second, ..] => {
            first.id == INITIAL
                && u32::from(first.typ) == INITIAL
                && second.id == TERMINAL
                && u32::from(second.typ) == TERMINAL
                && first.count == second.count
                && first.count <= MAX_EVENTS
        }
        _ => false,
    }
}

fn partition_holds(types: usize, partition: Partition) -> bool
    requires { types ≤ MAX_TYPES }
    ensures { result ≡ partition_holds types partition }
{
    partition.id < MAX_PARTITIONS
        && FIRST_TYPE <= u32::from(partition.typ)
        && (partition.typ as usize) < types + FIRST_TYPE as usize
        && 1 <= partition.count
        && partition.count <= MAX_EVENTS
}

fn partitions_ascend(partitions: &[Partition]) -> bool
    ensures { result ≡ ascends nat_lt (map (λ p. p.id) partitions.now) }
{
    let mut before = None;
    'partitions: for partition in partitions {
        if let Some(id) = before {
            if partition.id <= id {
                return false;
            }
        }
        before = Some(partition.id);
    }
    true
}

/// Whether the two ends come first and the others are of existing types, and the ids ascend.
#[tactic(auto, unfolding(crate::specs::Rules::partitions_hold))]
pub(crate) fn partitions_hold(types: usize, partitions: &[Partition]) -> bool
    requires { types ≤ MAX_TYPES }
    ensures { result ≡ partitions_hold types partitions.now }
{
    if partitions.len() > MAX_PARTITIONS as usize || !ends_hold(partitions) {
        return false;
    }
    'others: for partition in &partitions[ENDS..] {
        if !partition_holds(types, *partition) {
            return false;
        }
    }
    partitions_ascend(partitions)
}

fn edge_holds(table: &[Option<u16>], edge: Edge) -> bool
    ensures { result ≡ edge_holds (type_at table.now) edge }
{
    type_at(table, edge.from).is_some()
        && type_at(table, edge.to).is_some()
        && edge.from != TERMINAL
        && edge.to != INITIAL
        && 1 <= edge.count
        && edge.count <= MAX_EDGE_COUNT
}

#[inline]
pub(crate) fn is_less(x: (u32, u32), y: (u32, u32)) -> bool
    ensures { result ≡ pair_less x y }
{
    x.0 < y.0 || x.0 == y.0 && x.1 < y.1
}

fn edges_ascend(edges: &[Edge]) -> bool
    ensures { result ≡ ascends pair_less (map (λ e. (e.from, e.to)) edges.now) }
{
    let mut before = None;
    'edges: for edge in edges {
        let here = (edge.from, edge.to);
        if let Some(earlier) = before {
            if !is_less(earlier, here) {
                return false;
            }
        }
        before = Some(here);
    }
    true
}

/// Whether the edges ascend and join partitions of the table.
#[tactic(auto, unfolding(crate::specs::Rules::edges_hold))]
pub(crate) fn edges_hold(table: &[Option<u16>], edges: &[Edge]) -> bool
    ensures { result ≡ edges_hold (type_at table.now) edges.now }
{
    'edges: for edge in edges {
        if !edge_holds(table, *edge) {
            return false;
        }
    }
    edges_ascend(edges)
}

fn place_of(kinds: Kinds, types: u32, inv: Invariant) -> Option<u32>
    requires { types ≤ MAX_TYPES }
    ensures { result ≡ place_of kinds types inv }
{
    index_of(kinds, types, inv)
}

fn listed_holds(kinds: Kinds, types: u32, partitions: usize, listed: &Listed) -> bool
    requires { types ≤ MAX_TYPES }
    ensures { result ≡ listed_holds kinds types partitions listed.now }
{
    place_of(kinds, types, listed.inv).is_some() && listed.labels.len() == partitions
}

fn invariants_ascend(kinds: Kinds, types: u32, invariants: &[Listed]) -> bool
    requires { types ≤ MAX_TYPES }
    ensures { result
        ≡ ascends nat_lt (map (λ l. unwrap_or (place_of kinds types l.inv) 0) invariants.now) }
{
    let mut before = None;
    'invariants: for listed in invariants {
        let place = place_of(kinds, types, listed.inv).unwrap_or(0);
        if let Some(earlier) = before {
            if place <= earlier {
                return false;
            }
        }
        before = Some(place);
    }
    true
}

/// Whether the invariants are candidates of these kinds in their order, each with a label for each partition.
#[tactic(auto, unfolding(crate::specs::Rules::invariants_hold))]
pub(crate) fn invariants_hold(
    kinds: Kinds,
    types: u32,
    partitions: usize,
    invariants: &[Listed],
) -> bool
    requires { types ≤ MAX_TYPES }
    ensures { result ≡ invariants_hold kinds types partitions invariants.now }
{
    'invariants: for listed in invariants {
        if !listed_holds(kinds, types, partitions, listed) {
            return false;
        }
    }
    invariants_ascend(kinds, types, invariants)
}

/// The lists whose rules come after those of the types and the partitions.
fn others_hold(table: &[Option<u16>], model: &Model) -> bool
    requires { length model.now.types ≤ MAX_TYPES }
    ensures { result ≡ others_hold (type_at table.now) model.now }
{
    let listed = model.invariants.len();
    edges_hold(table, model.edges.as_slice())
        && invariants_hold(
            model.kinds,
            model.types.len() as u32,
            model.partitions.len(),
            model.invariants.as_slice(),
        )
        && merges_hold(model.merges.as_slice())
        && splits_hold(listed, model.splits.as_slice())
        && blocks_hold(
            table,
            listed,
            model.splits.as_slice(),
            model.blocks.as_slice(),
        )
}

/// Whether a model is well shaped. `write_model` requires this and `read_model` ensures it; the test is for callers who made a
/// model themselves. The only error is out of memory.
pub fn is_well_shaped(alloc: Global, model: &Model) -> Result<bool, AllocError>
    ensures { IfOk result (λ shaped. IsTrue shaped ↔ IsWellShaped model.now) }
{
    if !types_hold(MAX_TYPES, model.types.as_slice()) {
        return Ok(false);
    }
    if !partitions_hold(model.types.len(), model.partitions.as_slice()) {
        return Ok(false);
    }
    let table = types_by_id(alloc, model.partitions.as_slice())?;
    Ok(others_hold(&table, model))
}
