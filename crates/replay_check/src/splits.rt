//! The splits of a model, each judged in its turn and then made.
ghost use Rattle.std.specs.Prelude.{◌≡◌, ◌↔◌, ◌+◌, ◌<◌, ◌≤◌, ℕ, length, IsTrue, MatchOption, All};
ghost use Rattle.invariants.specs.declared.records.Split.{Split};
ghost use Rattle.limits.specs.declared.TheConstants.{MAX_PARTITIONS};
ghost use Rattle.model_shape.specs.Shapes.{IsShapedSplit, IsWellShaped};
ghost use Rattle.models.specs.Histories.{IsJustifiedSplit, IsFirstWrongSplit, SplitInTurn, split_by};
ghost use Rattle.partition_model.specs.Assignments.{Assignment};
ghost use Rattle.partition_model.specs.Graphs.{Breaks};
ghost use Rattle.partition_model.specs.Refinement.{after_split};
ghost use Rattle.replay_check.specs.Shown.{graph_in, AreBlank, Shows};

use crate::edges::EdgeRows;
use crate::ids::move_events;
use crate::stitch::followed;
use invariants::{Invariant, Model, Monitor, Split};
use limits::{FIRST_TYPE, INITIAL, MAX_PARTITIONS, TERMINAL};

/// Whether the path follows edges from INITIAL to TERMINAL, and its word breaks the invariant.
fn breaks(edges: &EdgeRows, types: &[u16], inv: Invariant, path: &[u32]) -> bool
    requires size { length types.now ≡ MAX_PARTITIONS }
    requires within { All (λ p. p < MAX_PARTITIONS) path.now }
    ensures { IsTrue result ↔ Breaks (graph_in (edges.now).rows types.now) inv path.now }
{
    if path.is_empty() || path[0] != INITIAL {
        return false;
    }
    let mut before = INITIAL;
    let mut state = Monitor::step(inv, Monitor::start(), types[INITIAL as usize]);
    for id in &path[1..] {
        if !edges.has(before as usize, *id as usize) {
            return false;
        }
        state = Monitor::step(inv, state, types[*id as usize]);
        before = *id;
    }
    before == TERMINAL && Monitor::bad(inv, state)
}

/// Whether the split, whose new id is `n`, is right for the assignment that the ids show. No edge is marked before the call,
/// and none after it.
fn is_justified(
    model: &Model,
    n: u32,
    split: &Split,
    ids: &[u16],
    types: &[u16],
    edges: &mut EdgeRows,
) -> bool
    requires shaped { IsShapedSplit (length (model.now).invariants) split.now }
    requires size { length types.now ≡ MAX_PARTITIONS }
    requires within { All (λ p. p < MAX_PARTITIONS) ids.now }
    requires blank { AreBlank (edges.old).rows }
    ensures right { (h : Assignment) (m : ℕ) → Shows h m ids.now types.now
        → IsTrue result ↔ IsJustifiedSplit model.now h n split.now }

    // What holds of a split that is right.
    ensures room { IsTrue result → n < MAX_PARTITIONS }
    ensures inside { IsTrue result → (split.now).place + 1 < length (split.now).path }
    ensures blank { AreBlank (edges.new).rows }
{
    if n >= MAX_PARTITIONS {
        return false;
    }
    let path = split.path.as_slice();
    let place = split.place as usize;
    if place + 1 >= path.len() {
        return false;
    }
    let inv = model.invariants.as_slice()[split.inv as usize].inv;
    edges.mark(ids);
    let broken = breaks(edges, types, inv, path);
    edges.unmark(ids);
    if !broken {
        return false;
    }
    followed(ids, path).saturating_sub(1) == place
}

/// Makes the split, whose new id is `n`.
fn divide(split: &Split, n: u32, ids: &mut [u16], types: &mut [u16])
    requires path { All (λ p. p < MAX_PARTITIONS) (split.now).path }
    requires inside { (split.now).place + 1 < length (split.now).path }
    requires room { n < MAX_PARTITIONS }
    requires size { length types.old ≡ MAX_PARTITIONS }
    requires within { All (λ p. p < MAX_PARTITIONS) ids.old }

    // What the ids and the types show afterwards.
    ensures shows { (h : Assignment) → Shows h n ids.old types.old
        → Shows (after_split n split.now h) (n + 1) ids.new types.new }
    ensures size { length types.new ≡ MAX_PARTITIONS }
    ensures count { length ids.new ≡ length ids.old }
    ensures within { All (λ p. p < MAX_PARTITIONS) ids.new }
{
    let path = split.path.as_slice();
    let p = path[split.place as usize];
    let q = path[split.place as usize + 1];
    if p < FIRST_TYPE {
        return;
    }
    move_events(ids, p as u16, q as u16, n as u16);
    types[n as usize] = types[p as usize];
}

/// The number of the first split that is not right in its turn, from the assignment that the ids show; `None` if all are right.
/// The first new id is `first`. If all are right, the ids and their types are those after all splits. No edge is marked before
/// the call.
pub fn first_wrong_split(
    model: &Model,
    first: u32,
    ids: &mut [u16],
    types: &mut [u16],
    edges: &mut EdgeRows,
) -> Option<u32>
    requires shaped { IsWellShaped model.now }
    requires first { first ≤ MAX_PARTITIONS }
    requires size { length types.old ≡ MAX_PARTITIONS }
    requires within { All (λ p. p < MAX_PARTITIONS) ids.old }
    requires blank { AreBlank (edges.old).rows }

    // The answer, and what the ids and the types show afterwards.
    ensures first { (h : Assignment) → Shows h first ids.old types.old
        → MatchOption result
        (SplitInTurn model.now h first (model.now).splits
        × (first + length (model.now).splits ≤ MAX_PARTITIONS)
        × Shows (split_by first (model.now).splits h) (first + length (model.now).splits) ids.new types.new)
        (IsFirstWrongSplit model.now h first (model.now).splits) }
    ensures size { length types.new ≡ MAX_PARTITIONS }
    ensures count { length ids.new ≡ length ids.old }
    ensures within { All (λ p. p < MAX_PARTITIONS) ids.new }
{
    let splits = model.splits.as_slice();
    for k in 0..splits.len() {
        let split = &splits[k];
        let n = first + k as u32;
        if !is_justified(model, n, split, ids, types, edges) {
            return Some(k as u32);
        }
        divide(split, n, ids, types);
    }
    None
}
