//! The blocks. Each pair of partitions of one type must have one.
ghost use Rattle.std.specs.Prelude.{◌≡◌, ◌↔◌, ◌+◌, ℕ, slice_get, IsTrue, MatchOption};
ghost use Rattle.invariants.specs.declared.records.Block.{Block};
ghost use Rattle.partition_model.specs.Coarsening.{IsPair, PairBefore};
ghost use Rattle.partition_model.specs.Graphs.{Breaks, Merged};
ghost use Rattle.model_shape.specs.Shapes.{IsWellShaped};
ghost use Rattle.models.specs.Checks.{IsBlocked};
ghost use Rattle.models.specs.Models.{graph_of};
ghost use Rattle.model_check.specs.Rows.{shown};
ghost use Rattle.model_check.specs.Pairs.{AreBefore, IsFirstOpen, IsFirstWith, IsReached};

use crate::graph::ModelGraph;
use invariants::{Block, Invariant, Model, Monitor, Partition};
use limits::{FIRST_TYPE, INITIAL, TERMINAL};

/// Whether the path is a path of the graph in which q is merged into p, and its word breaks the invariant.
fn breaks(graph: &ModelGraph, p: u32, q: u32, inv: Invariant, path: &[u32]) -> bool
    ensures { IsTrue result ↔ Breaks (Merged (shown graph.now) p q) inv path.now }
{
    if path.is_empty() || path[0] != INITIAL {
        return false;
    }
    let mut before = INITIAL;
    let mut state = Monitor::step(inv, Monitor::start(), graph.type_of(INITIAL));
    for id in &path[1..] {
        if !graph.has_merged_edge(p, q, before, *id) {
            return false;
        }
        state = Monitor::step(inv, state, graph.type_of(*id));
        before = *id;
    }
    before == TERMINAL && Monitor::bad(inv, state)
}

/// The place of the first block from `from` on that is not before this pair; the number of blocks if there is none.
fn skip_before(blocks: &[Block], from: usize, p: u32, q: u32) -> usize
    requires { AreBefore blocks.now from p q }
    ensures before { AreBefore blocks.now result p q }
    ensures first { (b : Block) → slice_get blocks.now result ≡ Some b
        → PairBefore b.p b.q p q → ⊥ }
{
    let mut next = from;
    while next < blocks.len() {
        let block = &blocks[next];
        if block.p > p || (block.p == p && block.q >= q) {
            return next;
        }
        next += 1;
    }
    next
}

/// Whether the pair has a block that blocks its merge. The blocks before `next` are before the pair. `next` moves on to the
/// first that is not.
fn is_blocked(model: &Model, graph: &ModelGraph, p: u32, q: u32, next: &mut usize) -> bool
    requires shaped { IsWellShaped model.now }
    requires graph { shown graph.now ≡ graph_of model.now }
    requires before { AreBefore (model.now).blocks next.old p q }
    ensures blocked { IsTrue result ↔ IsBlocked model.now p q }
    ensures before { AreBefore (model.now).blocks next.new p q }
{
    let blocks = model.blocks.as_slice();
    *next = skip_before(blocks, *next, p, q);
    if *next >= blocks.len() {
        return false;
    }
    let block = &blocks[*next];
    if block.p != p || block.q != q {
        return false;
    }
    let inv = model.invariants.as_slice()[block.inv as usize].inv;
    breaks(graph, p, q, inv, block.path.as_slice())
}

/// The least id whose pair with the partition `x`, at the place `i`, has no block that blocks its merge; `None` if all pairs
/// have one.
fn first_open_with(
    model: &Model,
    graph: &ModelGraph,
    i: usize,
    x: &Partition,
    next: &mut usize,
) -> Option<u32>
    requires shaped { IsWellShaped model.now }
    requires graph { shown graph.now ≡ graph_of model.now }
    requires there { slice_get (model.now).partitions i ≡ Some x.now }
    requires reached { IsReached model.now next.old i }

    // The id that is found, and how far the blocks are read.
    ensures first { MatchOption result
        ((q : ℕ) → IsPair (graph_of model.now) (x.now).id q → IsBlocked model.now (x.now).id q)
        (IsFirstWith model.now (x.now).id) }
    ensures reached { IsReached model.now next.new (i + 1) }
{
    let partitions = model.partitions.as_slice();
    if x.id < FIRST_TYPE {
        return None;
    }
    for j in i + 1..partitions.len() {
        let y = partitions[j];
        if y.typ == x.typ && !is_blocked(model, graph, x.id, y.id, next) {
            return Some(y.id);
        }
    }
    None
}

/// The first pair of partitions of one type that has no block which blocks its merge; `None` if all pairs have one.
pub fn first_open(model: &Model, graph: &ModelGraph) -> Option<(u32, u32)>
    requires shaped { IsWellShaped model.now }
    requires graph { shown graph.now ≡ graph_of model.now }
    ensures { MatchOption result
        ((p q : ℕ) → IsPair (graph_of model.now) p q → IsBlocked model.now p q)
        (λ pair. IsFirstOpen model.now pair.0 pair.1) }
{
    let mut next = 0;
    for (i, x) in model.partitions.as_slice().iter().enumerate() {
        if let Some(q) = first_open_with(model, graph, i, x, &mut next) {
            return Some((x.id, q));
        }
    }
    None
}
