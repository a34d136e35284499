//! The lists of the graph of all traces of a log, made from that of its distinct words.
ghost use Rattle.std.specs.Prelude.{◌≡◌, ◌≤◌, ◌<◌, ℕ, IfOk, length, slice_index};
ghost use Rattle.std.specs.Bool.{OnTrue};
ghost use Rattle.limits.specs.declared.TheConstants.{MAX_EVENTS};
ghost use Rattle.partition_model.specs.Assignments.{events};
ghost use Rattle.partition_graph.specs.Spread.{spread, AreAllOf};
ghost use Rattle.infer_core.specs.Workbenches.{whole_of, AreListsOf};

use crate::tools::both;
use invariants::{Edge, Partition, Seq};
use limits::MAX_PARTITIONS;
use partition_graph::PartGraph;
use std::alloc::{AllocError, Global};

/// Whether each number is that of its place.
fn are_in_order(numbers: &[u32]) -> bool
    ensures { OnTrue result ((k : ℕ) → k < length numbers.now → slice_index numbers.now k ≡ k) }
{
    for (place, number) in numbers.iter().enumerate() {
        if *number as usize != place {
            return false;
        }
    }
    true
}

/// The partitions and the edges of the graph of the traces with these numbers, one trace for each number. `numbers` must
/// have the number of each trace of `graph` at least once, and no other number, and the graph at most `MAX_EVENTS` events.
/// `AllocError` is returned if there is not enough memory.
pub fn whole_lists(
    alloc: Global,
    graph: &PartGraph,
    numbers: &[u32],
) -> Result<(Seq<Partition>, Seq<Edge>), AllocError>
    requires all { AreAllOf numbers.now (graph.now).traces }
    requires few { length (events (spread numbers.now (graph.now).traces)) ≤ MAX_EVENTS }
    ensures { IfOk result (λ lists. AreListsOf (whole_of numbers.now graph.now) lists.0 lists.1) }
{
    prove!(graph.ids_used() <= MAX_PARTITIONS);
    if are_in_order(numbers) {
        return both(graph.partitions(alloc), graph.edges(alloc));
    }
    graph.spread_lists(alloc, numbers)
}
