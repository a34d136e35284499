//! What must be known before a graph, a view, or labels and marks are queried.
ghost use Rattle.std.specs.Prelude.{◌≡◌, ◌≤◌, ◌<◌, ℕ, All, Some, length, slice_get};
ghost use Rattle.std.specs.Bool.{OnTrue};
ghost use Rattle.limits.specs.declared.TheConstants.{LAST_TYPE, MAX_EVENTS, MAX_INVARIANTS};
ghost use Rattle.partition_model.specs.Assignments.{events, G};
ghost use Rattle.partition_model.specs.Coarsening.{IsPair};
ghost use Rattle.partition_graph.specs.Spread.{spread};

use invariants::Invariant;
use limits::{FIRST_TYPE, LAST_TYPE, MAX_INVARIANTS};
use partition_graph::PartGraph;

/// Whether p and q are two partitions of one type, p before q.
pub fn is_pair(graph: &PartGraph, p: u32, q: u32) -> bool
    ensures { OnTrue result (IsPair (G (graph.now).traces) p q) }
{
    p >= FIRST_TYPE
        && p < q
        && graph.is_live(p)
        && graph.is_live(q)
        && graph.type_of(p) == graph.type_of(q)
}

/// Whether all numbers are below a bound.
fn are_below(bound: u32, numbers: &[u32]) -> bool
    ensures { OnTrue result (All (λ k. k < bound) numbers.now) }
{
    numbers.iter().all(|number| *number < bound)
}

/// Whether a graph of few events can be spread over few traces with these numbers.
pub fn can_be_spread(graph: &PartGraph, numbers: &[u32]) -> bool
    ensures { OnTrue result (All (λ k. k < length (graph.now).traces) numbers.now
        × length (events (spread numbers.now (graph.now).traces)) ≤ MAX_EVENTS) }
{
    if graph.event_count() > 100 || numbers.len() > 100 {
        return false;
    }
    are_below(graph.trace_count(), numbers)
}

/// Whether there are not too many invariants, and each is of possible types.
pub fn are_named(invs: &[Invariant]) -> bool
    ensures few { OnTrue result (length invs.now ≤ MAX_INVARIANTS) }
    ensures named { OnTrue result ((k : ℕ) (inv : Invariant) → slice_get invs.now k ≡ Some inv
        → (inv.a ≤ LAST_TYPE) × (inv.b ≤ LAST_TYPE)) }
{
    if invs.len() > MAX_INVARIANTS {
        return false;
    }
    for inv in invs {
        if inv.a > LAST_TYPE || inv.b > LAST_TYPE {
            return false;
        }
    }
    true
}
