//! The pairs of partitions of one type, one after another.
ghost use Rattle.std.specs.Prelude.{◌≡◌, ◌≤◌, ◌<◌, ◌↔◌, IfSome, IsTrue, MatchOption};
ghost use Rattle.partition_model.specs.Assignments.{G};
ghost use Rattle.partition_model.specs.Coarsening.{IsPair};
ghost use Rattle.coarsener.specs.Pairs.{HasIds, HasNoPairBehind, HasNoPartner, IsNextPair, IsNextPartner};

use limits::{FIRST_TYPE, MAX_PARTITIONS};
use partition_graph::PartGraph;

/// Two ids.
#[derive(Clone, Copy)]
pub(crate) struct Pair {
    /// The lower one.
    pub p: u32,
    /// The higher one.
    pub q: u32,
}

impl Pair {
    /// A value that all pairs follow.
    pub fn start() -> Pair
        ensures p { result.p ≡ FIRST_TYPE }
        ensures q { result.q ≡ FIRST_TYPE }
    {
        Pair {
            p: FIRST_TYPE,
            q: FIRST_TYPE,
        }
    }
}

/// Whether two ids, which are no ends, are live and of one type.
pub(crate) fn is_pair(graph: &PartGraph, p: u32, q: u32) -> bool
    requires low { FIRST_TYPE ≤ p }
    requires order { p < q }
    ensures { IsTrue result ↔ IsPair (G (graph.now).traces) p q }
{
    graph.type_of(p) == graph.type_of(q) && graph.is_live(p) && graph.is_live(q)
}

/// The lowest id, at or above `from`, that is a pair with p; `None` if there is none.
fn next_partner(graph: &PartGraph, p: u32, from: u32) -> Option<u32>
    requires low { FIRST_TYPE ≤ p }
    requires order { p < from }
    ensures next { MatchOption result
        (HasNoPartner (G (graph.now).traces) p from)
        (λ q. IsNextPartner (G (graph.now).traces) p from q) }
    ensures limit { IfSome result (λ q. q < MAX_PARTITIONS) }
{
    if !graph.is_live(p) {
        return None;
    }
    for q in from..graph.ids_used() {
        if is_pair(graph, p, q) {
            return Some(q);
        }
    }
    None
}

/// The first pair after `at`, by the lower id and then by the higher one; `None` if there is none.
pub(crate) fn next_pair(graph: &PartGraph, at: Pair) -> Option<Pair>
    requires low { FIRST_TYPE ≤ at.p }
    requires order { at.p ≤ at.q }
    requires limit { at.q < MAX_PARTITIONS }

    // What the next pair is, and what holds of all ids of the graph.
    ensures next { MatchOption result
        (HasNoPairBehind (G (graph.now).traces) at.p at.q)
        (λ pair. IsNextPair (G (graph.now).traces) at.p at.q pair.p pair.q) }
    ensures limit { IfSome result (λ pair. pair.q < MAX_PARTITIONS) }
    ensures ids { HasIds graph.now }
{
    let used = graph.ids_used();
    if let Some(q) = next_partner(graph, at.p, at.q + 1) {
        return Some(Pair { p: at.p, q });
    }
    for p in at.p + 1..used {
        if let Some(q) = next_partner(graph, p, p + 1) {
            return Some(Pair { p, q });
        }
    }
    None
}
