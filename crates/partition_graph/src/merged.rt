//! A graph as it would be if partition q were merged into partition p: q is replaced by p in ids and edges.
ghost use Rattle.std.specs.Prelude.{◌≡◌, IfSome};
ghost use Rattle.partition_model.specs.Graphs.{merged_edge};
ghost use Rattle.partition_model.specs.Assignments.{G};
ghost use Rattle.partition_model.specs.Coarsening.{IsPair};
ghost use Rattle.partition_graph.specs.MergedNeighbours.{gained_source, gained_target, kept_source, kept_target, own_source, own_target};
ghost use Rattle.partition_graph.specs.Nexts.{lesser, IsNextAnswer};
ghost use Rattle.partition_graph.specs.Parts.{IsUsed};

use crate::graph::PartGraph;

/// Whether the merged graph has an edge from u to v.
pub fn has_merged_edge(graph: &PartGraph, p: u32, q: u32, u: u32, v: u32) -> bool
    ensures { result ≡ merged_edge (G (graph.now).traces) p q u v }
{
    u != q
        && v != q
        && (graph.edge_count(u, v) > 0
            || (u == p && graph.edge_count(q, v) > 0)
            || (v == p && graph.edge_count(u, q) > 0)
            || (u == p && v == p && graph.edge_count(q, q) > 0))
}

/// The least id at or above `from` that has an edge to v in the merged graph; `None` if there is none.
pub fn next_merged_source(graph: &PartGraph, p: u32, q: u32, v: u32, from: u32) -> Option<u32>
    requires { IsPair (G (graph.now).traces) p q }
    ensures next { IsNextAnswer (λ u. merged_edge (G (graph.now).traces) p q u v) from result }
    ensures within { IfSome result (IsUsed graph.now) }
{
    if v == q {
        return None;
    }
    if v != p && !graph.has_edge(q, v) {
        // No edge to v changes.
        return graph.next_source(v, from);
    }
    let own = next_own_source(graph, q, v, from);
    let gained = next_gained_source(graph, p, q, v, from);
    let kept = next_kept_source(graph, p, q, v, from);
    lesser(own, lesser(gained, kept))
}

/// The least id other than q, at or above `from`, that has an edge to v; `None` if there is none.
fn next_own_source(graph: &PartGraph, q: u32, v: u32, from: u32) -> Option<u32>
    ensures next { IsNextAnswer (own_source (G (graph.now).traces) q v) from result }
    ensures within { IfSome result (IsUsed graph.now) }
{
    let first = graph.next_source(v, from)?;
    if first != q {
        return Some(first);
    }
    graph.next_source(v, q + 1)
}

/// If v is p, the least id other than q, at or above `from`, that has an edge to q. `None` if there is none, or if v is
/// not p.
fn next_gained_source(graph: &PartGraph, p: u32, q: u32, v: u32, from: u32) -> Option<u32>
    ensures next { IsNextAnswer (gained_source (G (graph.now).traces) p q v) from result }
    ensures within { IfSome result (IsUsed graph.now) }
{
    if v != p {
        return None;
    }
    next_own_source(graph, q, q, from)
}

/// The id p, if it is at or above `from` and q has an edge to v, or to itself if v is p. `None` if not.
fn next_kept_source(graph: &PartGraph, p: u32, q: u32, v: u32, from: u32) -> Option<u32>
    requires { IsPair (G (graph.now).traces) p q }
    ensures next { IsNextAnswer (kept_source (G (graph.now).traces) p q v) from result }
    ensures within { IfSome result (IsUsed graph.now) }
{
    if p < from {
        return None;
    }
    if graph.has_edge(q, v) {
        return Some(p);
    }
    if v == p && graph.has_edge(q, q) {
        return Some(p);
    }
    None
}

/// The least id at or above `from` to which u has an edge in the merged graph; `None` if there is none.
pub fn next_merged_target(graph: &PartGraph, p: u32, q: u32, u: u32, from: u32) -> Option<u32>
    requires { IsPair (G (graph.now).traces) p q }
    ensures next { IsNextAnswer (λ v. merged_edge (G (graph.now).traces) p q u v) from result }
    ensures within { IfSome result (IsUsed graph.now) }
{
    if u == q {
        return None;
    }
    if u != p && !graph.has_edge(u, q) {
        // No edge from u changes.
        return graph.next_target(u, from);
    }
    let own = next_own_target(graph, q, u, from);
    let gained = next_gained_target(graph, p, q, u, from);
    let kept = next_kept_target(graph, p, q, u, from);
    lesser(own, lesser(gained, kept))
}

/// The least id other than q, at or above `from`, to which u has an edge; `None` if there is none.
fn next_own_target(graph: &PartGraph, q: u32, u: u32, from: u32) -> Option<u32>
    ensures next { IsNextAnswer (own_target (G (graph.now).traces) q u) from result }
    ensures within { IfSome result (IsUsed graph.now) }
{
    let first = graph.next_target(u, from)?;
    if first != q {
        return Some(first);
    }
    graph.next_target(u, q + 1)
}

/// If u is p, the least id other than q, at or above `from`, to which q has an edge. `None` if there is none, or if u
/// is not p.
fn next_gained_target(graph: &PartGraph, p: u32, q: u32, u: u32, from: u32) -> Option<u32>
    ensures next { IsNextAnswer (gained_target (G (graph.now).traces) p q u) from result }
    ensures within { IfSome result (IsUsed graph.now) }
{
    if u != p {
        return None;
    }
    next_own_target(graph, q, q, from)
}

/// The id p, if it is at or above `from` and u has an edge to q, or q to itself if u is p. `None` if not.
fn next_kept_target(graph: &PartGraph, p: u32, q: u32, u: u32, from: u32) -> Option<u32>
    requires { IsPair (G (graph.now).traces) p q }
    ensures next { IsNextAnswer (kept_target (G (graph.now).traces) p q u) from result }
    ensures within { IfSome result (IsUsed graph.now) }
{
    if p < from {
        return None;
    }
    if graph.has_edge(u, q) {
        return Some(p);
    }
    if u == p && graph.has_edge(q, q) {
        return Some(p);
    }
    None
}

/// The lesser of two ids, either of which may be missing.
fn lesser(first: Option<u32>, second: Option<u32>) -> Option<u32>
    ensures { result ≡ lesser first second }
{
    let Some(x) = first else {
        return second;
    };
    let Some(y) = second else {
        return first;
    };
    Some(x.min(y))
}
