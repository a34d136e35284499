//! The lists of partitions and edges, read from the tables.
ghost use Rattle.std.specs.Prelude.{◌≡◌, ◌≤◌, ◌<◌, ◌++◌, ℕ, IfOk, OnOk, length};
ghost use Rattle.limits.specs.declared.TheConstants.{MAX_PARTITIONS};
ghost use Rattle.partition_model.specs.Assignments.{Assignment, is_live, IsTyped};
ghost use Rattle.partition_model.specs.Listings.{edges_below, edges_from, partition_of, partitions_below, AreBelow};
ghost use Rattle.partition_graph.specs.Parts.{start_of};
ghost use Rattle.partition_graph.specs.Tables.{IsCountedFor};

use crate::tables::Tables;
use invariants::{Edge, Partition, Seq};
use limits::FIRST_TYPE;
use std::alloc::{AllocError, Global};
use traces::TraceSet;

/// Whether an id is live: it is that of INITIAL or TERMINAL, or it has events.
fn is_live(tables: &Tables, p: u32) -> bool
    requires { p < MAX_PARTITIONS }
    ensures { (h : Assignment) (n : ℕ) → IsCountedFor tables.now n h → result ≡ is_live h p }
{
    p < FIRST_TYPE || tables.size_at(p) > 0
}

/// The partition with this id. The count of each of the two ends is the number of traces.
fn partition_at(tables: &Tables, trace_count: u32, p: u32) -> Partition
    requires { p < MAX_PARTITIONS }
    ensures { (h : Assignment) → IsCountedFor tables.now trace_count h → result ≡ partition_of h p }
{
    if p < FIRST_TYPE {
        return Partition {
            id: p,
            typ: p as u16,
            count: trace_count,
        };
    }
    Partition {
        id: p,
        typ: tables.type_at(p),
        count: tables.size_at(p),
    }
}

/// The live partitions with ids below `used`, in the order of their ids. `AllocError` is returned if there is not enough
/// memory.
pub fn partitions_of(
    alloc: Global,
    tables: &Tables,
    trace_count: u32,
    used: u32,
) -> Result<Seq<Partition>, AllocError>
    requires { used ≤ MAX_PARTITIONS }
    ensures { (h : Assignment) → IsCountedFor tables.now trace_count h
        → IfOk result (λ list. list ≡ partitions_below used h) }
{
    let mut list = Vec::new(alloc);
    for p in 0..used {
        if is_live(tables, p) {
            list.push(partition_at(tables, trace_count, p))?;
        }
    }
    Ok(Seq::from_vec(list))
}

/// The edges between ids below `used` whose count is above 0, in the order of the ids that they leave and then of those
/// that they enter. `AllocError` is returned if there is not enough memory.
pub fn edges_of(alloc: Global, tables: &Tables, used: u32) -> Result<Seq<Edge>, AllocError>
    requires { used ≤ MAX_PARTITIONS }
    ensures { (h : Assignment) (n : ℕ) → IsCountedFor tables.now n h
        → IfOk result (λ list. list ≡ edges_below used h) }
{
    let mut list = Vec::new(alloc);
    for p in 0..used {
        push_edges_from(tables, used, p, &mut list)?;
    }
    Ok(Seq::from_vec(list))
}

/// Appends the edges that leave p.
fn push_edges_from(
    tables: &Tables,
    used: u32,
    p: u32,
    list: &mut Vec<Edge>,
) -> Result<(), AllocError>
    requires limit { used ≤ MAX_PARTITIONS }
    requires from { p < MAX_PARTITIONS }
    ensures { (h : Assignment) (n : ℕ) → IsCountedFor tables.now n h
        → OnOk result (list.new.items ≡ list.old.items ++ edges_from used h p) }
{
    let mut reached = 0;
    while let Some(q) = tables.next_target(p, reached) {
        if q >= used {
            return Ok(());
        }
        list.push(Edge {
            from: p,
            to: q,
            count: tables.count_at(p, q),
        })?;
        reached = q + 1;
    }
    Ok(())
}

/// The partitions and the edges. `AllocError` is returned if there is not enough memory.
pub fn lists_of(
    alloc: Global,
    tables: &Tables,
    trace_count: u32,
    used: u32,
) -> Result<(Seq<Partition>, Seq<Edge>), AllocError>
    requires { used ≤ MAX_PARTITIONS }
    ensures partitions { (h : Assignment) → IsCountedFor tables.now trace_count h
        → IfOk result (λ pair. pair.0 ≡ partitions_below used h) }
    ensures edges { (h : Assignment) → IsCountedFor tables.now trace_count h
        → IfOk result (λ pair. pair.1 ≡ edges_below used h) }
{
    let partitions = partitions_of(alloc, tables, trace_count, used)?;
    let edges = edges_of(alloc, tables, used)?;
    Ok((partitions, edges))
}

/// The partitions and the edges of the graph that `PartGraph::open` makes of these traces. Each event is visited once, and
/// no memory is taken for the events. It allocates for `MAX_PARTITIONS` ids. `AllocError` is returned if there is not enough
/// memory.
pub fn start_lists(
    alloc: Global,
    traces: &TraceSet,
) -> Result<(Seq<Partition>, Seq<Edge>), AllocError>
    ensures partitions { IfOk result (λ pair. pair.0
        ≡ partitions_below (start_of traces.now).used (start_of traces.now).traces) }
    ensures edges { IfOk result (λ pair. pair.1
        ≡ edges_below (start_of traces.now).used (start_of traces.now).traces) }

    // Which ids events have.
    ensures typed { IfOk result (λ pair. IsTyped (start_of traces.now).traces) }
    ensures below { IfOk result (λ pair.
        AreBelow (start_of traces.now).used (start_of traces.now).traces) }
{
    let used = traces.types().len() as u32 + FIRST_TYPE;
    let tables = Tables::of_words(alloc, traces)?;
    let lists = lists_of(alloc, &tables, traces.trace_count(), used);
    drop(tables);
    lists
}
