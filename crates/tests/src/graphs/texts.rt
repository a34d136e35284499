//! The reports of a graph.
use crate::graphs::known::can_be_spread;
use crate::tools::{both, number};
use invariants::{Edge, Partition, Seq};
use partition_graph::PartGraph;
use std::alloc::{AllocError, Global};

/// The maximum number of ids that are listed one by one.
const FEW: usize = 40;

/// Appends a number to the text.
pub fn put_number(told: &mut String, number: u32) -> Result<(), AllocError> {
    write!(told, " {number}")
}

/// Appends ids to the text. If there are many, their number and a checksum are appended instead.
pub fn put_ids(told: &mut String, ids: &[u32]) -> Result<(), AllocError> {
    if ids.len() > FEW {
        let mut sum = 0u32;
        for id in ids {
            sum = sum.wrapping_mul(31).wrapping_add(*id);
        }
        return write!(told, " {} ids #{sum}", ids.len());
    }
    for id in ids {
        put_number(told, *id)?;
    }
    Ok(())
}

/// Appends the partitions to the text, each as its id, its type and its count.
fn put_partitions(told: &mut String, partitions: &[Partition]) -> Result<(), AllocError> {
    for partition in partitions {
        write!(
            told,
            " {}:{}*{}",
            partition.id, partition.typ, partition.count
        )?;
    }
    Ok(())
}

/// Appends the edges to the text, each as its ids and its count.
fn put_edges(told: &mut String, edges: &[Edge]) -> Result<(), AllocError> {
    for edge in edges {
        write!(told, " {}>{}*{}", edge.from, edge.to, edge.count)?;
    }
    Ok(())
}

/// Appends both lists to the text.
fn put_lists(told: &mut String, lists: &(Seq<Partition>, Seq<Edge>)) -> Result<(), AllocError> {
    put_partitions(told, lists.0.as_slice()).and(put_edges(told, lists.1.as_slice()))
}

/// Appends the id of each event to the text, with a bar after each trace.
fn put_events(told: &mut String, graph: &PartGraph) -> Result<(), AllocError> {
    told.push_str(" ")?;
    for event in 0..graph.event_count() {
        let last = graph.next_event(event).is_none();
        write!(
            told,
            "{}{}",
            graph.part_of(event),
            if last { "|" } else { "." }
        )?;
    }
    Ok(())
}

/// Appends the number of the first event of each trace to the text, and then how many ids are used.
fn put_firsts(told: &mut String, graph: &PartGraph) -> Result<(), AllocError> {
    for t in 0..graph.trace_count() {
        write!(told, "{}#", graph.first_event(t))?;
    }
    write!(told, "{}", graph.ids_used())
}

/// All reports of the graph: its partitions, its edges, the id of each event, the first event of each trace, and how many ids
/// are used.
pub fn put_graph(alloc: Global, told: &mut String, graph: &PartGraph) -> Result<(), AllocError> {
    let lists = both(graph.partitions(alloc), graph.edges(alloc))?;
    let end = put_lists(told, &lists);
    drop(lists);
    end.and(put_events(told, graph))
        .and(put_firsts(told, graph))
}

/// Appends a note to the text if the events of the graph have other ids than these.
fn put_note(
    alloc: Global,
    told: &mut String,
    graph: &PartGraph,
    ids: &[u32],
) -> Result<(), AllocError> {
    let parts = graph.parts(alloc)?;
    let note = if parts.as_slice() == ids {
        ""
    } else {
        " other ids:"
    };
    drop(parts);
    told.push_str(note)
}

/// The reports of the graph that is spread over traces with these numbers. Its lists are those that are made without it.
pub fn put_spread(
    alloc: Global,
    told: &mut String,
    graph: &PartGraph,
    numbers: &[u32],
) -> Result<(), AllocError> {
    if !can_be_spread(graph, numbers) {
        return told.push_str(" no");
    }
    let lists = graph.spread_lists(alloc, numbers);
    let made = both(
        graph.spread_parts(alloc, numbers),
        graph.spread(alloc, numbers),
    );
    let (lists, (ids, whole)) = both(lists, made)?;
    let end = put_note(alloc, told, &whole, ids.as_slice())
        .and(put_lists(told, &lists))
        .and(put_events(told, &whole))
        .and(put_firsts(told, &whole));
    drop(lists);
    drop(whole);
    end
}

/// How many ids are used, and how many events each of the given ids has. The ids are separated by spaces.
pub fn put_sizes(told: &mut String, graph: &PartGraph, ids: &str) -> Result<(), AllocError> {
    write!(told, " {}:", graph.ids_used())?;
    for id in ids.split_whitespace() {
        put_number(told, graph.size(number(id)))?;
    }
    Ok(())
}
