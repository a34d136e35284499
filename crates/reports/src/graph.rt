//! The text of a graph.
ghost use Rattle.std.specs.Prelude.{◌≡◌, ◌++◌, OnOk, IfOk};
ghost use Rattle.reports.specs.Reports.{shown_as, count_of, edge_text, found_at, graph_report};

use crate::name::Names;
use crate::number::push_number;
use crate::partitions::by_id;
use invariants::{Edge, Partition, Seq, Text};
use limits::{INITIAL, TERMINAL};
use std::alloc::{AllocError, Global};
use std::collections::BTreeMap;

/// Appends a partition to the text: the name of its type, `@`, and its id; for an end, only its name.
fn push_partition(
    text: &mut Vec<u8>,
    names: &Names<'_>,
    found: Option<Partition>,
    id: u32,
) -> Result<(), AllocError>
    ensures { OnOk result (text.new.items ≡ text.old.items ++ shown_as names.now found id) }
{
    match id {
        INITIAL => text.extend_from_slice(b"INITIAL"),
        TERMINAL => text.extend_from_slice(b"TERMINAL"),
        _ => {
            if let Some(partition) = found {
                names.push_name(text, partition.typ)?;
            }
            text.push(b'@')?;
            push_number(text, id)
        }
    }
}

/// The number of events of the partition; 0 if there is none.
fn count_of(found: Option<Partition>) -> u32
    ensures { result ≡ count_of found }
{
    match found {
        Some(partition) => partition.count,
        None => 0,
    }
}

/// Appends the line of an edge to the text.
fn push_edge(
    text: &mut Vec<u8>,
    names: &Names<'_>,
    edge: Edge,
    from: Option<Partition>,
    to: Option<Partition>,
) -> Result<(), AllocError>
    ensures { OnOk result (text.new.items ≡ text.old.items ++ edge_text names.now edge from to) }
{
    push_partition(text, names, from, edge.from)?;
    text.extend_from_slice(b" -> ")?;
    push_partition(text, names, to, edge.to)?;
    text.extend_from_slice(b": ")?;
    push_number(text, edge.count)?;
    text.extend_from_slice(b" of ")?;
    push_number(text, count_of(from))?;
    text.push(10)?;
    Ok(())
}

/// Appends the line of an edge to the text. Its partitions are found by their ids.
fn push_line(
    text: &mut Vec<u8>,
    names: &Names<'_>,
    places: &BTreeMap<u32, Partition>,
    edge: Edge,
) -> Result<(), AllocError>
    ensures { OnOk result (text.new.items ≡ text.old.items
        ++ edge_text names.now edge (found_at places.now edge.from) (found_at places.now edge.to)) }
{
    let from = places.get(&edge.from).copied();
    let to = places.get(&edge.to).copied();
    push_edge(text, names, edge, from, to)
}

/// The text of a graph, one edge per line in the order given, for example `"a"@2 -> "b"@3: 2 of 5`. A line has the partitions
/// that the edge leaves and enters, each with the text of its type as a JSON string and its id. The count of the edge and that
/// of the partition that it leaves follow.
///
/// The two ends are shown as `INITIAL` and `TERMINAL`, without an id. If no partition has an id, its type is shown as the empty
/// text and its count as 0. If several partitions have one id, the first is shown. Each line ends with byte 10.
///
/// The only error is out of memory.
pub fn graph_report(
    alloc: Global,
    types: &Seq<Text>,
    partitions: &[Partition],
    edges: &[Edge],
) -> Result<Seq<u8>, AllocError>
    ensures { IfOk result (λ text. text ≡ graph_report types.now partitions.now edges.now) }
{
    let places = by_id(alloc, partitions)?;
    let names = Names::make(alloc, types)?;
    let mut text = Vec::new(alloc);
    for edge in edges {
        push_line(&mut text, &names, &places, *edge)?;
    }
    Ok(Seq::from_vec(text))
}
