//! The reports of invariants, graphs and paths.

use crate::basics::candidates::invariant;
use crate::basics::mining::{numbers_of, traces_of};
use crate::basics::words::text;
use crate::tools::{both, halves, number, push};
use invariants::{Edge, Partition, Seq, Text};
use reports::{graph_report, invariant_report, path_report};
use std::alloc::{AllocError, Global};
use traces::TraceSet;

/// The texts of types, between spaces.
fn types_of(alloc: Global, words: &str) -> Result<Seq<Text>, AllocError> {
    let mut types = Vec::new(alloc);
    for word in words.split(' ') {
        push(
            &mut types,
            String::from_str(alloc, word).map(Text::from_string),
        )?;
    }
    Ok(Seq::from_vec(types))
}

/// Appends a report to the text.
fn put(report: Result<Seq<u8>, AllocError>, out: &mut String) -> Result<(), AllocError> {
    let report = report?;
    out.push_str(text(report.as_slice()))
}

/// `invariants TYPE TYPE ..|INVARIANT INVARIANT ..`
pub fn invariants(alloc: Global, words: &str, out: &mut String) -> Result<(), AllocError> {
    let (types, invs) = halves(words, '|');
    let invs = invs.split(' ').map(invariant).collect::<Vec<_>>(alloc);
    let (types, invs) = both(types_of(alloc, types), invs)?;
    put(invariant_report(alloc, &types, &invs), out)
}

/// The partition of an argument, for example `7,3,4`.
fn partition(word: &str) -> Partition {
    let (id, rest) = halves(word, ',');
    let (typ, count) = halves(rest, ',');
    Partition {
        id: number(id),
        typ: typ.parse().unwrap_or(0),
        count: number(count),
    }
}

/// The edge of an argument, for example `0,2,3`.
fn edge(word: &str) -> Edge {
    let (from, rest) = halves(word, ',');
    let (to, count) = halves(rest, ',');
    Edge {
        from: number(from),
        to: number(to),
        count: number(count),
    }
}

/// The partitions of arguments.
fn partitions_of(alloc: Global, words: &str) -> Result<Vec<Partition>, AllocError> {
    words.split(' ').map(partition).collect(alloc)
}

/// The edges of arguments.
fn edges_of(alloc: Global, words: &str) -> Result<Vec<Edge>, AllocError> {
    words
        .split(' ')
        .filter(|word| !word.is_empty())
        .map(edge)
        .collect(alloc)
}

/// `graph TYPE TYPE ..|PARTITION PARTITION ..|EDGE EDGE ..`
pub fn graph(alloc: Global, words: &str, out: &mut String) -> Result<(), AllocError> {
    let (types, rest) = halves(words, '|');
    let (partitions, edges) = halves(rest, '|');
    let numbers = both(partitions_of(alloc, partitions), edges_of(alloc, edges));
    let (types, (partitions, edges)) = both(types_of(alloc, types), numbers)?;
    put(graph_report(alloc, &types, &partitions, &edges), out)
}

/// Appends the report of the paths of a log to the text, if it has as many numbers as events.
fn put_paths(
    alloc: Global,
    traces: &TraceSet,
    numbers: &[u32],
    out: &mut String,
) -> Result<(), AllocError> {
    if numbers.len() != traces.event_count() as usize {
        return out.push_str("too many events");
    }
    put(path_report(alloc, traces, numbers), out)
}

/// `paths EVENT EVENT ..|EVENT ..`, each event as `TYPE@PARTITION`.
pub fn paths(alloc: Global, log: &str, out: &mut String) -> Result<(), AllocError> {
    let (traces, numbers) = both(traces_of(alloc, log), numbers_of(alloc, log))?;
    put_paths(alloc, &traces, &numbers, out)
}
