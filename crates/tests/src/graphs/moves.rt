//! Splits and merges of a graph.
use crate::graphs::known::is_pair;
use crate::tools::{halves, number};
use partition_graph::PartGraph;
use std::alloc::AllocError;

/// The two numbers around a sign.
pub fn pair_of(text: &str, sign: char) -> Option<(u32, u32)> {
    let (p, q) = text.split_once(sign)?;
    Some((number(p), number(q)))
}

/// Merges a pair, and returns whether it is one, and no event of q is left.
fn merge(graph: &mut PartGraph, p: u32, q: u32) -> bool {
    if !is_pair(graph, p, q) {
        return false;
    }
    graph.merge(p, q);
    !graph.is_live(q) && graph.type_of(q) == 0
}

/// Makes a split, for example `3/6`, and reports the new id; or a merge, for example `2+4`, and reports whether it could be
/// made.
fn put_move(told: &mut String, graph: &mut PartGraph, text: &str) -> Result<(), AllocError> {
    if let Some((p, next)) = pair_of(text, '/') {
        return match graph.split(p, next) {
            Some(id) => write!(told, " {id}"),
            None => told.push_str(" none"),
        };
    }
    let (p, q) = pair_of(text, '+').unwrap_or((0, 0));
    told.push_str(if merge(graph, p, q) { " yes" } else { " no" })
}

/// Makes the moves between spaces.
pub fn put_moves(told: &mut String, graph: &mut PartGraph, moves: &str) -> Result<(), AllocError> {
    for text in moves.split_whitespace() {
        put_move(told, graph, text)?;
    }
    Ok(())
}

/// Splits p by an id, then by the new id, and so on, up to a number of times, as long as there is a new id. Reports how often
/// there was one, and the last one.
fn put_chain(
    told: &mut String,
    graph: &mut PartGraph,
    p: u32,
    first: u32,
    count: u32,
) -> Result<(), AllocError> {
    let mut next = first;
    for made in 0..count {
        let used = graph.ids_used();
        if graph.split(p, next) != Some(used) {
            return write!(told, " {made} {next}");
        }
        next = used;
    }
    write!(told, " {count} {next}")
}

/// The same for the moves of a text, for example `3/6 1017`.
pub fn put_chain_of(
    told: &mut String,
    graph: &mut PartGraph,
    text: &str,
) -> Result<(), AllocError> {
    let (split, count) = halves(text, ' ');
    let (p, first) = pair_of(split, '/').unwrap_or((0, 0));
    put_chain(told, graph, p, first, number(count))
}
