//! Paths that break invariants, and the places at which paths leave the traces.
ghost use Rattle.std.specs.Prelude.{◌≡◌, ◌<◌, length};
ghost use Rattle.partition_model.specs.Assignments.{G, events};
ghost use Rattle.partition_model.specs.Coarsening.{IsPair};

use crate::graphs::known::is_pair;
use crate::graphs::moves::pair_of;
use crate::graphs::texts::put_ids;
use invariants::{Invariant, Merge};
use limits::INITIAL;
use partition_graph::{PartGraph, View};
use path_finder::Finder;
use splitter::Stitcher;
use std::alloc::{AllocError, Global};
use std::marker::Brand;
use std::sync::ledger::{Blank, Ledger};
use steps::Steps;

/// Appends a path to the text, if there is one.
fn put_path(told: &mut String, path: Option<&[u32]>) -> Result<(), AllocError> {
    match path {
        Some(path) => put_ids(told, path),
        None => told.push_str(" -"),
    }
}

/// Appends the shortest counterexample path of the invariant to the text, after a merge if one is given, with a counter that
/// nobody reads.
fn put_least<L: Ledger>(
    told: &mut String,
    finder: &mut Finder,
    graph: &PartGraph,
    merge: Option<Merge>,
    inv: Invariant,
    blank: Blank,
) -> Result<(), AllocError>
    requires name { blank.name ≡ L.name }
    requires parts { blank.parts ≡ L.parts }
    requires stands { 0 < blank.parts }
{
    let mut steps = Steps::<L>::open(blank);
    let Some(pair) = merge else {
        return put_path(
            told,
            finder.least_violation(&View::Plain(graph), inv, &mut steps),
        );
    };
    if !is_pair(graph, pair.p, pair.q) {
        return told.push_str(" no");
    }
    put_path(told, finder.least_loss(graph, pair, inv, false, &mut steps))
}

/// The merge of a pair, for example `2+5`, if one is given.
fn merge_of(pair: &str) -> Option<Merge> {
    let (p, q) = pair_of(pair, '+')?;
    Some(Merge { p, q })
}

/// Appends the shortest counterexample path of each invariant to the text, after the merge of a pair, for example `2+5`, if one
/// is given.
pub fn put_paths(
    told: &mut String,
    finder: &mut Finder,
    graph: &PartGraph,
    invs: &[Invariant],
    pair: &str,
) -> Result<(), AllocError> {
    let merge = merge_of(pair);
    for inv in invs {
        put_least::<Brand>(told, finder, graph, merge, *inv, Blank::new(1)).and(told.push_str(
            ";",
        ))?;
    }
    Ok(())
}

/// The path with these ids, each of one digit.
fn path_of(alloc: Global, ids: &str) -> Result<Vec<u32>, AllocError> {
    let mut path = Vec::new(alloc);
    for digit in ids.as_bytes() {
        path.push(u32::from(digit.wrapping_sub(b'0')))?;
    }
    Ok(path)
}

/// Appends the place of the path's stitch to the text, if the path begins with INITIAL and there is a trace.
fn put_place(
    alloc: Global,
    told: &mut String,
    stitcher: &mut Stitcher,
    graph: &PartGraph,
    ids: &str,
) -> Result<(), AllocError>
    requires { stitcher.old ≡ length (events (graph.now).traces) }
    ensures { stitcher.new ≡ stitcher.old }
{
    let path = path_of(alloc, ids)?;
    if graph.trace_count() > 0 && path.first() == Some(&INITIAL) {
        let place = stitcher.place(graph, path.as_slice());
        write!(told, " {place}")?;
    }
    Ok(())
}

/// Appends the places of the stitches of paths, which are separated by spaces, to the text, with one stitcher.
pub fn put_places(
    alloc: Global,
    told: &mut String,
    graph: &PartGraph,
    paths: &str,
) -> Result<(), AllocError> {
    let mut stitcher = Stitcher::make(alloc, graph)?;
    for ids in paths.split_whitespace() {
        put_place(alloc, told, &mut stitcher, graph, ids)?;
    }
    Ok(())
}
