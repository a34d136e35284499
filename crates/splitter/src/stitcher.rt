//! Where a path leaves the traces.
ghost use Rattle.std.specs.Prelude.{◌≡◌, ◌<◌, ◌≤◌, ◌+◌, IfOk, IfSome, IsOk, Some, length, max, slice_get};
ghost use Rattle.partition_model.specs.Assignments.{events, id_list};
ghost use Rattle.partition_model.specs.Listings.{first_event};
ghost use Rattle.partition_model.specs.Refinement.{common, followed, stitch};

use limits::{INITIAL, TERMINAL};
use partition_graph::PartGraph;
use std::alloc::{AllocError, Global};
use std::marker::Model;

/// Finds the places at which paths leave the traces.
///
/// Contracts see how many events the graphs have for which it was made.
#[derive(Drop)]
pub struct Stitcher {
    event_count: u32,
}

impl Model for Stitcher {
    ghost use Rattle.std.specs.Prelude.{ℕ};

    ghost Value = { ℕ };

    ghost view = { λ s. s.event_count };
}

/// The number after that of the last event of trace t.
fn end_of(graph: &PartGraph, t: u32) -> u32
    requires { t < length (graph.now).traces }
    ensures { result ≡ first_event (graph.now).traces (t + 1) }
{
    let traces = graph.trace_count();
    if t + 1 < traces {
        return graph.first_event(t + 1);
    }
    graph.event_count()
}

/// How many leading ids of the path the ids of trace t begin with, including INITIAL and TERMINAL.
fn followed_in(graph: &PartGraph, path: &[u32], t: u32) -> usize
    requires starts { slice_get path.now 0 ≡ Some INITIAL }
    requires there { t < length (graph.now).traces }
    ensures { IfSome (slice_get (graph.now).traces t)
        (λ trace. result ≡ common path.now (id_list trace)) }
{
    let mut place = 1;
    for event in graph.first_event(t)..end_of(graph, t) {
        if path.get(place).copied() != Some(graph.part_of(event)) {
            return place;
        }
        place += 1;
    }
    if path.get(place).copied() == Some(TERMINAL) {
        return place + 1;
    }
    place
}

/// The greater one of `longest` and the number of leading ids of the path that the ids of trace t begin with. The
/// events of the trace are numbered from `first` on, and `end` is the number after the last.
///
/// A trace begins with more than `longest` of them only if its id at that place is the path's. No other trace is
/// followed.
fn longest_with(
    graph: &PartGraph,
    path: &[u32],
    t: u32,
    first: u32,
    end: u32,
    longest: usize,
) -> usize
    requires starts { slice_get path.now 0 ≡ Some INITIAL }
    requires there { t < length (graph.now).traces }
    requires first { first ≡ first_event (graph.now).traces t }
    requires end { end ≡ first_event (graph.now).traces (t + 1) }
    requires some { 0 < longest }
    requires within { longest < length path.now }

    // The greater one of the two.
    ensures { IfSome (slice_get (graph.now).traces t)
        (λ trace. result ≡ max longest (common path.now (id_list trace))) }
{
    let count = (end - first) as usize;
    let place = longest - 1;
    if place < count {
        if graph.part_of(first + place as u32) != path[longest] {
            return longest;
        }
    } else if place > count || path[longest] != TERMINAL {
        return longest;
    }
    longest.max(followed_in(graph, path, t))
}

/// The length of the longest prefix of the path with which the ids of some trace begin. It is at most `most`, so the
/// search ends at the first trace that begins with so many.
fn longest_front(graph: &PartGraph, path: &[u32], most: usize) -> usize
    requires starts { slice_get path.now 0 ≡ Some INITIAL }
    requires some { 0 < length (graph.now).traces }
    requires most { followed (graph.now).traces path.now ≤ most }
    requires within { most ≤ length path.now }
    ensures { result ≡ followed (graph.now).traces path.now }
{
    let mut longest = 1;
    let mut first = 0;
    for t in 0..graph.trace_count() {
        if longest >= most {
            return longest;
        }
        let end = end_of(graph, t);
        longest = longest_with(graph, path, t, first, end, longest);
        first = end;
    }
    longest
}

impl Stitcher {
    /// A stitcher for graphs with as many events as this one. It allocates nothing and never returns an error. It
    /// returns a `Result` because the other tools of inference do.
    pub fn make(alloc: Global, graph: &PartGraph) -> Result<Stitcher, AllocError>
        ensures value { IfOk result (λ s. s ≡ length (events (graph.now).traces)) }
        ensures never { IsOk result }
    {
        let _ = alloc;
        Ok(Stitcher {
            event_count: graph.event_count(),
        })
    }

    /// The place of the path's stitch: the last place, counted from 0, of the path's longest prefix with which the ids
    /// of some trace begin. The ids of a trace stand between those of INITIAL and TERMINAL. It allocates nothing.
    pub fn place(&mut self, graph: &PartGraph, path: &[u32]) -> usize
        requires starts { slice_get path.now 0 ≡ Some INITIAL }
        requires some { 0 < length (graph.now).traces }
        requires made { self.old ≡ length (events (graph.now).traces) }
        ensures value { result ≡ stitch (graph.now).traces path.now }
        ensures within { result < length path.now }
        ensures same { self.new ≡ self.old }
    {
        longest_front(graph, path, path.len()) - 1
    }

    /// The same for a path that no trace follows to its last id. The search ends at the first trace that follows the
    /// path to the id before the last.
    pub(crate) fn place_before_end(&self, graph: &PartGraph, path: &[u32]) -> usize
        requires starts { slice_get path.now 0 ≡ Some INITIAL }
        requires some { 0 < length (graph.now).traces }
        requires before { stitch (graph.now).traces path.now + 1 < length path.now }
        ensures { result ≡ stitch (graph.now).traces path.now }
    {
        longest_front(graph, path, path.len() - 1) - 1
    }
}
