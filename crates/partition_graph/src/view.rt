//! Views of a graph: as it is, or as it would be after a merge.
ghost use Rattle.std.specs.Prelude.{◌≡◌, ◌≤◌, ◌<◌, IfSome, MatchOption};
ghost use Rattle.partition_graph.specs.Parts.{HasEdgesBelow};
ghost use Rattle.partition_graph.specs.NeighbourWords.{ArePlaces, IsWordOf};
ghost use Rattle.partition_graph.specs.Neighbours.{HasNoSource, HasNoTarget, IsNextSource, IsNextTarget};
ghost use Rattle.partition_graph.specs.Seen.{parts_seen, seen, IsSound};
ghost use Rattle.partition_graph.specs.declared.id_rows.TheConstants.{ID_WORDS};

use crate::graph::PartGraph;
use crate::id_rows::ID_WORDS;
use crate::merged::{has_merged_edge, next_merged_source, next_merged_target};
use crate::merged_words::{
    merged_source_places, merged_source_word, merged_target_places, merged_target_word,
};
use limits::{FIRST_TYPE, MAX_PARTITIONS};

/// A graph in which edges, neighbours and paths are looked up.
#[derive(Clone, Copy)]
pub enum View<'a> {
    /// The graph as it is.
    Plain(&'a PartGraph),
    /// The graph as it would be after `merge(p, q)`; the merge is not made. The two are partitions of one type, and p
    /// is the lower id. If they are not, the view still shows q replaced by p in the edges.
    Merged(&'a PartGraph, u32, u32),
}

impl View<'_> {
    /// Whether there is an edge from p to q.
    pub fn has_edge(&self, p: u32, q: u32) -> bool
        ensures { result ≡ (seen self.now).edge p q }
    {
        match self {
            View::Plain(graph) => graph.edge_count(p, q) > 0,
            View::Merged(graph, kept, gone) => has_merged_edge(graph, *kept, *gone, p, q),
        }
    }

    /// The type of p, or 0 if p is neither an end nor has events. In a merged view, the id that is merged away still
    /// has the type of its events.
    pub fn type_of(&self, p: u32) -> u16
        ensures { result ≡ (seen self.now).typ p }
    {
        match self {
            View::Plain(graph) => graph.type_of(p),
            View::Merged(graph, _, _) => graph.type_of(p),
        }
    }

    /// How many ids are used: edges go between ids below this number.
    pub fn ids_used(&self) -> u32
        ensures value { result ≡ (parts_seen self.now).used }
        ensures two { FIRST_TYPE ≤ result }
        ensures limit { result ≤ MAX_PARTITIONS }
        ensures within { IsSound self.now → HasEdgesBelow (seen self.now) result }
    {
        match self {
            View::Plain(graph) => graph.ids_used(),
            View::Merged(graph, _, _) => graph.ids_used(),
        }
    }

    /// The least id at or above `from` that has an edge to q; `None` if there is none.
    pub fn next_source(&self, q: u32, from: u32) -> Option<u32>
        requires { IsSound self.now }
        ensures next { MatchOption result
            (HasNoSource (seen self.now) q from) (λ p. IsNextSource (seen self.now) q from p) }
        ensures within { IfSome result (λ p. (p < (parts_seen self.now).used) × (p < MAX_PARTITIONS)) }
    {
        match self {
            View::Plain(graph) => graph.next_source(q, from),
            View::Merged(graph, kept, gone) => next_merged_source(graph, *kept, *gone, q, from),
        }
    }

    /// The least id at or above `from` to which p has an edge; `None` if there is none.
    pub fn next_target(&self, p: u32, from: u32) -> Option<u32>
        requires { IsSound self.now }
        ensures next { MatchOption result
            (HasNoTarget (seen self.now) p from) (λ q. IsNextTarget (seen self.now) p from q) }
        ensures within { IfSome result (λ q. (q < (parts_seen self.now).used) × (q < MAX_PARTITIONS)) }
    {
        match self {
            View::Plain(graph) => graph.next_target(p, from),
            View::Merged(graph, kept, gone) => next_merged_target(graph, *kept, *gone, p, from),
        }
    }

    /// The ids from `64 * place` on that have an edge to q, as a word whose lowest bit is the first of them.
    #[inline]
    pub fn source_word(&self, q: u32, place: usize) -> u64
        requires sound { IsSound self.now }
        requires place { place < ID_WORDS }
        ensures { IsWordOf (λ p. (seen self.now).edge p q) place result }
    {
        match self {
            View::Plain(graph) => graph.source_word(q, place),
            View::Merged(graph, kept, gone) => merged_source_word(graph, *kept, *gone, q, place),
        }
    }

    /// The ids from `64 * place` on to which p has an edge, as a word whose lowest bit is the first of them.
    #[inline]
    pub fn target_word(&self, p: u32, place: usize) -> u64
        requires sound { IsSound self.now }
        requires place { place < ID_WORDS }
        ensures { IsWordOf (λ q. (seen self.now).edge p q) place result }
    {
        match self {
            View::Plain(graph) => graph.target_word(p, place),
            View::Merged(graph, kept, gone) => merged_target_word(graph, *kept, *gone, p, place),
        }
    }

    /// The places of `source_word` at which there may be ids, as the bits of a word: the lowest is place 0.
    #[inline]
    pub fn source_places(&self, q: u32) -> u64
        requires { IsSound self.now }
        ensures { ArePlaces (λ p. (seen self.now).edge p q) result }
    {
        match self {
            View::Plain(graph) => graph.source_places(q),
            View::Merged(graph, kept, gone) => merged_source_places(graph, *kept, *gone, q),
        }
    }

    /// The places of `target_word` at which there may be ids, as the bits of a word: the lowest is place 0.
    #[inline]
    pub fn target_places(&self, p: u32) -> u64
        requires { IsSound self.now }
        ensures { ArePlaces (λ q. (seen self.now).edge p q) result }
    {
        match self {
            View::Plain(graph) => graph.target_places(p),
            View::Merged(graph, kept, gone) => merged_target_places(graph, *kept, *gone, p),
        }
    }
}
