//! The neighbours of an id in a graph as it would be if partition q were merged into partition p, as words of bits.
ghost use Rattle.std.specs.Prelude.{◌≡◌, ◌≢◌, ℕ, Bool, false, ◌/◌, ◌<◌, ◌==◌, ◌&&◌, not};
ghost use Rattle.std.specs.Bool.{OnTrue};
ghost use Rattle.partition_model.specs.Graphs.{merged_edge};
ghost use Rattle.partition_model.specs.Assignments.{G};
ghost use Rattle.partition_model.specs.Coarsening.{IsPair};
ghost use Rattle.partition_graph.specs.MergedNeighbours.{gained_source, gained_target, kept_source, kept_target, own_source, own_target};
ghost use Rattle.partition_graph.specs.NeighbourWords.{ArePlaces, IsWordOf};
ghost use Rattle.partition_graph.specs.declared.id_rows.TheConstants.{ID_WORDS};

use crate::graph::PartGraph;
use crate::id_rows::{ID_WORDS, WORD_BITS};
use limits::MAX_PARTITIONS;

/// The ids from `64 * place` on that have an edge to v in the merged graph.
#[inline]
pub fn merged_source_word(graph: &PartGraph, p: u32, q: u32, v: u32, place: usize) -> u64
    requires pair { IsPair (G (graph.now).traces) p q }
    requires place { place < ID_WORDS }
    ensures { IsWordOf (λ u. merged_edge (G (graph.now).traces) p q u v) place result }
{
    if v == q {
        return 0;
    }
    if is_apart(p, q, v, place) {
        return graph.source_word(v, place);
    }
    let own = own_source_word(graph, q, v, place);
    let gained = gained_source_word(graph, p, q, v, place);
    let kept = kept_source_word(graph, p, q, v, place);
    own | (gained | kept)
}

/// The ids other than q that have an edge to v.
#[inline]
fn own_source_word(graph: &PartGraph, q: u32, v: u32, place: usize) -> u64
    requires { place < ID_WORDS }
    ensures { IsWordOf (own_source (G (graph.now).traces) q v) place result }
{
    without_id(graph.source_word(v, place), q, place)
}

/// If v is p, the ids other than q that have an edge to q. None if v is not p.
#[inline]
fn gained_source_word(graph: &PartGraph, p: u32, q: u32, v: u32, place: usize) -> u64
    requires { place < ID_WORDS }
    ensures { IsWordOf (gained_source (G (graph.now).traces) p q v) place result }
{
    if v != p {
        return 0;
    }
    own_source_word(graph, q, q, place)
}

/// The id p, if q has an edge to v, or to itself if v is p.
#[inline]
fn kept_source_word(graph: &PartGraph, p: u32, q: u32, v: u32, place: usize) -> u64
    ensures { IsWordOf (kept_source (G (graph.now).traces) p q v) place result }
{
    let bit = only_id(p, place);
    if bit == 0 {
        return 0;
    }
    if graph.has_edge(q, v) {
        return bit;
    }
    if v == p && graph.has_edge(q, q) {
        return bit;
    }
    0
}

/// The ids from `64 * place` on to which u has an edge in the merged graph.
#[inline]
pub fn merged_target_word(graph: &PartGraph, p: u32, q: u32, u: u32, place: usize) -> u64
    requires pair { IsPair (G (graph.now).traces) p q }
    requires place { place < ID_WORDS }
    ensures { IsWordOf (λ v. merged_edge (G (graph.now).traces) p q u v) place result }
{
    if u == q {
        return 0;
    }
    if is_apart(p, q, u, place) {
        return graph.target_word(u, place);
    }
    let own = own_target_word(graph, q, u, place);
    let gained = gained_target_word(graph, p, q, u, place);
    let kept = kept_target_word(graph, p, q, u, place);
    own | (gained | kept)
}

/// The ids other than q to which u has an edge.
#[inline]
fn own_target_word(graph: &PartGraph, q: u32, u: u32, place: usize) -> u64
    requires { place < ID_WORDS }
    ensures { IsWordOf (own_target (G (graph.now).traces) q u) place result }
{
    without_id(graph.target_word(u, place), q, place)
}

/// If u is p, the ids other than q to which q has an edge. None if u is not p.
#[inline]
fn gained_target_word(graph: &PartGraph, p: u32, q: u32, u: u32, place: usize) -> u64
    requires { place < ID_WORDS }
    ensures { IsWordOf (gained_target (G (graph.now).traces) p q u) place result }
{
    if u != p {
        return 0;
    }
    own_target_word(graph, q, q, place)
}

/// The id p, if u has an edge to q, or q to itself if u is p.
#[inline]
fn kept_target_word(graph: &PartGraph, p: u32, q: u32, u: u32, place: usize) -> u64
    ensures { IsWordOf (kept_target (G (graph.now).traces) p q u) place result }
{
    let bit = only_id(p, place);
    if bit == 0 {
        return 0;
    }
    if graph.has_edge(u, q) {
        return bit;
    }
    if u == p && graph.has_edge(q, q) {
        return bit;
    }
    0
}

/// Whether an id is not p, and neither p nor q has its bit in the word at this place.
#[inline]
fn is_apart(p: u32, q: u32, id: u32, place: usize) -> bool
    ensures { OnTrue result ((id ≢ p) × (p / 64 ≢ place) × (q / 64 ≢ place)) }
{
    id != p && p as usize / WORD_BITS != place && q as usize / WORD_BITS != place
}

/// Whether an id is not p, and q is in none of these places.
#[inline]
fn is_bare(p: u32, q: u32, id: u32, places: u64) -> bool
    ensures { OnTrue result ((id ≢ p) × ((has : ℕ → Bool) → ArePlaces has places → has q ≡ false)) }
{
    id != p && lacks(places, q)
}

/// Whether the id is in none of these places. An id past the limit may be.
#[inline]
fn lacks(places: u64, id: u32) -> bool
    ensures { OnTrue result ((has : ℕ → Bool) → ArePlaces has places → has id ≡ false) }
{
    if id >= MAX_PARTITIONS {
        return false;
    }
    places & only_id(id / WORD_BITS as u32, 0) == 0
}

/// The word in which only the bit of the id is on; 0 if it is in another word.
#[inline]
fn only_id(id: u32, place: usize) -> u64
    ensures { IsWordOf (λ u. u == id) place result }
{
    let id = id as usize;
    if id / WORD_BITS != place {
        return 0;
    }
    1 << (id % WORD_BITS)
}

/// The word with the bit of the id off.
#[inline]
fn without_id(word: u64, id: u32, place: usize) -> u64
    ensures { (has : ℕ → Bool) → IsWordOf has place word
        → IsWordOf (λ u. not (u == id) && has u) place result }
{
    word & !only_id(id, place)
}

/// The places of `merged_source_word` at which there may be ids, as the bits of a word: the lowest is place 0.
#[inline]
pub fn merged_source_places(graph: &PartGraph, p: u32, q: u32, v: u32) -> u64
    ensures { ArePlaces (λ u. merged_edge (G (graph.now).traces) p q u v) result }
{
    let own = graph.source_places(v);
    if is_bare(p, q, v, own) {
        return own;
    }
    let gained = gained_source_places(graph, p, q, v);
    own | (gained | place_of(p))
}

/// If v is p, the places of the ids that have an edge to q. None if v is not p.
#[inline]
fn gained_source_places(graph: &PartGraph, p: u32, q: u32, v: u32) -> u64
    ensures { ArePlaces (gained_source (G (graph.now).traces) p q v) result }
{
    if v != p {
        return 0;
    }
    graph.source_places(q)
}

/// The places of `merged_target_word` at which there may be ids, as the bits of a word: the lowest is place 0.
#[inline]
pub fn merged_target_places(graph: &PartGraph, p: u32, q: u32, u: u32) -> u64
    ensures { ArePlaces (λ v. merged_edge (G (graph.now).traces) p q u v) result }
{
    let own = graph.target_places(u);
    if is_bare(p, q, u, own) {
        return own;
    }
    let gained = gained_target_places(graph, p, q, u);
    own | (gained | place_of(p))
}

/// If u is p, the places of the ids to which q has an edge. None if u is not p.
#[inline]
fn gained_target_places(graph: &PartGraph, p: u32, q: u32, u: u32) -> u64
    ensures { ArePlaces (gained_target (G (graph.now).traces) p q u) result }
{
    if u != p {
        return 0;
    }
    graph.target_places(q)
}

/// The word in which only the bit of the id's place is on; 0 if that is not among the first 64 places.
#[inline]
fn place_of(id: u32) -> u64
    ensures { ArePlaces (λ u. u == id) result }
{
    only_id(id / WORD_BITS as u32, 0)
}
