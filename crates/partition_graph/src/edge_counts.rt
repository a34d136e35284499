//! The counts of edges between ids, and which of them are above 0.
ghost use Rattle.std.specs.Prelude.{◌≡◌, ◌≢◌, ◌==◌, ◌&&◌, if◌then◌else◌, ◌+◌, ◌<◌, ◌≤◌, ◌^◌, ℕ, false, true, nat_lt, length, slice_index, vec_capacity, IfOk};
ghost use Rattle.limits.specs.declared.TheConstants.{MAX_PARTITIONS};
ghost use Rattle.bit_rows.specs.Tables.{row_at, is_set};
ghost use Rattle.partition_graph.specs.Counts.{is_edge};
ghost use Rattle.partition_graph.specs.Joins.{joined_counts, with_sources, with_targets};
ghost use Rattle.partition_graph.specs.Marks.{count_in, HasIdRows, IsWithBit, NoneCounted};

mod neighbours;

use crate::id_rows::IdRows;
use limits::MAX_PARTITIONS;
use std::alloc::{AllocError, Global};
use std::marker::Model;

/// How many ids the counts are made for.
const IDS: usize = MAX_PARTITIONS as usize;

/// A count for each edge between ids below `MAX_PARTITIONS`. Contracts see a list of counts: that of the edge from p to q
/// stands at the place q * `MAX_PARTITIONS` + p. A list that ends before a place has a count of 0 there, so a graph of few
/// ids fills little of the room.
#[derive(Drop)]
pub struct EdgeCounts {
    counts: Vec<u32>,
    /// The ids from which an edge leads to the id of the row.
    sources: IdRows,
    /// The ids to which an edge leads from the id of the row.
    targets: IdRows,
}

impl Model for EdgeCounts {
    ghost use Rattle.std.specs.Prelude.{ℕ, List};
    ghost use Rattle.partition_graph.specs.Marks.{HasEdgeRoom, IsMarked};

    ghost Value = { List ℕ };

    ghost view = { λ s. s.counts.items };

    ghost invariant = { λ s. HasEdgeRoom s.counts × IsMarked s.counts.items s.sources s.targets };
}

impl EdgeCounts {
    /// Counts of 0. It allocates for all edges. Only this call allocates; `AllocError` is returned if there is not
    /// enough memory.
    pub fn make(alloc: Global) -> Result<EdgeCounts, AllocError>
        ensures { IfOk result (λ made. NoneCounted made) }
    {
        let counts = Vec::with_capacity(alloc, IDS * IDS)?;
        let sources = IdRows::make(alloc)?;
        let targets = IdRows::make(alloc)?;
        Ok(EdgeCounts {
            counts,
            sources,
            targets,
        })
    }

    /// The count of the edge from p to q.
    pub fn get(&self, p: u32, q: u32) -> u32
        requires from { p < MAX_PARTITIONS }
        requires to { q < MAX_PARTITIONS }
        ensures { result ≡ count_in self.now p q }
    {
        count_at(self.counts.as_slice(), q as usize * IDS + p as usize)
    }

    /// Counts an edge once more.
    #[inline]
    pub fn add(&mut self, from: u32, to: u32)
        requires from { from < MAX_PARTITIONS }
        requires to { to < MAX_PARTITIONS }
        requires few { count_in self.old from to + 1 < 2 ^ 32 }
        ensures { (p q : ℕ) → p < MAX_PARTITIONS → q < MAX_PARTITIONS
            → count_in self.new p q ≡ count_in self.old p q + is_edge from to p q }
    {
        let from = from as usize;
        let to = to as usize;
        let place = to * IDS + from;
        if count_at(self.counts.as_slice(), place) == 0 {
            self.add_first(from, to);
            return;
        }
        self.counts[place] += 1;
    }

    /// Counts an edge that is not counted yet. It stands apart, so that what `add` inlines stays small.
    #[cold]
    #[inline(never)]
    fn add_first(&mut self, from: usize, to: usize)
        requires from { from < MAX_PARTITIONS }
        requires to { to < MAX_PARTITIONS }
        requires none { count_in self.old from to ≡ 0 }
        ensures { (p q : ℕ) → p < MAX_PARTITIONS → q < MAX_PARTITIONS
            → count_in self.new p q ≡ count_in self.old p q + is_edge from to p q }
    {
        self.put(from, to, 1);
    }

    /// Counts an edge once less.
    #[inline]
    pub fn remove(&mut self, from: u32, to: u32)
        requires from { from < MAX_PARTITIONS }
        requires to { to < MAX_PARTITIONS }
        requires some { 0 < count_in self.old from to }
        ensures { (p q : ℕ) → p < MAX_PARTITIONS → q < MAX_PARTITIONS
            → count_in self.new p q + is_edge from to p q ≡ count_in self.old p q }
    {
        let from = from as usize;
        let to = to as usize;
        let place = to * IDS + from;
        reach(&mut self.counts, place);
        let left = self.counts[place] - 1;
        unmark(&mut self.sources, &mut self.targets, left, from, to);
        self.counts[place] = left;
    }

    /// Counts the edges from q as edges from p, and those to q as edges to p.
    pub fn join(&mut self, p: u32, q: u32)
        requires to { p < MAX_PARTITIONS }
        requires from { q < MAX_PARTITIONS }
        requires apart { p ≢ q }
        requires few { (a b : ℕ) → a < MAX_PARTITIONS → b < MAX_PARTITIONS
            → joined_counts p q (count_in self.old) a b < 2 ^ 32 }
        ensures { (a b : ℕ) → a < MAX_PARTITIONS → b < MAX_PARTITIONS
            → count_in self.new a b ≡ joined_counts p q (count_in self.old) a b }
    {
        self.join_targets(p, q);
        self.join_sources(p, q);
    }

    /// Adds the counts of the edges from q to those of the edges from p, and leaves no edge from q.
    fn join_targets(&mut self, p: u32, q: u32)
        requires to { p < MAX_PARTITIONS }
        requires from { q < MAX_PARTITIONS }
        requires apart { p ≢ q }
        requires few { (a b : ℕ) → a < MAX_PARTITIONS → b < MAX_PARTITIONS
            → with_targets p q (count_in self.old) a b < 2 ^ 32 }
        ensures { (a b : ℕ) → a < MAX_PARTITIONS → b < MAX_PARTITIONS
            → count_in self.new a b ≡ with_targets p q (count_in self.old) a b }
    {
        let mut reached = 0;
        while let Some(to) = self.next_target(q, reached) {
            let count = self.get(p, to) + self.get(q, to);
            self.put(q as usize, to as usize, 0);
            self.put(p as usize, to as usize, count);
            reached = to + 1;
        }
    }

    /// Adds the counts of the edges to q to those of the edges to p, and leaves no edge to q.
    fn join_sources(&mut self, p: u32, q: u32)
        requires to { p < MAX_PARTITIONS }
        requires from { q < MAX_PARTITIONS }
        requires apart { p ≢ q }
        requires few { (a b : ℕ) → a < MAX_PARTITIONS → b < MAX_PARTITIONS
            → with_sources p q (count_in self.old) a b < 2 ^ 32 }
        ensures { (a b : ℕ) → a < MAX_PARTITIONS → b < MAX_PARTITIONS
            → count_in self.new a b ≡ with_sources p q (count_in self.old) a b }
    {
        let mut reached = 0;
        while let Some(from) = self.next_source(q, reached) {
            let count = self.get(from, p) + self.get(from, q);
            self.put(from as usize, q as usize, 0);
            self.put(from as usize, p as usize, count);
            reached = from + 1;
        }
    }

    /// Sets the count of an edge.
    fn put(&mut self, from: usize, to: usize, count: u32)
        requires from { from < MAX_PARTITIONS }
        requires to { to < MAX_PARTITIONS }
        ensures { (a b : ℕ) → a < MAX_PARTITIONS → b < MAX_PARTITIONS → count_in self.new a b
            ≡ (if a == from && b == to then count else count_in self.old a b) }
    {
        let place = to * IDS + from;
        reach(&mut self.counts, place);
        self.counts[place] = count;
        put_marks(&mut self.sources, &mut self.targets, from, to, count > 0);
    }
}

/// The count at a place; 0 after the last one.
fn count_at(counts: &[u32], place: usize) -> u32
    ensures { result ≡ slice_index counts.now place }
{
    if place < counts.len() {
        counts[place]
    } else {
        0
    }
}

/// Appends counts of 0 until the list has this place. The list has the capacity for it.
#[inline(always)]
fn reach(counts: &mut Vec<u32>, place: usize)
    requires room { place < vec_capacity counts.old }
    ensures reached { place < length counts.new.items }
    ensures same { (k : ℕ) → slice_index counts.new.items k ≡ slice_index counts.old.items k }
    ensures capacity { vec_capacity counts.old ≤ vec_capacity counts.new }
{
    if place < counts.len() {
        return;
    }
    append_zeros(counts, place);
}

/// Does what `reach` does, where the list ends before this place.
#[inline(never)]
fn append_zeros(counts: &mut Vec<u32>, place: usize)
    requires past { length counts.old.items ≤ place }
    requires room { place < vec_capacity counts.old }
    ensures reached { place < length counts.new.items }
    ensures same { (k : ℕ) → slice_index counts.new.items k ≡ slice_index counts.old.items k }
    ensures capacity { vec_capacity counts.old ≤ vec_capacity counts.new }
{
    if counts.resize(place + 1, 0).is_err() {
        unreachable!()
    }
}

/// `room` counts of 0.
pub fn no_counts(alloc: Global, room: usize) -> Result<Vec<u32>, AllocError>
    ensures room { IfOk result (λ table. length table.items ≡ room) }
    ensures zero { IfOk result (λ table. (k : ℕ) → slice_index table.items k ≡ 0) }
{
    vec![in alloc; 0; room]
}

/// Removes the marks of an edge if nothing is left of its count.
#[inline(always)]
fn unmark(sources: &mut IdRows, targets: &mut IdRows, left: u32, from: usize, to: usize)
    requires from { from < MAX_PARTITIONS }
    requires to { to < MAX_PARTITIONS }
    requires source_rows { HasIdRows sources.old }
    requires target_rows { HasIdRows targets.old }
    requires source { is_set (row_at sources.old to) from ≡ true }
    requires target { is_set (row_at targets.old from) to ≡ true }
    ensures sources { IsWithBit to from (nat_lt 0 left) sources.old sources.new }
    ensures targets { IsWithBit from to (nat_lt 0 left) targets.old targets.new }
{
    if left > 0 {
        return;
    }
    put_marks(sources, targets, from, to, false);
}

/// Turns both marks of an edge on or off. Few edges of a log are new, so the code for it stands outside of the loops that
/// count them.
#[inline(never)]
fn put_marks(sources: &mut IdRows, targets: &mut IdRows, from: usize, to: usize, on: bool)
    requires from { from < MAX_PARTITIONS }
    requires to { to < MAX_PARTITIONS }
    ensures sources { IsWithBit to from on sources.old sources.new }
    ensures targets { IsWithBit from to on targets.old targets.new }
{
    sources.put(to, from, on);
    targets.put(from, to, on);
}
