//! What is counted over cells: the type and the size of each id, and the edges between ids.
ghost use Rattle.std.specs.Prelude.{◌≡◌, ◌≢◌, ◌+◌, ◌<◌, ◌≤◌, ◌^◌, ℕ, true, length, slice_index, All, IfOk, if◌then◌else◌, ◌==◌};
ghost use Rattle.limits.specs.declared.TheConstants.{MAX_EVENTS, MAX_PARTITIONS};
ghost use Rattle.partition_model.specs.Assignments.{IsTyped};
ghost use Rattle.partition_model.specs.Listings.{AreBelow};
ghost use Rattle.partition_graph.specs.Cells.{cells_of, IsClosed};
ghost use Rattle.partition_graph.specs.Counts.{HasId, edges_at};
ghost use Rattle.partition_graph.specs.Joins.{joined_counts};
ghost use Rattle.partition_graph.specs.Marks.{count_in, is_counted};
ghost use Rattle.partition_graph.specs.NeighbourWords.{ArePlaces, IsWordOf};
ghost use Rattle.partition_graph.specs.Nexts.{IsNextAnswer};
ghost use Rattle.partition_graph.specs.Parts.{start_of};
ghost use Rattle.partition_graph.specs.Shared.{joined_traces, picked, trace_cells, Begin};
ghost use Rattle.partition_graph.specs.Sums.{sums, HasRoom, IsMore};
ghost use Rattle.partition_graph.specs.declared.id_rows.TheConstants.{ID_WORDS};

use crate::cells::{Cell, id_before, id_behind, trace_at};
use crate::edge_counts::{EdgeCounts, no_counts};
use crate::id_rows::ID_WORDS;
use limits::{INITIAL, MAX_PARTITIONS, TERMINAL};
use std::alloc::{AllocError, Global};
use traces::TraceSet;

/// How many ids the tables are made for.
const IDS: usize = MAX_PARTITIONS as usize;

/// What is counted over cells whose ids are below `MAX_PARTITIONS`.
#[derive(Drop)]
pub struct Tables {
    /// For each id, the type of its last cell, or 0 if no cell has the id.
    types: Vec<u16>,
    /// How many cells each id has.
    sizes: Vec<u32>,
    /// The counts of the edges.
    counts: EdgeCounts,
    ghost type_room: { length types.items ≡ MAX_PARTITIONS },
    ghost size_room: { length sizes.items ≡ MAX_PARTITIONS },
}

impl Tables {
    ghost use Rattle.partition_graph.specs.Tables.{type_at, size_at, count_at, HasCountsBut, HasCountsOf, HasRoomFor, IsClear, IsCountedFor, IsCountMore, IsCountOf};
    ghost use Rattle.partition_graph.specs.Types.{HaveTypes, KnowsTypes};

    /// The tables of these cells. Only this call allocates; `AllocError` is returned if there is not enough memory.
    pub fn open(alloc: Global, cells: &[Cell]) -> Result<Tables, AllocError>
        requires ids { All HasId cells.now }
        requires few { length cells.now < 2 ^ 32 }
        ensures { IfOk result (λ tables. IsCountOf tables cells.now) }
    {
        let mut tables = Tables::make(alloc)?;
        tables.count(cells);
        Ok(tables)
    }

    /// The tables of the traces with these numbers, one trace for each number. `firsts` has the place of the first cell of
    /// each trace. Only this call allocates; `AllocError` is returned if there is not enough memory.
    pub fn of_traces(
        alloc: Global,
        cells: &[Cell],
        firsts: &[u32],
        numbers: &[u32],
    ) -> Result<Tables, AllocError>
        requires ids { All HasId cells.now }
        requires closed { IsClosed true cells.now }
        requires begin { Begin firsts.now (trace_cells cells.now) }
        requires within { All (λ k. k < length (trace_cells cells.now)) numbers.now }
        requires few { length (joined_traces (picked numbers.now (trace_cells cells.now))) ≤ MAX_EVENTS }
        ensures { IfOk result
            (λ tables. IsCountOf tables (joined_traces (picked numbers.now (trace_cells cells.now)))) }
    {
        let mut tables = Tables::make(alloc)?;
        for number in numbers {
            tables.count(trace_at(cells, firsts, *number as usize));
        }
        Ok(tables)
    }

    /// The tables of the words of these traces, with one partition for each type: each event has the number of its type for
    /// its id. Only this call allocates; `AllocError` is returned if there is not enough memory.
    pub fn of_words(alloc: Global, traces: &TraceSet) -> Result<Tables, AllocError>
        ensures counted { IfOk result (λ tables.
            IsCountedFor tables (length traces.now.traces) (start_of traces.now).traces) }
        ensures typed { IfOk result (λ tables. IsTyped (start_of traces.now).traces) }
        ensures below { IfOk result (λ tables.
            AreBelow (start_of traces.now).used (start_of traces.now).traces) }
    {
        // Called for what they ensure: how many types and events there are at most.
        traces.types();
        traces.event_count();
        let mut tables = Tables::make(alloc)?;
        for t in 0..traces.trace_count() {
            tables.count_word(traces.events(t));
        }
        Ok(tables)
    }

    /// Takes the cell at this place out of the tables, with the edge to it and the edge from it.
    pub fn uncount_around(&mut self, cells: &[Cell], place: usize)
        requires place { place < length cells.now }
        requires ids { All HasId cells.now }
        requires closed { IsClosed true cells.now }
        requires counted { HasCountsOf self.old cells.now }

        // All others are still counted.
        ensures counted { HasCountsBut self.new place cells.now }
        ensures types { (types : ℕ → ℕ) → KnowsTypes types self.old → KnowsTypes types self.new }
    {
        let cell = cells[place];
        self.uncount_cell(cell);
        self.counts.remove(id_before(cells, place), cell.id as u32);
        self.counts.remove(cell.id as u32, id_behind(cells, place));
    }

    /// Counts the cell at this place, with the edge to it and the edge from it. All other cells are counted already.
    pub fn count_around(&mut self, cells: &[Cell], place: usize)
        requires place { place < length cells.now }
        requires ids { All HasId cells.now }
        requires few { length cells.now ≤ MAX_EVENTS }
        requires counted { HasCountsBut self.old place cells.now }

        // Then all are counted.
        ensures counted { HasCountsOf self.new cells.now }
        ensures types { (types : ℕ → ℕ) → HaveTypes types cells.now
            → KnowsTypes types self.old → KnowsTypes types self.new }
    {
        let cell = cells[place];
        self.count_cell(cell);
        self.counts.add(id_before(cells, place), cell.id as u32);
        self.counts.add(cell.id as u32, id_behind(cells, place));
    }

    /// Counts the cells of q as cells of p, with the edges to them and from them.
    pub fn join(&mut self, p: u32, q: u32)
        requires to { p < MAX_PARTITIONS }
        requires from { q < MAX_PARTITIONS }
        requires apart { p ≢ q }
        requires few { size_at self.old p + size_at self.old q < 2 ^ 32 }
        requires few_edges { (a b : ℕ) → a < MAX_PARTITIONS → b < MAX_PARTITIONS
            → joined_counts p q (count_at self.old) a b < 2 ^ 32 }
        ensures types { (r : ℕ) → r < MAX_PARTITIONS
            → type_at self.new r ≡ (if r == q then 0 else type_at self.old r) }
        ensures sizes { (r : ℕ) → r < MAX_PARTITIONS → size_at self.new r
            ≡ (if r == q then 0 else size_at self.old r + (if r == p then size_at self.old q else 0)) }
        ensures counts { (a b : ℕ) → a < MAX_PARTITIONS → b < MAX_PARTITIONS
            → count_at self.new a b ≡ joined_counts p q (count_at self.old) a b }
    {
        let more = self.sizes[q as usize];
        self.sizes[p as usize] += more;
        self.sizes[q as usize] = 0;
        self.types[q as usize] = 0;
        self.counts.join(p, q);
    }

    /// The type of the cells of p, or 0 if no cell has the id.
    pub fn type_at(&self, p: u32) -> u16
        requires { p < MAX_PARTITIONS }
        ensures { result ≡ type_at self.now p }
    {
        self.types[p as usize]
    }

    /// How many cells p has.
    pub fn size_at(&self, p: u32) -> u32
        requires { p < MAX_PARTITIONS }
        ensures { result ≡ size_at self.now p }
    {
        self.sizes[p as usize]
    }

    /// How often a cell of p is directly followed by one of q, with INITIAL and TERMINAL at the ends of each trace.
    pub fn count_at(&self, p: u32, q: u32) -> u32
        requires from { p < MAX_PARTITIONS }
        requires to { q < MAX_PARTITIONS }
        ensures { result ≡ count_at self.now p q }
    {
        self.counts.get(p, q)
    }

    /// The least id at or above `from` from which an edge to q is counted; `None` if there is none.
    pub fn next_source(&self, q: u32, from: u32) -> Option<u32>
        ensures { IsNextAnswer (λ p. is_counted (self.now).counts p q) from result }
    {
        self.counts.next_source(q, from)
    }

    /// The least id at or above `from` to which an edge from p is counted; `None` if there is none.
    pub fn next_target(&self, p: u32, from: u32) -> Option<u32>
        ensures { IsNextAnswer (λ q. is_counted (self.now).counts p q) from result }
    {
        self.counts.next_target(p, from)
    }

    /// The ids from `64 * place` on from which an edge to q is counted, as a word whose lowest bit is the first of them.
    #[inline]
    pub fn source_word(&self, q: u32, place: usize) -> u64
        requires { place < ID_WORDS }
        ensures { IsWordOf (λ p. is_counted (self.now).counts p q) place result }
    {
        self.counts.source_word(q, place)
    }

    /// The ids from `64 * place` on to which an edge from p is counted, as a word whose lowest bit is the first of them.
    #[inline]
    pub fn target_word(&self, p: u32, place: usize) -> u64
        requires { place < ID_WORDS }
        ensures { IsWordOf (λ q. is_counted (self.now).counts p q) place result }
    {
        self.counts.target_word(p, place)
    }

    /// The places of `source_word` at which there may be ids, as the bits of a word: the lowest is place 0.
    #[inline]
    pub fn source_places(&self, q: u32) -> u64
        ensures { ArePlaces (λ p. is_counted (self.now).counts p q) result }
    {
        self.counts.source_places(q)
    }

    /// The places of `target_word` at which there may be ids, as the bits of a word: the lowest is place 0.
    #[inline]
    pub fn target_places(&self, p: u32) -> u64
        ensures { ArePlaces (λ q. is_counted (self.now).counts p q) result }
    {
        self.counts.target_places(p)
    }

    /// Tables in which nothing is counted.
    fn make(alloc: Global) -> Result<Tables, AllocError>
        ensures { IfOk result (λ tables. IsClear tables) }
    {
        let types = no_types(alloc, IDS)?;
        let sizes = no_counts(alloc, IDS)?;
        let counts = EdgeCounts::make(alloc)?;
        Ok(Tables {
            types,
            sizes,
            counts,
        })
    }

    /// Adds these cells to what is counted.
    fn count(&mut self, cells: &[Cell])
        requires ids { All HasId cells.now }
        requires room { HasRoomFor self.old cells.now }
        ensures { IsCountMore self.old self.new cells.now }
    {
        count_cells(
            self.types.as_mut_slice(),
            self.sizes.as_mut_slice(),
            &mut self.counts,
            cells,
        );
    }

    /// Adds the events of a word to what is counted. The id of each event is the number of its type.
    fn count_word(&mut self, word: &[u16])
        requires ids { All HasId (cells_of word.now) }
        requires room { HasRoomFor self.old (cells_of word.now) }
        ensures { IsCountMore self.old self.new (cells_of word.now) }
    {
        count_events(
            self.types.as_mut_slice(),
            self.sizes.as_mut_slice(),
            &mut self.counts,
            word,
        );
    }

    /// Notes the type of the cell's id, and adds the cell to the size of its id.
    #[inline]
    fn count_cell(&mut self, cell: Cell)
        requires id { cell.id < MAX_PARTITIONS }
        requires few { size_at self.old cell.id + 1 < 2 ^ 32 }
        ensures types { (p : ℕ) → p < MAX_PARTITIONS
            → type_at self.new p ≡ (if cell.id == p then cell.typ else type_at self.old p) }
        ensures sizes { (p : ℕ) → p < MAX_PARTITIONS
            → size_at self.new p ≡ size_at self.old p + (if cell.id == p then 1 else 0) }
        ensures counts { (self.new).counts ≡ (self.old).counts }
    {
        note_cell(self.types.as_mut_slice(), self.sizes.as_mut_slice(), cell);
    }

    /// Takes a cell out of the size of its id. If no cell of the id is left, its type is 0 again.
    #[inline]
    fn uncount_cell(&mut self, cell: Cell)
        requires id { cell.id < MAX_PARTITIONS }
        requires some { 0 < size_at self.old cell.id }

        // The counts of edges stay.
        ensures types { (types : ℕ → ℕ) → KnowsTypes types self.old → KnowsTypes types self.new }
        ensures sizes { (p : ℕ) → p < MAX_PARTITIONS
            → size_at self.new p + (if cell.id == p then 1 else 0) ≡ size_at self.old p }
        ensures counts { (self.new).counts ≡ (self.old).counts }
    {
        self.sizes[cell.id as usize] -= 1;
        if self.sizes[cell.id as usize] == 0 {
            self.types[cell.id as usize] = 0;
        }
    }
}

/// Adds cells to the types, the sizes and the counts of tables. The tables are taken apart before the loop, so that it does
/// not read for each cell where they stand.
fn count_cells(types: &mut [u16], sizes: &mut [u32], counts: &mut EdgeCounts, cells: &[Cell])
    requires type_room { length types.old ≡ MAX_PARTITIONS }
    requires size_room { length sizes.old ≡ MAX_PARTITIONS }
    requires ids { All HasId cells.now }
    requires room { HasRoom (sums types.old sizes.old counts.old) cells.now }
    ensures { IsMore (sums types.old sizes.old counts.old) (sums types.new sizes.new counts.new) cells.now }
{
    let mut before = INITIAL;
    for &cell in cells {
        note_cell(types, sizes, cell);
        add_edges_at(counts, before, cell);
        before = cell.before_next();
    }
}

/// Adds the events of a word to the types, the sizes and the counts of tables. The id of each event is the number of its
/// type.
fn count_events(types: &mut [u16], sizes: &mut [u32], counts: &mut EdgeCounts, word: &[u16])
    requires type_room { length types.old ≡ MAX_PARTITIONS }
    requires size_room { length sizes.old ≡ MAX_PARTITIONS }
    requires ids { All HasId (cells_of word.now) }
    requires room { HasRoom (sums types.old sizes.old counts.old) (cells_of word.now) }
    ensures { IsMore (sums types.old sizes.old counts.old) (sums types.new sizes.new counts.new) (cells_of word.now) }
{
    let mut before = INITIAL;
    for (i, number) in word.iter().enumerate() {
        let cell = Cell::of_type(*number, i + 1 == word.len());
        note_cell(types, sizes, cell);
        add_edges_at(counts, before, cell);
        before = cell.before_next();
    }
}

/// Notes the type of the cell's id, and adds the cell to the size of its id.
#[inline]
fn note_cell(types: &mut [u16], sizes: &mut [u32], cell: Cell)
    requires type_room { length types.old ≡ MAX_PARTITIONS }
    requires size_room { length sizes.old ≡ MAX_PARTITIONS }
    requires id { cell.id < MAX_PARTITIONS }
    requires few { slice_index sizes.old cell.id + 1 < 2 ^ 32 }
    ensures types { (p : ℕ) → p < MAX_PARTITIONS
        → slice_index types.new p ≡ (if cell.id == p then cell.typ else slice_index types.old p) }
    ensures sizes { (p : ℕ) → p < MAX_PARTITIONS
        → slice_index sizes.new p ≡ slice_index sizes.old p + (if cell.id == p then 1 else 0) }
{
    types[cell.id as usize] = cell.typ;
    sizes[cell.id as usize] += 1;
}

/// Adds the edge to a cell and, if its trace ends there, the edge from it to TERMINAL.
#[inline]
fn add_edges_at(counts: &mut EdgeCounts, before: u32, cell: Cell)
    requires before { before < MAX_PARTITIONS }
    requires id { cell.id < MAX_PARTITIONS }
    requires few { (p q : ℕ) → p < MAX_PARTITIONS → q < MAX_PARTITIONS
        → count_in counts.old p q + edges_at before cell p q < 2 ^ 32 }
    ensures { (p q : ℕ) → p < MAX_PARTITIONS → q < MAX_PARTITIONS
        → count_in counts.new p q ≡ count_in counts.old p q + edges_at before cell p q }
{
    counts.add(before, cell.id as u32);
    if cell.last {
        counts.add(cell.id as u32, TERMINAL);
    }
}

/// `room` types, all of them 0: none is known.
fn no_types(alloc: Global, room: usize) -> Result<Vec<u16>, AllocError>
    ensures room { IfOk result (λ table. length table.items ≡ room) }
    ensures zero { IfOk result (λ table. (k : ℕ) → slice_index table.items k ≡ 0) }
{
    vec![in alloc; 0; room]
}
