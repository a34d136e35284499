//! A cell for each event, trace after trace.
ghost use Rattle.std.specs.Prelude.{◌≡◌, ◌-◌, ◌++◌, ◌<◌, ◌≤◌, ◌^◌, ℕ, List, All, OnOk, IfOk, IfSome, drop, take, length, map, slice_index_or, []};
ghost use Rattle.limits.specs.declared.TheConstants.{INITIAL, MAX_EVENTS};
ghost use Rattle.partition_model.specs.Coarsening.{onto};
ghost use Rattle.partition_graph.specs.Cells.{cells_of, id_behind, inner_cell, IsGatheredOf};
ghost use Rattle.partition_graph.specs.Counts.{before_next, id_before};
ghost use Rattle.partition_graph.specs.Shared.{joined_traces, picked, trace_cells, AreShared, Begin, IsNoted};
ghost use Rattle.partition_graph.specs.Slots.{AreSlots};

use crate::word_slots::WordSlots;
use limits::{INITIAL, TERMINAL};
use std::alloc::{AllocError, Global};
use traces::TraceSet;

/// An event.
#[derive(Clone, Copy, Debug)]
pub struct Cell {
    /// The number of its type.
    pub typ: u16,
    /// Whether it is the last event of its trace.
    pub last: bool,
    /// The id of its partition.
    pub id: u16,
}

impl Cell {
    /// An event of a type in the graph with one partition for each type: the id of its partition is the number of its type.
    #[inline]
    pub fn of_type(number: u16, last: bool) -> Cell
        ensures { result ≡ record { typ = number; last = last; id = number } }
    {
        Cell {
            typ: number,
            last,
            id: number,
        }
    }

    /// The id that stands before the next cell: that of this one, and INITIAL where a trace ends here.
    pub fn before_next(&self) -> u32
        ensures { result ≡ before_next self.now }
    {
        if self.last { INITIAL } else { self.id as u32 }
    }
}

/// The cells of all traces, each with its type's number for its id, and the number of the first event of each trace.
pub fn gather(alloc: Global, traces: &TraceSet) -> Result<(Vec<Cell>, Vec<u32>), AllocError>
    ensures gathered { IfOk result
        (λ pair. IsGatheredOf traces.now (length traces.now.traces) pair.0.items pair.1.items) }
    ensures few { IfOk result (λ pair. length pair.0.items ≤ MAX_EVENTS) }
{
    let event_count = traces.event_count();
    let mut cells = Vec::with_capacity(alloc, event_count as usize)?;
    let mut firsts = Vec::with_capacity(alloc, traces.trace_count() as usize)?;
    for t in 0..traces.trace_count() {
        firsts.push(cells.len() as u32)?;
        push_cells(&mut cells, traces.events(t))?;
    }
    Ok((cells, firsts))
}

/// The cells of words that traces share.
#[derive(Drop)]
pub struct SharedCells {
    /// A cell for each event of each word, word after word.
    pub cells: Vec<Cell>,
    /// The number of the first event of each word.
    pub firsts: Vec<u32>,
    /// For each trace, the number of its word.
    pub numbers: Vec<u32>,
}

impl SharedCells {
    /// Notes the word of the next trace: as that of an earlier trace, or as a new word, whose cells then follow the others.
    fn note(&mut self, word: &[u16], earlier: Option<u32>) -> Result<(), AllocError>
        requires cells { length self.old.cells.items < 2 ^ 32 }
        requires words { length self.old.firsts.items < 2 ^ 32 }
        requires earlier { IfSome earlier (λ t. t < length self.old.numbers.items) }
        ensures { OnOk result (IsNoted word.now earlier self.old self.new) }
    {
        if let Some(t) = earlier {
            let number = self.numbers[t as usize];
            self.numbers.push(number)?;
            return Ok(());
        }
        self.numbers.push(self.firsts.len() as u32)?;
        self.firsts.push(self.cells.len() as u32)?;
        push_cells(&mut self.cells, word)
    }
}

/// The cells of the words of the traces, in the order first met, each with its type's number for its id. A trace shares the
/// cells of an earlier one with the same word, if `WordSlots` finds one.
pub fn gather_shared(alloc: Global, traces: &TraceSet) -> Result<SharedCells, AllocError>
    ensures shared { IfOk result
        (λ s. (words : List (List ℕ)) × AreShared traces.now (length traces.now.traces) words s.cells.items s.firsts.items s.numbers.items) }
    ensures few { IfOk result (λ s. length s.cells.items ≤ MAX_EVENTS) }
{
    // Room that no event needs is never touched.
    let cells = Vec::with_capacity(alloc, traces.event_count() as usize)?;
    let numbers = Vec::with_capacity(alloc, traces.trace_count() as usize)?;
    let mut slots = WordSlots::open(alloc, traces.trace_count())?;
    let mut shared = SharedCells {
        cells,
        firsts: Vec::new(alloc),
        numbers,
    };
    let noted = note_all(&mut shared, &mut slots, traces);
    drop(slots);
    noted?;
    Ok(shared)
}

/// Notes the words of all traces.
fn note_all(
    shared: &mut SharedCells,
    slots: &mut WordSlots,
    traces: &TraceSet,
) -> Result<(), AllocError>
    requires slots { AreSlots 0 slots.old.slots.items }
    requires cells { shared.old.cells.items ≡ [] }
    requires firsts { shared.old.firsts.items ≡ [] }
    requires numbers { shared.old.numbers.items ≡ [] }
    ensures shared { OnOk result ((words : List (List ℕ)) × AreShared traces.now (length traces.now.traces)
        words shared.new.cells.items shared.new.firsts.items shared.new.numbers.items) }
    ensures few { OnOk result (length shared.new.cells.items ≤ MAX_EVENTS) }
{
    let event_count = traces.event_count();
    for t in 0..traces.trace_count() {
        prove!(shared.cells.len() <= event_count as usize);
        let earlier = slots.earlier_with(traces, t);
        shared.note(traces.events(t), earlier)?;
    }
    Ok(())
}

/// The cells of the traces with these numbers, one trace after another, and where each of them begins.
pub fn copy_traces(
    alloc: Global,
    cells: &[Cell],
    firsts: &[u32],
    numbers: &[u32],
) -> Result<(Vec<Cell>, Vec<u32>), AllocError>
    requires begin { Begin firsts.now (trace_cells cells.now) }
    requires within { All (λ k. k < length (trace_cells cells.now)) numbers.now }
    requires few { length (joined_traces (picked numbers.now (trace_cells cells.now))) ≤ MAX_EVENTS }

    // The copies, and where each of them begins.
    ensures cells { IfOk result
        (λ pair. pair.0.items ≡ joined_traces (picked numbers.now (trace_cells cells.now))) }
    ensures begin { IfOk result
        (λ pair. Begin pair.1.items (picked numbers.now (trace_cells cells.now))) }
{
    let mut copies = Vec::new(alloc);
    let mut begins = Vec::with_capacity(alloc, numbers.len())?;
    for number in numbers {
        begins.push(copies.len() as u32)?;
        copies.extend_from_slice(trace_at(cells, firsts, *number as usize))?;
    }
    Ok((copies, begins))
}

/// The cells of trace t.
pub fn trace_at<'a>(cells: &'a [Cell], firsts: &[u32], t: usize) -> &'a [Cell]
    requires begin { Begin firsts.now (trace_cells cells.now) }
    requires within { t < length (trace_cells cells.now) }
    ensures { result.now ≡ slice_index_or (trace_cells cells.now) t [] }
{
    let from = firsts[t] as usize;
    if t + 1 == firsts.len() {
        return part(cells, from, cells.len());
    }
    part(cells, from, firsts[t + 1] as usize)
}

/// The cells from one place on, up to another.
fn part(cells: &[Cell], from: usize, to: usize) -> &[Cell]
    requires rise { from ≤ to }
    requires within { to ≤ length cells.now }
    ensures { result.now ≡ take (to - from) (drop from cells.now) }
{
    &cells[from..to]
}

/// Appends the cells of a trace.
fn push_cells(cells: &mut Vec<Cell>, numbers: &[u16]) -> Result<(), AllocError>
    ensures { OnOk result (cells.new.items ≡ cells.old.items ++ cells_of numbers.now) }
{
    let Some((last, front)) = numbers.split_last() else {
        return Ok(());
    };
    push_inner(cells, front)?;
    cells.push(Cell::of_type(*last, true))?;
    Ok(())
}

/// Appends the cells of events that do not end their trace.
fn push_inner(cells: &mut Vec<Cell>, numbers: &[u16]) -> Result<(), AllocError>
    ensures { OnOk result (cells.new.items ≡ cells.old.items ++ map inner_cell numbers.now) }
{
    cells.extend(numbers.iter().map(|number| Cell::of_type(*number, false)))
}

/// The id that stands before the cell at this place: that of the cell before it, and INITIAL where a trace begins.
pub fn id_before(cells: &[Cell], i: usize) -> u32
    requires { i ≤ length cells.now }
    ensures { result ≡ id_before INITIAL cells.now i }
{
    if i == 0 {
        return INITIAL;
    }
    cells[i - 1].before_next()
}

/// The id that followed the cell at this place at once before cells of p got the id n.
pub fn id_behind_once(cells: &[Cell], i: usize, p: u32, n: u32) -> u32
    requires { i < length cells.now }
    ensures { result ≡ onto p n (id_behind (drop i cells.now)) }
{
    let behind = id_behind(cells, i);
    if behind == n { p } else { behind }
}

/// The id that follows the cell at this place at once: TERMINAL where it is the last of its trace.
pub fn id_behind(cells: &[Cell], i: usize) -> u32
    requires { i < length cells.now }
    ensures { result ≡ id_behind (drop i cells.now) }
{
    if cells[i].last || i + 1 >= cells.len() {
        return TERMINAL;
    }
    cells[i + 1].id as u32
}
