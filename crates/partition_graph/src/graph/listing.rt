//! The lists that a graph gives: its partitions, its edges, and the ids of its events.
ghost use Rattle.std.specs.Prelude.{◌≡◌, ◌≤◌, ◌<◌, ◌++◌, All, IfOk, OnOk, length, map};
ghost use Rattle.partition_graph.specs.Shared.{joined_traces, picked, trace_cells, Begin};

use super::PartGraph;
use crate::cells::{Cell, trace_at};
use crate::lists::{edges_of, lists_of, partitions_of};
use crate::tables::Tables;
use invariants::{Edge, Partition, Seq};
use std::alloc::{AllocError, Global};

/// The id of each cell.
fn ids_of(alloc: Global, cells: &[Cell]) -> Result<Seq<u32>, AllocError>
    ensures { IfOk result (λ list. list ≡ map (λ c. c.id) cells.now) }
{
    let ids = cells.iter().map(|cell| cell.id as u32).collect(alloc)?;
    Ok(Seq::from_vec(ids))
}

/// The id of each cell of the traces with these numbers, one trace after another.
fn trace_ids(
    alloc: Global,
    cells: &[Cell],
    firsts: &[u32],
    numbers: &[u32],
) -> Result<Seq<u32>, AllocError>
    requires begin { Begin firsts.now (trace_cells cells.now) }
    requires within { All (λ k. k < length (trace_cells cells.now)) numbers.now }
    ensures { IfOk result
        (λ list. list ≡ map (λ c. c.id) (joined_traces (picked numbers.now (trace_cells cells.now)))) }
{
    let mut ids = Vec::with_capacity(alloc, cell_count(cells, firsts, numbers))?;
    for number in numbers {
        push_ids(&mut ids, trace_at(cells, firsts, *number as usize))?;
    }
    Ok(Seq::from_vec(ids))
}

/// How many cells the traces with these numbers have together. Nothing is promised, since it only says how much room to
/// take for them.
fn cell_count(cells: &[Cell], firsts: &[u32], numbers: &[u32]) -> usize
    requires begin { Begin firsts.now (trace_cells cells.now) }
    requires within { All (λ k. k < length (trace_cells cells.now)) numbers.now }
{
    let mut count: usize = 0;
    for number in numbers {
        count = count.saturating_add(trace_at(cells, firsts, *number as usize).len());
    }
    count
}

/// Appends the ids of cells.
fn push_ids(ids: &mut Vec<u32>, cells: &[Cell]) -> Result<(), AllocError>
    ensures { OnOk result (ids.new.items ≡ ids.old.items ++ map (λ c. c.id) cells.now) }
{
    ids.extend(cells.iter().map(|cell| cell.id as u32))
}

impl PartGraph {
    ghost use Rattle.partition_model.specs.Assignments.{events};
    ghost use Rattle.partition_model.specs.Listings.{edges_below, partitions_below, parts_of, AreBelow};
    ghost use Rattle.partition_graph.specs.Spread.{spread};
    ghost use Rattle.limits.specs.declared.TheConstants.{MAX_EVENTS};

    /// The live partitions, in the order of their ids. `AllocError` is returned if there is not enough memory.
    pub fn partitions(&self, alloc: Global) -> Result<Seq<Partition>, AllocError>
        ensures { IfOk result (λ list. list ≡ partitions_below (self.now).used (self.now).traces) }
    {
        partitions_of(alloc, &self.tables, self.trace_count(), self.used)
    }

    /// The edges whose count is above 0, in the order of the ids that they leave and then of those that they enter.
    /// `AllocError` is returned if there is not enough memory.
    pub fn edges(&self, alloc: Global) -> Result<Seq<Edge>, AllocError>
        ensures { IfOk result (λ list. list ≡ edges_below (self.now).used (self.now).traces) }
    {
        edges_of(alloc, &self.tables, self.used)
    }

    /// The partitions and the edges of the graph that `spread` makes of the traces with these numbers. Each event of that
    /// graph is counted once, and no memory is taken for the events. Each number must be that of a trace, and these traces
    /// must have at most `MAX_EVENTS` events together. It allocates for `MAX_PARTITIONS` ids. `AllocError` is returned if there
    /// is not enough memory.
    pub fn spread_lists(
        &self,
        alloc: Global,
        numbers: &[u32],
    ) -> Result<(Seq<Partition>, Seq<Edge>), AllocError>
        requires within { All (λ k. k < length (self.now).traces) numbers.now }
        requires few { length (events (spread numbers.now (self.now).traces)) ≤ MAX_EVENTS }
        ensures partitions { IfOk result (λ pair. pair.0
            ≡ partitions_below (self.now).used (spread numbers.now (self.now).traces)) }
        ensures edges { IfOk result (λ pair. pair.1
            ≡ edges_below (self.now).used (spread numbers.now (self.now).traces)) }
        ensures below { IfOk result
            (λ pair. AreBelow (self.now).used (spread numbers.now (self.now).traces)) }
    {
        let cells = self.events.cells();
        let tables = Tables::of_traces(alloc, cells, &self.firsts, numbers)?;
        let lists = lists_of(alloc, &tables, numbers.len() as u32, self.used);
        drop(tables);
        lists
    }

    /// The id of each event, trace after trace. `AllocError` is returned if there is not enough memory.
    pub fn parts(&self, alloc: Global) -> Result<Seq<u32>, AllocError>
        ensures { IfOk result (λ list. list ≡ parts_of (self.now).traces) }
    {
        ids_of(alloc, self.events.cells())
    }

    /// The id of each event in the graph that `spread` makes of the traces with these numbers, trace after trace.
    /// `AllocError` is returned if there is not enough memory.
    pub fn spread_parts(&self, alloc: Global, numbers: &[u32]) -> Result<Seq<u32>, AllocError>
        requires within { All (λ k. k < length (self.now).traces) numbers.now }
        requires few { length (events (spread numbers.now (self.now).traces)) ≤ MAX_EVENTS }
        ensures { IfOk result (λ list. list ≡ parts_of (spread numbers.now (self.now).traces)) }
    {
        trace_ids(alloc, self.events.cells(), &self.firsts, numbers)
    }
}
