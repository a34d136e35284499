//! The partitions of events, and the counts of edges.
ghost use Rattle.std.specs.Prelude.{◌≡◌, ◌≤◌, ◌<◌, ◌+◌, IfOk, length, slice_index, slice_get, Some, MatchOption};

mod listing;
mod neighbours;

use crate::cells::{Cell, copy_traces, gather, gather_shared};
use crate::events::Events;
use crate::tables::Tables;
use limits::{FIRST_TYPE, MAX_PARTITIONS};
use std::alloc::{AllocError, Global};
use std::marker::Model;
use traces::TraceSet;

/// A partition for each event of some traces, and the graph of these partitions. There is an edge from one partition to
/// another if an event of the first is directly followed by an event of the second. INITIAL stands before each trace
/// and TERMINAL after it. Their ids are the constants of these names in crate `limits`; all other ids are at least
/// `FIRST_TYPE`.
///
/// Contracts see the traces, each event with its type and the id of its partition, and how many ids are used. Events
/// are numbered trace after trace, from 0.
#[derive(Drop)]
pub struct PartGraph {
    events: Events,
    /// The number of the first event of each trace.
    firsts: Vec<u32>,
    /// What is counted over the events.
    tables: Tables,
    used: u32,
}

impl Model for PartGraph {
    ghost use Rattle.partition_graph.specs.Parts.{Parts};
    ghost use Rattle.partition_graph.specs.Cells.{traces_of};
    ghost use Rattle.partition_graph.specs.Kept.{IsKept};

    ghost Value = { Parts };

    ghost view = { λ g. record { traces = traces_of g.events; used = g.used } };

    ghost invariant = { λ g. IsKept g.events g.firsts.items g.tables g.used };
}

impl PartGraph {
    ghost use Rattle.partition_model.specs.Assignments.{edge_count, events, is_live, size, type_of, G, IsTyped};
    ghost use Rattle.partition_model.specs.Listings.{first_event, parts_of, AreBelow, IsLast};
    ghost use Rattle.partition_model.specs.Coarsening.{IsPair};
    ghost use Rattle.partition_graph.specs.Parts.{divided, joined, start_of, HasEdgesBelow};
    ghost use Rattle.partition_graph.specs.Spread.{spread, SharesWords};
    ghost use Rattle.partition_graph.specs.declared.tables.Tables.{Tables};
    ghost use Rattle.partition_graph.specs.Cells.{traces_of};
    ghost use Rattle.partition_graph.specs.Counts.{HasId};
    ghost use Rattle.partition_graph.specs.Kept.{IsKept};
    ghost use Rattle.partition_graph.specs.Tables.{IsCountOf};
    ghost use Rattle.limits.specs.declared.TheConstants.{MAX_EVENTS};
    ghost use Rattle.std.specs.Prelude.{All};

    /// The graph with one partition for each type. The id of a partition is the number of its type. It allocates for
    /// `MAX_PARTITIONS` ids. `AllocError` is returned if there is not enough memory.
    pub fn open(alloc: Global, traces: &TraceSet) -> Result<PartGraph, AllocError>
        ensures { IfOk result (λ graph. graph ≡ start_of traces.now) }
    {
        let used = traces.types().len() as u32 + FIRST_TYPE;
        let (cells, firsts) = gather(alloc, traces)?;
        PartGraph::of_cells(alloc, cells, firsts, used)
    }

    /// The graph of the words of some traces, with one partition for each type as in `open`. The list gives, for each of
    /// these traces, the number of the trace in the graph that has its word. A word that several traces have is in the graph
    /// once, or more often if it was not found again. It allocates for `MAX_PARTITIONS` ids. `AllocError` is returned if
    /// there is not enough memory.
    pub fn open_shared(
        alloc: Global,
        traces: &TraceSet,
    ) -> Result<(PartGraph, Vec<u32>), AllocError>
        ensures { IfOk result (λ pair. SharesWords traces.now pair.0 pair.1.items) }
    {
        let used = traces.types().len() as u32 + FIRST_TYPE;
        let shared = gather_shared(alloc, traces)?;
        let graph = PartGraph::of_cells(alloc, shared.cells, shared.firsts, used)?;
        Ok((graph, shared.numbers))
    }

    /// The graph of the traces with these numbers, one trace for each number. Each event has the id that it has here.
    /// `AllocError` is returned if there is not enough memory.
    pub fn spread(&self, alloc: Global, numbers: &[u32]) -> Result<PartGraph, AllocError>
        requires within { All (λ k. k < length (self.now).traces) numbers.now }
        requires few { length (events (spread numbers.now (self.now).traces)) ≤ MAX_EVENTS }
        ensures { IfOk result (λ graph. graph ≡ record {
          traces = spread numbers.now (self.now).traces;
          used = (self.now).used;
        }) }
    {
        let (cells, firsts) = copy_traces(alloc, self.events.cells(), &self.firsts, numbers)?;
        PartGraph::of_cells(alloc, cells, firsts, self.used)
    }

    /// The graph of these cells, with `used` ids in use. `firsts` has the number of the first event of each trace.
    fn of_cells(
        alloc: Global,
        cells: Vec<Cell>,
        firsts: Vec<u32>,
        used: u32,
    ) -> Result<PartGraph, AllocError>
        requires ids { All HasId cells.items }
        requires few { length cells.items ≤ MAX_EVENTS }
        requires kept { (tables : Tables) → IsCountOf tables cells.items
            → IsKept cells.items firsts.items tables used }
        ensures { IfOk result
            (λ graph. graph ≡ record { traces = traces_of cells.items; used = used }) }
    {
        let tables = Tables::open(alloc, &cells)?;
        let events = Events::open(alloc, cells)?;
        Ok(PartGraph {
            events,
            firsts,
            tables,
            used,
        })
    }

    /// Moves the events of p that are directly followed by an event of `next` to the lowest id that is not used, and
    /// returns that id. If `next` is TERMINAL, the events of p that end their traces are moved. `None` is returned
    /// exactly if `MAX_PARTITIONS` ids are used; then nothing is changed. It allocates nothing.
    pub fn split(&mut self, p: u32, next: u32) -> Option<u32>
        ensures { MatchOption result
            (((self.old).used ≡ MAX_PARTITIONS) × (self.new ≡ self.old))
            (λ n. (n ≡ (self.old).used) × (n < MAX_PARTITIONS)
            × (self.new ≡ divided p next self.old)) }
    {
        if self.used == MAX_PARTITIONS {
            return None;
        }
        let n = self.used;
        self.used = n + 1;
        if p >= n {
            // No event has an id that was not used.
            return Some(n);
        }
        self.events.divide(&mut self.tables, p, next, n);
        Some(n)
    }

    /// Moves the events of q to p. The two are partitions of one type, and p is the lower id. Then no event has the id
    /// q, and no split returns it again. It allocates nothing.
    pub fn merge(&mut self, p: u32, q: u32)
        requires { IsPair (G (self.old).traces) p q }
        ensures { self.new ≡ joined p q self.old }
    {
        self.tables.join(p, q);
        self.events.join(p, q);
    }

    /// How many ids are used, including the two ends. Each id is below this number. Some of them may have no events.
    pub fn ids_used(&self) -> u32
        ensures value { result ≡ (self.now).used }
        ensures two { FIRST_TYPE ≤ result }
        ensures limit { result ≤ MAX_PARTITIONS }

        // Which ids events have, and between which ids edges go.
        ensures typed { IsTyped (self.now).traces }
        ensures below { AreBelow result (self.now).traces }
        ensures within { HasEdgesBelow (G (self.now).traces) result }
    {
        self.used
    }

    /// How often an event of p is directly followed by one of q, over all traces, with INITIAL and TERMINAL at the ends
    /// of each trace. It is 0 for ids that are not used.
    pub fn edge_count(&self, p: u32, q: u32) -> u32
        ensures { result ≡ edge_count (self.now).traces p q }
    {
        if p >= self.used || q >= self.used {
            return 0;
        }
        self.tables.count_at(p, q)
    }

    /// How many events p has. For each of the two ends, it is how many traces there are.
    pub fn size(&self, p: u32) -> u32
        ensures { result ≡ size (self.now).traces p }
    {
        if p < FIRST_TYPE {
            return self.firsts.len() as u32;
        }
        if p >= self.used {
            return 0;
        }
        self.tables.size_at(p)
    }

    /// The type of the events of p, or 0 if it has none. The type of each of the two ends has the same number as its
    /// id.
    pub fn type_of(&self, p: u32) -> u16
        ensures { result ≡ type_of (self.now).traces p }
    {
        if p < FIRST_TYPE {
            return p as u16;
        }
        if p >= self.used {
            return 0;
        }
        self.tables.type_at(p)
    }

    /// Whether p has events. The two ends are always live.
    pub fn is_live(&self, p: u32) -> bool
        ensures { result ≡ is_live (self.now).traces p }
    {
        p < FIRST_TYPE || self.size(p) > 0
    }

    /// The id of the event with this number.
    pub fn part_of(&self, event: u32) -> u32
        requires { event < length (events (self.now).traces) }
        ensures value { result ≡ slice_index (parts_of (self.now).traces) event }
        ensures there { slice_get (parts_of (self.now).traces) event ≡ Some result }
    {
        self.events.cell(event).id as u32
    }

    /// How many events all traces have.
    pub fn event_count(&self) -> u32
        ensures { result ≡ length (events (self.now).traces) }
    {
        self.events.count()
    }

    /// The number of the event after this one in its trace; `None` for the last event of a trace.
    pub fn next_event(&self, event: u32) -> Option<u32>
        requires { event < length (events (self.now).traces) }
        ensures { MatchOption result
            (IsLast (self.now).traces event)
            (λ n. (n ≡ event + 1) × (IsLast (self.now).traces event → ⊥)) }
    {
        if self.events.cell(event).last {
            return None;
        }
        Some(event + 1)
    }

    /// How many traces there are.
    pub fn trace_count(&self) -> u32
        ensures { result ≡ length (self.now).traces }
    {
        self.firsts.len() as u32
    }

    /// The number of the first event of trace t; traces are counted from 0.
    pub fn first_event(&self, t: u32) -> u32
        requires { t < length (self.now).traces }
        ensures { result ≡ first_event (self.now).traces t }
    {
        self.firsts[t as usize]
    }
}
