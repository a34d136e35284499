//! The graph of a model, in tables that are made once.
ghost use Rattle.std.specs.Prelude.{◌≡◌, ◌≢◌, ◌↔◌, ◌<◌, ◌≤◌, ◌+◌, ℕ, length, slice_index, IfOk, IsTrue, MatchOption, All};
ghost use Rattle.limits.specs.declared.TheConstants.{INITIAL, MAX_PARTITIONS, MAX_TYPES};
ghost use Rattle.model_shape.specs.Shapes.{listed_type, IsWellShaped};
ghost use Rattle.models.specs.Models.{graph_of};
ghost use Rattle.partition_model.specs.Assignments.{with_ends};
ghost use Rattle.partition_model.specs.Graphs.{Accepts, merged_edge};
ghost use Rattle.traces.specs.Kept.{IsTypeNumber};
ghost use Rattle.model_check.specs.Rows.{shown, IsMarkable, AreApart, IsNextOfType};

use crate::rows::IdRows;
use crate::sets::{IDS, MEMBERS, TYPES, mark_edges, mark_partitions};
use crate::steps::{is_in_set, step};
use crate::successors::Successors;
use invariants::Partition;
use limits::{FIRST_TYPE, INITIAL, MAX_PARTITIONS, TERMINAL};
use std::alloc::{AllocError, Global};
use std::marker::Model;

/// The type of each listed id, and 0 for all other ids.
fn types_of(alloc: Global, partitions: &[Partition]) -> Result<Vec<u16>, AllocError>
    requires markable { All IsMarkable partitions.now }
    requires apart { AreApart partitions.now }
    ensures size { IfOk result (λ types. length types.items ≡ MAX_PARTITIONS) }
    ensures types { IfOk result (λ types.
        (p : ℕ) → slice_index types.items p ≡ listed_type p partitions.now) }
{
    let mut types = vec![in alloc; 0; IDS]?;
    for partition in partitions {
        types[partition.id as usize] = partition.typ;
    }
    Ok(types)
}

/// The least place from `from` on that has this type; `None` if there is none.
fn next_place(types: &[u16], typ: u16, from: usize) -> Option<usize>
    requires { length types.now ≡ MAX_PARTITIONS }
    ensures { MatchOption result
        ((q : ℕ) → from ≤ q → q < MAX_PARTITIONS → slice_index types.now q ≢ typ)
        (IsNextOfType (λ q. slice_index types.now q) typ from) }
{
    for p in from..types.len() {
        if types[p] == typ {
            return Some(p);
        }
    }
    None
}

/// The graph of a model. Contracts see its tables; `shown` is the graph in them.
#[derive(Drop)]
pub struct ModelGraph {
    /// The type of each id.
    types: Vec<u16>,
    /// The ends of edges by start, the ids of each type, and sets of ids that were met.
    rows: IdRows,
    /// The set to which each type leads from each set, as far as it is known.
    successors: Successors,
}

impl Model for ModelGraph {
    ghost use Rattle.model_check.specs.Rows.{Tables, IsLaid};
    ghost use Rattle.model_check.specs.Successors.{AreSuccessors};

    ghost Value = { Tables };

    ghost view = { λ g. record { types = g.types.items; rows = g.rows.bits } };

    ghost invariant = { λ g. IsLaid g.types.items g.rows × AreSuccessors g.rows g.successors.numbers.items g.successors.kept };
}

impl ModelGraph {
    /// The graph of a model.
    pub fn of(alloc: Global, model: &invariants::Model) -> Result<ModelGraph, AllocError>
        requires { IsWellShaped model.now }
        ensures { IfOk result (λ graph. shown graph ≡ graph_of model.now) }
    {
        let types = types_of(alloc, model.partitions.as_slice())?;
        let mut rows = IdRows::make(alloc)?;
        mark_partitions(&mut rows, model.partitions.as_slice());
        mark_edges(&mut rows, model.edges.as_slice());
        let successors = Successors::make(alloc, model.types.len() + FIRST_TYPE as usize)?;
        Ok(ModelGraph {
            types,
            rows,
            successors,
        })
    }

    /// Whether there is an edge from p to q.
    pub fn has_edge(&self, p: u32, q: u32) -> bool
        ensures { result ≡ (shown self.now).edge p q }
    {
        p < MAX_PARTITIONS && self.rows.has(p as usize, q as usize)
    }

    /// Whether there is an edge from u to v after the merge of q into p.
    pub fn has_merged_edge(&self, p: u32, q: u32, u: u32, v: u32) -> bool
        ensures { result ≡ merged_edge (shown self.now) p q u v }
    {
        if u == q || v == q {
            return false;
        }
        self.has_edge(u, v)
            || (u == p && self.has_edge(q, v))
            || (v == p && self.has_edge(u, q))
            || (u == p && v == p && self.has_edge(q, q))
    }

    /// The type of the id; 0 if it is not listed.
    pub fn type_of(&self, p: u32) -> u16
        ensures { result ≡ (shown self.now).typ p }
    {
        if p as usize >= self.types.len() {
            return 0;
        }
        self.types[p as usize]
    }

    /// The least id from `from` on that has this type; `None` if there is none. An id that is not listed has the type 0.
    pub fn next_of_type(&self, typ: u16, from: usize) -> Option<usize>
        ensures { MatchOption result
            ((q : ℕ) → from ≤ q → q < MAX_PARTITIONS → (shown self.now).typ q ≢ typ)
            (IsNextOfType (shown self.now).typ typ from) }
    {
        let row = usize::from(typ);
        if row == 0 || row >= TYPES {
            return next_place(self.types.as_slice(), typ, from);
        }
        self.rows.next(MEMBERS + row, from)
    }

    /// Whether some path has the word of these events, which are the numbers of their types without the two ends. The graph
    /// keeps its value.
    pub fn accepts(&mut self, events: &[u16]) -> bool
        requires start { (shown self.old).typ INITIAL ≡ INITIAL }
        requires numbers { All (IsTypeNumber MAX_TYPES) events.now }
        ensures accepts { IsTrue result ↔ Accepts (shown self.old) (with_ends events.now) }
        ensures stays { shown self.new ≡ shown self.old }
    {
        let mut set = INITIAL as usize;
        for typ in events {
            set = step(&mut self.rows, &mut self.successors, set, usize::from(*typ));
        }
        set = step(&mut self.rows, &mut self.successors, set, TERMINAL as usize);
        is_in_set(&self.rows, set, TERMINAL as usize)
    }
}
