//! Labels in columns, one column for each of many invariants, so that an edge is tested for all of them at once.
ghost use Rattle.std.specs.Prelude.{◌≡◌, ◌↔◌, ◌<◌, ◌≤◌, ◌*◌, ◌==◌, ◌&&◌, ℕ, length, if◌then◌else◌, map, IfOk, IsTrue, All};
ghost use Rattle.limits.specs.declared.TheConstants.{MAX_PARTITIONS};
ghost use Rattle.invariants.specs.declared.records.Model.{Model};
ghost use Rattle.invariants.specs.Labels.{IsDigit, number_of};
ghost use Rattle.model_shape.specs.Shapes.{IsShapedListed, IsWellShaped};
ghost use Rattle.models.specs.Models.{graph_of};
ghost use Rattle.model_check.specs.declared.columns.TheConstants.{TOGETHER};
ghost use Rattle.model_check.specs.Rows.{shown, AreApart, IsEdgeWithin, IsMarkable};
ghost use Rattle.model_check.specs.Columns.{at, AreColumnsOf, AreLabelledBefore, AreWithin, IsColumnOf, AreInColumn, HasSources, HaveLabels, SameOthers};

use crate::graph::ModelGraph;
use crate::labels::has_right_ends;
use crate::sets::IDS;
use crate::states::{Sources, StateSet};
use invariants::{Edge, Listed, Model, Partition};
use limits::{INITIAL, TERMINAL};
use std::alloc::{AllocError, Global};

/// The number of columns.
pub(crate) const TOGETHER: usize = 32;

/// For each column and each id: its label, and the states from which its type leads into this label.
#[derive(Drop)]
pub struct Columns {
    labels: Vec<StateSet>,
    sources: Vec<StateSet>,
    ghost labels_size: { length labels.items ≡ MAX_PARTITIONS * TOGETHER },
    ghost sources_size: { length sources.items ≡ MAX_PARTITIONS * TOGETHER },
}

impl Columns {
    /// Columns of empty sets.
    pub fn make(alloc: Global) -> Result<Columns, AllocError> {
        Ok(Columns {
            labels: vec![in alloc; StateSet::none(); IDS * TOGETHER]?,
            sources: vec![in alloc; StateSet::none(); IDS * TOGETHER]?,
        })
    }

    /// Puts the label of an id into a column.
    pub fn put_label(&mut self, k: usize, p: usize, label: StateSet)
        requires column { k < TOGETHER }
        requires id { p < MAX_PARTITIONS }

        // The label of the id is in the column, and all else stays.
        ensures labels { (c q : ℕ) → c < TOGETHER → at (self.new).labels.items c q
            ≡ (if c == k && q == p then label else at (self.old).labels.items c q) }
        ensures sources { (self.new).sources.items ≡ (self.old).sources.items }
    {
        self.labels[p * TOGETHER + k] = label;
    }

    /// Puts each label also as the source of its id.
    pub fn begin_sources(&mut self)
        ensures labels { (self.new).labels.items ≡ (self.old).labels.items }
        ensures sources { (self.new).sources.items ≡ (self.old).labels.items }
    {
        self.sources
            .as_mut_slice()
            .copy_from_slice(self.labels.as_slice());
    }

    /// Puts the source of an id into a column.
    pub fn put_source(&mut self, k: usize, p: usize, source: StateSet)
        requires column { k < TOGETHER }
        requires id { p < MAX_PARTITIONS }

        // The source of the id is in the column, and all else stays.
        ensures labels { (self.new).labels.items ≡ (self.old).labels.items }
        ensures sources { (c q : ℕ) → c < TOGETHER → at (self.new).sources.items c q
            ≡ (if c == k && q == p then source else at (self.old).sources.items c q) }
    {
        self.sources[p * TOGETHER + k] = source;
    }

    /// The label of an id in a column.
    pub fn label(&self, k: usize, p: usize) -> StateSet
        requires column { k < TOGETHER }
        requires id { p < MAX_PARTITIONS }
        ensures { result ≡ at (self.now).labels.items k p }
    {
        self.labels[p * TOGETHER + k]
    }

    /// Whether, in each column, each state in the label of `from` is in the source of `to`.
    pub fn lead_within(&self, from: usize, to: usize) -> bool
        requires from { from < MAX_PARTITIONS }
        requires to { to < MAX_PARTITIONS }
        ensures { IsTrue result
            ↔ AreWithin (self.now).labels.items (self.now).sources.items TOGETHER from to }
    {
        let mut all = true;
        for k in 0..TOGETHER {
            all = all & self.labels[from * TOGETHER + k].is_within(self.sources[to * TOGETHER + k]);
        }
        all
    }
}

/// Puts the label of each partition, given as its digit, into a column.
fn fill_column(columns: &mut Columns, k: usize, partitions: &[Partition], given: &[u8])
    requires column { k < TOGETHER }
    requires markable { All IsMarkable partitions.now }
    requires apart { AreApart partitions.now }
    requires count { length given.now ≡ length partitions.now }
    requires given { All IsDigit given.now }

    // The column has the labels of the partitions, and all others stay.
    ensures column { AreInColumn partitions.now (map number_of given.now) (columns.new).labels.items k }
    ensures others { SameOthers (columns.old).labels.items (columns.new).labels.items k }
{
    for (i, partition) in partitions.iter().enumerate() {
        let label = StateSet::of(given[i] - b'0');
        columns.put_label(k, partition.id as usize, label);
    }
}

/// Puts the labels of the listed invariants from `from` on into the columns, at most one for each column.
fn fill_columns(columns: &mut Columns, model: &Model, from: usize)
    requires shaped { IsWellShaped model.now }
    requires from { from ≤ length (model.now).invariants }
    ensures { HaveLabels model.now (columns.new).labels.items from TOGETHER }
{
    let partitions = model.partitions.as_slice();
    let invariants = model.invariants.as_slice();
    for k in 0..TOGETHER.min(invariants.len() - from) {
        fill_column(
            columns,
            k,
            partitions,
            invariants[from + k].labels.as_digits(),
        );
    }
}

/// Puts the sources of the ids of a type into a column. The labels are there.
fn put_sources(columns: &mut Columns, k: usize, sources: &Sources, graph: &ModelGraph, typ: u16)
    requires column { k < TOGETHER }

    // The sources of these ids are right, and all else stays.
    ensures labels { (columns.new).labels.items ≡ (columns.old).labels.items }
    ensures sources { HasSources (sources.now).inv (shown graph.now) typ (columns.new).labels.items
        (columns.old).sources.items (columns.new).sources.items k }
    ensures other_sources { SameOthers (columns.old).sources.items (columns.new).sources.items k }
{
    let mut from = 0;
    while let Some(p) = graph.next_of_type(typ, from) {
        let source = sources.leading_into(columns.label(k, p), typ);
        columns.put_source(k, p, source);
        from = p + 1;
    }
}

/// Puts the sources of a listed invariant into a column, which has its labels, also as sources. Returns whether the labels of
/// the two ends are right.
fn lay_column(columns: &mut Columns, k: usize, graph: &ModelGraph, listed: &Listed) -> bool
    requires column { k < TOGETHER }
    requires begun { (p : ℕ) → at (columns.old).sources.items k p ≡ at (columns.old).labels.items k p }

    // If both ends are right, the column is that of the invariant. All else stays.
    ensures column { (m : Model) → IsWellShaped m → shown graph.now ≡ graph_of m
        → AreInColumn m.partitions (listed.now).labels (columns.old).labels.items k → IsTrue result
        → IsColumnOf m listed.now (columns.new).labels.items (columns.new).sources.items k }
    ensures labels { (columns.new).labels.items ≡ (columns.old).labels.items }
    ensures other_sources { SameOthers (columns.old).sources.items (columns.new).sources.items k }
{
    // A type that the invariant does not name leads from each state to itself.
    let sources = Sources::of(listed.inv);
    put_sources(columns, k, &sources, graph, listed.inv.a);
    put_sources(columns, k, &sources, graph, listed.inv.b);
    let initial = columns.label(k, INITIAL as usize);
    let terminal = columns.label(k, TERMINAL as usize);
    has_right_ends(listed.inv, graph, initial, terminal)
}

/// Puts the labels of the listed invariants from `from` on, and their sources, into the columns, at most one for each column.
/// Returns whether the labels of their ends are all right.
fn lay_columns(columns: &mut Columns, model: &Model, graph: &ModelGraph, from: usize) -> bool
    requires shaped { IsWellShaped model.now }
    requires graph { shown graph.now ≡ graph_of model.now }
    requires from { from ≤ length (model.now).invariants }

    // The columns, if all ends are right.
    ensures { IsTrue result
        → AreColumnsOf model.now (columns.new).labels.items (columns.new).sources.items
        from TOGETHER }
{
    fill_columns(columns, model, from);
    columns.begin_sources();
    let invariants = model.invariants.as_slice();
    for k in 0..TOGETHER {
        if k >= invariants.len() - from {
            return true;
        }
        if !lay_column(columns, k, graph, &invariants[from + k]) {
            return false;
        }
    }
    true
}

/// Whether, in each column, each edge leads from the label of its start into the label of its end.
fn keep_all_along(columns: &Columns, edges: &[Edge]) -> bool
    requires within { All IsEdgeWithin edges.now }
    ensures { IsTrue result ↔ All (λ e.
        AreWithin (columns.now).labels.items (columns.now).sources.items TOGETHER e.from e.to)
        edges.now }
{
    for edge in edges {
        if !columns.lead_within(edge.from as usize, edge.to as usize) {
            return false;
        }
    }
    true
}

/// The number of listed invariants, from the first on, whose labels the columns show to be inductive. More may have inductive
/// labels.
pub fn count_labelled(columns: &mut Columns, model: &Model, graph: &ModelGraph) -> usize
    requires shaped { IsWellShaped model.now }
    requires graph { shown graph.now ≡ graph_of model.now }
    ensures within { result ≤ length (model.now).invariants }
    ensures labelled { AreLabelledBefore model.now result }
{
    let mut count = 0;
    while count < model.invariants.as_slice().len() {
        if !lay_columns(columns, model, graph, count) {
            return count;
        }
        if !keep_all_along(columns, model.edges.as_slice()) {
            return count;
        }
        count = model.invariants.as_slice().len().min(count + TOGETHER);
    }
    count
}
