//! The labels of the listed invariants. They must be inductive.
ghost use Rattle.std.specs.Prelude.{◌≡◌, ◌↔◌, ◌<◌, ◌^◌, ℕ, true, false, length, IfOk, IsTrue, MatchOption, All};
ghost use Rattle.std.specs.List.{AllByRecursion};
ghost use Rattle.invariants.specs.Monitors.{is_bad};
ghost use Rattle.model_shape.specs.Shapes.{IsShapedListed, IsWellShaped};
ghost use Rattle.models.specs.Checks.{IsFirstFailure};
ghost use Rattle.models.specs.Models.{graph_of, has_state, IsLabelled};
ghost use Rattle.model_check.specs.Rows.{shown, IsEdgeWithin};
ghost use Rattle.model_check.specs.States.{AreRightEnds, LeadsWithin};

use crate::columns::{Columns, count_labelled};
use crate::graph::ModelGraph;
use crate::label_table::LabelTable;
use crate::states::{STATES, Sources, StateSet};
use invariants::{Edge, Invariant, Listed, Model, Monitor};
use limits::{INITIAL, TERMINAL};
use std::alloc::{AllocError, Global};

/// Whether each edge leads each state in the label of its start to a state in that of its end.
fn keep_along(sources: &Sources, graph: &ModelGraph, labels: &LabelTable, edges: &[Edge]) -> bool
    requires { All IsEdgeWithin edges.now }
    ensures { IsTrue result
        ↔ All (LeadsWithin (sources.now).inv (shown graph.now) labels.now) edges.now }
{
    for edge in edges {
        let from = labels.get(edge.from);
        let to = labels.get(edge.to);
        if !from.is_within(sources.leading_into(to, graph.type_of(edge.to))) {
            return false;
        }
    }
    true
}

/// Whether no bad state is in the set.
fn is_good(inv: Invariant, set: StateSet) -> bool
    ensures { IsTrue result ↔ ((s : ℕ) → has_state set s ≡ true → is_bad inv s ≡ false) }
{
    for state in 0..STATES {
        if set.has(state) && Monitor::bad(inv, state) {
            return false;
        }
    }
    true
}

/// Whether the first state of the invariant's monitor is in the label of INITIAL, and no bad one in that of TERMINAL.
pub fn has_right_ends(
    inv: Invariant,
    graph: &ModelGraph,
    initial: StateSet,
    terminal: StateSet,
) -> bool
    ensures { IsTrue result ↔ AreRightEnds inv (shown graph.now) initial terminal }
{
    let start = Monitor::step(inv, Monitor::start(), graph.type_of(INITIAL));
    if !initial.has(start) {
        return false;
    }
    is_good(inv, terminal)
}

/// Whether the labels of the listed invariant are inductive. `labels` is overwritten.
fn is_labelled(model: &Model, graph: &ModelGraph, listed: &Listed, labels: &mut LabelTable) -> bool
    requires shaped { IsWellShaped model.now }
    requires graph { shown graph.now ≡ graph_of model.now }
    requires listed { IsShapedListed (model.now).kinds (length (model.now).types) (length (model.now).partitions)
        listed.now }
    ensures { IsTrue result ↔ IsLabelled model.now listed.now }
{
    labels.lay(model, listed);
    let initial = labels.get(INITIAL);
    let terminal = labels.get(TERMINAL);
    if !has_right_ends(listed.inv, graph, initial, terminal) {
        return false;
    }
    keep_along(
        &Sources::of(listed.inv),
        graph,
        labels,
        model.edges.as_slice(),
    )
}

/// The number of the first listed invariant whose labels are not inductive; `None` if all labels are. The only error is out of
/// memory.
pub fn first_unlabelled(
    alloc: Global,
    model: &Model,
    graph: &ModelGraph,
) -> Result<Option<u32>, AllocError>
    requires shaped { IsWellShaped model.now }
    requires graph { shown graph.now ≡ graph_of model.now }
    requires few { length (model.now).invariants < 2 ^ 32 }
    ensures { IfOk result (λ first. MatchOption first
        (AllByRecursion (IsLabelled model.now) (model.now).invariants)
        (IsFirstFailure (IsLabelled model.now) (model.now).invariants)) }
{
    let mut labels = LabelTable::make(alloc)?;
    let mut columns = Columns::make(alloc)?;
    let invariants = model.invariants.as_slice();
    let count = count_labelled(&mut columns, model, graph);
    for i in count..invariants.len() {
        if !is_labelled(model, graph, &invariants[i], &mut labels) {
            return Ok(Some(i as u32));
        }
    }
    Ok(None)
}
