//! What shows which invariants merges lose.
ghost use Rattle.std.specs.Prelude.{◌≡◌, ◌≤◌, ◌<◌, ◌+◌, List, length, slice_get, Some, true};
ghost use Rattle.limits.specs.declared.TheConstants.{MAX_INVARIANTS, MAX_PARTITIONS};
ghost use Rattle.invariants.specs.declared.Invariant.{Invariant};
ghost use Rattle.partition_model.specs.Graphs.{Graph, Satisfies};
ghost use Rattle.partition_model.specs.Assignments.{Assignment, G, IsTyped};
ghost use Rattle.partition_model.specs.Coarsening.{IsPair};
ghost use Rattle.clashes.specs.Marks.{AreMarksOf};
ghost use Rattle.labelling.specs.Labelled.{Labelling};
ghost use Rattle.coarsener.specs.Deciding.{IsFirstBad, IsFirstLost};
ghost use Rattle.coarsener.specs.Blocking.{pair_count};
ghost use Rattle.coarsener.specs.Telling.{TellsLosses};

use crate::pairs::{Pair, next_pair};
use labelling::Planes;
use partition_graph::{PartGraph, View};
use std::sync::ledger::Ledger;
use steps::Steps;

/// What shows which invariants merges lose.
#[derive(Clone, Copy)]
pub(crate) enum Told {
    /// The labels of the graph after the merge of its only pair.
    Labels,
    /// The marks. The number is that of the first invariant that the graph itself does not satisfy.
    Marks(Option<usize>),
}

/// The number of the first invariant that the merge of the pair loses; `None` if it loses none. `bad` is the number of
/// the first invariant that the graph itself does not satisfy. Every merge loses that one.
fn lost_by(planes: &mut Planes, bad: Option<usize>, pair: Pair) -> Option<usize>
    requires order { pair.p < pair.q }
    requires limit { pair.q < MAX_PARTITIONS }
    ensures first { (h : Assignment) → IsTyped h → IsPair (G h) pair.p pair.q
        → AreMarksOf (planes.old).clashes (G h) → IsFirstBad (G h) (planes.old).clashes.invs bad
        → IsFirstLost h (planes.old).clashes.invs pair.p pair.q result }
    ensures same { planes.new ≡ planes.old }
{
    match (bad, planes.first_clash(pair.p, pair.q)) {
        (Some(bad), Some(clash)) => Some(bad.min(clash)),
        (Some(bad), None) => Some(bad),
        (None, clash) => clash,
    }
}

/// Whether the graph is known to satisfy the invariant with this number. `bad` is the number of the first invariant
/// that it does not satisfy.
fn is_satisfied(bad: Option<usize>, k: usize) -> bool
    ensures { (g : Graph) (invs : List Invariant) (inv : Invariant) → IsFirstBad g invs bad
        → slice_get invs k ≡ Some inv → result ≡ true → Satisfies g inv }
{
    let Some(bad) = bad else {
        return true;
    };
    k < bad
}

/// Finds what shows which invariants the merges of a graph lose. It counts at most one step for each pair.
pub(crate) fn tell_losses<L: Ledger>(
    graph: &PartGraph,
    planes: &mut Planes,
    steps: &mut Steps<L>,
) -> Told
    ensures tells { TellsLosses result planes.new (G (graph.now).traces) }
    ensures list { (planes.new).invs ≡ (planes.old).invs }
    ensures limit { 0 < pair_count graph.now → length (planes.new).invs ≤ MAX_INVARIANTS }
    ensures more { steps.old ≤ steps.new }
    ensures few { steps.new ≤ steps.old + pair_count graph.now }
{
    let Some(first) = next_pair(graph, Pair::start()) else {
        return Told::Labels;
    };
    if next_pair(graph, first).is_none() {
        planes.label_all(&View::Merged(graph, first.p, first.q), steps);
        return Told::Labels;
    }
    planes.label_all(&View::Plain(graph), steps);
    let bad = planes.first_bad();
    planes.find_clashes(graph, steps);
    Told::Marks(bad)
}

/// The number of the first invariant that the merge of the pair loses.
pub(crate) fn first_lost(planes: &mut Planes, told: Told, pair: Pair) -> Option<usize>
    requires order { pair.p < pair.q }
    requires limit { pair.q < MAX_PARTITIONS }
    ensures first { (h : Assignment) → IsTyped h → IsPair (G h) pair.p pair.q
        → TellsLosses told planes.old (G h)
        → IsFirstLost h (planes.old).invs pair.p pair.q result }
    ensures same { planes.new ≡ planes.old }
{
    match told {
        Told::Labels => planes.first_bad(),
        Told::Marks(bad) => lost_by(planes, bad, pair),
    }
}

/// Whether the graph is known to satisfy the invariant with this number.
pub(crate) fn is_known(told: Told, k: usize) -> bool
    ensures { (planes : Labelling) (g : Graph) (inv : Invariant) → TellsLosses told planes g
        → slice_get planes.invs k ≡ Some inv → result ≡ true → Satisfies g inv }
{
    match told {
        Told::Labels => false,
        Told::Marks(bad) => is_satisfied(bad, k),
    }
}
