//! The run of coarsening.
ghost use Rattle.std.specs.Prelude.{◌≡◌, ◌≤◌, ◌<◌, ◌+◌, [], length};
ghost use Rattle.limits.specs.declared.TheConstants.{MAX_PARTITIONS, MAX_STEPS};
ghost use Rattle.partition_model.specs.Assignments.{G, IsTyped};
ghost use Rattle.partition_model.specs.Coarsening.{Coarsens, IsPair};
ghost use Rattle.partition_model.specs.Refinement.{SatisfiesAll};
ghost use Rattle.run_history.specs.Records.{merges_of};
ghost use Rattle.clashes.specs.Marks.{AreMarksOf};
ghost use Rattle.coarsener.specs.Blocking.{pair_count};
ghost use Rattle.coarsener.specs.Deciding.{IsDecided};
ghost use Rattle.coarsener.specs.Marking.{owed, stays_apart, AreMarkedAs, AreMarksNow};

use crate::pairs::{Pair, next_pair};
use cell_pool::RunLog;
use labelling::Planes;
use limits::MAX_PARTITIONS;
use partition_graph::PartGraph;
use std::sync::ledger::Ledger;
use steps::Steps;

/// Which graph the marks belong to.
#[derive(Clone, Copy)]
pub(crate) enum Marked {
    /// To none yet.
    Nothing,
    /// To the graph before the merge of this pair, which made the present one.
    Before(Pair),
    /// To the present graph.
    Now,
}

/// Whether the pair that was decided last stays apart.
fn stays_apart(marked: Marked) -> bool
    ensures { result ≡ stays_apart marked }
{
    match marked {
        Marked::Nothing | Marked::Before(_) => false,
        Marked::Now => true,
    }
}

/// Makes the marks those of the graph. It counts no step if they are so already, and one if not.
fn mark<L: Ledger>(graph: &PartGraph, planes: &mut Planes, marked: Marked, steps: &mut Steps<L>)
    requires { AreMarkedAs marked planes.old graph.now }
    ensures marks { AreMarksOf (planes.new).clashes (G (graph.now).traces) }
    ensures list { (planes.new).invs ≡ (planes.old).invs }
    ensures listed { (planes.new).clashes.invs ≡ (planes.new).invs }
    ensures counted { steps.new ≡ steps.old + owed marked }
{
    match marked {
        Marked::Nothing => planes.find_clashes(graph, steps),
        Marked::Before(pair) => planes.join(graph, pair.p, pair.q, steps),
        Marked::Now => (),
    }
}

/// Merges the pair and appends the merge to the run's log, unless the merge loses an invariant; then nothing changes.
/// Returns which graph the marks belong to.
fn merge_unless_lost(
    graph: &mut PartGraph,
    planes: &mut Planes,
    run_log: &mut RunLog,
    pair: Pair,
) -> Marked
    requires typed { IsTyped (graph.old).traces }
    requires pair { IsPair (G (graph.old).traces) pair.p pair.q }
    requires limit { pair.q < MAX_PARTITIONS }
    requires satisfied { SatisfiesAll (G (graph.old).traces) (planes.old).invs }
    requires listed { (planes.old).clashes.invs ≡ (planes.old).invs }
    requires marks { AreMarksOf (planes.old).clashes (G (graph.old).traces) }
    requires room { length (run_log.old).merges < (run_log.old).merge_room }

    // What is decided, and which graph the marks belong to. A step is owed if a merge was made.
    ensures decided { IsDecided
        (planes.old).invs graph.old graph.new run_log.old run_log.new pair.p pair.q }
    ensures marked { AreMarkedAs result planes.new graph.new }
    ensures same { planes.new ≡ planes.old }
    ensures owes { length (run_log.new).merges ≡ length (run_log.old).merges + owed result }
{
    if planes.first_clash(pair.p, pair.q).is_some() {
        return Marked::Now;
    }
    graph.merge(pair.p, pair.q);
    run_log.add_merge(pair.p, pair.q);
    Marked::Before(pair)
}

/// Merges partitions of one type until each further merge loses an invariant. Each merge is that of the first pair
/// whose merge loses none. Pairs are ordered by their lower id and then by their higher one.
///
/// - `graph`: the graph to coarsen. It must satisfy the invariants for which `planes` was made.
/// - `planes`: finds which merges lose an invariant. If pairs are left at the end, its marks are those of the graph.
/// - `run_log`: gets the merges, in their order. It must have no merges, and room for `MAX_STEPS`. All else in it
///   stays.
/// - `steps`: counts at most one step for each pair of one type at the start, and at most one more than there are
///   merges. All marks are found once, and after each merge they propagate from the merged partition.
///
/// It allocates nothing.
pub fn coarsen<L: Ledger>(
    graph: &mut PartGraph,
    planes: &mut Planes,
    run_log: &mut RunLog,
    steps: &mut Steps<L>,
)
    requires satisfied { SatisfiesAll (G (graph.old).traces) (planes.old).invs }
    requires begun { (run_log.old).merges ≡ [] }
    requires room { MAX_STEPS ≤ (run_log.old).merge_room }

    // The whole run, and what stays as it was.
    ensures run { Coarsens
        (planes.old).invs (graph.old).traces (merges_of run_log.new) (graph.new).traces }
    ensures used { (graph.new).used ≡ (graph.old).used }
    ensures others { run_log.new ≡ record run_log.old { merges = (run_log.new).merges } }
    ensures list { (planes.new).invs ≡ (planes.old).invs }
    ensures marks { 0 < pair_count graph.new → AreMarksNow planes.new graph.new }

    // How many steps are counted.
    ensures more { steps.old ≤ steps.new }
    ensures few { steps.new ≤ steps.old + pair_count graph.old }
    ensures once { steps.new ≤ steps.old + 1 + length (merges_of run_log.new) }
{
    prove!(graph.ids_used() <= MAX_PARTITIONS);
    let mut at = Pair::start();
    let mut marked = Marked::Nothing;
    let mut apart = false;
    while let Some(pair) = next_pair(graph, at) {
        mark(graph, planes, marked, steps);
        marked = merge_unless_lost(graph, planes, run_log, pair);
        apart = apart | stays_apart(marked);
        at = pair;
    }
    if !apart {
        return;
    }
    mark(graph, planes, marked, steps);
}
