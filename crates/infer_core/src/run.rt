//! The run: refinement, coarsening, blocks and labels, in memory that is allocated already.
ghost use Rattle.std.specs.Prelude.{◌≡◌, ◌≤◌, ◌+◌, ◌-◌, OnErr, OnOk, length};
ghost use Rattle.models.specs.Models.{TypedWords};
ghost use Rattle.partition_model.specs.Assignments.{G};
ghost use Rattle.labelling.specs.Labelled.{SaysSatisfied};
ghost use Rattle.run_history.specs.Records.{splits_of};
ghost use Rattle.splitter.specs.Refining.{EndsRefined, IsFull, IsStopped};
ghost use Rattle.splitter.specs.Writing.{WritesSplits};
ghost use Rattle.infer_core.specs.Runs.{CountsAtMost, PassesPartitions};
ghost use Rattle.infer_core.specs.Ends.{BeginsWith, IsCoarsened, IsReady, PlaceGives, RunGives};

use crate::tools::Tools;
use crate::workbench::InferLimit;
use coarsener::{Coarsened, blocks_fit, blocks_marked, coarsen};
use invariants::Invariant;
use limits::MAX_PARTITIONS;
use partition_graph::PartGraph;
use splitter::{Basis, PartitionLimit, refine_skipping};
use std::sync::ledger::Ledger;
use steps::Steps;

/// Refines the graph as `refine` does. No path is searched for invariants that the graph satisfies: `flags` shows them.
fn refine_broken<L: Ledger>(
    graph: &mut PartGraph,
    tools: &mut Tools,
    flags: &[bool],
    invs: &[Invariant],
    steps: &mut Steps<L>,
) -> Result<(), PartitionLimit>
    requires ready { IsReady invs.now graph.old
        tools.old.stitcher tools.old.planes tools.old.spans tools.old.run_log }
    requires flags { length flags.now ≡ length invs.now }
    requires told { SaysSatisfied (G (graph.old).traces) invs.now flags.now }
    ensures list { tools.new.planes.invs ≡ tools.old.planes.invs }
    ensures writes { WritesSplits tools.old.run_log tools.new.run_log tools.old.spans tools.new.spans }

    // The whole run, and how many steps it counts: at most one for each invariant and each split.
    ensures ok { OnOk result (EndsRefined invs.now graph.old
        (splits_of tools.new.run_log tools.new.spans) graph.new) }
    ensures more { OnOk result (steps.old ≤ steps.new) }
    ensures few { OnOk result (steps.new ≤ steps.old + length invs.now
        + length (splits_of tools.new.run_log tools.new.spans)) }

    // When the limit is returned, and what stands then.
    ensures full { OnErr result (IsFull invs.now graph.new) }
    ensures stands { OnErr result (IsStopped invs.now graph.old graph.new
        (splits_of tools.new.run_log tools.new.spans)
        (steps.new - steps.old)) }
{
    let basis = Basis {
        invs,
        known: flags,
        stitcher: &tools.stitcher,
    };
    refine_skipping(
        graph,
        &mut tools.finder,
        basis,
        &mut tools.spans,
        &mut tools.run_log,
        steps,
    )
}

/// Refines and coarsens the first graph of a log, and writes the splits and the merges. The arguments are those of `run`.
///
/// `PartitionLimit` is returned if refinement needs more than `MAX_PARTITIONS` partitions.
fn refine_and_coarsen<L: Ledger>(
    graph: &mut PartGraph,
    tools: &mut Tools,
    flags: &[bool],
    invs: &[Invariant],
    steps: &mut Steps<L>,
) -> Result<(), PartitionLimit>
    requires ready { IsReady invs.now graph.old
        tools.old.stitcher tools.old.planes tools.old.spans tools.old.run_log }
    requires flags { length flags.now ≡ length invs.now }
    requires told { SaysSatisfied (G (graph.old).traces) invs.now flags.now }
    ensures ended { OnOk result (IsCoarsened invs.now graph.old graph.new
        tools.new.planes tools.new.spans tools.new.run_log steps.old steps.new) }
    ensures passed { OnErr result ((words : TypedWords) → BeginsWith words invs.now graph.old
        → PassesPartitions words) }
{
    let refined = refine_broken(graph, tools, flags, invs, steps);
    let Ok(()) = refined else {
        return Err(PartitionLimit);
    };
    prove!(graph.ids_used() <= MAX_PARTITIONS);
    coarsen(graph, &mut tools.planes, &mut tools.run_log, steps);
    Ok(())
}

/// Runs inference on the first graph of a log, with the invariants that are mined from it.
///
/// - `graph`: is refined and coarsened. It must be the first graph of its words.
/// - `tools`: the finder, the stitcher and the planes that the run uses, and the spans and the run's log that it writes
///   to. They must be made for `graph` and `invs`, with nothing written yet.
/// - `flags`: for each invariant, whether the first graph satisfies it.
/// - `invs`: the invariants, which must hold of the words of the graph.
/// - `steps`: counts the steps. If the run succeeds, they are at most as many as `Workbench::infer` states.
///
/// It allocates nothing.
///
/// `Partitions` is returned if refinement needs more than `MAX_PARTITIONS` partitions. `Evidence` is returned if the
/// paths of splits and blocks have more than `MAX_PATH_NUMBERS` ids in total. After either, nothing is known about
/// `graph`, `tools` and `flags`.
pub fn run<L: Ledger>(
    graph: &mut PartGraph,
    tools: &mut Tools,
    flags: &[bool],
    invs: &[Invariant],
    steps: &mut Steps<L>,
) -> Result<(), InferLimit>
    requires ready { IsReady invs.now graph.old
        tools.old.stitcher tools.old.planes tools.old.spans tools.old.run_log }
    requires flags { length flags.now ≡ length invs.now }
    requires told { SaysSatisfied (G (graph.old).traces) invs.now flags.now }

    // What the run gives, if this is the first graph of the words and these are the invariants mined from them.
    ensures gives { (words : TypedWords) → BeginsWith words invs.now graph.old
        → RunGives result words graph.new tools.new.spans tools.new.run_log }

    // How many steps are counted.
    ensures counted { OnOk result ((words : TypedWords) → BeginsWith words invs.now graph.old
        → CountsAtMost words steps.old steps.new) }
{
    let Ok(()) = refine_and_coarsen(graph, tools, flags, invs, steps) else {
        return Err(InferLimit::Partitions);
    };
    let Ok(()) = blocks_marked(
        Coarsened { graph, invs },
        &mut tools.finder,
        &mut tools.planes,
        &mut tools.spans,
        &mut tools.run_log,
        steps,
    ) else {
        return Err(InferLimit::Evidence);
    };
    Ok(())
}

/// Refines and coarsens the first graph of a log as `run` does, and writes blocks only if nothing less shows whether their
/// paths fit. It makes no labels. The arguments and the errors are those of `run`.
///
/// It allocates nothing.
pub fn place<L: Ledger>(
    graph: &mut PartGraph,
    tools: &mut Tools,
    flags: &[bool],
    invs: &[Invariant],
    steps: &mut Steps<L>,
) -> Result<(), InferLimit>
    requires ready { IsReady invs.now graph.old
        tools.old.stitcher tools.old.planes tools.old.spans tools.old.run_log }
    requires flags { length flags.now ≡ length invs.now }
    requires told { SaysSatisfied (G (graph.old).traces) invs.now flags.now }

    // What the run gives, if this is the first graph of the words and these are the invariants mined from them.
    ensures gives { (words : TypedWords) → BeginsWith words invs.now graph.old
        → PlaceGives result words graph.new }

    // How many steps are counted.
    ensures counted { OnOk result ((words : TypedWords) → BeginsWith words invs.now graph.old
        → CountsAtMost words steps.old steps.new) }
{
    let coarsened = refine_and_coarsen(graph, tools, flags, invs, steps);
    let Ok(()) = coarsened else {
        return Err(InferLimit::Partitions);
    };
    if blocks_fit(graph, tools.spans.used() as usize) {
        return Ok(());
    }
    let Ok(()) = blocks_marked(
        Coarsened { graph, invs },
        &mut tools.finder,
        &mut tools.planes,
        &mut tools.spans,
        &mut tools.run_log,
        steps,
    ) else {
        return Err(InferLimit::Evidence);
    };
    Ok(())
}
