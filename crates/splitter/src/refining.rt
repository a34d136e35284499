//! The run of refinement.
ghost use Rattle.std.specs.Prelude.{◌≡◌, ◌<◌, ◌≤◌, ◌+◌, ◌-◌, ◌^◌, IsOk, OnErr, OnOk, Some, length, slice_get};
ghost use Rattle.partition_model.specs.Assignments.{G, events, inner_words};
ghost use Rattle.partition_model.specs.Laws.{Divides, HoldAll};
ghost use Rattle.partition_model.specs.Refinement.{stitch};
ghost use Rattle.run_history.specs.Records.{splits_of};
ghost use Rattle.splitter.specs.Refining.{after, asked_count, event_count, is_known, split_by, AreFewer, AreKnown, EndsRefined, HaveFewRests, IsFull, IsOpened, IsStopped, WantsMoreIds};
ghost use Rattle.splitter.specs.Writing.{AddsSplit, AreEmpty, HaveRoom, WritesSplits};

use crate::stitcher::Stitcher;
use cell_pool::{RunLog, Spans};
use invariants::Invariant;
use limits::{INITIAL, MAX_PARTITIONS};
use partition_graph::{PartGraph, View};
use path_finder::Finder;
use std::sync::ledger::Ledger;
use steps::Steps;

/// Why refinement did not end: a further split needs an id, and all `MAX_PARTITIONS` ids are used.
#[derive(Clone, Copy, Debug, PartialEq, Eq)]
pub struct PartitionLimit;

/// What a refinement goes by. It stays as it is.
#[derive(Clone, Copy)]
pub struct Basis<'a> {
    /// The invariants that the graph is to satisfy.
    pub invs: &'a [Invariant],
    /// The flag at a place says whether the graph is known to satisfy the invariant at this place before the first
    /// split. A flag that is not there counts as false.
    pub known: &'a [bool],
    /// Finds the places of the splits.
    pub stitcher: &'a Stitcher,
}

/// The place of the stitch of a violation. It is never the last place of the path.
fn place_before_end(graph: &PartGraph, stitcher: &Stitcher, path: &[u32]) -> usize
    requires divides { Divides (graph.now).traces path.now (graph.now).used }
    requires starts { slice_get path.now 0 ≡ Some INITIAL }
    requires made { stitcher.now ≡ length (events (graph.now).traces) }
    ensures value { result ≡ stitch (graph.now).traces path.now }
    ensures before { result + 1 < length path.now }
{
    stitcher.place_before_end(graph, path)
}

/// Divides a partition by a path, the violation of the invariant with number k, and writes the split.
fn divide(
    graph: &mut PartGraph,
    stitcher: &Stitcher,
    path: &[u32],
    k: u32,
    spans: &mut Spans,
    run_log: &mut RunLog,
) -> Result<(), PartitionLimit>
    requires divides { Divides (graph.old).traces path.now (graph.old).used }
    requires starts { slice_get path.now 0 ≡ Some INITIAL }
    requires made { stitcher.now ≡ length (events (graph.old).traces) }
    requires short { length path.now < 2 ^ 32 }
    requires splits { (graph.old).used < MAX_PARTITIONS
        → length (run_log.old).splits < (run_log.old).split_room }
    requires numbers { length (spans.old).numbers + length path.now ≤ (spans.old).room }

    // The split, and what is written about it.
    ensures split { OnOk result (graph.new ≡ after (split_by graph.old path.now k) graph.old) }
    ensures adds { OnOk result
        (AddsSplit run_log.old run_log.new spans.old spans.new (split_by graph.old path.now k)) }
    ensures room { OnOk result ((graph.old).used < MAX_PARTITIONS) }

    // The limit is returned exactly if no id is left. Then nothing is changed.
    ensures full { OnErr result ((graph.old).used ≡ MAX_PARTITIONS) }
    ensures graph { OnErr result (graph.new ≡ graph.old) }
    ensures run_log { OnErr result (run_log.new ≡ run_log.old) }
    ensures spans { OnErr result (spans.new ≡ spans.old) }
{
    let place = place_before_end(graph, stitcher, path);
    if graph.split(path[place], path[place + 1]).is_none() {
        return Err(PartitionLimit);
    }
    let Some(span) = spans.push(path) else {
        unreachable!()
    };
    run_log.add_split(k, place as u32, span);
    Ok(())
}

/// Whether the flag with this number is true. A flag that is not there counts as false.
fn is_known(known: &[bool], k: usize) -> bool
    ensures { result ≡ is_known known.now k }
{
    k < known.len() && known[k]
}

/// Divides partitions until the graph satisfies each invariant of the list. Each split is for the first invariant that
/// is not satisfied, by its least violation, at the place of that path's stitch.
///
/// - `graph`: the graph to refine. It must be the first one of its words: each event is in the partition of its type.
/// - `finder`: finds the least violations.
/// - `stitcher`: finds the places of the splits. It must be made for as many events as the graph has, and does not
///   change.
/// - `invs`: the invariants, fewer than 2^32. Each must hold of each trace of the graph.
/// - `spans`: gets the paths of the splits, one after another. It must be empty, with room for `MAX_PATH_NUMBERS` ids.
/// - `run_log`: gets the splits, in their order. It must be empty, with room for `MAX_STEPS` splits.
/// - `steps`: counts one step for each invariant and one for each split.
///
/// If it succeeds, there are fewer splits than events, or none if there is no event. It allocates nothing.
///
/// `PartitionLimit` is returned exactly if all `MAX_PARTITIONS` ids are used and a further split is needed. Then the
/// graph, the run's log and the spans are as the last split left them, and at most one step for each invariant and one
/// for each split is counted. The limit is never reached if the traces have so few different suffixes that each can
/// have an id besides the two ends.
pub fn refine<L: Ledger>(
    graph: &mut PartGraph,
    finder: &mut Finder,
    stitcher: &mut Stitcher,
    invs: &[Invariant],
    spans: &mut Spans,
    run_log: &mut RunLog,
    steps: &mut Steps<L>,
) -> Result<(), PartitionLimit>
    requires few { length invs.now < 2 ^ 32 }
    requires opened { IsOpened graph.old }
    requires hold { HoldAll (inner_words (graph.old).traces) invs.now }
    requires made { stitcher.old ≡ length (events (graph.old).traces) }
    requires empty { AreEmpty run_log.old spans.old }
    requires room { HaveRoom run_log.old spans.old }

    // What is written, whether or not the run ends.
    ensures writes { WritesSplits run_log.old run_log.new spans.old spans.new }
    ensures same { stitcher.new ≡ stitcher.old }

    // The whole run.
    ensures ok { OnOk result
        (EndsRefined invs.now graph.old (splits_of run_log.new spans.new) graph.new) }
    ensures counted { OnOk result
        (steps.new ≡ steps.old + length invs.now + length (splits_of run_log.new spans.new)) }
    ensures fewer { OnOk result (AreFewer (splits_of run_log.new spans.new) (event_count graph.old)) }

    // When the limit is returned, and what stands then.
    ensures full { OnErr result (IsFull invs.now graph.new) }
    ensures excludes { OnErr result (WantsMoreIds invs.now graph.old) }
    ensures rests { HaveFewRests graph.old → IsOk result }
    ensures stands { OnErr result (IsStopped invs.now graph.old graph.new
        (splits_of run_log.new spans.new) (steps.new - steps.old)) }
{
    let basis = Basis {
        invs,
        known: &[],
        stitcher,
    };
    refine_skipping(graph, finder, basis, spans, run_log, steps)
}

/// Refines as `refine` does, but without a search for the invariants that the graph is known to satisfy before the
/// first split. Splits keep what is satisfied, so no path is searched for these.
///
/// - `basis`: the invariants and the stitcher are as for `refine`. The flag at place k may be true only if the graph
///   satisfies the invariant at place k before the call. A flag that is false says nothing. There may be fewer flags
///   than invariants.
/// - `steps`: counts one step for each invariant whose flag is not true, and one for each split.
/// - `graph`, `finder`, `spans` and `run_log`: as for `refine`.
///
/// The result, and what stands after `PartitionLimit`, are as for `refine`.
pub fn refine_skipping<L: Ledger>(
    graph: &mut PartGraph,
    finder: &mut Finder,
    basis: Basis<'_>,
    spans: &mut Spans,
    run_log: &mut RunLog,
    steps: &mut Steps<L>,
) -> Result<(), PartitionLimit>
    requires few { length basis.invs.now < 2 ^ 32 }
    requires opened { IsOpened graph.old }
    requires hold { HoldAll (inner_words (graph.old).traces) basis.invs.now }
    requires known { AreKnown basis.known.now basis.invs.now (G (graph.old).traces) }
    requires made { basis.stitcher.now ≡ length (events (graph.old).traces) }
    requires empty { AreEmpty run_log.old spans.old }
    requires room { HaveRoom run_log.old spans.old }

    // What is written, whether or not the run ends.
    ensures writes { WritesSplits run_log.old run_log.new spans.old spans.new }

    // The whole run.
    ensures ok { OnOk result
        (EndsRefined basis.entry.invs.now graph.old (splits_of run_log.new spans.new) graph.new) }
    ensures counted { OnOk result (steps.new
        ≡ steps.old + asked_count basis.entry.known.now (length basis.entry.invs.now)
        + length (splits_of run_log.new spans.new)) }
    ensures fewer { OnOk result (AreFewer (splits_of run_log.new spans.new) (event_count graph.old)) }

    // When the limit is returned, and what stands then.
    ensures full { OnErr result (IsFull basis.entry.invs.now graph.new) }
    ensures excludes { OnErr result (WantsMoreIds basis.entry.invs.now graph.old) }
    ensures rests { HaveFewRests graph.old → IsOk result }
    ensures stands { OnErr result (IsStopped basis.entry.invs.now graph.old graph.new
        (splits_of run_log.new spans.new) (steps.new - steps.old)) }
{
    prove!(graph.ids_used() <= MAX_PARTITIONS);
    let mut k = 0;
    while k < basis.invs.len() {
        if is_known(basis.known, k) {
            k += 1;
            continue;
        }
        match finder.least_violation(&View::Plain(graph), basis.invs[k], steps) {
            None => k += 1,
            Some(path) => divide(graph, basis.stitcher, path, k as u32, spans, run_log)?,
        }
    }
    Ok(())
}
