//! Why pairs stay apart.
ghost use Rattle.std.specs.Prelude.{◌≡◌, ◌≤◌, ◌<◌, ◌+◌, ◌*◌, ◌^◌, ◌++◌, [], List, length, OnOk, OnErr};
ghost use Rattle.limits.specs.declared.TheConstants.{MAX_PATH_NUMBERS};
ghost use Rattle.invariants.specs.declared.records.Block.{Block};
ghost use Rattle.partition_model.specs.Assignments.{G};
ghost use Rattle.partition_model.specs.Coarsening.{AreBlocks, NoMerge};
ghost use Rattle.partition_model.specs.Refinement.{SatisfiesAll};
ghost use Rattle.model_shape.specs.Numbers.{block_numbers};
ghost use Rattle.cell_pool.specs.Numbers.{KeepsLists};
ghost use Rattle.run_history.specs.Records.{blocks_of, HoldsPaths};
ghost use Rattle.coarsener.specs.Blocking.{pair_count, paths_of, EndsWithoutRoom};
ghost use Rattle.coarsener.specs.Marking.{AreMarksNow};
ghost use Rattle.coarsener.specs.Telling.{TellsLosses};

use crate::pairs::{Pair, next_pair};
use crate::telling::{Told, first_lost, is_known, tell_losses};
use cell_pool::{RunLog, Spans};
use invariants::{Invariant, Merge};
use labelling::Planes;
use limits::MAX_PATH_NUMBERS;
use partition_graph::PartGraph;
use path_finder::Finder;
use std::sync::ledger::Ledger;
use steps::Steps;

/// Why blocks are missing: the paths of splits and blocks have more than `MAX_PATH_NUMBERS` ids in total.
#[derive(Clone, Copy, Debug, PartialEq, Eq)]
pub struct EvidenceLimit;

/// A graph where coarsening ended, and the invariants that it went by.
#[derive(Clone, Copy)]
pub struct Coarsened<'a> {
    /// The graph.
    pub graph: &'a PartGraph,
    /// The invariants. A block names one by its place in this list.
    pub invs: &'a [Invariant],
}

/// What tells why the pairs of a graph stay apart.
#[derive(Clone, Copy)]
struct Apart<'a> {
    /// The graph where coarsening ended.
    graph: &'a PartGraph,
    /// The invariants.
    invs: &'a [Invariant],
    /// What shows which of them merges lose.
    told: Told,
}

/// Writes the blocks as `blocks` does, by what is already known of the losses.
///
/// - `apart`: the graph and the invariants are as for `blocks`. If the graph has a pair, there must be fewer than 2^32
///   invariants, and what shows the losses must be true of `planes` and the graph.
/// - `steps`: counts at most one step for each pair.
/// - `finder`, `planes`, `spans` and `run_log`: as for `blocks`.
fn blocks_told<L: Ledger>(
    apart: Apart<'_>,
    finder: &mut Finder,
    planes: &mut Planes,
    spans: &mut Spans,
    run_log: &mut RunLog,
    steps: &mut Steps<L>,
) -> Result<(), EvidenceLimit>
    requires told { 0 < pair_count apart.graph.now
        → TellsLosses apart.told planes.old (G (apart.graph.now).traces) }
    requires few { 0 < pair_count apart.graph.now → length apart.invs.now < 2 ^ 32 }
    requires ended { NoMerge apart.invs.now (apart.graph.now).traces }
    requires listed { (planes.old).invs ≡ apart.invs.now }
    requires numbers { (spans.old).room ≡ MAX_PATH_NUMBERS }
    requires begun { (run_log.old).blocks ≡ [] }
    requires room { pair_count apart.graph.now ≤ (run_log.old).block_room }

    // All blocks, if there is room for their paths.
    ensures ok { OnOk result (AreBlocks apart.entry.invs.now (G (apart.entry.graph.now).traces)
        (blocks_of run_log.new spans.new)) }
    ensures within { OnOk result (length (spans.new).numbers ≤ MAX_PATH_NUMBERS) }

    // When the limit is exceeded, and what stands then.
    ensures limit { OnErr result ((bs : List Block)
        → AreBlocks apart.entry.invs.now (G (apart.entry.graph.now).traces) bs
        → MAX_PATH_NUMBERS < length (spans.old).numbers + block_numbers bs) }
    ensures err { OnErr result (EndsWithoutRoom apart.entry.invs.now apart.entry.graph.now
        (blocks_of run_log.new spans.new) (length (spans.new).numbers)) }

    // What the spans and the run's log hold in each case.
    ensures paths { spans.new ≡ record spans.old {
      numbers = (spans.old).numbers ++ paths_of (blocks_of run_log.new spans.new);
    } }
    ensures stays { KeepsLists (spans.old).numbers (spans.new).numbers }
    ensures holds { HoldsPaths run_log.old spans.old → HoldsPaths run_log.new spans.new }
    ensures others { run_log.new ≡ record run_log.old { blocks = (run_log.new).blocks } }
    ensures list { (planes.new).invs ≡ (planes.old).invs }

    // How many steps are counted.
    ensures more { steps.old ≤ steps.new }
    ensures few { steps.new ≤ steps.old + pair_count apart.entry.graph.now }
{
    prove!(spans.used() <= MAX_PATH_NUMBERS);
    let mut at = Pair::start();
    if next_pair(apart.graph, at).is_none() {
        return Ok(());
    }
    finder.forget();
    while let Some(pair) = next_pair(apart.graph, at) {
        let Some(k) = first_lost(planes, apart.told, pair) else {
            unreachable!()
        };
        let known = is_known(apart.told, k);
        let merge = Merge {
            p: pair.p,
            q: pair.q,
        };
        if !finder.find_loss(apart.graph, merge, apart.invs[k], known, steps) {
            unreachable!()
        }
        let Some(path) = spans.push(finder.path()) else {
            return Err(EvidenceLimit);
        };
        run_log.add_block(pair.p, pair.q, k as u32, path);
        at = pair;
    }
    Ok(())
}

/// Writes a block for each pair of one type: why the pair stays apart. The block has the first invariant that the merge
/// of the pair loses, and the least violation of that invariant in the merged graph. Blocks are in the order of the
/// pairs, by their lower id and then by their higher one.
///
/// - `graph`: the graph where coarsening ended: the merge of each pair loses an invariant of `invs`. The graph itself
///   need not satisfy all of them.
/// - `finder`: finds the paths of the blocks.
/// - `planes`: finds which invariants merges lose. It must be made for `invs`. Its labels and marks may change.
/// - `invs`: the invariants. A block names one by its place in this list.
/// - `spans`: gets the paths of the blocks, after what it has already (the paths of the splits), which stays. Its room
///   must be `MAX_PATH_NUMBERS` ids in all.
/// - `run_log`: gets the blocks. It must have no blocks, and room for one for each pair. All else in it stays.
/// - `steps`: counts at most two steps for each pair.
///
/// It allocates nothing.
///
/// `EvidenceLimit` is returned exactly if what `spans` has already and the paths of all blocks are together more than
/// `MAX_PATH_NUMBERS` ids. Then the run's log has the blocks before the first one whose path did not fit, and `spans`
/// has their paths.
pub fn blocks<L: Ledger>(
    graph: &PartGraph,
    finder: &mut Finder,
    planes: &mut Planes,
    invs: &[Invariant],
    spans: &mut Spans,
    run_log: &mut RunLog,
    steps: &mut Steps<L>,
) -> Result<(), EvidenceLimit>
    requires ended { NoMerge invs.now (graph.now).traces }
    requires listed { (planes.old).invs ≡ invs.now }
    requires numbers { (spans.old).room ≡ MAX_PATH_NUMBERS }
    requires begun { (run_log.old).blocks ≡ [] }
    requires room { pair_count graph.now ≤ (run_log.old).block_room }

    // All blocks, if there is room for their paths.
    ensures ok { OnOk result
        (AreBlocks invs.now (G (graph.now).traces) (blocks_of run_log.new spans.new)) }
    ensures within { OnOk result (length (spans.new).numbers ≤ MAX_PATH_NUMBERS) }

    // When the limit is exceeded, and what stands then.
    ensures limit { OnErr result ((bs : List Block) → AreBlocks invs.now (G (graph.now).traces) bs
        → MAX_PATH_NUMBERS < length (spans.old).numbers + block_numbers bs) }
    ensures err { OnErr result (EndsWithoutRoom invs.now graph.now (blocks_of run_log.new spans.new)
        (length (spans.new).numbers)) }

    // What the spans and the run's log hold in each case.
    ensures paths { spans.new ≡ record spans.old {
      numbers = (spans.old).numbers ++ paths_of (blocks_of run_log.new spans.new);
    } }
    ensures stays { KeepsLists (spans.old).numbers (spans.new).numbers }
    ensures holds { HoldsPaths run_log.old spans.old → HoldsPaths run_log.new spans.new }
    ensures others { run_log.new ≡ record run_log.old { blocks = (run_log.new).blocks } }
    ensures list { (planes.new).invs ≡ (planes.old).invs }

    // How many steps are counted.
    ensures more { steps.old ≤ steps.new }
    ensures few { steps.new ≤ steps.old + 2 * pair_count graph.now }
{
    let told = tell_losses(graph, planes, steps);
    let apart = Apart { graph, invs, told };
    blocks_told(apart, finder, planes, spans, run_log, steps)
}

/// Writes the blocks as `blocks` does, for a graph that satisfies all invariants and whose marks are found already. So
/// it neither labels the graph nor finds marks.
///
/// - `end`: the graph where coarsening ended, and the invariants, fewer than 2^32. The graph must satisfy them,
///   and each of its merges must lose one of them.
/// - `planes`: must be made for these invariants. If the graph has a pair, its marks must be those of the graph, as
///   `coarsen` leaves them.
/// - `steps`: counts at most one step for each pair.
/// - `finder`, `spans` and `run_log`: as for `blocks`.
///
/// The result, and what stands after `EvidenceLimit`, are as for `blocks`.
pub fn blocks_marked<L: Ledger>(
    end: Coarsened<'_>,
    finder: &mut Finder,
    planes: &mut Planes,
    spans: &mut Spans,
    run_log: &mut RunLog,
    steps: &mut Steps<L>,
) -> Result<(), EvidenceLimit>
    requires satisfied { SatisfiesAll (G (end.graph.now).traces) end.invs.now }
    requires marks { 0 < pair_count end.graph.now → AreMarksNow planes.old end.graph.now }
    requires few { length end.invs.now < 2 ^ 32 }
    requires ended { NoMerge end.invs.now (end.graph.now).traces }
    requires listed { (planes.old).invs ≡ end.invs.now }
    requires numbers { (spans.old).room ≡ MAX_PATH_NUMBERS }
    requires begun { (run_log.old).blocks ≡ [] }
    requires room { pair_count end.graph.now ≤ (run_log.old).block_room }

    // All blocks, if there is room for their paths.
    ensures ok { OnOk result (AreBlocks end.entry.invs.now (G (end.entry.graph.now).traces)
        (blocks_of run_log.new spans.new)) }
    ensures within { OnOk result (length (spans.new).numbers ≤ MAX_PATH_NUMBERS) }

    // When the limit is exceeded, and what stands then.
    ensures limit { OnErr result ((bs : List Block)
        → AreBlocks end.entry.invs.now (G (end.entry.graph.now).traces) bs
        → MAX_PATH_NUMBERS < length (spans.old).numbers + block_numbers bs) }
    ensures err { OnErr result (EndsWithoutRoom end.entry.invs.now end.entry.graph.now
        (blocks_of run_log.new spans.new) (length (spans.new).numbers)) }

    // What the spans and the run's log hold in each case.
    ensures paths { spans.new ≡ record spans.old {
      numbers = (spans.old).numbers ++ paths_of (blocks_of run_log.new spans.new);
    } }
    ensures stays { KeepsLists (spans.old).numbers (spans.new).numbers }
    ensures holds { HoldsPaths run_log.old spans.old → HoldsPaths run_log.new spans.new }
    ensures others { run_log.new ≡ record run_log.old { blocks = (run_log.new).blocks } }
    ensures list { (planes.new).invs ≡ (planes.old).invs }

    // How many steps are counted.
    ensures more { steps.old ≤ steps.new }
    ensures few { steps.new ≤ steps.old + pair_count end.entry.graph.now }
{
    let apart = Apart {
        graph: end.graph,
        invs: end.invs,
        told: Told::Marks(None),
    };
    blocks_told(apart, finder, planes, spans, run_log, steps)
}
