//! Whole runs: refinement by the invariants that are mined from a log, and coarsening with its blocks.
ghost use Rattle.std.specs.Prelude.{◌≡◌, ◌≤◌, ◌<◌, ◌^◌, ℕ, [], IfOk, Some, length, slice_get};
ghost use Rattle.limits.specs.declared.TheConstants.{LAST_TYPE, MAX_INVARIANTS, MAX_PAIRS, MAX_PATH_NUMBERS, MAX_STEPS};
ghost use Rattle.partition_graph.specs.Parts.{start_of};
ghost use Rattle.partition_model.specs.Assignments.{events, inner_words};
ghost use Rattle.partition_model.specs.Laws.{HoldAll};
ghost use Rattle.run_history.specs.Records.{HoldsPaths};
ghost use Rattle.splitter.specs.Refining.{IsOpened};

use crate::graphs::known::are_named;
use crate::graphs::texts::put_ids;
use crate::tools::{both, kinds};
use cell_pool::{RunLog, Spans};
use coarsener::{EvidenceLimit, blocks, coarsen};
use count_miner::mine;
use invariants::{Block, Invariant, Kinds, Merge, Split};
use labelling::Planes;
use limits::{MAX_PAIRS, MAX_PARTITIONS, MAX_PATH_NUMBERS, MAX_STEPS};
use partition_graph::PartGraph;
use path_finder::Finder;
use splitter::{Stitcher, refine, start_is_opened};
use std::alloc::{AllocError, Global};
use std::marker::Brand;
use std::sync::ledger::{Blank, Ledger};
use steps::Steps;
use traces::TraceSet;

/// Why a run did not end.
#[derive(Clone, Copy, Debug)]
pub enum Stop {
    PartitionLimit,
    EvidenceLimit,
}

/// What a run needs besides a graph and invariants, and what it writes.
#[derive(Drop)]
struct Tools {
    finder: Finder,
    stitcher: Stitcher,
    planes: Planes,
    spans: Spans,
    run_log: RunLog,
}

/// The tools for this graph and these invariants.
fn tools_for(alloc: Global, graph: &PartGraph, invs: &[Invariant]) -> Result<Tools, AllocError>
    requires few { length invs.now ≤ MAX_INVARIANTS }
    requires named { (k : ℕ) (inv : Invariant) → slice_get invs.now k ≡ Some inv
        → (inv.a ≤ LAST_TYPE) × (inv.b ≤ LAST_TYPE) }
    ensures made { IfOk result (λ tools. tools.stitcher ≡ length (events (graph.now).traces)) }
    ensures listed { IfOk result (λ tools. tools.planes.invs ≡ invs.now) }
    ensures spans { IfOk result
        (λ tools. tools.spans ≡ record { numbers = []; room = MAX_PATH_NUMBERS }) }
    ensures run_log { IfOk result (λ tools. tools.run_log ≡ record {
      splits = [];
      merges = [];
      blocks = [];
      split_room = MAX_STEPS;
      merge_room = MAX_STEPS;
      block_room = MAX_PAIRS;
    }) }
{
    let finds = both(Finder::make(alloc), Stitcher::make(alloc, graph));
    let spans = Spans::make(alloc, MAX_PATH_NUMBERS);
    let run_log = RunLog::make(alloc, MAX_STEPS, MAX_STEPS, MAX_PAIRS);
    let writes = both(spans, run_log);
    let keeps = both(Planes::make(alloc, invs), writes);
    let ((finder, stitcher), (planes, (spans, run_log))) = both(finds, keeps)?;
    Ok(Tools {
        finder,
        stitcher,
        planes,
        spans,
        run_log,
    })
}

/// A call is proved only if the counter is at this count.
fn stands_at<L: Ledger>(_steps: &Steps<L>, count: usize) -> usize
    requires { _steps.now ≡ count }
    ensures { result ≡ count }
{
    count
}

/// The count of a run that ended so.
fn ended(end: Result<(), EvidenceLimit>, count: usize) -> Result<usize, Stop> {
    match end {
        Ok(()) => Ok(count),
        Err(EvidenceLimit) => Err(Stop::EvidenceLimit),
    }
}

/// Refines the graph and returns how many steps were counted. If the run is to be whole, it also merges the graph's pairs and
/// reports the blocks.
fn run<L: Ledger>(
    graph: &mut PartGraph,
    invs: &[Invariant],
    tools: &mut Tools,
    is_whole: bool,
    blank: Blank,
) -> Result<usize, Stop>
    requires few { length invs.now < 2 ^ 32 }
    requires opened { IsOpened graph.old }
    requires hold { HoldAll (inner_words (graph.old).traces) invs.now }
    requires made { tools.old.stitcher ≡ length (events (graph.old).traces) }
    requires listed { tools.old.planes.invs ≡ invs.now }
    requires spans { tools.old.spans ≡ record { numbers = []; room = MAX_PATH_NUMBERS } }
    requires run_log { tools.old.run_log ≡ record {
      splits = [];
      merges = [];
      blocks = [];
      split_room = MAX_STEPS;
      merge_room = MAX_STEPS;
      block_room = MAX_PAIRS;
    } }
    requires name { blank.name ≡ L.name }
    requires parts { blank.parts ≡ L.parts }
    requires stands { 0 < blank.parts }
    ensures { HoldsPaths tools.new.run_log tools.new.spans }
{
    let mut steps = Steps::<L>::open(blank);
    let Ok(()) = refine(
        graph,
        &mut tools.finder,
        &mut tools.stitcher,
        invs,
        &mut tools.spans,
        &mut tools.run_log,
        &mut steps,
    ) else {
        return Err(Stop::PartitionLimit);
    };
    let count = stands_at(&steps, invs.len() + tools.run_log.splits().len());
    if !is_whole {
        return Ok(count);
    }
    coarsen(graph, &mut tools.planes, &mut tools.run_log, &mut steps);
    prove!(graph.ids_used() <= MAX_PARTITIONS);
    let end = blocks(
        graph,
        &mut tools.finder,
        &mut tools.planes,
        invs,
        &mut tools.spans,
        &mut tools.run_log,
        &mut steps,
    );
    ended(end, count)
}

/// Appends the splits to the text, each with its invariant, its place and its path.
fn put_splits(told: &mut String, splits: &[Split]) -> Result<(), AllocError> {
    for split in splits {
        write!(told, "; {}@{}:", split.inv, split.place).and(put_ids(told, split.path.as_slice()))?;
    }
    Ok(())
}

/// Appends the merges to the text.
fn put_merges(told: &mut String, merges: &[Merge]) -> Result<(), AllocError> {
    for merge in merges {
        write!(told, "; {}+{}", merge.p, merge.q)?;
    }
    Ok(())
}

/// Appends the blocks to the text, each with its pair, its invariant and its path.
fn put_blocks(told: &mut String, blocks: &[Block]) -> Result<(), AllocError> {
    for block in blocks {
        write!(told, "; {}-{} {}:", block.p, block.q, block.inv).and(put_ids(
            told,
            block.path.as_slice(),
        ))?;
    }
    Ok(())
}

/// Appends the id of each event to the text.
fn put_parts(alloc: Global, told: &mut String, graph: &PartGraph) -> Result<(), AllocError> {
    let parts = graph.parts(alloc)?;
    told.push_str("; ids:").and(put_ids(told, parts.as_slice()))
}

/// Appends what a run wrote to the text, and then the ids of the events.
fn put_written(
    alloc: Global,
    told: &mut String,
    graph: &PartGraph,
    tools: &Tools,
) -> Result<(), AllocError>
    requires { HoldsPaths tools.now.run_log tools.now.spans }
{
    let (run_log, spans) = (&tools.run_log, &tools.spans);
    let others = both(
        run_history::merges(alloc, run_log),
        run_history::blocks(alloc, run_log, spans),
    );
    let splits = run_history::splits(alloc, run_log, spans);
    let (splits, (merges, blocks)) = both(splits, others)?;
    put_splits(told, splits.as_slice())
        .and(put_merges(told, merges.as_slice()))
        .and(put_blocks(told, blocks.as_slice()))
        .and(put_parts(alloc, told, graph))
}

/// Runs on the graph, and appends the result to the text: how many invariants were mined, how many ids paths have, what the run
/// answered, and what it wrote.
fn put_run_by(
    alloc: Global,
    told: &mut String,
    graph: &mut PartGraph,
    invs: &[Invariant],
    is_whole: bool,
) -> Result<(), AllocError>
    requires opened { IsOpened graph.old }
    requires hold { HoldAll (inner_words (graph.old).traces) invs.now }
{
    if !are_named(invs) {
        return told.push_str(" no");
    }
    let mut tools = tools_for(alloc, graph, invs)?;
    let end = run::<Brand>(graph, invs, &mut tools, is_whole, Blank::new(1));
    let numbers = tools.spans.used();
    let head = write!(told, " {} mined, {numbers} numbers, {end:?}", invs.len());
    let written = put_written(alloc, told, graph, &tools);
    drop(tools);
    head.and(written)
}

/// The same on the first graph of a log, by what is mined from it.
fn put_mined_run(
    alloc: Global,
    told: &mut String,
    log: &TraceSet,
    graph: &mut PartGraph,
    kinds: Kinds,
    is_whole: bool,
) -> Result<(), AllocError>
    requires { graph.old ≡ start_of log.now }
{
    start_is_opened(log);
    let mined = mine(alloc, kinds, log)?;
    put_run_by(alloc, told, graph, mined.as_slice(), is_whole)
}

/// The same for a log, for four kinds if the text is 4, and otherwise for three.
pub fn put_run(
    alloc: Global,
    told: &mut String,
    log: &TraceSet,
    text: &str,
    is_whole: bool,
) -> Result<(), AllocError> {
    let mut graph = PartGraph::open(alloc, log)?;
    let end = put_mined_run(alloc, told, log, &mut graph, kinds(text), is_whole);
    drop(graph);
    end
}
