//! The workbench: a log, the kinds of invariants that are asked for, and all that its inference needs.
ghost use Rattle.std.specs.Prelude.{◌≡◌, ◌≤◌, ◌↔◌, [], IfOk, OnErr, OnOk, Err, length};
ghost use Rattle.limits.specs.declared.TheConstants.{MAX_INVARIANTS, MAX_PAIRS, MAX_PATH_NUMBERS, MAX_STEPS};
ghost use Rattle.invariants.specs.Mined.{mined_for};
ghost use Rattle.models.specs.Limits.{KeepsLimits};
ghost use Rattle.models.specs.Models.{typed_words, IsModelOf};
ghost use Rattle.partition_graph.specs.Spread.{SharesWords};
ghost use Rattle.partition_model.specs.Assignments.{G, events};
ghost use Rattle.labelling.specs.Labelled.{SaysSatisfied};
ghost use Rattle.infer_core.specs.Runs.{AreFinal, CountsAtMost, PassesNumbers, PassesPartitions};
ghost use Rattle.infer_core.specs.Portions.{AreNamed};
ghost use Rattle.infer_core.specs.Workbenches.{HasParts};
ghost use Rattle.traces.specs.Words.{words_of};

use crate::flags::satisfied;
use crate::law::log_is_typed;
use crate::model::model_of;
use crate::run::{place, run};
use crate::tools::{Tools, both};
use crate::whole::whole_lists;
use count_miner::mine_distinct;
use invariants::{Invariant, Kinds, Seq};
use partition_graph::PartGraph;
use splitter::start_is_opened;
use std::alloc::{AllocError, Global};
use std::sync::ledger::Ledger;
use steps::Steps;
use traces::TraceSet;

/// Which limit inference exceeds.
#[derive(Clone, Copy, Debug, PartialEq, Eq)]
pub enum InferLimit {
    /// Refinement needs more than `MAX_PARTITIONS` partitions, including the two ends.
    Partitions,
    /// The paths of splits and blocks have more than `MAX_PATH_NUMBERS` ids in total.
    Evidence,
}

/// How far the inference of a workbench is.
#[derive(Clone, Copy, Debug, PartialEq, Eq)]
pub enum Stage {
    /// Nothing is inferred yet.
    Opened,
    /// Inference has ended, and the model can be asked for.
    Inferred,
    /// The final ids of the events are known, and nothing else of the model.
    Placed,
    /// A limit was exceeded, and there is no model.
    Refused,
}

/// A log with all that its inference needs. Contracts see the kinds of invariants that are asked for, the log, and how
/// far its inference is.
///
/// At each stage it gives the traces of the log. `infer` or `place` may be called at `Opened`, `model` at `Inferred`, and
/// `parts` at `Inferred` and `Placed`.
#[derive(Drop)]
pub struct Workbench {
    kinds: Kinds,
    traces: TraceSet,
    invs: Seq<Invariant>,
    /// The graph of the distinct words.
    graph: PartGraph,
    /// For each trace of the log, the number of the trace in the graph that has its word.
    numbers: Vec<u32>,
    tools: Tools,
    /// For each invariant, whether the first graph satisfies it.
    flags: Vec<bool>,
    stage: Stage,
}

impl std::marker::Model for Workbench {
    ghost use Rattle.std.specs.Prelude.{◌≡◌, length};
    ghost use Rattle.infer_core.specs.Workbenches.{Knows, WorkbenchView, Stands};

    ghost Value = { WorkbenchView };

    ghost view = { λ b. record { kinds = b.kinds; log = b.traces; stage = b.stage } };

    ghost invariant = { λ b.
        Stands b.stage b.kinds b.traces b.invs b.graph b.numbers.items
        b.tools.stitcher b.tools.planes b.tools.spans b.tools.run_log
        × Knows b.stage b.graph b.invs b.flags.items };
}

/// The mined invariants of the traces, if the graph of their distinct words was made. Each word is mined once.
/// `AllocError` is returned if there is not enough memory.
fn mine_words(
    alloc: Global,
    kinds: Kinds,
    traces: &TraceSet,
    shared: &Result<(PartGraph, Vec<u32>), AllocError>,
) -> Result<Seq<Invariant>, AllocError>
    requires { IfOk shared.now (λ made. SharesWords traces.now made.0 made.1.items) }
    ensures { IfOk result (λ invs. invs
        ≡ mined_for kinds (length (traces.now).types) (words_of traces.now)) }
{
    let Ok((_, numbers)) = shared else {
        return Err(AllocError);
    };
    mine_distinct(alloc, kinds, traces, numbers.as_slice())
}

/// The tools and the flags for a graph and invariants, if these were made. `AllocError` is returned if there is not
/// enough memory.
fn equip(
    alloc: Global,
    kinds: Kinds,
    opened: &Result<((PartGraph, Vec<u32>), Seq<Invariant>), AllocError>,
) -> Result<(Tools, Vec<bool>), AllocError>
    requires few { IfOk opened.now (λ made. length made.1 ≤ MAX_INVARIANTS) }
    requires named { IfOk opened.now (λ made. AreNamed made.1) }

    // What the tools and the flags are made for.
    ensures stitcher { IfOk result (λ pair. IfOk opened.now
        (λ made. pair.0.stitcher ≡ length (events made.0.0.traces))) }
    ensures planes { IfOk result (λ pair. IfOk opened.now (λ made. pair.0.planes.invs ≡ made.1)) }
    ensures flags { IfOk result (λ pair. IfOk opened.now
        (λ made. length pair.1.items ≡ length made.1)) }
    ensures told { IfOk result (λ pair. IfOk opened.now
        (λ made. SaysSatisfied (G made.0.0.traces) made.1 pair.1.items)) }

    // Nothing is written yet, and there is room for all that may be.
    ensures spans { IfOk result
        (λ pair. pair.0.spans ≡ record { numbers = []; room = MAX_PATH_NUMBERS }) }
    ensures run_log { IfOk result (λ pair. pair.0.run_log ≡ record {
      splits = [];
      merges = [];
      blocks = [];
      split_room = MAX_STEPS;
      merge_room = MAX_STEPS;
      block_room = MAX_PAIRS;
    }) }
{
    let Ok(((graph, _), invs)) = opened else {
        return Err(AllocError);
    };
    let tools = Tools::make(alloc, graph, invs.as_slice());
    both(tools, satisfied(alloc, kinds, graph, invs.as_slice()))
}

impl Workbench {
    /// A workbench for these traces, with their mined invariants of these kinds and all memory that inference needs:
    /// the first graph of the log, and room for `MAX_STEPS` splits, as many merges, `MAX_PAIRS` blocks and
    /// `MAX_PATH_NUMBERS` ids of paths. `AllocError` is returned if there is not enough memory; then the traces are
    /// dropped.
    pub fn open(alloc: Global, kinds: Kinds, traces: TraceSet) -> Result<Workbench, AllocError>
        ensures { IfOk result (λ made. made ≡ record {
          kinds = kinds;
          log = traces;
          stage = Stage.Opened;
        }) }
    {
        start_is_opened(&traces);
        log_is_typed(&traces);
        let shared = PartGraph::open_shared(alloc, &traces);
        let mined = mine_words(alloc, kinds, &traces, &shared);
        let opened = both(shared, mined);
        let equipped = equip(alloc, kinds, &opened);
        let ((traces, ((graph, numbers), invs)), (tools, flags)) = both(
            both(Ok(traces), opened),
            equipped,
        )?;
        Ok(Workbench {
            kinds,
            traces,
            invs,
            graph,
            numbers,
            tools,
            flags,
            stage: Stage::Opened,
        })
    }

    /// Infers the model of the log: refines the graph, coarsens it, and records why pairs stay apart. It must be called
    /// at stage `Opened`, so at most once. It allocates nothing. If it succeeds, it has counted at most one step for
    /// each mined invariant and each split, three for each pair of one type of the refined graph, and one more.
    ///
    /// `Partitions` is returned exactly if refinement needs more than `MAX_PARTITIONS` partitions. `Evidence` is
    /// returned exactly if the paths of splits and blocks have more than `MAX_PATH_NUMBERS` ids in total.
    ///
    /// After either error the stage is `Refused`. The kinds and the log are unchanged, and `traces` still gives the
    /// log. There is no model: `infer`, `place`, `model` and `parts` must not be called.
    pub fn infer<L: Ledger>(&mut self, steps: &mut Steps<L>) -> Result<(), InferLimit>
        requires { (self.old).stage ≡ Stage.Opened }
        ensures kinds { (self.new).kinds ≡ (self.old).kinds }
        ensures log { (self.new).log ≡ (self.old).log }
        ensures stage { OnOk result ((self.new).stage ≡ Stage.Inferred) }
        ensures refused { OnErr result ((self.new).stage ≡ Stage.Refused) }

        // Each limit is returned exactly if it is exceeded.
        ensures partitions { (result ≡ Err InferLimit.Partitions)
            ↔ PassesPartitions (typed_words (self.old).kinds (self.old).log) }
        ensures evidence { (result ≡ Err InferLimit.Evidence)
            ↔ PassesNumbers (typed_words (self.old).kinds (self.old).log) }

        // How many steps are counted.
        ensures counted { OnOk result
            (CountsAtMost (typed_words (self.old).kinds (self.old).log) steps.old steps.new) }
    {
        let end = run(
            &mut self.graph,
            &mut self.tools,
            self.flags.as_slice(),
            self.invs.as_slice(),
            steps,
        );
        match end {
            Ok(()) => {
                self.stage = Stage::Inferred;
                Ok(())
            }
            Err(limit) => {
                self.stage = Stage::Refused;
                Err(limit)
            }
        }
    }

    /// Finds the final ids of the events: refines and coarsens the graph as `infer` does, but makes no labels, and no
    /// blocks unless only they can show whether their paths keep the limit. It must be called at stage `Opened`, so at
    /// most once. It allocates nothing. Then `parts` can be asked for; there is no model. If it succeeds, it has counted
    /// at most as many steps as `infer` may.
    ///
    /// The errors come exactly as those of `infer`, and leave what they leave there.
    pub fn place<L: Ledger>(&mut self, steps: &mut Steps<L>) -> Result<(), InferLimit>
        requires { (self.old).stage ≡ Stage.Opened }
        ensures kinds { (self.new).kinds ≡ (self.old).kinds }
        ensures log { (self.new).log ≡ (self.old).log }
        ensures stage { OnOk result ((self.new).stage ≡ Stage.Placed) }
        ensures refused { OnErr result ((self.new).stage ≡ Stage.Refused) }

        // Each limit is returned exactly if it is exceeded.
        ensures partitions { (result ≡ Err InferLimit.Partitions)
            ↔ PassesPartitions (typed_words (self.old).kinds (self.old).log) }
        ensures evidence { (result ≡ Err InferLimit.Evidence)
            ↔ PassesNumbers (typed_words (self.old).kinds (self.old).log) }

        // How many steps are counted.
        ensures counted { OnOk result
            (CountsAtMost (typed_words (self.old).kinds (self.old).log) steps.old steps.new) }
    {
        let end = place(
            &mut self.graph,
            &mut self.tools,
            self.flags.as_slice(),
            self.invs.as_slice(),
            steps,
        );
        match end {
            Ok(()) => {
                self.stage = Stage::Placed;
                Ok(())
            }
            Err(exceeded) => {
                self.stage = Stage::Refused;
                Err(exceeded)
            }
        }
    }

    /// The model of the log, in newly allocated memory. It must be called at stage `Inferred`. `AllocError` is returned
    /// if there is not enough memory.
    pub fn model(&self, alloc: Global) -> Result<invariants::Model, AllocError>
        requires { (self.now).stage ≡ Stage.Inferred }
        ensures value { IfOk result (λ m. IsModelOf m (typed_words (self.now).kinds (self.now).log)) }
        ensures within { IfOk result (λ m. KeepsLimits m) }
    {
        let lists = whole_lists(alloc, &self.graph, self.numbers.as_slice())?;
        model_of(
            alloc,
            self.kinds,
            &self.traces,
            self.invs.as_slice(),
            lists,
            &self.graph,
            &self.tools,
        )
    }

    /// The id of the partition of each event in the model, trace after trace. It must be called at stage `Inferred`
    /// or `Placed`. `AllocError` is returned if there is not enough memory for the list.
    pub fn parts(&self, alloc: Global) -> Result<Seq<u32>, AllocError>
        requires { HasParts (self.now).stage }
        ensures { IfOk result (λ ids. AreFinal (typed_words (self.now).kinds (self.now).log) ids) }
    {
        self.graph.spread_parts(alloc, self.numbers.as_slice())
    }

    /// The traces of the log. It may be called at each stage.
    pub fn traces(&self) -> &TraceSet
        ensures { result.now ≡ (self.now).log }
    {
        &self.traces
    }
}
