//! The model of a run that has ended.
ghost use Rattle.std.specs.Prelude.{◌≡◌, ◌<◌, ◌≤◌, ℕ, IfOk, Some, length, slice_get};
ghost use Rattle.limits.specs.declared.TheConstants.{MAX_INVARIANTS, MAX_PARTITIONS};
ghost use Rattle.invariants.specs.declared.records.Partition.{Partition};
ghost use Rattle.run_history.specs.Records.{HoldsPaths};
ghost use Rattle.partition_model.specs.Assignments.{G};
ghost use Rattle.partition_graph.specs.Parts.{Parts};
ghost use Rattle.infer_core.specs.Portions.{AreNamed};
ghost use Rattle.infer_core.specs.Workbenches.{AreListsOf, Tells};

use crate::labels::listed;
use crate::tools::{Tools, both};
use invariants::{Edge, Invariant, Kinds, Model, Partition, Seq, Text};
use partition_graph::PartGraph;
use run_history::{blocks, merges, splits};
use std::alloc::{AllocError, Global};
use traces::TraceSet;

/// A copy of the texts.
fn copy_of(alloc: Global, types: &Seq<Text>) -> Result<Seq<Text>, AllocError>
    ensures { IfOk result (λ copy. copy ≡ types.now) }
{
    let texts = types.as_slice();
    let mut copy = Vec::with_capacity(alloc, texts.len())?;
    for text in texts {
        copy.push_reserved(Text::from_string(String::from_str(alloc, text.as_str())?));
    }
    Ok(Seq::from_vec(copy))
}

/// The model: the types of the log, the kinds that are asked for, the given partitions and edges of the graph where
/// coarsening ended, the labels of the invariants in that graph, and the splits, merges and blocks of the run. `AllocError`
/// is returned if there is not enough memory.
pub fn model_of(
    alloc: Global,
    kinds: Kinds,
    traces: &TraceSet,
    invs: &[Invariant],
    lists: (Seq<Partition>, Seq<Edge>),
    first: &PartGraph,
    tools: &Tools,
) -> Result<Model, AllocError>
    requires few { length invs.now ≤ MAX_INVARIANTS }
    requires named { AreNamed invs.now }
    requires ids { (k : ℕ) (x : Partition) → slice_get lists.0 k ≡ Some x → x.id < MAX_PARTITIONS }
    requires paths { HoldsPaths tools.now.run_log tools.now.spans }
    ensures { (graph : Parts) → AreListsOf graph lists.0 lists.1
        → G graph.traces ≡ G (first.now).traces
        → IfOk result
        (λ m. Tells m kinds traces.now invs.now graph tools.now.spans tools.now.run_log) }
{
    let (partitions, edges) = lists;
    let listing = listed(alloc, kinds, first, invs, partitions.as_slice());
    let named = both(copy_of(alloc, traces.types()), listing);
    let joins = both(
        merges(alloc, &tools.run_log),
        blocks(alloc, &tools.run_log, &tools.spans),
    );
    let told = both(splits(alloc, &tools.run_log, &tools.spans), joins);
    let ((types, invariants), (splits, (merges, blocks))) = both(named, told)?;
    Ok(Model {
        types,
        kinds,
        edges,
        partitions,
        invariants,
        splits,
        merges,
        blocks,
    })
}
