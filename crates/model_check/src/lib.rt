//! Whether a model is valid for a log, tested by other means than inference.
//!
//! The invariants are mined a second time, by sets of types. The words of the log are followed through the model's own graph by
//! sets of ids. The labels are tested along all edges, not computed. The path of each block is followed in the graph in which
//! its two partitions are merged. No test depends on how the model was made.
#![tactic(auto)]

ghost use Rattle.std.specs.Prelude.{◌≡◌, ◌<◌, ◌^◌, length, IfOk, MatchOption};
ghost use Rattle.model_shape.specs.Shapes.{listing_of, IsWellShaped};
ghost use Rattle.models.specs.Checks.{DiffersAt};
ghost use Rattle.models.specs.Models.{graph_of, mined_of, typed_words};
ghost use Rattle.model_check.specs.Rows.{shown};
ghost use Rattle.model_check.specs.Verdicts.{IsVerdict};

mod acceptance;
mod blocks;
mod columns;
mod graph;
mod label_table;
mod labels;
mod listing;
mod rows;
mod sets;
mod states;
mod steps;
mod successors;
mod verdict;

use acceptance::first_refused;
use blocks::first_open;
use closure_miner::mine_again;
use graph::ModelGraph;
use invariants::{Model, candidate_count};
use labels::first_unlabelled;
use listing::{are_same, first_difference};
pub use models::Part;
use std::alloc::{AllocError, Global};
use traces::TraceSet;
pub use verdict::Verdict;

/// The first place at which the list of the model differs from the mined list of the log; `None` if they are the same. The only
/// error is out of memory.
fn first_unlisted(
    alloc: Global,
    model: &Model,
    traces: &TraceSet,
) -> Result<Option<u32>, AllocError>
    ensures { IfOk result (λ first. MatchOption first
        (listing_of model.now ≡ mined_of (typed_words (model.now).kinds traces.now))
        (DiffersAt (listing_of model.now) (mined_of (typed_words (model.now).kinds traces.now)))) }
{
    // The mined list is no longer than the list of candidates, so places in it fit in 32 bits.
    let types = traces.types();
    let _most = candidate_count(model.kinds, types.len() as u32);
    let mined = mine_again(alloc, model.kinds, traces)?;
    Ok(first_difference(model.invariants.as_slice(), mined.as_slice()))
}

/// The verdict on the graph of a model whose types and list are those of the log.
fn check_graph(
    alloc: Global,
    model: &Model,
    graph: &mut ModelGraph,
    traces: &TraceSet,
) -> Result<Verdict, AllocError>
    requires shaped { IsWellShaped model.now }
    requires graph { shown graph.old ≡ graph_of model.now }
    requires types { (model.now).types ≡ (traces.now).types }
    requires listing { listing_of model.now ≡ mined_of (typed_words (model.now).kinds traces.now) }
    requires few { length (model.now).invariants < 2 ^ 32 }
    ensures { IfOk result (λ verdict. IsVerdict model.now (typed_words (model.now).kinds traces.now) verdict) }
{
    if let Some(t) = first_refused(graph, traces) {
        return Ok(Verdict::No(Part::Trace(t)));
    }
    if let Some(i) = first_unlabelled(alloc, model, graph)? {
        return Ok(Verdict::No(Part::Label(i)));
    }
    match first_open(model, graph) {
        Some((p, q)) => Ok(Verdict::No(Part::Block(p, q))),
        None => Ok(Verdict::Yes),
    }
}

/// Checks whether the model is valid for the log of these traces. The model must be well shaped.
///
/// The verdict is `Yes` if it is valid, and otherwise `No` with the first part that fails, in the order of `Part`: types, list,
/// traces, labels, blocks. Within a part it names the first place, number or pair that fails. The list is that of the kinds
/// that the model names.
///
/// `AllocError` means that memory ran out; no clause says when it is returned.
pub fn check(alloc: Global, model: &Model, traces: &TraceSet) -> Result<Verdict, AllocError>
    requires { IsWellShaped model.now }
    ensures { IfOk result (λ verdict. IsVerdict model.now (typed_words (model.now).kinds traces.now) verdict) }
{
    let types = traces.types();
    if !are_same(model.types.as_slice(), types.as_slice()) {
        return Ok(Verdict::No(Part::Types));
    }
    if let Some(k) = first_unlisted(alloc, model, traces)? {
        return Ok(Verdict::No(Part::Listing(k)));
    }
    let mut graph = ModelGraph::of(alloc, model)?;
    check_graph(alloc, model, &mut graph, traces)
}
