//! Whether the history of a model is justified. Its splits and merges are followed one by one from the first graph of a log.
//! Each must be permitted in its turn, and together they must lead to the graph of the model.
//!
//! No inference is run. The ids of events are in one list, trace after trace. The splits are judged and made over the words of
//! the log. A word is seldom kept twice there, however many traces have it. Edges are read from rows of bits, and a split gives
//! some events a new id. Then each trace gets the ids of its word, and the merges rename ids. At the end partitions and edges
//! are counted once and compared with those of the model.
#![tactic(auto)]

ghost use Rattle.std.specs.Prelude.{IfOk};
ghost use Rattle.model_shape.specs.Shapes.{IsWellShaped};
ghost use Rattle.models.specs.Models.{typed_words};
ghost use Rattle.replay_check.specs.Answers.{IsReplay};

mod answer;
mod counts;
mod edges;
mod follow;
mod graph;
mod ids;
mod listing;
mod merges;
mod splits;
mod stitch;
mod words;

pub use answer::Replay;
use follow::follow;
use ids::own_places;
use invariants::Model;
use listing::are_same;
pub use models::ReplayPart;
use std::alloc::{AllocError, Global};
use traces::TraceSet;
use words::lay_words;

/// Checks whether the history of the model is justified by the log of these traces. The model must be well shaped.
///
/// The answer is `Yes` if it is, and otherwise `No` with the first step that fails, in the order of `ReplayPart`: types,
/// splits, merges, graph.
///
/// `AllocError` means that memory ran out; no clause says when it is returned.
pub fn replay(alloc: Global, model: &Model, traces: &TraceSet) -> Result<Replay, AllocError>
    requires { IsWellShaped model.now }
    ensures { IfOk result (λ answer. IsReplay model.now (typed_words (model.now).kinds traces.now) answer) }
{
    let types = traces.types();
    if !are_same(model.types.as_slice(), types.as_slice()) {
        return Ok(Replay::No(ReplayPart::Types));
    }
    let mut places = Vec::new(alloc);
    let mut ids = lay_words(alloc, traces, &mut places)?;
    let mut id_types = own_places(alloc)?;
    follow(
        alloc,
        model,
        traces,
        ids.as_mut_slice(),
        places.as_slice(),
        id_types.as_mut_slice(),
    )
}
