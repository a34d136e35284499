//! The steps of a history, followed from the first assignment of a log.
ghost use Rattle.std.specs.Prelude.{◌≡◌, ◌+◌, ◌<◌, ◌≤◌, ◌^◌, ℕ, [], length, slice_index, slice_index_or, IfOk, All};
ghost use Rattle.limits.specs.declared.TheConstants.{FIRST_TYPE, MAX_PARTITIONS};
ghost use Rattle.model_shape.specs.Shapes.{IsWellShaped};
ghost use Rattle.partition_model.specs.Assignments.{Assignment, by_type};
ghost use Rattle.replay_check.specs.Answers.{IsMerged, IsFollowed};
ghost use Rattle.replay_check.specs.Laid.{inner_words_of, HaveIdsBelow};
ghost use Rattle.replay_check.specs.Sharing.{gathered, AreIdsOf};
ghost use Rattle.replay_check.specs.Shown.{AreOwnPlaces, Shows};

use crate::answer::Replay;
use crate::edges::EdgeRows;
use crate::graph::{has_graph, live_ids};
use crate::ids::{own_places, rename};
use crate::merges::first_wrong_merge;
use crate::splits::first_wrong_split;
use crate::words::gather;
use invariants::Model;
use limits::FIRST_TYPE;
use models::ReplayPart;
use std::alloc::{AllocError, Global};
use traces::TraceSet;

/// Follows the merges from the assignment that the ids show, and compares the resulting graph.
fn follow_merges(
    alloc: Global,
    model: &Model,
    ids: &mut [u16],
    types: &[u16],
) -> Result<Replay, AllocError>
    requires shaped { IsWellShaped model.now }
    requires types_size { length types.now ≡ MAX_PARTITIONS }
    requires within { All (λ p. p < MAX_PARTITIONS) ids.old }
    requires few { length ids.old < 2 ^ 31 }
    ensures { IfOk result (λ answer. (h : Assignment) (n : ℕ) → Shows h n ids.old types.now
        → n ≤ MAX_PARTITIONS → IsMerged model.now h answer) }
{
    let mut live = live_ids(alloc, ids)?;
    let mut names = own_places(alloc)?;
    if let Some(k) = first_wrong_merge(
        model.merges.as_slice(),
        live.as_mut_slice(),
        types,
        names.as_mut_slice(),
    ) {
        return Ok(Replay::No(ReplayPart::Merge(k)));
    }
    rename(ids, names.as_slice());
    let same = has_graph(alloc, model, ids, types, live.as_slice())?;
    if same {
        return Ok(Replay::Yes);
    }
    Ok(Replay::No(ReplayPart::Graph))
}

/// Gathers the ids of all traces from those of the words, follows the merges from the assignment that they show, and compares
/// the resulting graph.
fn follow_traces(
    alloc: Global,
    model: &Model,
    traces: &TraceSet,
    ids: &[u16],
    places: &[usize],
    types: &[u16],
) -> Result<Replay, AllocError>
    requires shaped { IsWellShaped model.now }
    requires types_size { length types.now ≡ MAX_PARTITIONS }
    requires count { length places.now ≡ length (traces.now).traces }
    requires inside { (t : ℕ) → t < length (traces.now).traces
        → slice_index places.now t + (length (slice_index_or (inner_words_of traces.now) t []) + 2)
        ≤ length ids.now }
    requires within { All (λ p. p < MAX_PARTITIONS) (gathered ids.now places.now (inner_words_of traces.now)) }
    ensures { IfOk result (λ answer. (h : Assignment) (n : ℕ)
        → Shows h n (gathered ids.now places.now (inner_words_of traces.now)) types.now
        → n ≤ MAX_PARTITIONS → IsMerged model.now h answer) }
{
    let mut all = gather(alloc, traces, ids, places)?;
    follow_merges(alloc, model, all.as_mut_slice(), types)
}

/// The new id of the first split of the first assignment of the log.
fn first_new(traces: &TraceSet) -> u32
    ensures value { result ≡ length (traces.now).types + FIRST_TYPE }
    ensures few { result ≤ MAX_PARTITIONS }
{
    traces.types().len() as u32 + FIRST_TYPE
}

/// Follows the splits over the words of the log, from its first assignment, and then the merges over all traces.
pub fn follow(
    alloc: Global,
    model: &Model,
    traces: &TraceSet,
    ids: &mut [u16],
    places: &[usize],
    types: &mut [u16],
) -> Result<Replay, AllocError>
    requires shaped { IsWellShaped model.now }
    requires laid { AreIdsOf (inner_words_of traces.now) ids.old places.now }
    requires below { HaveIdsBelow (length (traces.now).types + FIRST_TYPE) (by_type (inner_words_of traces.now)) }
    requires types_size { length types.old ≡ MAX_PARTITIONS }
    requires types_are { AreOwnPlaces types.old }
    ensures { IfOk result (IsFollowed model.now (by_type (inner_words_of traces.now))
        (length (traces.now).types + FIRST_TYPE)) }
{
    let first = first_new(traces);
    let mut edges = EdgeRows::make(alloc)?;
    if let Some(k) = first_wrong_split(model, first, ids, types, &mut edges) {
        return Ok(Replay::No(ReplayPart::Split(k)));
    }
    follow_traces(alloc, model, traces, ids, places, types)
}
