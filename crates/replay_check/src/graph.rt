//! The partitions and the edges of an assignment, counted and compared with those of a model.
ghost use Rattle.std.specs.Prelude.{◌≡◌, ◌↔◌, ◌+◌, ◌++◌, ◌<◌, ◌≤◌, ◌==◌, ◌^◌, ℕ, List, count_by, length, nat_lt, false, slice_index, slice_index_or, IfOk, IsTrue, OnOk, All};
ghost use Rattle.limits.specs.declared.TheConstants.{FIRST_TYPE, MAX_PARTITIONS};
ghost use Rattle.models.specs.Histories.{IsGraphOf};
ghost use Rattle.partition_model.specs.Assignments.{Assignment, IsTyped};
ghost use Rattle.partition_model.specs.Listings.{partitions_below, edges_below, edges_from, AreEdges};
ghost use Rattle.replay_check.specs.Laid.{laid};
ghost use Rattle.replay_check.specs.Shown.{HasCounts, HasSizes, Knows, Shows};

use crate::counts::EdgeCounts;
use crate::ids::IDS;
use crate::listing::{same_edges, same_partitions};
use invariants::{Edge, Model, Partition};
use limits::{FIRST_TYPE, TERMINAL};
use std::alloc::{AllocError, Global};

/// Counts how often each id occurs in the list. The former `sizes` are overwritten.
fn count_ids(sizes: &mut [u32], ids: &[u16])
    requires size { length sizes.old ≡ MAX_PARTITIONS }
    requires within { All (λ p. p < MAX_PARTITIONS) ids.now }
    requires few { length ids.now < 2 ^ 31 }
    ensures size { length sizes.new ≡ length sizes.old }
    ensures sizes { (p : ℕ) → p < MAX_PARTITIONS
        → slice_index sizes.new p ≡ count_by (λ x. x == p) ids.now }
{
    sizes.fill(0);
    for id in ids {
        sizes[usize::from(*id)] += 1;
    }
}

/// How often each id occurs in the list.
fn sizes_of(alloc: Global, ids: &[u16]) -> Result<Vec<u32>, AllocError>
    requires within { All (λ p. p < MAX_PARTITIONS) ids.now }
    requires few { length ids.now < 2 ^ 31 }
    ensures size { IfOk result (λ sizes. length sizes.items ≡ MAX_PARTITIONS) }
    ensures sizes { IfOk result (λ sizes. (p : ℕ) → p < MAX_PARTITIONS
        → slice_index sizes.items p ≡ count_by (λ x. x == p) ids.now) }
{
    let mut sizes = vec![in alloc; 0; IDS]?;
    count_ids(sizes.as_mut_slice(), ids);
    Ok(sizes)
}

/// Marks each id from 2 on whose size is not 0.
fn mark_live(live: &mut [bool], sizes: &[u32])
    requires live_size { length live.old ≡ MAX_PARTITIONS }
    requires size { length sizes.now ≡ MAX_PARTITIONS }
    ensures size { length live.new ≡ length live.old }
    ensures ends { (p : ℕ) → p < FIRST_TYPE → slice_index_or live.new p false ≡ slice_index_or live.old p false }
    ensures marked { (p : ℕ) → FIRST_TYPE ≤ p → p < MAX_PARTITIONS
        → slice_index_or live.new p false ≡ nat_lt 0 (slice_index sizes.now p) }
{
    for p in FIRST_TYPE as usize..IDS {
        live[p] = sizes[p] > 0;
    }
}

/// Which ids are live: those of the two ends, and those of events.
pub fn live_ids(alloc: Global, ids: &[u16]) -> Result<Vec<bool>, AllocError>
    requires within { All (λ p. p < MAX_PARTITIONS) ids.now }
    requires few { length ids.now < 2 ^ 31 }
    ensures size { IfOk result (λ live. length live.items ≡ MAX_PARTITIONS) }
    ensures live { IfOk result (λ live. (h : Assignment) (n : ℕ) (types : List ℕ)
        → Shows h n ids.now types → n ≤ MAX_PARTITIONS → Knows h live.items types) }
{
    let sizes = sizes_of(alloc, ids)?;
    let mut live = vec![in alloc; true; IDS]?;
    mark_live(live.as_mut_slice(), sizes.as_slice());
    Ok(live)
}

/// The partitions, by ascending id.
fn partitions_of(
    alloc: Global,
    live: &[bool],
    types: &[u16],
    sizes: &[u32],
) -> Result<Vec<Partition>, AllocError>
    requires live_size { length live.now ≡ MAX_PARTITIONS }
    requires types_size { length types.now ≡ MAX_PARTITIONS }
    requires sizes_size { length sizes.now ≡ MAX_PARTITIONS }
    ensures { IfOk result (λ list. (h : Assignment) → Knows h live.now types.now → HasSizes h sizes.now
        → list.items ≡ partitions_below (length live.now) h) }
{
    let mut list = Vec::new(alloc);
    for p in 0..live.len() {
        if live[p] {
            list.push(Partition {
                id: p as u32,
                typ: types[p],
                count: sizes[p],
            })?;
        }
    }
    Ok(list)
}

/// Appends the edges from `p` to ids below `n` to the list.
fn push_edges_from(
    counts: &EdgeCounts,
    n: usize,
    p: usize,
    list: &mut Vec<Edge>,
) -> Result<(), AllocError>
    requires bound { n ≤ (counts.now).bound }
    requires from { p < (counts.now).bound }
    ensures { OnOk result ((h : Assignment) → HasCounts h (counts.now).counts.items
        → list.new.items ≡ list.old.items ++ edges_from n h p) }
{
    for q in 0..n {
        let count = counts.get(p, q);
        if count > 0 {
            list.push(Edge {
                from: p as u32,
                to: q as u32,
                count,
            })?;
        }
    }
    Ok(())
}

/// The edges between ids below `n`, ordered by the ids that they leave and then by those that they enter.
fn edges_of(alloc: Global, counts: &EdgeCounts, n: usize) -> Result<Vec<Edge>, AllocError>
    requires bound { n ≤ (counts.now).bound }
    ensures { IfOk result (λ list. (h : Assignment) → HasCounts h (counts.now).counts.items
        → list.items ≡ edges_below n h) }
{
    let mut list = Vec::new(alloc);
    for p in 0..n {
        push_edges_from(counts, n, p, &mut list)?;
    }
    Ok(list)
}

/// One more than the greatest id, or the number of ids of the two ends if there is no greater one.
fn bound_of(ids: &[u16]) -> usize
    requires within { All (λ p. p < MAX_PARTITIONS) ids.now }
    ensures ends { FIRST_TYPE ≤ result }
    ensures most { result ≤ MAX_PARTITIONS }
    ensures within { All (λ p. p < result) ids.now }
{
    let mut greatest = TERMINAL as u16;
    for k in 0..ids.len() {
        greatest = ids[k].max(greatest);
    }
    usize::from(greatest) + 1
}

/// The edges of the assignment that the ids show, with their counts.
fn edges_among(alloc: Global, ids: &[u16]) -> Result<Vec<Edge>, AllocError>
    requires within { All (λ p. p < MAX_PARTITIONS) ids.now }
    requires few { length ids.now < 2 ^ 31 }
    ensures { IfOk result (λ list. (h : Assignment) → IsTyped h → ids.now ≡ laid h → AreEdges list.items h) }
{
    let bound = bound_of(ids);
    let counts = EdgeCounts::of(alloc, ids, bound)?;
    edges_of(alloc, &counts, bound)
}

/// Whether the model has the partitions and the edges of the assignment that the ids show, counts included.
pub fn has_graph(
    alloc: Global,
    model: &Model,
    ids: &[u16],
    types: &[u16],
    live: &[bool],
) -> Result<bool, AllocError>
    requires within { All (λ p. p < MAX_PARTITIONS) ids.now }
    requires few { length ids.now < 2 ^ 31 }
    requires live_size { length live.now ≡ MAX_PARTITIONS }
    requires types_size { length types.now ≡ MAX_PARTITIONS }
    ensures { IfOk result (λ same. (h : Assignment) → ids.now ≡ laid h → Knows h live.now types.now
        → IsTrue same ↔ IsGraphOf model.now h) }
{
    let sizes = sizes_of(alloc, ids)?;
    let partitions = partitions_of(alloc, live, types, &sizes)?;
    if !same_partitions(model.partitions.as_slice(), &partitions) {
        return Ok(false);
    }
    let edges = edges_among(alloc, ids)?;
    Ok(same_edges(model.edges.as_slice(), &edges))
}
