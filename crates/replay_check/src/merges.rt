//! The merges of a model, each judged in its turn and then made.
ghost use Rattle.std.specs.Prelude.{◌≡◌, ◌↔◌, ◌<◌, ◌≤◌, ℕ, length, slice_index, IsTrue, MatchOption, All};
ghost use Rattle.limits.specs.declared.TheConstants.{FIRST_TYPE, MAX_PARTITIONS};
ghost use Rattle.model_shape.specs.Shapes.{IsShapedMerge};
ghost use Rattle.models.specs.Histories.{IsFirstWrongMerge};
ghost use Rattle.partition_model.specs.Assignments.{Assignment, G};
ghost use Rattle.partition_model.specs.Coarsening.{IsPair, merged_by};
ghost use Rattle.partition_model.specs.Laws.{MergeInTurn};
ghost use Rattle.replay_check.specs.Shown.{AreOwnPlaces, Knows, named_by};

use crate::ids::replace;
use invariants::Merge;
use limits::FIRST_TYPE;

/// Whether both ids are live, neither is that of an end, the lower one comes first, and they are of one type.
fn is_pair(merge: Merge, live: &[bool], types: &[u16]) -> bool
    requires shaped { IsShapedMerge merge }
    requires live_size { length live.now ≡ MAX_PARTITIONS }
    requires size { length types.now ≡ MAX_PARTITIONS }
    ensures right { (h : Assignment) → Knows h live.now types.now
        → IsTrue result ↔ IsPair (G h) merge.p merge.q }
    ensures low { IsTrue result → FIRST_TYPE ≤ merge.p }
{
    let p = merge.p as usize;
    let q = merge.q as usize;
    if merge.p < FIRST_TYPE {
        return false;
    }
    if !live[p] {
        return false;
    }
    if !live[q] {
        return false;
    }
    types[p] == types[q]
}

/// The number of the first merge that is not right in its turn; `None` if all are right. Before the call, `live` and `types`
/// describe an assignment, and each id is its own name. If all merges are right, `live` and `types` describe the assignment
/// after them, and `names` has the new name of each id.
pub fn first_wrong_merge(
    merges: &[Merge],
    live: &mut [bool],
    types: &[u16],
    names: &mut [u16],
) -> Option<u32>
    requires shaped { All IsShapedMerge merges.now }
    requires few { length merges.now < MAX_PARTITIONS }
    requires live_size { length live.old ≡ MAX_PARTITIONS }
    requires size { length types.now ≡ MAX_PARTITIONS }
    requires names { AreOwnPlaces names.old }
    requires names_within { All (λ p. p < MAX_PARTITIONS) names.old }

    // The answer, and the state afterwards.
    ensures first { (h : Assignment) → Knows h live.old types.now → MatchOption result
        (MergeInTurn h merges.now × Knows (merged_by merges.now h) live.new types.now
        × (named_by names.new h ≡ merged_by merges.now h))
        (IsFirstWrongMerge h merges.now) }
    ensures ends { (slice_index names.new 0 ≡ 0) × (slice_index names.new 1 ≡ 1) }
    ensures live_size { length live.new ≡ MAX_PARTITIONS }
    ensures names_size { length names.new ≡ length names.old }
    ensures names_within { All (λ p. p < MAX_PARTITIONS) names.new }
{
    for k in 0..merges.len() {
        let merge = merges[k];
        if !is_pair(merge, live, types) {
            return Some(k as u32);
        }
        live[merge.q as usize] = false;
        replace(names, merge.p as u16, merge.q as u16);
    }
    None
}
