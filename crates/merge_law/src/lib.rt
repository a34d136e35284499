//! What a merge loses, decided without a search of the merged graph.
//!
//! Each monitor has a critical state: 0 for AlwaysPrecedes, and 1 for the other kinds. An id of the graph is met if some walk
//! from INITIAL to it brings the monitor into the critical state. It has the bad end ahead if some walk from it to TERMINAL
//! brings the monitor from the critical state to the bad one. In a graph that satisfies the invariant, a merge of two ids of one
//! type that are on paths loses it exactly if one of them is met and the other has the bad end ahead. Each function here is a
//! law: its body is empty, and its contract is what is proved. No call takes memory or does anything when it runs.
#![tactic(auto)]

ghost use Rattle.merge_law.specs.Laws.{MergeLoses, MergeKeeps, AllOnPaths, MergedHasMore, MergedIsUnion, PairKeeps, ForeFollows, ForeIsLeast, BackFollows, BackIsLeast};

/// In a graph that satisfies an invariant, a merge of two ids of one type that are on paths loses it exactly if one of them is
/// met and the other has the bad end ahead.
pub fn merge_loses()
    ensures { MergeLoses }
{}

/// So the merge keeps it exactly if this is not so.
pub fn merge_keeps()
    ensures { MergeKeeps }
{}

/// Each partition of events in the graph of an assignment is on a path.
pub fn all_on_paths()
    ensures { AllOnPaths }
{}

/// An id that is met, has the bad end ahead or is on a path still is so after a merge. The id that is merged away counts as the
/// one that stays.
pub fn merged_has_more()
    ensures { MergedHasMore }
{}

/// And if the merge keeps the invariant, the merged id is met exactly if one of the two was, and has the bad end ahead exactly if
/// one of the two had.
pub fn merged_is_union()
    ensures { MergedIsUnion }
{}

/// If the graph of an assignment satisfies a list of invariants, a merge of two partitions of one type keeps all of them exactly
/// if for none of them one partition is met and the other has the bad end ahead.
pub fn pair_keeps()
    ensures { PairKeeps }
{}

/// Rules along edges that find ids that are met, in a graph that satisfies the invariant.
pub fn fore_follows()
    ensures { ForeFollows }
{}

/// And any set that is closed under these rules contains all ids that are met.
pub fn fore_is_least()
    ensures { ForeIsLeast }
{}

/// Rules against edges that find ids with the bad end ahead.
pub fn back_follows()
    ensures { BackFollows }
{}

/// And in a graph that satisfies the invariant, any set that is closed under these rules contains all ids on paths that have the
/// bad end ahead.
pub fn back_is_least()
    ensures { BackIsLeast }
{}
