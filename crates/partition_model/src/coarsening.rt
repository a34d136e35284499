//! Laws of coarsening: a merge keeps the words of all paths, a pair whose merge loses an invariant keeps losing one, and there is
//! at most one run.
ghost use Rattle.partition_model.specs.Laws.{MergeGrows, MergedKeeps, MergedPathsAvoid, MergeIsMerged, LostStaysLost, LostThroughMerges, OnePassMerges, OnePassCoarsens, CoarseningKeeps, OneCoarsening};

/// If two ids of one type are merged, every word of a path is a word of a path of the merged graph.
pub fn merge_grows()
    ensures { MergeGrows }
{}

/// So an invariant that the merged graph satisfies was satisfied before.
pub fn merged_keeps()
    ensures { MergedKeeps }
{}

/// No path of the merged graph contains the id that was merged away.
pub fn merged_paths_avoid()
    ensures { MergedPathsAvoid }
{}

/// The graph of the merged assignment is the merged graph: its edges, its listed ids with their types, and so its paths with
/// their words.
pub fn merge_is_merged()
    ensures { MergeIsMerged }
{}

/// If the merge of a pair loses an invariant of a list, it still loses one after another merge, as long as both ids of the pair
/// are there.
pub fn lost_stays_lost()
    ensures { LostStaysLost }
{}

/// The same is true after any number of further merges. A pair that is there after them was a pair before.
pub fn lost_through_merges()
    ensures { LostThroughMerges }
{}

/// If the merge of a pair keeps every invariant, and the merge of each pair before it loses one, it is the next merge. Afterwards
/// the merge of each pair before it still loses one.
pub fn one_pass_merges()
    ensures { OnePassMerges }
{}

/// One pass over all pairs in order, which skips those whose ids are gone, makes the whole run of coarsening.
pub fn one_pass_coarsens()
    ensures { OnePassCoarsens }
{}

/// If the graph has a path for each word and satisfies each invariant, it still does where coarsening ends. There no merge of two
/// partitions of one type keeps every invariant.
pub fn coarsening_keeps()
    ensures { CoarseningKeeps }
{}

/// From each assignment there is at most one run of coarsening, and it has one end.
pub fn one_coarsening()
    ensures { OneCoarsening }
{}
