//! Laws on lists of pairs, of blocks and of merges.
ghost use Rattle.partition_bounds.specs.Laws.{GraphsAreBelow, MergedAreBelow, MergesStayBelow, PairsTell, PassCoarsens, PairsAreFew, PairsWithinLimit, BlocksFollowPairs, PairsGiveBlocks, OneBlocks, MergesAreFew, MergeSatisfies};

/// If the ids of all events are below a bound of at least 2, so are the listed ids of their graph.
pub fn graphs_are_below()
    ensures { GraphsAreBelow }
{}

/// If the listed ids of a graph are below a bound, so are those of a merged graph.
pub fn merged_are_below()
    ensures { MergedAreBelow }
{}

/// If the ids of all events are below a bound of at least 2, they still are after a merge.
pub fn merges_stay_below()
    ensures { MergesStayBelow }
{}

/// If the listed ids of a graph are below a bound, the list of the pairs below it contains each pair of one type once, in
/// ascending order, and nothing else.
pub fn pairs_tell()
    ensures { PairsTell }
{}

/// If `k` of the ids below a bound are no ends, the list of the pairs below it has at most `k * (k - 1) / 2` entries.
pub fn pairs_are_few()
    ensures { PairsAreFew }
{}

/// So 1,024 ids, including the two ends, have at most 521,731 pairs.
pub fn pairs_within_limit()
    ensures { PairsWithinLimit }
{}

/// One pass over the list of the pairs, which skips those whose ids are gone, makes the whole run of coarsening.
pub fn pass_coarsens()
    ensures { PassCoarsens }
{}

/// The blocks of a graph are for its pairs, in their order.
pub fn blocks_follow_pairs()
    ensures { BlocksFollowPairs }
{}

/// And if a list has a block for each of these pairs, in their order, these are the blocks of the graph.
pub fn pairs_give_blocks()
    ensures { PairsGiveBlocks }
{}

/// A graph has at most one list of blocks.
pub fn one_blocks()
    ensures { OneBlocks }
{}

/// If the ids of all events are below a bound of at least 2, a run of coarsening has at least two merges fewer than the bound.
pub fn merges_are_few()
    ensures { MergesAreFew }
{}

/// The graph of the assignment after a merge satisfies each invariant of a list exactly if the merged graph does.
pub fn merge_satisfies()
    ensures { MergeSatisfies }
{}
