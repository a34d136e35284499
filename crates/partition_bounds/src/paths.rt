//! Laws on the length of a least violation and of a run of splits.
ghost use Rattle.partition_bounds.specs.Laws.{LeastIsShort, LeastIsShorter, LeastWithinLimit, SplitPathsWithinLimit, SplitsBegin, StepsExclude};

/// The length of a least violation is at most three times the number of ids of the graph, minus 4.
pub fn least_is_short()
    ensures { LeastIsShort }
{}

/// If the graph has ids besides the two ends, it is at most three times their total number, minus 5. Some id never occurs in it
/// with some state of the monitor.
pub fn least_is_shorter()
    ensures { LeastIsShorter }
{}

/// So the length is at most 3,067 if all ids are below 1,024.
pub fn least_within_limit()
    ensures { LeastWithinLimit }
{}

/// So if a run of refinement uses at most 1,024 ids, the paths of its splits contain together at most 3,067 ids for each split.
pub fn split_paths_within_limit()
    ensures { SplitPathsWithinLimit }
{}

/// The first splits of a run of refinement are a prefix of the whole run, and the suffix is the whole run from where they lead.
pub fn splits_begin()
    ensures { SplitsBegin }
{}

/// If a split follows the first ones, the whole run has more splits than these.
pub fn steps_exclude()
    ensures { StepsExclude }
{}
