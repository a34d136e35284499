//! Refinement has an end: as long as the graph breaks an invariant there is a next split, and each log has a whole run of splits.
//!
//! `partition_model` defines a least violation (a shortest counterexample path, the first in lexicographic order among those of
//! equal length), the next split and the whole run. The laws here say that these exist, with no limit on ids. So a statement
//! about each whole run is one about a run that exists.
//! Each function here is a law: its body is empty, and its contract is what is proved. No call takes memory or does anything when
//! it runs.
#![tactic(auto)]

ghost use Rattle.refinement_end.specs.Laws.{LeastExists, NextSplitDivides, NextSplitExists, RefinementEnds, RefusalsTell, RunsEnd, SatisfiedOrSplit, SatisfiedOrViolated, SplitsGoOn, StopsTell};

/// If some path of a graph breaks an invariant, the graph has a least violation of it.
pub fn least_exists()
    ensures { LeastExists }
{}

/// A graph satisfies an invariant, or it has a least violation of it.
pub fn satisfied_or_violated()
    ensures { SatisfiedOrViolated }
{}

/// The graph of an assignment satisfies each invariant of a list, or there is a next split.
pub fn satisfied_or_split()
    ensures { SatisfiedOrSplit }
{}

/// So there is a next split exactly if the graph does not satisfy each invariant of the list.
pub fn next_split_exists()
    ensures { NextSplitExists }
{}

/// If the invariants hold of every trace, the next split divides a partition in each state of refinement: both parts have events,
/// and the new one has the next id.
pub fn next_split_divides()
    ensures { NextSplitDivides }
{}

/// From each state of refinement, a whole run of splits leads to a graph that satisfies each invariant of the list.
pub fn runs_end()
    ensures { RunsEnd }
{}

/// The words of each log have exactly one whole run of refinement, for each list of invariants that hold of every trace. Besides
/// the two ends it has no more ids than the log has events, and no more than its words have different suffixes that are not
/// empty.
pub fn refinement_ends()
    ensures { RefinementEnds }
{}

/// Whatever splits were made, the whole run begins with them.
pub fn splits_go_on()
    ensures { SplitsGoOn }
{}

/// For any limit on ids: each whole run needs more ids exactly if there is a whole run and it needs more. So a refusal that
/// states the first says that the run exists.
pub fn refusals_tell()
    ensures { RefusalsTell }
{}

/// For any limit that the ids of the first graph keep: there is a whole run that needs more ids exactly if the first splits use
/// all ids and there is a next split.
pub fn stops_tell()
    ensures { StopsTell }
{}
