//! Laws of refinement: a split loses no invariant, each step divides a partition, and there is at most one run.
ghost use Rattle.partition_model.specs.Laws.{DivisionShrinks, DivisionKeeps, SplitIsDivision, SplitShrinks, SplitKeeps, StitchIsLast, StitchDivides, RunsKeep, RestsStayTogether, IdsWithinRests, FewerSplitsThanEvents, OnePassSplits, OnePassRefines, RefinementKeeps, OneRefinement};

/// If any events of one id get a new id, every word of a path afterwards was a word of a path before.
pub fn division_shrinks()
    ensures { DivisionShrinks }
{}

/// So such a division loses no invariant.
pub fn division_keeps()
    ensures { DivisionKeeps }
{}

/// A split is such a division.
pub fn split_is_division()
    ensures { SplitIsDivision }
{}

/// Every word of a path after a split was a word of a path before.
pub fn split_shrinks()
    ensures { SplitShrinks }
{}

/// A split loses no invariant.
pub fn split_keeps()
    ensures { SplitKeeps }
{}

/// If there is a trace, a path from INITIAL follows the traces up to the place of its stitch and no further.
pub fn stitch_is_last()
    ensures { StitchIsLast }
{}

/// If an invariant holds of every trace, a path that breaks it leaves the traces strictly between its ends. Both parts of the
/// partition that is divided there have events.
pub fn stitch_divides()
    ensures { StitchDivides }
{}

/// Each state of refinement has the words of the log and one type for each id. The ids in use are those below the next id, and
/// each of them has events.
pub fn runs_keep()
    ensures { RunsKeep }
{}

/// In each state of refinement, two events have the same id if the words from them to the ends of their traces are equal.
pub fn rests_stay_together()
    ensures { RestsStayTogether }
{}

/// If a list names each suffix of a word that is not empty, refinement uses no more ids besides the two ends than the list has
/// entries.
pub fn ids_within_rests()
    ensures { IdsWithinRests }
{}

/// If the log has an event, there are fewer splits than events.
pub fn fewer_splits()
    ensures { FewerSplitsThanEvents }
{}

/// A split for the first invariant that is violated is the next one, and the invariants before it stay satisfied.
pub fn one_pass_splits()
    ensures { OnePassSplits }
{}

/// One pass over the invariants, with splits for each until it is satisfied, makes the whole run of refinement.
pub fn one_pass_refines()
    ensures { OnePassRefines }
{}

/// Where refinement ends, the graph has a path for each word and satisfies each invariant.
pub fn refinement_keeps()
    ensures { RefinementKeeps }
{}

/// From each assignment there is at most one run of refinement, and it has one end.
pub fn one_refinement()
    ensures { OneRefinement }
{}
