//! Each log has a model: coarsening has an end, each pair that is left has its block, and the states that are reached are labels.
//!
//! `models` defines the model of a log, and its laws state that there is at most one. The laws here say that there is one, with
//! no limit on ids or on numbers in paths. So a statement about the model of a log is one about a model that exists.
//! Each function here is a law: its body is empty, and its contract is what is proved. No call takes memory or does anything when
//! it runs.
#![tactic(auto)]

ghost use Rattle.model_exists.specs.Laws.{BlocksExist, CoarseningEnds, KeptOrBlocked, LabelsExist, LogsEndOneWay, MergeOrNone, ModelExists, ModelsAreSmall, ReachedOrNot, RoomTells, SmallLogsFit};

/// The merge of a pair keeps each invariant of a list, or the pair has a block: the first invariant that the merge loses, and its
/// least violation in the merged graph.
pub fn kept_or_blocked()
    ensures { KeptOrBlocked }
{}

/// There is a next merge, or no merge keeps every invariant.
pub fn merge_or_none()
    ensures { MergeOrNone }
{}

/// No merge keeps every invariant exactly if there are blocks of all pairs.
pub fn blocks_exist()
    ensures { BlocksExist }
{}

/// From each assignment in which events of one id have one type, there is exactly one whole run of merges. At its end all pairs
/// have blocks. If the graph satisfied the list before, it still does.
pub fn coarsening_ends()
    ensures { CoarseningEnds }
{}

/// A state of a monitor is reached at an id of a graph with finitely many ids, or it is not.
pub fn reached_or_not()
    ensures { ReachedOrNot }
{}

/// So the partitions of an assignment have labels for each invariant: the states that are reached there.
pub fn labels_exist()
    ensures { LabelsExist }
{}

/// A log whose words use exactly its types has a model, whichever kinds of invariants it is asked for, and every model of it is
/// that one.
pub fn model_exists()
    ensures { ModelExists }
{}

/// If the ids suffice for such a log, the paths of its model have more than `MAX_PATH_NUMBERS` numbers exactly if the paths of
/// its splits and of the blocks of some first pairs have more.
pub fn room_tells()
    ensures { RoomTells }
{}

/// If the first graph of such a log has no more than `MAX_PARTITIONS` ids, exactly one of three is true: the log has a model
/// within the limits of a run; its first splits use all ids and there is a next split; or the ids suffice and the paths of its
/// model have more than `MAX_PATH_NUMBERS` numbers.
pub fn logs_end_one_way()
    ensures { LogsEndOneWay }
{}

/// If a list names each suffix of a word of such a log that is not empty, the model has no more ids beside the two ends than the
/// list has entries, no more blocks than so many ids have pairs, and few numbers in all its paths together.
pub fn models_are_small()
    ensures { ModelsAreSmall }
{}

/// So a log whose words have at most 138 different suffixes that are not empty has a model within the limits of a run.
pub fn small_logs_fit()
    ensures { SmallLogsFit }
{}
