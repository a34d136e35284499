//! The model of a log depends only on its distinct words, except for its counts.
//!
//! Two logs have the same words if each word of the one is a word of the other. How often and in which order the words
//! occur does not matter. So a log may be cut to its distinct words: its invariants, its model without the counts, and
//! the limits that its inference exceeds stay the same. The counts are sums over words, each along its path, so those
//! of the whole log follow from the distinct words and how often each occurs.
//!
//! The laws require that the two logs have the same types in the same order, and are asked for the same kinds. The laws
//! from `words_take_paths` on also require that the words of the log use exactly its types.
//!
//! Each function here is a law: its body is empty, and its contract is what is proved. A call allocates nothing, and
//! does nothing when it runs.
#![tactic(auto)]

ghost use Rattle.distinct_law.specs.Laws.{CountsAreWeighted, LogsEndAlike, ModelIsCounted, ModelsDifferInCounts, SameMined, SameTyped, SameValid, WordsTakePaths};

/// The same invariants are mined from two logs with the same words.
pub fn same_mined()
    ensures { SameMined }
{}

/// The words of one such log use exactly its types if and only if those of the other do.
pub fn same_typed()
    ensures { SameTyped }
{}

/// A model is valid for one such log if and only if it is valid for the other. So a model that is valid for the
/// distinct words passes the check against the whole log.
pub fn same_valid()
    ensures { SameValid }
{}

/// Each word of a log takes one path of its model: the ids that its events get if the splits and the merges of the
/// model are made on this word only. They are the ids that the events have when coarsening ends. The size of a
/// partition is how often these paths visit it, over all traces. The count of an edge is how often they take it.
pub fn words_take_paths()
    ensures { WordsTakePaths }
{}

/// For two logs with the same words: the model of the first, with the counts that the words of the second give, is the
/// model of the second.
pub fn model_is_counted()
    ensures { ModelIsCounted }
{}

/// The models of two logs with the same words are equal except for their counts, and each word takes the same path in
/// both.
pub fn models_differ_in_counts()
    ensures { ModelsDifferInCounts }
{}

/// If no word occurs twice in the first log, the counts of the second model are sums over the words of the first: for
/// each word, what its path gives, times how often the word occurs in the second log.
pub fn counts_are_weighted()
    ensures { CountsAreWeighted }
{}

/// Inference of one log exceeds the limit of partitions, or that of ids in paths, if and only if inference of the other
/// does. If the model of one log keeps the limits of a run, so does the model of the other.
pub fn logs_end_alike()
    ensures { LogsEndAlike }
{}
