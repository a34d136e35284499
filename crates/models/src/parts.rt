//! What fails first in a check of a model against a log. Places count from 0, and partitions are given by their ids.

/// The first part in which a model is not valid for a log.
#[derive(Clone, Copy, Debug, PartialEq, Eq)]
pub enum Part {
    /// Its types are not those of the log.
    Types,
    /// This is the first place at which its list of invariants differs from the mined one. If one list is a prefix of the other,
    /// it is the length of the shorter one.
    Listing(u32),
    /// No path has the word of this trace.
    Trace(u32),
    /// The labels of this invariant are not inductive.
    Label(u32),
    /// These two partitions of one type, the lower id first, have no block whose path breaks its invariant once they are merged.
    Block(u32, u32),
}

/// The first step at which the history of a model is not justified by a log.
#[derive(Clone, Copy, Debug, PartialEq, Eq)]
pub enum ReplayPart {
    /// Its types are not those of the log.
    Types,
    /// This split is not justified.
    Split(u32),
    /// This merge is not of two partitions of one type that are there in its turn.
    Merge(u32),
    /// The steps do not lead to its partitions and edges with their counts.
    Graph,
}
