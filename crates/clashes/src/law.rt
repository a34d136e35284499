//! What marks say about merges.
ghost use Rattle.clashes.specs.Laws.{ClashesTell};

/// A merge of two partitions of one type keeps an invariant that the graph satisfies exactly if the two do not clash
/// for it.
pub fn clashes_tell()
    ensures { ClashesTell }
{}
