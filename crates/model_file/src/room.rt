//! How much room the text of a model is given.
use invariants::{Block, Ids, Listed, Model, Split, Text};

/// A little more than the bytes of the keys, the kinds and the version.
const HEAD_ROOM: usize = 160;

/// The bytes of an id in a path, with the comma after it: ids of many partitions have mostly three digits.
const ID_ROOM: usize = 4;

/// About the bytes of a block beside its path. This and what follows counts the comma after an entry.
const BLOCK_ROOM: usize = 24;

/// About the bytes of a split beside its path.
const SPLIT_ROOM: usize = 24;

/// About the bytes of a listed invariant beside its labels.
const LISTED_ROOM: usize = 20;

/// About the bytes of an edge.
const EDGE_ROOM: usize = 22;

/// About the bytes of a partition.
const PARTITION_ROOM: usize = 20;

/// About the bytes of a merge.
const MERGE_ROOM: usize = 12;

/// About the bytes of a type beside its text.
const TYPE_ROOM: usize = 8;

fn for_path(path: &Ids) -> usize {
    path.len().saturating_mul(ID_ROOM)
}

fn for_blocks(blocks: &[Block]) -> usize {
    let mut room = blocks.len().saturating_mul(BLOCK_ROOM);
    for block in blocks {
        room = room.saturating_add(for_path(&block.path));
    }
    room
}

fn for_splits(splits: &[Split]) -> usize {
    let mut room = splits.len().saturating_mul(SPLIT_ROOM);
    for split in splits {
        room = room.saturating_add(for_path(&split.path));
    }
    room
}

fn for_invariants(invariants: &[Listed]) -> usize {
    let mut room = invariants.len().saturating_mul(LISTED_ROOM);
    for listed in invariants {
        room = room.saturating_add(listed.labels.len());
    }
    room
}

fn for_types(types: &[Text]) -> usize {
    let mut room = types.len().saturating_mul(TYPE_ROOM);
    for text in types {
        room = room.saturating_add(text.len());
    }
    room
}

/// How many bytes of room the text of this model gets at once: a little more than most need. Room that is never written
/// takes no memory, and a text that outgrows its room is copied.
pub(crate) fn room_for(model: &Model) -> usize {
    HEAD_ROOM
        .saturating_add(for_blocks(model.blocks.as_slice()))
        .saturating_add(for_splits(model.splits.as_slice()))
        .saturating_add(for_invariants(model.invariants.as_slice()))
        .saturating_add(for_types(model.types.as_slice()))
        .saturating_add(model.edges.len().saturating_mul(EDGE_ROOM))
        .saturating_add(model.partitions.len().saturating_mul(PARTITION_ROOM))
        .saturating_add(model.merges.len().saturating_mul(MERGE_ROOM))
}
