//! The rules of the merges, the splits and the blocks of a well-shaped model.
ghost use Rattle.std.specs.Prelude.{◌≡◌, ◌+◌, map, nat_le};
ghost use Rattle.limits.specs.declared.TheConstants.{MAX_PATH_NUMBERS};
ghost use Rattle.model_file.specs.Table.{type_at};
ghost use Rattle.model_file.specs.Rules.{ascends, pair_less, merge_holds, merges_hold, path_holds, split_holds, room_left, splits_hold, are_one, block_holds, blocks_hold};
ghost use Rattle.model_shape.specs.Numbers.{split_numbers, block_numbers};

use crate::shape::is_less;
use crate::table::type_at;
use invariants::{Block, Merge, Split};
use limits::{FIRST_TYPE, MAX_PARTITIONS, MAX_PATH_NUMBERS};

fn merge_holds(merge: Merge) -> bool
    ensures { result ≡ merge_holds merge }
{
    merge.p < merge.q && merge.q < MAX_PARTITIONS
}

/// Whether there are no more merges than ids besides the two ends, each of a lower and a higher id.
#[tactic(auto, unfolding(crate::specs::Rules::merges_hold))]
pub(crate) fn merges_hold(merges: &[Merge]) -> bool
    ensures { result ≡ merges_hold merges.now }
{
    if merges.len() + FIRST_TYPE as usize > MAX_PARTITIONS as usize {
        return false;
    }
    'merges: for merge in merges {
        if !merge_holds(*merge) {
            return false;
        }
    }
    true
}

fn path_holds(path: &[u32]) -> bool
    ensures { result ≡ path_holds path.now }
{
    path.iter().all(|id| *id < MAX_PARTITIONS)
}

fn split_holds(invariants: usize, split: &Split) -> bool
    ensures { result ≡ split_holds invariants split.now }
{
    (split.inv as usize) < invariants
        && (split.place as usize) < split.path.len()
        && path_holds(split.path.as_slice())
}

/// How many more ids paths may have after those of the splits; `None` if the splits have too many.
fn room_after_splits(splits: &[Split]) -> Option<usize>
    ensures { result ≡ room_left MAX_PATH_NUMBERS (split_numbers splits.now) }
{
    let mut room = MAX_PATH_NUMBERS as usize;
    'splits: for split in splits {
        if split.path.len() > room {
            return None;
        }
        room -= split.path.len();
    }
    Some(room)
}

/// Whether there are no more splits than ids besides the two ends, each with the number of a listed invariant and a place in
/// its path, and the paths do not have too many ids.
#[tactic(auto, unfolding(crate::specs::Rules::splits_hold))]
pub(crate) fn splits_hold(invariants: usize, splits: &[Split]) -> bool
    ensures { result ≡ splits_hold invariants splits.now }
{
    if splits.len() + FIRST_TYPE as usize > MAX_PARTITIONS as usize {
        return false;
    }
    'splits: for split in splits {
        if !split_holds(invariants, split) {
            return false;
        }
    }
    room_after_splits(splits).is_some()
}

fn are_one(x: Option<u16>, y: Option<u16>) -> bool
    ensures { result ≡ are_one x y }
{
    match (x, y) {
        (Some(x), Some(y)) => x == y,
        _ => false,
    }
}

fn block_holds(table: &[Option<u16>], invariants: usize, block: &Block) -> bool
    ensures { result ≡ block_holds (type_at table.now) invariants block.now }
{
    block.p < block.q
        && are_one(type_at(table, block.p), type_at(table, block.q))
        && (block.inv as usize) < invariants
        && path_holds(block.path.as_slice())
}

fn blocks_ascend(blocks: &[Block]) -> bool
    ensures { result ≡ ascends pair_less (map (λ b. (b.p, b.q)) blocks.now) }
{
    let mut before = None;
    'each_block: for block in blocks {
        let here = (block.p, block.q);
        if let Some(earlier) = before {
            if !is_less(earlier, here) {
                return false;
            }
        }
        before = Some(here);
    }
    true
}

/// Whether the paths of the blocks have at most this many ids in total.
fn blocks_fit(blocks: &[Block], room: usize) -> bool
    ensures { result ≡ nat_le (block_numbers blocks.now) room }
{
    let mut room = room;
    'each_block: for block in blocks {
        if block.path.len() > room {
            return false;
        }
        room -= block.path.len();
    }
    true
}

fn numbers_fit(splits: &[Split], blocks: &[Block]) -> bool
    ensures { result
        ≡ nat_le (split_numbers splits.now + block_numbers blocks.now) MAX_PATH_NUMBERS }
{
    match room_after_splits(splits) {
        Some(room) => blocks_fit(blocks, room),
        None => false,
    }
}

/// Whether the blocks ascend, each is of two partitions of one type and has the number of a listed invariant, and the paths of
/// splits and blocks do not have too many ids.
#[tactic(auto, unfolding(crate::specs::Rules::blocks_hold))]
pub(crate) fn blocks_hold(
    table: &[Option<u16>],
    invariants: usize,
    splits: &[Split],
    blocks: &[Block],
) -> bool
    ensures { result ≡ blocks_hold (type_at table.now) invariants splits.now blocks.now }
{
    'each_block: for block in blocks {
        if !block_holds(table, invariants, block) {
            return false;
        }
    }
    blocks_ascend(blocks) && numbers_fit(splits, blocks)
}
