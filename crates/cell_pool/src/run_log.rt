//! The log of a run: what was split, what was merged, and what prevented each further merge.
ghost use Rattle.std.specs.Prelude.{◌≡◌, ◌<◌, ◌≤◌, [], ◌∷◌, ◌++◌, length, IfOk};

use crate::spans::Span;
use std::alloc::{AllocError, Global};
use std::marker::Model;

/// A split that was made for an invariant, at a place of a path.
#[derive(Clone, Copy, Debug, PartialEq, Eq)]
pub struct SplitEntry {
    /// The place of the invariant in its list, from 0.
    pub inv: u32,
    /// The place of the path at which the split was made, from 0.
    pub place: u32,
    /// Where the path stands.
    pub path: Span,
}

/// A merge of two partitions.
#[derive(Clone, Copy, Debug, PartialEq, Eq)]
pub struct MergeEntry {
    /// The partition that stays.
    pub p: u32,
    /// The partition whose events went to `p`.
    pub q: u32,
}

/// Why two partitions cannot be merged: an invariant that the merge would lose, and a path that shows it.
#[derive(Clone, Copy, Debug, PartialEq, Eq)]
pub struct BlockEntry {
    /// The first partition.
    pub p: u32,
    /// The second partition.
    pub q: u32,
    /// The place of the invariant in its list, from 0.
    pub inv: u32,
    /// Where the path stands.
    pub path: Span,
}

/// The splits, merges and blocks of a run, in lists whose room is allocated once. Contracts see three lists and three
/// rooms: how many entries each list may have.
#[derive(Drop)]
pub struct RunLog {
    splits: Vec<SplitEntry>,
    merges: Vec<MergeEntry>,
    blocks: Vec<BlockEntry>,
    split_room: u32,
    merge_room: u32,
    block_room: u32,
}

impl Model for RunLog {
    ghost use Rattle.cell_pool.specs.RunLists.{RunLists};
    ghost use Rattle.cell_pool.specs.Rooms.{HasRoom};

    ghost Value = { RunLists };

    ghost view = { λ s. record {
      splits = s.splits.items;
      merges = s.merges.items;
      blocks = s.blocks.items;
      split_room = s.split_room;
      merge_room = s.merge_room;
      block_room = s.block_room;
    } };

    ghost invariant = { λ s. HasRoom s.splits s.split_room
        × HasRoom s.merges s.merge_room × HasRoom s.blocks s.block_room };
}

impl RunLog {
    /// Three empty lists, with room for this many splits, merges and blocks. Only this call allocates; `AllocError` is
    /// returned if there is not enough memory.
    pub fn make(alloc: Global, splits: u32, merges: u32, blocks: u32) -> Result<RunLog, AllocError>
        // Nothing is written yet, and there is the room that is asked for.
        ensures { IfOk result (λ made. made ≡ record {
          splits = [];
          merges = [];
          blocks = [];
          split_room = splits;
          merge_room = merges;
          block_room = blocks;
        }) }
    {
        Ok(RunLog {
            splits: Vec::with_capacity(alloc, splits as usize)?,
            merges: Vec::with_capacity(alloc, merges as usize)?,
            blocks: Vec::with_capacity(alloc, blocks as usize)?,
            split_room: splits,
            merge_room: merges,
            block_room: blocks,
        })
    }

    /// Appends a split: for the invariant at place `inv` of its list, at place `place` of a path. There must be room
    /// for one more split.
    pub fn add_split(&mut self, inv: u32, place: u32, path: Span)
        requires { length (self.old).splits < (self.old).split_room }
        ensures { self.new ≡ record self.old {
          splits = (self.old).splits ++ record { inv = inv; place = place; path = path } ∷ [];
        } }
    {
        self.splits.push_reserved(SplitEntry { inv, place, path });
    }

    /// Appends a merge of partition q into partition p. There must be room for one more merge.
    pub fn add_merge(&mut self, p: u32, q: u32)
        requires { length (self.old).merges < (self.old).merge_room }
        ensures { self.new ≡ record self.old {
          merges = (self.old).merges ++ record { p = p; q = q } ∷ [];
        } }
    {
        self.merges.push_reserved(MergeEntry { p, q });
    }

    /// Appends a block: partitions p and q stay apart for the invariant at place `inv` of its list, as a path shows.
    /// There must be room for one more block.
    pub fn add_block(&mut self, p: u32, q: u32, inv: u32, path: Span)
        requires { length (self.old).blocks < (self.old).block_room }
        ensures { self.new ≡ record self.old {
          blocks = (self.old).blocks ++ record { p = p; q = q; inv = inv; path = path } ∷ [];
        } }
    {
        self.blocks.push_reserved(BlockEntry { p, q, inv, path });
    }

    /// The splits, in the order in which they were added.
    pub fn splits(&self) -> &[SplitEntry]
        ensures value { result.now ≡ (self.now).splits }
        ensures within { length result.now ≤ (self.now).split_room }
    {
        self.splits.as_slice()
    }

    /// The merges, in the order in which they were added.
    pub fn merges(&self) -> &[MergeEntry]
        ensures value { result.now ≡ (self.now).merges }
        ensures within { length result.now ≤ (self.now).merge_room }
    {
        self.merges.as_slice()
    }

    /// The blocks, in the order in which they were added.
    pub fn blocks(&self) -> &[BlockEntry]
        ensures value { result.now ≡ (self.now).blocks }
        ensures within { length result.now ≤ (self.now).block_room }
    {
        self.blocks.as_slice()
    }
}
