//! The table of the pairs that were entered, in the order of their distances.
ghost use Rattle.std.specs.Prelude.{◌≡◌, ℕ, ◌≤◌, ◌<◌, [], ◌∷◌, ◌++◌, length, replicate, slice_get, Some, IfOk};
ghost use Rattle.partition_graph.specs.declared.id_rows.TheConstants.{ID_WORDS};
ghost use Rattle.path_finder.specs.declared.pair.Pair.{Pair};
ghost use Rattle.path_finder.specs.PairSets.{IsAmong};
ghost use Rattle.path_finder.specs.Tables.{at, part_of, place, AreEnteredWith, IsListed};

use crate::pair::STATES;
use limits::MAX_PARTITIONS;
use std::alloc::{AllocError, Global};
use std::marker::Model;

/// How many ids there may be.
const IDS: usize = MAX_PARTITIONS as usize;

/// The most pairs: each state with each id.
pub(crate) const MAX_ENTRIES: usize = IDS * STATES;

/// The distance of a pair that was not entered.
pub(crate) const OPEN: u16 = 65535;

/// Pairs that were entered together: they have one state and one distance, and their ids have their bits in one word.
/// The lowest bit is that of the id `64 * place`.
///
/// The distance of a pair is the number of edges of the shortest walk from it to TERMINAL that ends in the bad state.
#[derive(Clone, Copy)]
pub(crate) struct Entry {
    pub word: u64,
    pub distance: u16,
    pub state: u8,
    pub place: u8,
}

/// The pairs that were entered, in the order of their distances. Contracts see the list of the entries, and a distance
/// for each pair: that of its entry, or `OPEN` if it was not entered.
#[derive(Drop)]
pub(crate) struct Table {
    entries: Vec<Entry>,
    /// How many pairs there are.
    pairs: usize,
}

impl Model for Table {
    ghost use Rattle.std.specs.Prelude.{◌≤◌, vec_capacity};
    ghost use Rattle.path_finder.specs.declared.table.TheConstants.{MAX_ENTRIES};
    ghost use Rattle.path_finder.specs.Tables.{entries_of, Entries, IsListed};

    ghost Value = { Entries };

    ghost view = { λ t. entries_of t.pairs t.entries.items };

    ghost invariant = { λ t.
        IsListed (entries_of t.pairs t.entries.items) × (MAX_ENTRIES ≤ vec_capacity t.entries) };
}

impl Table {
    /// An empty table with the memory for all pairs.
    pub fn make(alloc: Global) -> Result<Table, AllocError>
        ensures { IfOk result (λ table. table.parts ≡ []) }
    {
        let entries = Vec::with_capacity(alloc, MAX_ENTRIES)?;
        Ok(Table { entries, pairs: 0 })
    }

    /// Leaves this many pairs, none of them entered.
    pub fn clear(&mut self, pairs: usize)
        requires { pairs ≤ MAX_ENTRIES }
        ensures distances { (self.new).distances ≡ replicate pairs OPEN }
    {
        self.entries.clear();
        self.pairs = pairs;
    }

    /// How many entries there are.
    pub fn len(&self) -> usize
        ensures len { result ≡ length (self.now).parts }
        ensures listed { IsListed self.now }
    {
        self.entries.len()
    }

    /// The entry at this place of the list.
    #[inline]
    pub fn entry(&self, i: usize) -> Entry
        requires { i < length (self.now).parts }
        ensures { slice_get (self.now).parts i ≡ Some result }
    {
        self.entries[i]
    }

    /// Enters pairs that are open. No pair that was entered is farther.
    pub fn enter(&mut self, entry: Entry)
        requires state { entry.state < 3 }
        requires place { entry.place < ID_WORDS }
        requires some { 0 < entry.word }
        requires closes { entry.distance < OPEN }
        requires stand_open { (r : Pair) → IsAmong (part_of entry) r
            → (place r < length (self.old).distances) × (OPEN ≤ at self.old r) }
        requires last { (r : Pair) → r.state < 3 → place r < length (self.old).distances
            → at self.old r < OPEN → at self.old r ≤ entry.distance }
        ensures entered { AreEnteredWith (part_of entry) entry.distance self.old self.new }
        ensures parts { (self.new).parts ≡ (self.old).parts ++ entry ∷ [] }
    {
        self.entries.push_reserved(entry);
    }
}
