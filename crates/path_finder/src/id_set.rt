//! Sets of ids.
ghost use Rattle.std.specs.Prelude.{◌≡◌, ◌<◌, ℕ, true};
ghost use Rattle.limits.specs.declared.TheConstants.{MAX_PARTITIONS};
ghost use Rattle.partition_graph.specs.NeighbourWords.{IsWordOf};
ghost use Rattle.partition_graph.specs.declared.id_rows.TheConstants.{ID_WORDS};
ghost use Rattle.path_finder.specs.IdSets.{has_id};

use crate::words::has_bit;
use partition_graph::{ID_WORDS, WORD_BITS};

/// A set of ids: a word for each 64 of them, with a bit for each id.
#[derive(Clone, Copy)]
pub struct IdSet {
    pub words: [u64; ID_WORDS],
}

impl IdSet {
    /// The set of all ids.
    pub fn all() -> IdSet
        ensures { (p : ℕ) → p < MAX_PARTITIONS → has_id result p ≡ true }
    {
        IdSet {
            words: [u64::MAX; ID_WORDS],
        }
    }

    /// Whether the set has the id.
    #[inline]
    pub fn has(&self, id: u32) -> bool
        ensures { result ≡ has_id self.now id }
    {
        let place = id as usize / WORD_BITS;
        if place >= ID_WORDS {
            return false;
        }
        has_bit(self.words[place], id % WORD_BITS as u32)
    }

    /// The ids from `64 * place` on that the set has, as a word whose lowest bit is the first of them.
    #[inline]
    pub fn word(&self, place: usize) -> u64
        requires { place < ID_WORDS }
        ensures { IsWordOf (has_id self.now) place result }
    {
        self.words[place]
    }

    /// The ids that are in this set or in the other.
    pub fn with(&self, other: &IdSet) -> IdSet
        ensures own { (p : ℕ) → has_id self.now p ≡ true → has_id result p ≡ true }
        ensures others { (p : ℕ) → has_id other.now p ≡ true → has_id result p ≡ true }
    {
        let mut words = [0; ID_WORDS];
        for place in 0..ID_WORDS {
            words[place] = self.word(place) | other.word(place);
        }
        IdSet { words }
    }

    /// How many ids the set has.
    pub fn count(&self) -> u32 {
        let mut count = 0u32;
        for word in self.words {
            count = count.saturating_add(word.count_ones());
        }
        count
    }
}
