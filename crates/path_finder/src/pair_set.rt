//! Sets of pairs.
ghost use Rattle.std.specs.Prelude.{◌≡◌, ℕ, ◌<◌, true, MatchOption};
ghost use Rattle.limits.specs.declared.TheConstants.{MAX_PARTITIONS};
ghost use Rattle.partition_graph.specs.NeighbourWords.{IsWordOf};
ghost use Rattle.partition_graph.specs.declared.id_rows.TheConstants.{ID_WORDS};
ghost use Rattle.path_finder.specs.declared.pair.Pair.{Pair};
ghost use Rattle.path_finder.specs.PairSets.{has_in, has_pair, IsAdded, IsEmptySet, IsMarked, IsTaken};

use crate::pair::{Pair, STATES};
use crate::words::{has_bit, without_bit};
use partition_graph::{ID_WORDS, WORD_BITS};

/// How many words have a bit for each pair.
pub(crate) const PAIR_WORDS: usize = ID_WORDS * STATES;

/// A set of pairs: for each state a word for each 64 ids, with a bit for each id.
///
/// Most of the words are 0 in most sets. So a set from which pairs are taken also has a mark for each word that may
/// have a pair.
#[derive(Clone, Copy)]
pub(crate) struct PairSet {
    pub words: [u64; PAIR_WORDS],
    pub marks: u64,
}

/// The pairs of one state whose ids have their bits in one word. The lowest bit is that of the id `64 * place`.
#[derive(Clone, Copy)]
pub(crate) struct Part {
    pub state: u8,
    pub place: usize,
    pub word: u64,
}

impl PairSet {
    /// The set without a pair.
    pub fn none() -> PairSet
        ensures { IsEmptySet result }
    {
        PairSet {
            words: [0; PAIR_WORDS],
            marks: 0,
        }
    }

    /// The pairs of this state with ids from `64 * place` on, as a word whose lowest bit is the first of them.
    #[inline]
    pub fn word(&self, state: u8, place: usize) -> u64
        requires state { state < 3 }
        requires place { place < ID_WORDS }
        ensures { IsWordOf (has_in self.now state) place result }
    {
        self.words[state as usize * ID_WORDS + place]
    }

    /// Whether the set has the pair.
    pub fn has(&self, pair: Pair) -> bool
        requires state { pair.state < 3 }
        requires id { pair.id < MAX_PARTITIONS }
        ensures { result ≡ has_pair self.now pair }
    {
        let place = pair.id as usize / WORD_BITS;
        has_bit(self.word(pair.state, place), pair.id % WORD_BITS as u32)
    }

    /// Adds the pairs of this state with the ids of a word.
    #[inline]
    pub fn add(&mut self, part: Part)
        requires state { part.state < 3 }
        requires place { part.place < ID_WORDS }
        requires marked { IsMarked self.old }
        ensures marked { IsMarked self.new }
        ensures added { IsAdded self.old self.new part }
    {
        let at = part.state as usize * ID_WORDS + part.place;
        self.words[at] |= part.word;
        self.marks |= 1 << at;
    }

    /// Puts the pairs of this state with the ids of a word into the set, without a mark. Returns the word that the set
    /// had.
    #[inline]
    pub fn put(&mut self, part: Part) -> u64
        requires state { part.state < 3 }
        requires place { part.place < ID_WORDS }
        ensures had { IsWordOf (has_in self.old part.state) part.place result }
        ensures added { IsAdded self.old self.new part }
    {
        let at = part.state as usize * ID_WORDS + part.place;
        let had = self.words[at];
        self.words[at] = had | part.word;
        had
    }

    /// Takes the pairs of one word out of the set; `None` if the set has no pair.
    #[inline]
    pub fn take(&mut self) -> Option<Part>
        requires marked { IsMarked self.old }
        ensures taken { MatchOption result
            (IsEmptySet self.old)
            (λ part. IsTaken self.old self.new part) }
        ensures marked { IsMarked self.new }
        ensures emptied { MatchOption result (IsEmptySet self.new) (λ part. Unit {0}) }
    {
        if self.marks == 0 {
            return None;
        }
        let at = self.marks.trailing_zeros() as usize;
        if at >= PAIR_WORDS {
            return None;
        }
        let word = self.words[at];
        self.words[at] = 0;
        self.marks = without_bit(self.marks, at as u32);
        Some(Part {
            state: (at / ID_WORDS) as u8,
            place: at % ID_WORDS,
            word,
        })
    }
}
