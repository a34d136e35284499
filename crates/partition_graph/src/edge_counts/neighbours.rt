//! The ids between which edges are counted, one by one and as words of bits.
ghost use Rattle.std.specs.Prelude.{◌<◌};
ghost use Rattle.partition_graph.specs.Marks.{is_counted};
ghost use Rattle.partition_graph.specs.NeighbourWords.{ArePlaces, IsWordOf};
ghost use Rattle.partition_graph.specs.Nexts.{IsNextAnswer};
ghost use Rattle.partition_graph.specs.declared.id_rows.TheConstants.{ID_WORDS};

use super::EdgeCounts;
use crate::id_rows::ID_WORDS;
use limits::MAX_PARTITIONS;

impl EdgeCounts {
    /// The least id at or above `from` from which an edge to q is counted; `None` if there is none.
    pub fn next_source(&self, q: u32, from: u32) -> Option<u32>
        ensures { IsNextAnswer (λ p. is_counted self.now p q) from result }
    {
        if q >= MAX_PARTITIONS {
            return None;
        }
        let p = self.sources.next_set(q as usize, from as usize)?;
        Some(p as u32)
    }

    /// The least id at or above `from` to which an edge from p is counted; `None` if there is none.
    pub fn next_target(&self, p: u32, from: u32) -> Option<u32>
        ensures { IsNextAnswer (λ q. is_counted self.now p q) from result }
    {
        if p >= MAX_PARTITIONS {
            return None;
        }
        let q = self.targets.next_set(p as usize, from as usize)?;
        Some(q as u32)
    }

    /// The ids from `64 * place` on from which an edge to q is counted, as a word whose lowest bit is the first of them.
    #[inline]
    pub fn source_word(&self, q: u32, place: usize) -> u64
        requires { place < ID_WORDS }
        ensures { IsWordOf (λ p. is_counted self.now p q) place result }
    {
        if q >= MAX_PARTITIONS {
            return 0;
        }
        self.sources.word(q as usize, place)
    }

    /// The ids from `64 * place` on to which an edge from p is counted, as a word whose lowest bit is the first of them.
    #[inline]
    pub fn target_word(&self, p: u32, place: usize) -> u64
        requires { place < ID_WORDS }
        ensures { IsWordOf (λ q. is_counted self.now p q) place result }
    {
        if p >= MAX_PARTITIONS {
            return 0;
        }
        self.targets.word(p as usize, place)
    }

    /// The places of `source_word` at which there may be ids, as the bits of a word: the lowest is place 0.
    #[inline]
    pub fn source_places(&self, q: u32) -> u64
        ensures { ArePlaces (λ p. is_counted self.now p q) result }
    {
        if q >= MAX_PARTITIONS {
            return 0;
        }
        self.sources.places(q as usize)
    }

    /// The places of `target_word` at which there may be ids, as the bits of a word: the lowest is place 0.
    #[inline]
    pub fn target_places(&self, p: u32) -> u64
        ensures { ArePlaces (λ q. is_counted self.now p q) result }
    {
        if p >= MAX_PARTITIONS {
            return 0;
        }
        self.targets.places(p as usize)
    }
}
