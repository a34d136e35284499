//! The ids between which there are edges, one by one and as words of bits.
ghost use Rattle.std.specs.Prelude.{◌≡◌, ◌<◌, IfSome};
ghost use Rattle.partition_graph.specs.declared.id_rows.TheConstants.{ID_WORDS};

use super::PartGraph;
use crate::id_rows::ID_WORDS;

impl PartGraph {
    ghost use Rattle.partition_model.specs.Assignments.{G};
    ghost use Rattle.partition_graph.specs.NeighbourWords.{ArePlaces, IsWordOf};
    ghost use Rattle.partition_graph.specs.Nexts.{IsNextAnswer};
    ghost use Rattle.partition_graph.specs.Parts.{IsUsed};
    ghost use Rattle.std.specs.Bool.{OnTrue};

    /// Whether there is an edge from p to q.
    pub(crate) fn has_edge(&self, p: u32, q: u32) -> bool
        ensures value { result ≡ (G (self.now).traces).edge p q }
        ensures within { OnTrue result (IsUsed self.now p × IsUsed self.now q) }
    {
        if p >= self.used || q >= self.used {
            return false;
        }
        self.tables.count_at(p, q) > 0
    }

    /// The least id at or above `from` that has an edge to q; `None` if there is none.
    pub(crate) fn next_source(&self, q: u32, from: u32) -> Option<u32>
        ensures next { IsNextAnswer (λ p. (G (self.now).traces).edge p q) from result }
        ensures within { IfSome result (IsUsed self.now) }
    {
        self.tables.next_source(q, from)
    }

    /// The least id at or above `from` to which p has an edge; `None` if there is none.
    pub(crate) fn next_target(&self, p: u32, from: u32) -> Option<u32>
        ensures next { IsNextAnswer (λ q. (G (self.now).traces).edge p q) from result }
        ensures within { IfSome result (IsUsed self.now) }
    {
        self.tables.next_target(p, from)
    }

    /// The ids from `64 * place` on that have an edge to q, as a word whose lowest bit is the first of them.
    #[inline]
    pub(crate) fn source_word(&self, q: u32, place: usize) -> u64
        requires { place < ID_WORDS }
        ensures { IsWordOf (λ p. (G (self.now).traces).edge p q) place result }
    {
        self.tables.source_word(q, place)
    }

    /// The ids from `64 * place` on to which p has an edge, as a word whose lowest bit is the first of them.
    #[inline]
    pub(crate) fn target_word(&self, p: u32, place: usize) -> u64
        requires { place < ID_WORDS }
        ensures { IsWordOf (λ q. (G (self.now).traces).edge p q) place result }
    {
        self.tables.target_word(p, place)
    }

    /// The places of `source_word` at which there may be ids, as the bits of a word: the lowest is place 0.
    #[inline]
    pub(crate) fn source_places(&self, q: u32) -> u64
        ensures { ArePlaces (λ p. (G (self.now).traces).edge p q) result }
    {
        self.tables.source_places(q)
    }

    /// The places of `target_word` at which there may be ids, as the bits of a word: the lowest is place 0.
    #[inline]
    pub(crate) fn target_places(&self, p: u32) -> u64
        ensures { ArePlaces (λ q. (G (self.now).traces).edge p q) result }
    {
        self.tables.target_places(p)
    }
}
