//! The question that the finder answers.
ghost use Rattle.std.specs.Prelude.{◌≡◌, ℕ, ◌≤◌, ◌<◌, true};
ghost use Rattle.limits.specs.declared.TheConstants.{FIRST_TYPE, MAX_PARTITIONS};
ghost use Rattle.partition_graph.specs.Parts.{HasEdgesBelow};
ghost use Rattle.partition_graph.specs.NeighbourWords.{IsWordOf};
ghost use Rattle.partition_graph.specs.Seen.{seen, IsSound};
ghost use Rattle.partition_graph.specs.declared.id_rows.TheConstants.{ID_WORDS};
ghost use Rattle.path_finder.specs.IdSets.{has_id};
ghost use Rattle.path_finder.specs.Nearness.{narrowed};

use crate::id_set::IdSet;
use crate::sight::Sight;
use crate::unmerged::{is_unmerged_at, unmerged};
use invariants::{Invariant, Monitor};
use limits::{FIRST_TYPE, MAX_PARTITIONS};
use partition_graph::{ID_WORDS, View};

/// Where the ids are that have an edge to an id.
#[derive(Clone, Copy)]
pub(crate) struct Sources {
    /// The places of their words, as the bits of a word: the lowest is place 0.
    pub places: u64,
    /// Whether these edges are the same without a merge.
    pub unmerged: bool,
}

/// An invariant, and a graph that may break it. Edges go between ids below `ids`. Only those between the ids in
/// `near` are visited.
#[derive(Drop)]
pub(crate) struct Question<'v, 'a> {
    sight: &'v Sight<'v>,
    inv: Invariant,
    ids: u32,
    near: &'a IdSet,
    ghost two: { FIRST_TYPE ≤ ids },
    ghost few: { ids ≤ MAX_PARTITIONS },
    ghost within: { HasEdgesBelow (narrowed (has_id near.now) (seen sight.now.view)) ids },
}

impl<'v, 'a> Question<'v, 'a> {
    ghost use Rattle.invariants.specs.Monitors.{step, is_bad};
    ghost use Rattle.partition_graph.specs.NeighbourWords.{ArePlaces};
    ghost use Rattle.path_finder.specs.Asking.{asked, looks_at};
    ghost use Rattle.path_finder.specs.Merges.{IsUnmergedAt};
    ghost use Rattle.path_finder.specs.Walks.{state_at};

    /// The question whether the graph breaks the invariant by edges between the ids in `near`.
    pub fn new(sight: &'v Sight<'v>, inv: Invariant, near: &'a IdSet) -> Question<'v, 'a>
        ensures graph { (asked result).graph ≡ narrowed (has_id near.now) (seen sight.now.view) }
        ensures inv { (asked result).inv ≡ inv }
    {
        Question {
            sight,
            inv,
            ids: sight.view.ids_used(),
            near,
        }
    }

    /// How many ids are used.
    pub fn ids(&self) -> u32
        ensures value { result ≡ (asked self.now).ids }
        ensures two { FIRST_TYPE ≤ result }
        ensures few { result ≤ MAX_PARTITIONS }
    {
        self.ids
    }

    /// The ids from `64 * place` on whose edges are looked at, as a word whose lowest bit is the first of them.
    #[inline]
    pub fn near_word(&self, place: usize) -> u64
        requires { place < ID_WORDS }
        ensures { IsWordOf (λ id. looks_at self.now id) place result }
    {
        self.near.word(place)
    }

    /// The places of the ids that have an edge to q, and whether these edges are the same without a merge.
    #[inline]
    pub fn sources(&self, q: u32) -> Sources
        ensures places { ArePlaces (λ p. (asked self.now).graph.edge p q) result.places }
        ensures unmerged { result.unmerged ≡ true → IsUnmergedAt (self.now).sight.now.view q }
    {
        let view = &self.sight.view;
        let places = unmerged(view).source_places(q);
        if is_unmerged_at(view, q, places) {
            return Sources {
                places,
                unmerged: true,
            };
        }
        Sources {
            places: view.source_places(q),
            unmerged: false,
        }
    }

    /// The ids from `64 * place` on that have an edge to q, as a word whose lowest bit is the first of them. `is_unmerged` may be
    /// true only if the edges to q are the same without a merge.
    #[inline]
    pub fn source_word(&self, q: u32, place: usize, is_unmerged: bool) -> u64
        requires looked { looks_at self.now q ≡ true }
        requires place { place < ID_WORDS }
        requires same { is_unmerged ≡ true → IsUnmergedAt (self.now).sight.now.view q }
        ensures { IsWordOf (λ p. (asked self.now).graph.edge p q) place result }
    {
        let view = &self.sight.view;
        if is_unmerged {
            return unmerged(view).source_word(q, place) & self.near.word(place);
        }
        merged_source_word(view, q, place) & self.near.word(place)
    }

    /// The ids from `64 * place` on to which p has an edge, as a word whose lowest bit is the first of them.
    #[inline]
    pub fn target_word(&self, p: u32, place: usize) -> u64
        requires looked { looks_at self.now p ≡ true }
        requires place { place < ID_WORDS }
        ensures { IsWordOf (λ q. (asked self.now).graph.edge p q) place result }
    {
        self.sight.view.target_word(p, place) & self.near.word(place)
    }

    /// The type of q.
    #[inline]
    pub fn type_of(&self, q: u32) -> u16
        ensures { result ≡ (asked self.now).graph.typ q }
    {
        self.sight.view.type_of(q)
    }

    /// Whether the type is none of the two that the invariant names. Then no state changes when it is read.
    #[inline]
    pub fn passes_over(&self, typ: u16) -> bool
        ensures { result ≡ true → (s : ℕ) → step (asked self.now).inv s typ ≡ s }
    {
        (typ != self.inv.a) & (typ != self.inv.b)
    }

    /// The state after the type is read.
    #[inline]
    pub fn state_after(&self, state: u8, typ: u16) -> u8
        requires { state < 3 }
        ensures value { result ≡ step (asked self.now).inv state typ }
        ensures bound { result < 3 }
    {
        Monitor::step(self.inv, state, typ)
    }

    /// The state after the type of q is read.
    pub fn state_at(&self, state: u8, q: u32) -> u8
        requires { state < 3 }
        ensures value { result ≡ state_at (asked self.now) state q }
        ensures bound { result < 3 }
    {
        let typ = self.type_of(q);
        if self.passes_over(typ) {
            return state;
        }
        self.state_after(state, typ)
    }

    /// Whether a path that ends in the state breaks the invariant.
    pub fn is_bad(&self, state: u8) -> bool
        ensures { result ≡ is_bad (asked self.now).inv state }
    {
        Monitor::bad(self.inv, state)
    }
}

/// The ids from `64 * place` on that have an edge to q in the view, as a word whose lowest bit is the first of them.
#[inline(never)]
fn merged_source_word(view: &View<'_>, q: u32, place: usize) -> u64
    requires sound { IsSound view.now }
    requires place { place < ID_WORDS }
    ensures { IsWordOf (λ p. (seen view.now).edge p q) place result }
{
    view.source_word(q, place)
}
