//! The ids that walks from some ids reach, and those from which walks reach one of them.
ghost use Rattle.std.specs.Prelude.{◌≡◌, ◌==◌, ◌||◌, ℕ, ◌≤◌, ◌<◌, ◌+◌, ◌*◌, [], Bool, true, length, replicate, slice_index, false};
ghost use Rattle.std.specs.Int.{bit_at};
ghost use Rattle.limits.specs.declared.TheConstants.{FIRST_TYPE, MAX_PARTITIONS};
ghost use Rattle.partition_graph.specs.Seen.{parts_seen, seen};
ghost use Rattle.path_finder.specs.IdSets.{has_id};
ghost use Rattle.path_finder.specs.Nearness.{is_met, is_of_type, IsClosed, IsReachedFrom};
ghost use Rattle.path_finder.specs.declared.reach.Way.TheVariants.{Ahead, Behind};
ghost use Rattle.path_finder.specs.Reaching.{edge_by, meeting, IsCounted, IsReaching, MeetsMore};
ghost use Rattle.partition_graph.specs.NeighbourWords.{ArePlaces, IsWordOf};
ghost use Rattle.partition_graph.specs.declared.id_rows.TheConstants.{ID_WORDS};

use crate::id_set::IdSet;
use crate::sight::Sight;
use crate::words::{next_in_word, without_bit};
use bit_rows::Rows;
use limits::{FIRST_TYPE, MAX_PARTITIONS};
use partition_graph::{ID_WORDS, View, WORD_BITS};
use std::alloc::{AllocError, Global};
use std::marker::Model;

/// How many ids there may be.
const IDS: usize = MAX_PARTITIONS as usize;

/// In which direction walks are followed.
#[derive(Clone, Copy)]
pub(crate) enum Way {
    /// From an id to those to which it has an edge.
    Ahead,
    /// From an id to those that have an edge to it.
    Behind,
}

/// The ids that were met on walks from some ids.
#[derive(Drop)]
pub(crate) struct Reach {
    /// One row, with a bit for each id.
    met: Rows,
    list: Vec<u32>,
}

impl Model for Reach {
    ghost use Rattle.std.specs.Prelude.{◌≤◌, vec_capacity};
    ghost use Rattle.bit_rows.specs.Tables.{row_at, HasShape};
    ghost use Rattle.path_finder.specs.Nearness.{Met};
    ghost use Rattle.limits.specs.declared.TheConstants.{MAX_PARTITIONS};

    ghost Value = { Met };

    ghost view = { λ r. record { flags = row_at r.met 0; list = r.list.items } };

    ghost invariant = { λ r.
        HasShape r.met 1 MAX_PARTITIONS × (MAX_PARTITIONS ≤ vec_capacity r.list) };
}

/// The neighbours of the id in this direction from `64 * place` on, as a word whose lowest bit is the first of them.
#[inline]
fn neighbours(sight: &Sight<'_>, way: Way, id: u32, place: usize) -> u64
    requires { place < ID_WORDS }
    ensures { IsWordOf (edge_by way (seen sight.now.view) id) place result }
{
    match way {
        Way::Ahead => sight.view.target_word(id, place),
        Way::Behind => sight.view.source_word(id, place),
    }
}

/// The places of `neighbours` at which there may be ids, as the bits of a word: the lowest is place 0.
#[inline]
fn neighbour_places(sight: &Sight<'_>, way: Way, id: u32) -> u64
    ensures { ArePlaces (edge_by way (seen sight.now.view) id) result }
{
    match way {
        Way::Ahead => sight.view.target_places(id),
        Way::Behind => sight.view.source_places(id),
    }
}

impl Reach {
    /// Room for all ids. `AllocError` is returned if there is not enough memory.
    pub fn make(alloc: Global) -> Result<Reach, AllocError> {
        let met = Rows::make(alloc, 1, IDS)?;
        let list = Vec::with_capacity(alloc, IDS)?;
        Ok(Reach { met, list })
    }

    /// Whether the id was met.
    #[inline]
    pub fn has(&self, id: u32) -> bool
        ensures { result ≡ is_met self.now id }
    {
        let id = id as usize;
        id < IDS && self.met.get(0, id)
    }

    /// The ids from `64 * place` on that were met, as a word whose lowest bit is the first of them.
    #[inline]
    fn word(&self, place: usize) -> u64
        requires { place < ID_WORDS }
        ensures word { IsWordOf (is_met self.now) place result }
        ensures size { length (self.now).flags ≡ MAX_PARTITIONS }
    {
        self.met.word(0, place)
    }

    /// Forgets all ids.
    fn clear(&mut self)
        ensures flags { (self.new).flags ≡ replicate MAX_PARTITIONS false }
        ensures list { (self.new).list ≡ [] }
    {
        self.list.clear();
        self.met.clear(0);
    }

    /// Meets the id, if it was not met.
    fn meet(&mut self, id: u32)
        requires id { id < MAX_PARTITIONS }
        requires counted { IsCounted self.old }
        ensures { self.new ≡ meeting self.old id }
    {
        if self.has(id) {
            return;
        }
        self.add(id);
    }

    /// Meets the id, which was not met.
    fn add(&mut self, id: u32)
        requires id { id < MAX_PARTITIONS }
        requires counted { IsCounted self.old }
        requires unmet { is_met self.old id ≡ false }
        ensures { self.new ≡ meeting self.old id }
    {
        self.met.put(0, id as usize, true);
        self.list.push_reserved(id);
    }

    /// Meets the ids of a word, none of which was met. The word has a bit for each of the ids from `64 * place` on.
    fn add_all(&mut self, place: usize, word: u64)
        requires place { place < ID_WORDS }
        requires counted { IsCounted self.old }
        requires unmet { (i : ℕ) → i < 64 → (bit_at word i == 1) ≡ true
            → is_met self.old (place * 64 + i) ≡ false }

        // The ids are met, and all that was met stays so.
        ensures met { (i : ℕ) → i < 64 → (bit_at word i == 1) ≡ true
            → is_met self.new (place * 64 + i) ≡ true }
        ensures reaching { (edge : ℕ → ℕ → Bool) (next : ℕ) → next ≤ length (self.old).list
            → IsReaching edge next self.old → IsReaching edge next self.new }
        ensures more { MeetsMore self.old self.new }
    {
        let from = place * WORD_BITS;
        let mut rest = word;
        while let Some(id) = next_in_word(rest, from) {
            self.add(id as u32);
            rest = without_bit(rest, (id % WORD_BITS) as u32);
        }
    }

    /// Meets the neighbours in this direction of the id at this place of the list.
    fn follow(&mut self, sight: &Sight<'_>, way: Way, next: usize)
        requires place { next < length (self.old).list }
        requires reaching { IsReaching (edge_by way (seen sight.now.view)) next self.old }
        ensures reaching { IsReaching (edge_by way (seen sight.now.view)) (next + 1) self.new }
        ensures more { MeetsMore self.old self.new }
    {
        prove!(sight.view.ids_used() <= MAX_PARTITIONS);
        let id = self.list[next];
        let mut rest = neighbour_places(sight, way, id);
        while let Some(place) = next_in_word(rest, 0) {
            if place >= ID_WORDS {
                return;
            }
            let unmet = neighbours(sight, way, id, place) & !self.word(place);
            self.add_all(place, unmet);
            rest = without_bit(rest, place as u32);
        }
    }

    /// Meets all ids that walks in this direction reach from those that are met.
    fn follow_all(&mut self, sight: &Sight<'_>, way: Way)
        requires { IsReaching (edge_by way (seen sight.now.view)) 0 self.old }
        ensures more { MeetsMore self.old self.new }
        ensures closed { IsClosed (is_met self.new) (edge_by way (seen sight.now.view)) }
    {
        let mut next = 0;
        while next < self.list.len() {
            self.follow(sight, way, next);
            next += 1;
        }
    }

    /// Forgets all ids, and meets this one and all that walks in this direction reach from it.
    fn reach_from(&mut self, sight: &Sight<'_>, way: Way, start: u32)
        requires { start < MAX_PARTITIONS }
        ensures { IsReachedFrom (is_met self.new) (λ p. p == start) (edge_by way (seen sight.now.view)) }
    {
        self.clear();
        self.meet(start);
        self.follow_all(sight, way);
    }
}

/// Meets the id in both directions, if it has the type.
fn meet_of_type(ahead: &mut Reach, behind: &mut Reach, view: &View<'_>, typ: u16, id: u32)
    requires id { id < MAX_PARTITIONS }
    requires ahead { (edge : ℕ → ℕ → Bool) → IsReaching edge 0 ahead.old }
    requires behind { (edge : ℕ → ℕ → Bool) → IsReaching edge 0 behind.old }
    ensures ahead { (edge : ℕ → ℕ → Bool) → IsReaching edge 0 ahead.new }
    ensures behind { (edge : ℕ → ℕ → Bool) → IsReaching edge 0 behind.new }

    // What was met stays so, and the id is met if it has the type.
    ensures more_ahead { MeetsMore ahead.old ahead.new }
    ensures more_behind { MeetsMore behind.old behind.new }
    ensures met_ahead { (seen view.now).typ id ≡ typ → is_met ahead.new id ≡ true }
    ensures met_behind { (seen view.now).typ id ≡ typ → is_met behind.new id ≡ true }
{
    if view.type_of(id) != typ {
        return;
    }
    ahead.meet(id);
    behind.meet(id);
}

/// The first id at or above `from` that has the type and is none of the two ends; if there is none, how many ids are
/// used.
#[inline]
fn next_of_type(view: &View<'_>, typ: u16, from: u32) -> u32
    requires { from ≤ (parts_seen view.now).used }
    ensures reached { from ≤ result }
    ensures within { result ≤ (parts_seen view.now).used }
    ensures none_between { (p : ℕ) → FIRST_TYPE ≤ p → from ≤ p → p < result
        → (seen view.now).typ p ≡ typ → ⊥ }
{
    for id in from.max(FIRST_TYPE)..view.ids_used() {
        if view.type_of(id) == typ {
            return id;
        }
    }
    view.ids_used()
}

/// Forgets all ids in both directions, and meets those of the type.
fn begin_with_type(ahead: &mut Reach, behind: &mut Reach, view: &View<'_>, typ: u16)
    ensures ahead { (edge : ℕ → ℕ → Bool) → IsReaching edge 0 ahead.new }
    ensures behind { (edge : ℕ → ℕ → Bool) → IsReaching edge 0 behind.new }
    ensures first_ahead { (p : ℕ) → is_of_type (seen view.now) (parts_seen view.now).used typ p ≡ true
        → is_met ahead.new p ≡ true }
    ensures first_behind { (p : ℕ) → is_of_type (seen view.now) (parts_seen view.now).used typ p ≡ true
        → is_met behind.new p ≡ true }
{
    ahead.clear();
    behind.clear();
    for end in 0..FIRST_TYPE {
        meet_of_type(ahead, behind, view, typ, end);
    }
    let ids = view.ids_used();
    let mut id = next_of_type(view, typ, FIRST_TYPE);
    while id < ids {
        meet_of_type(ahead, behind, view, typ, id);
        id = next_of_type(view, typ, id + 1);
    }
}

/// The ids that were met in one direction or the other.
fn join(ahead: &Reach, behind: &Reach) -> IdSet
    ensures ahead { (p : ℕ) → is_met ahead.now p ≡ true → has_id result p ≡ true }
    ensures behind { (p : ℕ) → is_met behind.now p ≡ true → has_id result p ≡ true }
{
    let mut words = [0; ID_WORDS];
    for place in 0..ID_WORDS {
        words[place] = ahead.word(place) | behind.word(place);
    }
    IdSet { words }
}

/// Finds the ids that walks from some ids reach, and those from which walks reach one of them.
#[derive(Drop)]
pub(crate) struct Around {
    ahead: Reach,
    behind: Reach,
    /// The ids of either kind.
    pub near: IdSet,
}

impl Around {
    ghost use Rattle.path_finder.specs.Keeping.{KeepsAround};

    /// Room for all ids. `AllocError` is returned if there is not enough memory.
    pub fn make(alloc: Global) -> Result<Around, AllocError> {
        let ahead = Reach::make(alloc)?;
        let behind = Reach::make(alloc)?;
        Ok(Around {
            ahead,
            behind,
            near: IdSet::all(),
        })
    }

    /// Finds the ids around this id, among them the id itself.
    pub fn find(&mut self, sight: &Sight<'_>, id: u32)
        requires { id < MAX_PARTITIONS }
        ensures { KeepsAround (has_id (self.new).near) (seen sight.now.view) (λ p. p == id) }
    {
        self.ahead.reach_from(sight, Way::Ahead, id);
        self.behind.reach_from(sight, Way::Behind, id);
        self.near = join(&self.ahead, &self.behind);
    }

    /// Finds the ids around those of this type, among them these.
    pub fn find_type(&mut self, sight: &Sight<'_>, typ: u16)
        ensures { KeepsAround (has_id (self.new).near) (seen sight.now.view)
            (is_of_type (seen sight.now.view) (parts_seen sight.now.view).used typ) }
    {
        begin_with_type(&mut self.ahead, &mut self.behind, &sight.view, typ);
        self.ahead.follow_all(sight, Way::Ahead);
        self.behind.follow_all(sight, Way::Behind);
        self.near = join(&self.ahead, &self.behind);
    }
}
