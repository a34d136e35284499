//! The known steps from one set of ids to the next.
ghost use Rattle.std.specs.Prelude.{◌≡◌, ◌≢◌, ◌↔◌, ◌<◌, ◌≤◌, ◌+◌, ◌*◌, ◌⊎◌, ℕ, length, IfOk, IfSome, IsTrue};
ghost use Rattle.model_check.specs.declared.sets.TheConstants.{LOOSE, ROOM, ROWS, TYPES};
ghost use Rattle.model_check.specs.declared.successors.TheConstants.{SLOTS};
ghost use Rattle.model_check.specs.Rows.{bit};
ghost use Rattle.model_check.specs.Successors.{known};

use crate::rows::IdRows;
use crate::sets::{KEPT, LOOSE, NEXT, ROOM, ROWS, SPARE, TYPES};
use std::alloc::{AllocError, Global};

/// The number of slots in which kept sets are looked up.
pub(crate) const SLOTS: usize = 1024;

/// How many sets go unkept for lack of room before all are forgotten.
const PATIENCE: u32 = 16_384;

/// How many first ids of a set choose its slot.
const FIRST_IDS: usize = 32;

/// The next set for each set and type, if it is known.
#[derive(Drop)]
pub struct Successors {
    /// For each of the first types and each number of a set, the number of the next set; 0 if it is not known.
    numbers: Vec<u16>,
    /// The number of a kept set with this slot, in most cases the last one. It may be of a set that was forgotten.
    slots: Vec<u16>,
    /// The number of kept sets. The rows from `KEPT` on are theirs.
    kept: usize,
    /// How many sets went unkept for lack of room since all were last forgotten.
    missed: u32,
    ghost slots_size: { length slots.items ≡ SLOTS },
    ghost room: { kept ≤ ROOM },
}

impl Successors {
    /// No step is known, and no set is kept. There is room for the steps of so many first types; those of other types are never
    /// known.
    pub fn make(alloc: Global, types: usize) -> Result<Successors, AllocError>
        requires { types ≤ TYPES }
        ensures numbers { IfOk result (λ made. (s t : ℕ) → known made.numbers.items s t ≡ 0) }
        ensures kept { IfOk result (λ made. made.kept ≡ 0) }
    {
        Ok(Successors {
            numbers: vec![in alloc; 0; types * ROWS]?,
            slots: vec![in alloc; 0; SLOTS]?,
            kept: 0,
            missed: 0,
        })
    }

    /// The number of the next set; 0 if it is not known.
    #[inline(always)]
    pub fn get(&self, set: usize, typ: usize) -> usize
        requires set { set < ROWS }
        requires typ { typ < TYPES }
        ensures { result ≡ known (self.now).numbers.items set typ }
    {
        match self.numbers.get(typ * ROWS + set) {
            Some(next) => usize::from(*next),
            None => 0,
        }
    }

    /// Keeps the number of the next set if there is room for it, unless this set is `LOOSE`, whose row is overwritten later.
    pub fn put(&mut self, set: usize, typ: usize, next: usize)
        requires set { set < ROWS }
        requires typ { typ < TYPES }
        requires next { next < ROWS }
        ensures kept { (self.new).kept ≡ (self.old).kept }
        ensures numbers { (s t : ℕ) → s < ROWS
            → (known (self.new).numbers.items s t ≡ known (self.old).numbers.items s t)
            ⊎ ((s ≡ set) × (t ≡ typ) × (known (self.new).numbers.items s t ≡ next) × (set ≢ LOOSE)) }
    {
        let place = typ * ROWS + set;
        if set != LOOSE && place < self.numbers.len() {
            self.numbers[place] = next as u16;
        }
    }

    /// Whether there is no room for one more set.
    pub fn is_full(&self) -> bool
        ensures { IsTrue result ↔ ((self.now).kept ≡ ROOM) }
    {
        self.kept == ROOM
    }

    /// Whether the next set goes unkept: there is no room, and too few sets went unkept since all were last forgotten.
    /// Forgetting all costs as much as a few hundred steps.
    pub fn goes_on_without(&mut self) -> bool
        ensures numbers { (self.new).numbers.items ≡ (self.old).numbers.items }
        ensures kept { (self.new).kept ≡ (self.old).kept }
    {
        if self.kept < ROOM {
            return false;
        }
        if self.missed == PATIENCE {
            self.missed = 0;
            return false;
        }
        self.missed = self.missed.wrapping_add(1);
        true
    }

    /// Forgets all sets and all steps.
    pub fn forget(&mut self)
        ensures numbers { (s t : ℕ) → known (self.new).numbers.items s t ≡ 0 }
        ensures kept { (self.new).kept ≡ 0 }
    {
        self.numbers.as_mut_slice().fill(0);
        self.kept = 0;
    }

    /// Keeps the next set, and returns its number. `find` then finds it by the slot.
    pub fn keep(&mut self, rows: &mut IdRows, slot: usize) -> usize
        requires room { (self.old).kept < ROOM }
        requires slot { slot < SLOTS }

        // The set is one more, in a row of its own.
        ensures number { result ≡ KEPT + (self.old).kept }
        ensures kept { (self.new).kept ≡ (self.old).kept + 1 }
        ensures set { (q : ℕ) → bit rows.new result q ≡ bit rows.old NEXT q }

        // All else stays.
        ensures numbers { (self.new).numbers.items ≡ (self.old).numbers.items }
        ensures others { (r k : ℕ) → r ≢ result → bit rows.new r k ≡ bit rows.old r k }
    {
        let number = KEPT + self.kept;
        rows.copy(number, NEXT);
        self.slots[slot] = number as u16;
        self.kept += 1;
        number
    }

    /// The number of the next set, if it is kept and found by the slot.
    pub fn find(&self, rows: &mut IdRows, slot: usize) -> Option<usize>
        requires slot { slot < SLOTS }
        ensures others { (r k : ℕ) → r ≢ SPARE → bit rows.new r k ≡ bit rows.old r k }
        ensures row { IfSome result (λ n. KEPT ≤ n) }
        ensures kept { IfSome result (λ n. n < KEPT + (self.now).kept) }
        ensures set { IfSome result (λ n. (q : ℕ) → bit rows.old n q ≡ bit rows.old NEXT q) }
    {
        let number = usize::from(self.slots[slot]);
        if number < KEPT || number >= KEPT + self.kept {
            return None;
        }
        if rows.are_same(number, NEXT, SPARE) {
            return Some(number);
        }
        None
    }
}

/// The slot of the next set, by its first ids.
pub fn slot_of(rows: &IdRows) -> usize
    ensures { result < SLOTS }
{
    let mut slot = 0;
    let mut from = 0;
    for _i in 0..FIRST_IDS {
        let Some(p) = rows.next(NEXT, from) else {
            return slot;
        };
        slot = (slot * 31 + p) % SLOTS;
        from = p + 1;
    }
    slot
}
