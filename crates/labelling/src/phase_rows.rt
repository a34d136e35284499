//! The rows of all invariants.
ghost use Rattle.std.specs.Prelude.{◌≡◌, ◌≢◌, ◌≤◌, ◌<◌, ◌+◌, ◌*◌, ◌==◌, ℕ, true, false, length, not, IfOk, MatchOption, slice_get, slice_index, slice_index_or, Some};
ghost use Rattle.std.specs.Int.{bit_at};
ghost use Rattle.limits.specs.declared.TheConstants.{INITIAL, LAST_TYPE, MAX_INVARIANTS, MAX_PARTITIONS};
ghost use Rattle.invariants.specs.declared.Invariant.{Invariant};
ghost use Rattle.labelling.specs.declared.layout.TheConstants.{LAST_PHASE, STATES};
ghost use Rattle.labelling.specs.Layout.{AreMarkedOnce, IsBlankFrom, IsTableOf};
ghost use Rattle.labelling.specs.Labelled.{SaysSwapped};

use crate::carrying::{clear_between, note_broken, pass, take_up};
use crate::layout::{
    BROKEN_ROW, LAST_PHASE, STATES, WORD_BITS, first_row, label_row, labels_from, move_row,
    row_count,
};
use crate::marks::{bound_of, mark_all};
use crate::phases::phase_of;
use bit_rows::Rows;
use invariants::Invariant;
use limits::INITIAL;
use std::alloc::{AllocError, Global};

/// The phases that are found for the monitors of invariants, and what each type does to phases.
#[derive(Drop)]
pub(crate) struct PhaseRows {
    rows: Rows,
    invs: Vec<Invariant>,
    /// Types from this number on leave each phase of each invariant as it is.
    bound: usize,
    /// From this row on, nothing is on.
    used: usize,
    /// Whether the rows say what each type does. The first labelling marks them. Until then, all bits are off.
    marked: bool,
    ghost table: { IsTableOf bound invs.items rows },
    ghost state: { AreMarkedOnce marked bound invs.items rows },
    ghost blank: { IsBlankFrom bound used rows },
}

impl PhaseRows {
    ghost use Rattle.invariants.specs.Monitors.{step};
    ghost use Rattle.labelling.specs.PhaseRows.{found};
    ghost use Rattle.labelling.specs.Phases.{phase_at};
    ghost use Rattle.labelling.specs.Found.{AreNoted, FollowsAlong, Grows, HasStart, IsCarried, IsNothing, IsSameBut, StartsAt};

    /// The rows of these invariants, with nothing found and nothing marked. It allocates the rows, and writes none of
    /// them.
    pub fn make(alloc: Global, invs: &[Invariant]) -> Result<PhaseRows, AllocError>
        requires few { length invs.now ≤ MAX_INVARIANTS }
        requires named { (k : ℕ) (inv : Invariant) → slice_get invs.now k ≡ Some inv
            → (inv.a ≤ LAST_TYPE) × (inv.b ≤ LAST_TYPE) }
        ensures list { IfOk result (λ phase_rows. (found phase_rows).invs ≡ invs.now) }
        ensures unmarked { IfOk result (λ phase_rows. phase_rows.marked ≡ false) }
        ensures nothing { IfOk result (λ phase_rows. IsNothing (found phase_rows)) }
        ensures unbroken { IfOk result (λ phase_rows. (k : ℕ) → (found phase_rows).broken k ≡ false) }
    {
        let bound = bound_of(invs);
        let rows = Rows::make(alloc, row_count(bound), invs.len())?;
        let list = Vec::from_slice(alloc, invs)?;
        Ok(PhaseRows {
            rows,
            invs: list,
            bound,
            used: labels_from(bound),
            marked: false,
        })
    }

    /// Whether the state is found at p for the invariant with number k.
    pub fn has(&self, k: usize, p: u32, state: u8) -> bool
        requires number { k < length (found self.now).invs }
        requires id { p < MAX_PARTITIONS }
        requires state { state < STATES }
        ensures { result ≡ (found self.now).has k p (phase_at (found self.now).invs k state) }
    {
        let phase = phase_of(self.invs[k].kind, state);
        self.rows.get(label_row(self.bound, p, phase), k)
    }

    /// A word with a bit for each of the 64 invariants from number `64 * place` on, the first as the lowest. The bit is
    /// on if the states 0 and 1 of the invariant's monitor are the phases 1 and 0. Each other state is the phase of its
    /// number.
    pub fn swapped(&self, place: usize) -> u64
        requires { place * 64 < length (found self.now).invs }
        ensures { SaysSwapped (found self.now).invs place result }
    {
        let first = place * WORD_BITS;
        let mut swapped = 0;
        for k in 0..WORD_BITS.min(self.invs.len() - first) {
            swapped = with_bit(
                swapped,
                k as u32,
                phase_of(self.invs[first + k].kind, 0) == 1,
            );
        }
        swapped
    }

    /// Which states are found at p for the 64 invariants from number `64 * place` on: a word for each state, with a bit
    /// for each invariant. `swapped` is what the function of this name returns for the place.
    pub fn words(&self, place: usize, p: u32, swapped: u64) -> [u64; STATES]
        requires place { place * 64 < length (found self.now).invs }
        requires id { p < MAX_PARTITIONS }
        requires swapped { SaysSwapped (found self.now).invs place swapped }
        ensures { (k s : ℕ) → k < 64 → place * 64 + k < length (found self.now).invs → s < STATES
            → (bit_at (slice_index result s) k == 1)
            ≡ (found self.now).has (place * 64 + k) p
            (phase_at (found self.now).invs (place * 64 + k) s) }
    {
        let zeroth = self.rows.word(label_row(self.bound, p, 0), place);
        let first = self.rows.word(label_row(self.bound, p, 1), place);
        let second = self.rows.word(label_row(self.bound, p, 2), place);
        [
            (zeroth & !swapped) | (first & swapped),
            (first & !swapped) | (zeroth & swapped),
            second,
        ]
    }

    /// Marks what each type does, in the rows that are the same for each graph. If they are marked already, nothing
    /// changes. What is found and what is noted stay.
    fn mark_once(&mut self)
        ensures same { (found self.new).invs ≡ (found self.old).invs }
        ensures labels { (k p s : ℕ) → p < MAX_PARTITIONS → s < STATES
            → (found self.new).has k p s ≡ (found self.old).has k p s }
        ensures broken { (k : ℕ) → (found self.new).broken k ≡ (found self.old).broken k }
        ensures marked { self.new.marked ≡ true }
    {
        if self.marked {
            return;
        }
        mark_all(&mut self.rows, &self.invs, self.bound);
        self.marked = true;
    }

    /// Forgets all that was found, and marks the rows if that was not done before. A labelling begins with this: what
    /// finds or notes phases requires marked rows.
    pub fn clear(&mut self)
        ensures same { (found self.new).invs ≡ (found self.old).invs }
        ensures nothing { IsNothing (found self.new) }
        ensures marked { self.new.marked ≡ true }
    {
        self.mark_once();
        let first = labels_from(self.bound);
        clear_between(&mut self.rows, first, self.used);
        self.used = first;
    }

    /// Finds the phase at INITIAL for those invariants that are in it there.
    pub fn start(&mut self, phase: u8)
        requires phase { phase < STATES }
        requires marked { self.old.marked ≡ true }
        ensures marked { self.new.marked ≡ true }
        ensures same { (found self.new).invs ≡ (found self.old).invs }
        ensures keeps { (k p s : ℕ) → (found self.old).has k p s ≡ true
            → (found self.new).has k p s ≡ true }

        // What is new is only at INITIAL and is reached there, and all that begins so is found.
        ensures sound { StartsAt (found self.old) (found self.new) }
        ensures start { HasStart phase (found self.new) }
        ensures others { IsSameBut INITIAL (found self.old) (found self.new) }
    {
        let to = label_row(self.bound, INITIAL, phase);
        self.used = self.used.max(to + 1);
        take_up(&mut self.rows, first_row(phase), to);
    }

    /// Finds the phase `next` at q for those invariants that have `phase` at p, if the type of q brings them from there
    /// to `next`. `phase` is not the last one. Returns whether anything new was found.
    pub fn carry(&mut self, p: u32, phase: u8, typ: u16, q: u32, next: u8) -> bool
        requires from { p < MAX_PARTITIONS }
        requires phase { phase < LAST_PHASE }
        requires to { q < MAX_PARTITIONS }
        requires next { next < STATES }
        requires marked { self.old.marked ≡ true }
        ensures marked { self.new.marked ≡ true }

        // What is found, and where.
        ensures grows { Grows (found self.old) (found self.new) result }
        ensures sound { FollowsAlong p q typ (found self.old) (found self.new) }
        ensures carried { IsCarried p phase typ q next (found self.old) (found self.new) }
        ensures others { IsSameBut q (found self.old) (found self.new) }
    {
        if next > phase + 1 {
            return false;
        }
        let mask = move_row(self.row_type(typ), phase, next);
        let to = label_row(self.bound, q, next);
        self.used = self.used.max(to + 1);
        pass(
            &mut self.rows,
            label_row(self.bound, p, phase),
            to,
            mask,
            phase == next,
        )
    }

    /// Finds the last phase at q for those invariants that have it at p: nothing leaves it. Returns whether anything
    /// new was found.
    pub fn keep_last(&mut self, p: u32, q: u32) -> bool
        requires from { p < MAX_PARTITIONS }
        requires to { q < MAX_PARTITIONS }
        requires marked { self.old.marked ≡ true }
        ensures marked { self.new.marked ≡ true }
        ensures grows { Grows (found self.old) (found self.new) result }
        ensures sound { (typ : ℕ) → FollowsAlong p q typ (found self.old) (found self.new) }
        ensures carried { (typ : ℕ)
            → IsCarried p LAST_PHASE typ q LAST_PHASE (found self.old) (found self.new) }
        ensures others { IsSameBut q (found self.old) (found self.new) }
    {
        let to = label_row(self.bound, q, LAST_PHASE);
        self.used = self.used.max(to + 1);
        take_up(&mut self.rows, label_row(self.bound, p, LAST_PHASE), to)
    }

    /// The type whose rows say what this one does.
    fn row_type(&self, typ: u16) -> usize
        ensures within { result ≤ self.now.bound }
        ensures acts { (k : ℕ) (inv : Invariant) (s : ℕ)
            → slice_get self.now.invs.items k ≡ Some inv
            → step inv s result ≡ step inv s typ }
    {
        usize::from(typ).min(self.bound)
    }

    /// Notes for which invariants a bad phase is found at TERMINAL.
    pub fn note(&mut self)
        requires { self.old.marked ≡ true }
        ensures marked { self.new.marked ≡ true }
        ensures same { (found self.new).invs ≡ (found self.old).invs }
        ensures labels { (k p s : ℕ) → p < MAX_PARTITIONS → s < STATES
            → (found self.new).has k p s ≡ (found self.old).has k p s }
        ensures noted { AreNoted (found self.new) }
    {
        note_broken(&mut self.rows, self.bound);
    }

    /// The number of the first invariant that was noted; `None` if none was.
    pub fn first_noted(&self) -> Option<usize>
        ensures { MatchOption result
            ((k : ℕ) → (found self.now).broken k ≡ false)
            (λ k. (k < length (found self.now).invs) × ((found self.now).broken k ≡ true)
            × ((j : ℕ) → j < k → (found self.now).broken j ≡ false)) }
    {
        self.rows.first_set(BROKEN_ROW)
    }

    /// Sets the flag of each invariant to whether the invariant was not noted.
    pub fn tell_unnoted(&self, flags: &mut [bool])
        requires { length flags.old ≡ length (found self.now).invs }
        ensures { (k : ℕ) → k < length (found self.now).invs
            → slice_index_or flags.new k false ≡ not ((found self.now).broken k) }
    {
        for place in 0..flags.len().div_ceil(WORD_BITS) {
            tell_off(flags, place * WORD_BITS, self.rows.word(BROKEN_ROW, place));
        }
    }
}

/// Sets the flags from number `first` on, at most 64, to whether the bits of the word are off, beginning with the lowest.
/// The other flags stay.
fn tell_off(flags: &mut [bool], first: usize, word: u64)
    requires { first < length flags.old }
    ensures told { (k : ℕ) → k < 64 → first + k < length flags.old
        → slice_index_or flags.new (first + k) false ≡ not (bit_at word k == 1) }
    ensures others { (k : ℕ) → k < first → slice_index_or flags.new k false ≡ slice_index_or flags.old k false }
{
    for k in 0..WORD_BITS.min(flags.len() - first) {
        flags[first + k] = (word >> k) & 1 == 0;
    }
}

/// The word with this bit, which is off, turned on or left.
fn with_bit(word: u64, place: u32, on: bool) -> u64
    requires place { place < 64 }
    requires off { bit_at word place ≡ 0 }
    ensures there { (bit_at result place == 1) ≡ on }
    ensures others { (i : ℕ) → i ≢ place → bit_at result i ≡ bit_at word i }
{
    if on { word | (1 << place) } else { word }
}
