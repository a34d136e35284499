//! Rows of ids, all of one shape.
ghost use Rattle.std.specs.Prelude.{◌≡◌, ◌≢◌, ◌<◌, ◌≤◌, ◌==◌, ◌&&◌, ◌||◌, ◌↔◌, ℕ, false, not, IfOk, IsTrue, MatchOption};
ghost use Rattle.limits.specs.declared.TheConstants.{MAX_PARTITIONS};
ghost use Rattle.bit_rows.specs.Tables.{HasShape};
ghost use Rattle.model_check.specs.declared.sets.TheConstants.{ROWS};

use crate::sets::{IDS, ROWS};
use bit_rows::Rows;
use std::alloc::{AllocError, Global};

/// As many rows as a check needs. Each has a bit for each id: whether the id is in the row.
#[derive(Drop)]
pub struct IdRows {
    bits: Rows,
    ghost shape: { HasShape bits ROWS MAX_PARTITIONS },
}

impl IdRows {
    ghost use Rattle.model_check.specs.Rows.{bit, IsNextIn};

    /// Rows without ids.
    pub fn make(alloc: Global) -> Result<IdRows, AllocError>
        ensures { IfOk result (λ rows. (r k : ℕ) → bit rows r k ≡ false) }
    {
        let bits = Rows::make(alloc, ROWS, IDS)?;
        Ok(IdRows { bits })
    }

    /// Whether the id is in the row.
    pub fn has(&self, r: usize, p: usize) -> bool
        requires { r < ROWS }
        ensures { result ≡ bit self.now r p }
    {
        if p >= IDS {
            return false;
        }
        self.bits.get(r, p)
    }

    /// Puts the id into the row.
    pub fn put(&mut self, r: usize, p: usize)
        requires row { r < ROWS }
        requires id { p < IDS }
        ensures { (s k : ℕ) → bit self.new s k ≡ (bit self.old s k || (r == s && p == k)) }
    {
        self.bits.put(r, p, true);
    }

    /// Removes all ids from the row. The other rows stay.
    pub fn clear(&mut self, r: usize)
        requires { r < ROWS }
        ensures row { (k : ℕ) → bit self.new r k ≡ false }
        ensures others { (s k : ℕ) → s ≢ r → bit self.new s k ≡ bit self.old s k }
    {
        self.bits.clear(r);
    }

    /// The least id of the row that is not below `from`; `None` if there is none.
    pub fn next(&self, r: usize, from: usize) -> Option<usize>
        requires { r < ROWS }
        ensures { MatchOption result ((k : ℕ) → from ≤ k → bit self.now r k ≡ false)
            (IsNextIn self.now r from) }
    {
        self.bits.next_set(r, from)
    }

    /// Replaces the ids of row `to` by those of row `from`, which is another row. The other rows stay.
    pub fn copy(&mut self, to: usize, from: usize)
        requires to_row { to < ROWS }
        requires from_row { from < ROWS }
        requires apart { to ≢ from }
        ensures row { (k : ℕ) → bit self.new to k ≡ bit self.old from k }
        ensures others { (s k : ℕ) → s ≢ to → bit self.new s k ≡ bit self.old s k }
    {
        self.bits.copy_into(to, from);
    }

    /// Adds the ids that are in both row `a` and row `b` to row `to`, which is neither. The other rows stay.
    pub fn join(&mut self, to: usize, a: usize, b: usize)
        requires to_row { to < ROWS }
        requires a_row { a < ROWS }
        requires b_row { b < ROWS }
        requires a_apart { to ≢ a }
        requires b_apart { to ≢ b }

        // The row has the ids of both in addition, and the other rows stay.
        ensures row { (k : ℕ) → bit self.new to k
            ≡ (bit self.old to k || (bit self.old a k && bit self.old b k)) }
        ensures others { (s k : ℕ) → s ≢ to → bit self.new s k ≡ bit self.old s k }
    {
        self.bits.or_and_into(to, a, b);
    }

    /// Adds the ids that are in row `a` and not in row `b` to row `to`, which is neither. The other rows stay.
    fn join_without(&mut self, to: usize, a: usize, b: usize)
        requires to_row { to < ROWS }
        requires a_row { a < ROWS }
        requires b_row { b < ROWS }
        requires a_apart { to ≢ a }
        requires b_apart { to ≢ b }

        // The row has the ids of the one that the other lacks in addition, and the other rows stay.
        ensures row { (k : ℕ) → bit self.new to k
            ≡ (bit self.old to k || (bit self.old a k && not (bit self.old b k))) }
        ensures others { (s k : ℕ) → s ≢ to → bit self.new s k ≡ bit self.old s k }
    {
        self.bits.or_and_not_into(to, a, b);
    }

    /// Whether row `a` and row `b` have the same ids. Row `spare`, which is neither, is overwritten. The other rows stay.
    pub fn are_same(&mut self, a: usize, b: usize, spare: usize) -> bool
        requires a_row { a < ROWS }
        requires b_row { b < ROWS }
        requires spare_row { spare < ROWS }
        requires a_apart { spare ≢ a }
        requires b_apart { spare ≢ b }
        ensures same { IsTrue result ↔ ((k : ℕ) → bit self.old a k ≡ bit self.old b k) }
        ensures others { (s k : ℕ) → s ≢ spare → bit self.new s k ≡ bit self.old s k }
    {
        self.clear(spare);
        self.join_without(spare, a, b);
        self.join_without(spare, b, a);
        match self.next(spare, 0) {
            Some(_) => false,
            None => true,
        }
    }
}
