//! Two rows of marks for each id, and the masks by which they propagate.
ghost use Rattle.std.specs.Prelude.{◌≡◌, ◌≢◌, ◌*◌, ◌<◌, ◌≤◌, length, IfOk, MatchOption};
ghost use Rattle.limits.specs.declared.TheConstants.{LAST_TYPE, MAX_INVARIANTS};
ghost use Rattle.partition_graph.specs.NeighbourWords.{IsWordOf};
ghost use Rattle.clashes.specs.Rules.{AreNamedUpTo};

use crate::masks::{complete_masks, first_unnamed};
use crate::places::{BAD, START, back_row, enters_row, falls_row, fore_row, row_count, stays_row};
use bit_rows::Rows;
use invariants::Invariant;
use limits::{INITIAL, MAX_PARTITIONS, TERMINAL};
use std::alloc::{AllocError, Global};
use std::marker::Model;

/// How many bits a word has: one for each of as many invariants.
const WORD_BITS: usize = 64;

/// Invariants, and for each id two rows of bits, with a bit for each of them. Contracts see the list and these rows.
#[derive(Drop)]
pub(crate) struct MarkRows {
    invs: Vec<Invariant>,
    /// The first number above all that the invariants name: its masks stand for each type from it on.
    others: u16,
    rows: Rows,
    /// Whether the masks are written. They are written when marks are first to be found: until then nothing is on in the
    /// rows.
    masked: bool,
}

impl Model for MarkRows {
    ghost use Rattle.clashes.specs.Marks.{Marks};
    ghost use Rattle.clashes.specs.Layout.{marks_in, IsKept};

    ghost Value = { Marks };

    ghost view = { λ s. marks_in s.invs.items s.others s.rows };

    ghost invariant = { λ s. IsKept s.invs.items s.others s.masked s.rows };
}

impl MarkRows {
    ghost use Rattle.clashes.specs.Marks.{has_clash, NoClash, IsFirstClash};
    ghost use Rattle.clashes.specs.Changes.{IsBegun, IsBlankBelow, IsEntered, IsFollowed, IsJoined};
    ghost use Rattle.clashes.specs.Changes.{IsTakenUp, IsUnmarked, TellsGrowth};

    /// The rows of these invariants. It allocates for `MAX_PARTITIONS` ids. `AllocError` is returned if there is not
    /// enough memory.
    pub fn make(alloc: Global, invs: &[Invariant]) -> Result<MarkRows, AllocError>
        requires few { length invs.now ≤ MAX_INVARIANTS }
        requires named { AreNamedUpTo LAST_TYPE invs.now }
        ensures { IfOk result (λ mark_rows. mark_rows.invs ≡ invs.now) }
    {
        let others = first_unnamed(invs);
        let list = Vec::from_slice(alloc, invs)?;
        let rows = Rows::make(alloc, row_count(others), invs.len())?;
        Ok(MarkRows {
            invs: list,
            others,
            rows,
            masked: false,
        })
    }

    /// Turns the marks of all ids below this number off.
    pub fn clear(&mut self, ids: u32)
        requires { ids ≤ MAX_PARTITIONS }
        ensures invs { (self.new).invs ≡ (self.old).invs }
        ensures blank { IsBlankBelow self.new ids }
    {
        for p in 0..ids {
            self.unmark(p);
        }
    }

    /// Turns the marks of an id off.
    fn unmark(&mut self, p: u32)
        requires { p < MAX_PARTITIONS }
        ensures { IsUnmarked self.old self.new p }
    {
        self.rows.clear(fore_row(self.others, p));
        self.rows.clear(back_row(self.others, p));
    }

    /// Moves the marks of q to p.
    pub fn join(&mut self, p: u32, q: u32)
        requires to { p < MAX_PARTITIONS }
        requires from { q < MAX_PARTITIONS }
        requires apart { p ≢ q }
        ensures { IsJoined self.old self.new p q }
    {
        self.take_up(p, q);
        self.unmark(q);
    }

    /// Gives p the marks of q.
    fn take_up(&mut self, p: u32, q: u32)
        requires to { p < MAX_PARTITIONS }
        requires from { q < MAX_PARTITIONS }
        requires apart { p ≢ q }
        ensures { IsTakenUp self.old self.new p q }
    {
        self.rows
            .or_into(fore_row(self.others, p), fore_row(self.others, q));
        self.rows
            .or_into(back_row(self.others, p), back_row(self.others, q));
    }

    /// Gives the two ends the marks from which all others come.
    pub fn begin(&mut self)
        ensures { IsBegun self.old self.new }
    {
        let invs = self.invs.as_slice();
        complete_masks(&mut self.rows, &mut self.masked, self.others, invs);
        self.rows.or_into(fore_row(self.others, INITIAL), START);
        self.rows.or_into(back_row(self.others, TERMINAL), BAD);
    }

    /// Gives the ends of an edge the marks that the edge itself brings. `typ` is the type of `to`.
    pub fn enter(&mut self, from: u32, to: u32, typ: u16)
        requires from_id { from < MAX_PARTITIONS }
        requires to_id { to < MAX_PARTITIONS }
        ensures { IsEntered self.old self.new from to typ }
    {
        let invs = self.invs.as_slice();
        complete_masks(&mut self.rows, &mut self.masked, self.others, invs);
        let x = typ.min(self.others);
        self.rows.or_into(fore_row(self.others, to), enters_row(x));
        self.rows.or_into(back_row(self.others, from), falls_row(x));
    }

    /// Propagates marks along an edge, and returns whether that changed any. `typ` is the type of `to`.
    pub fn follow(&mut self, from: u32, to: u32, typ: u16) -> bool
        requires from_id { from < MAX_PARTITIONS }
        requires to_id { to < MAX_PARTITIONS }
        ensures marks { IsFollowed self.old self.new from to typ }
        ensures tells { TellsGrowth self.old self.new result }
    {
        if from == to {
            return false;
        }
        let invs = self.invs.as_slice();
        complete_masks(&mut self.rows, &mut self.masked, self.others, invs);
        let x = typ.min(self.others);
        let met = self.rows.or_and_into(
            fore_row(self.others, to),
            fore_row(self.others, from),
            stays_row(x),
        );
        let ahead = self.rows.or_and_into(
            back_row(self.others, from),
            back_row(self.others, to),
            stays_row(x),
        );
        met | ahead
    }

    /// For which of the 64 invariants from number `64 * place` on the two ids clash, as the bits of a word, the first as the
    /// lowest.
    #[inline]
    fn clashes_at(&self, p: u32, q: u32, place: usize) -> u64
        requires one { p < MAX_PARTITIONS }
        requires other { q < MAX_PARTITIONS }
        requires place { place * WORD_BITS < length (self.now).invs }
        ensures { IsWordOf (λ k. has_clash self.now k p q) place result }
    {
        let met_p = self.rows.word(fore_row(self.others, p), place);
        let ahead_q = self.rows.word(back_row(self.others, q), place);
        let met_q = self.rows.word(fore_row(self.others, q), place);
        let ahead_p = self.rows.word(back_row(self.others, p), place);
        (met_p & ahead_q) | (met_q & ahead_p)
    }

    /// The number of the first invariant for which the two ids clash; `None` if they clash for none. No mark changes.
    pub fn first_clash(&self, p: u32, q: u32) -> Option<usize>
        requires one { p < MAX_PARTITIONS }
        requires other { q < MAX_PARTITIONS }
        ensures { MatchOption result (NoClash self.now p q) (IsFirstClash self.now p q) }
    {
        let mut first = self.rows.bits_apart(
            fore_row(self.others, p),
            back_row(self.others, q),
            fore_row(self.others, q),
            back_row(self.others, p),
        );
        while first < self.invs.len() {
            let clashes = self.clashes_at(p, q, first / WORD_BITS);
            if clashes != 0 {
                return Some(first + clashes.trailing_zeros() as usize);
            }
            first += WORD_BITS;
        }
        None
    }
}
