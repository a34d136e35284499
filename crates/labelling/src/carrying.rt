//! What is done with whole rows.
ghost use Rattle.std.specs.Prelude.{◌≡◌, ◌≢◌, ◌≤◌, ◌<◌, ◌+◌, ◌↔◌, ℕ, true, false, length};
ghost use Rattle.limits.specs.declared.TheConstants.{LAST_TYPE, TERMINAL};
ghost use Rattle.bit_rows.specs.Tables.{row_at, HasShape, KeepsShape};
ghost use Rattle.labelling.specs.Carried.{IsPassed};
ghost use Rattle.labelling.specs.Layout.{is_on, label_row, bad_row, row_count};

use crate::layout::{BROKEN_ROW, bad_row, label_row};
use bit_rows::Rows;
use limits::TERMINAL;

/// Turns on in row `to` what passes from row `from` through the mask, and returns whether that changed row `to`. If
/// `back` is true, the mask has what is held back; if it is false, the mask has what passes.
pub(crate) fn pass(rows: &mut Rows, from: usize, to: usize, mask: usize, back: bool) -> bool
    requires shape { HasShape rows.old (length rows.old) (length (row_at rows.old to)) }
    requires from_row { from < length rows.old }
    requires to_row { to < length rows.old }
    requires mask_row { mask < length rows.old }
    requires apart { to ≢ mask }
    ensures { IsPassed rows.old rows.new from to mask back result }
{
    if from == to {
        return false;
    }
    if back {
        return rows.or_and_not_into(to, from, mask);
    }
    rows.or_and_into(to, from, mask)
}

/// Turns on in row `to` what is on in row `from`, and returns whether that changed row `to`.
pub(crate) fn take_up(rows: &mut Rows, from: usize, to: usize) -> bool
    requires shape { HasShape rows.old (length rows.old) (length (row_at rows.old to)) }
    requires from_row { from < length rows.old }
    requires to_row { to < length rows.old }
    ensures { IsPassed rows.old rows.new from to from false result }
{
    if from == to {
        return false;
    }
    rows.or_into(to, from)
}

/// Turns all bits off in the rows from `first` on and below `end`.
pub(crate) fn clear_between(rows: &mut Rows, first: usize, end: usize)
    requires order { first ≤ end }
    requires within { end ≤ length rows.old }
    ensures shape { KeepsShape rows.old rows.new }
    ensures blank { (r k : ℕ) → first ≤ r → r < end → is_on rows.new r k ≡ false }
    ensures before { (r : ℕ) → r < first → row_at rows.new r ≡ row_at rows.old r }
    ensures behind { (r : ℕ) → end ≤ r → row_at rows.new r ≡ row_at rows.old r }
{
    for row in first..end {
        rows.clear(row);
    }
}

/// Notes for which invariants a bad phase is found at TERMINAL.
pub(crate) fn note_broken(rows: &mut Rows, bound: usize)
    requires limit { bound ≤ LAST_TYPE + 1 }
    requires shape { HasShape rows.old (length rows.old) (length (row_at rows.old BROKEN_ROW)) }
    requires room { row_count bound ≤ length rows.old }

    // The row of what is broken is written from scratch, and all others stay.
    ensures shape { KeepsShape rows.old rows.new }
    ensures broken { (k : ℕ) → (is_on rows.new BROKEN_ROW k ≡ true)
        ↔ ((s : ℕ) × (s < 3) × (is_on rows.old (label_row bound TERMINAL s) k ≡ true)
        × (is_on rows.old (bad_row s) k ≡ true)) }
    ensures others { (r : ℕ) → r ≢ BROKEN_ROW → row_at rows.new r ≡ row_at rows.old r }
{
    rows.clear(BROKEN_ROW);
    for state in 0..3 {
        pass(
            rows,
            label_row(bound, TERMINAL, state),
            BROKEN_ROW,
            bad_row(state),
            false,
        );
    }
}
