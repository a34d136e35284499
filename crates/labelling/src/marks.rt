//! The rows that are the same for each graph.
ghost use Rattle.std.specs.Prelude.{◌≡◌, ◌≢◌, ◌≤◌, ◌<◌, ◌+◌, ◌*◌, ℕ, Bool, true, false, length, slice_get, slice_index_or, slice_set, Some};
ghost use Rattle.bit_rows.specs.Tables.{row_at, HasShape, KeepsShape};
ghost use Rattle.invariants.specs.declared.Invariant.{Invariant};
ghost use Rattle.labelling.specs.declared.layout.TheConstants.{MOVES, MOVE_ROWS};
ghost use Rattle.limits.specs.declared.TheConstants.{LAST_TYPE};
ghost use Rattle.labelling.specs.Layout.{is_on, is_move, moves_row, AreMarked, AreNamedBelow, row_count, IsAllOff, IsApart, IsFree, IsMarked};

use crate::layout::{MOVES, bad_row, first_row, moves_row};
use crate::phases::{first_phase, turn};
use bit_rows::Rows;
use invariants::{Invariant, Monitor};

/// A number that is greater than those of all types that the invariants name.
pub(crate) fn bound_of(invs: &[Invariant]) -> usize
    requires { (k : ℕ) (inv : Invariant) → slice_get invs.now k ≡ Some inv
        → (inv.a ≤ LAST_TYPE) × (inv.b ≤ LAST_TYPE) }
    ensures named { AreNamedBelow result invs.now }
    ensures limit { result ≤ LAST_TYPE + 1 }
{
    let mut bound = 0;
    for inv in invs {
        bound = bound.max(usize::from(inv.a.max(inv.b)) + 1);
    }
    bound
}

/// Marks the invariants in rows in which nothing is on.
pub(crate) fn mark_all(rows: &mut Rows, invs: &[Invariant], bound: usize)
    requires limit { bound ≤ LAST_TYPE + 1 }
    requires named { AreNamedBelow bound invs.now }
    requires shape { HasShape rows.old (row_count bound) (length invs.now) }
    requires blank { IsAllOff rows.old }
    ensures shape { HasShape rows.new (row_count bound) (length invs.now) }
    ensures marked { AreMarked bound invs.now rows.new }
    ensures free { (r k : ℕ) → IsFree bound r → is_on rows.new r k ≡ false }
{
    for (k, inv) in invs.iter().enumerate() {
        mark(rows, bound, invs.len(), k, *inv);
    }
}

/// Marks the invariant with number k.
fn mark(rows: &mut Rows, bound: usize, count: usize, k: usize, inv: Invariant)
    requires limit { bound ≤ LAST_TYPE + 1 }
    requires named { (inv.a < bound) × (inv.b < bound) }
    requires shape { HasShape rows.old (row_count bound) count }
    requires number { k < count }
    requires blank { (r : ℕ) → is_on rows.old r k ≡ false }

    // What the rows say: about this invariant what types do to it, and about the others what they said before.
    ensures shape { KeepsShape rows.old rows.new }
    ensures marked { IsMarked bound rows.new k inv }
    ensures free { (r : ℕ) → IsFree bound r → is_on rows.new r k ≡ false }
    ensures others { (r j : ℕ) → j ≢ k → is_on rows.new r j ≡ is_on rows.old r j }
{
    rows.put(first_row(first_phase(inv)), k, true);
    for phase in 0..3 {
        turn_on(rows, bad_row(phase), k, Monitor::bad(inv, phase));
    }
    mark_moves(rows, count, k, inv, inv.a);
    mark_moves(rows, count, k, inv, inv.b);
}

/// Marks what a type does to the phases of the monitor of the invariant with number k.
fn mark_moves(rows: &mut Rows, count: usize, k: usize, inv: Invariant, typ: u16)
    requires named { typ ≤ LAST_TYPE }
    requires shape { (n : ℕ) × (MOVE_ROWS + (typ + 1) * MOVES ≤ n) × HasShape rows.old n count }
    requires number { k < count }

    // The bit of a move that the type does not make is off so far.
    requires off { (m : ℕ) → m < MOVES → is_move inv typ m ≡ false
        → is_on rows.old (moves_row typ + m) k ≡ false }

    // What the type does to each phase is marked, and all else stays.
    ensures shape { KeepsShape rows.old rows.new }
    ensures moves { (m : ℕ) → m < MOVES
        → is_on rows.new (moves_row typ + m) k ≡ is_move inv typ m }
    ensures others { (r j : ℕ) → IsApart typ k r j → is_on rows.new r j ≡ is_on rows.old r j }
{
    let moves = moves_at(inv, typ);
    for place in 0..MOVES {
        turn_on(rows, moves_row(usize::from(typ)) + place, k, moves[place]);
    }
}

/// What each row of the moves at a type says about the invariant.
#[inline]
fn moves_at(inv: Invariant, typ: u16) -> [bool; MOVES]
    ensures { (m : ℕ) (d : Bool) → m < MOVES → slice_index_or result m d ≡ is_move inv typ m }
{
    // What the phases 0 and 1 become.
    let zeroth = turn(inv, 0, typ);
    let first = turn(inv, 1, typ);
    [zeroth == 1, first == 0, first != 1, first == 2]
}

/// Turns bit `k` of row `r` on if `on` is true. Otherwise it is off already.
#[inline]
fn turn_on(rows: &mut Rows, r: usize, k: usize, on: bool)
    requires row { r < length rows.old }
    requires place { k < length (row_at rows.old r) }
    requires off { on ≡ false → is_on rows.old r k ≡ false }
    ensures rows { rows.new ≡ slice_set rows.old r (slice_set (row_at rows.old r) k on) }
    ensures shape { KeepsShape rows.old rows.new }
{
    if on {
        rows.put(r, k, true);
    }
}
