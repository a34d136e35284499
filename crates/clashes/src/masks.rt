//! The masks, which say what each type does to each invariant.
ghost use Rattle.std.specs.Prelude.{◌≡◌, ◌≢◌, ◌⊎◌, ◌+◌, ◌<◌, ◌≤◌, ℕ, true, false, drop, length, slice_set};
ghost use Rattle.limits.specs.declared.TheConstants.{LAST_TYPE};
ghost use Rattle.bit_rows.specs.Tables.{row_at, KeepsShape, HasShape};
ghost use Rattle.clashes.specs.declared.places.TheConstants.{START, BAD, FIRST_MASK};
ghost use Rattle.clashes.specs.Rules.{enters, stays, falls, starts, is_bad_itself, AreNamedBelow, AreNamedUpTo};
ghost use Rattle.clashes.specs.Layout.{enters_row, stays_row, falls_row, ids_from, row_count, HasPlace, IsIdle, IsColumn, IsMasked, AreColumns, IsKept, IsLaid};
ghost use Rattle.clashes.specs.Marks.{on};

use crate::places::{BAD, START, enters_row, falls_row, stays_row};
use crate::rules::{enters, falls, is_bad_itself, starts, stays};
use bit_rows::Rows;
use invariants::Invariant;

/// The first number above all that the invariants name.
pub(crate) fn first_unnamed(invs: &[Invariant]) -> u16
    requires { AreNamedUpTo LAST_TYPE invs.now }
    ensures within { result ≤ LAST_TYPE + 1 }
    ensures named { AreNamedBelow result invs.now }
{
    let mut unnamed = 0;
    for inv in invs {
        unnamed = above(unnamed, inv.a.max(inv.b));
    }
    unnamed
}

/// The greater of `unnamed` and the number after `number`.
fn above(unnamed: u16, number: u16) -> u16
    requires { number ≤ LAST_TYPE }
    ensures within { unnamed ≤ LAST_TYPE + 1 → result ≤ LAST_TYPE + 1 }
    ensures above { number < result }
    ensures more { unnamed ≤ result }
{
    unnamed.max(number + 1)
}

/// Writes the masks of all invariants, unless they are written already. The rows of ids stay.
#[inline]
pub(crate) fn complete_masks(rows: &mut Rows, masked: &mut bool, others: u16, invs: &[Invariant])
    requires { IsKept invs.now others masked.old rows.old }
    ensures masked { masked.new ≡ true }
    ensures laid { IsLaid invs.now others rows.new }
    ensures ids { drop (ids_from others) rows.new ≡ drop (ids_from others) rows.old }
{
    if *masked {
        return;
    }
    put_columns(rows, others, invs);
    *masked = true;
}

/// Writes the masks of all invariants into a table in which nothing is on.
fn put_columns(rows: &mut Rows, others: u16, invs: &[Invariant])
    requires low { others ≤ LAST_TYPE + 1 }
    requires named { AreNamedBelow others invs.now }
    requires shape { HasShape rows.old (row_count others) (length invs.now) }
    requires blank { (r k : ℕ) → on rows.old r k ≡ false }
    ensures shape { HasShape rows.new (row_count others) (length invs.now) }
    ensures columns { AreColumns rows.new others invs.now (length invs.now) }
    ensures ids { (r k : ℕ) → ids_from others ≤ r → on rows.new r k ≡ false }
{
    put_idle(rows, others, invs.len());
    for (k, inv) in invs.iter().enumerate() {
        put_column(rows, others, k, *inv);
    }
}

/// Writes, into a table in which nothing is on, that each type leaves each of `count` invariants as it is.
fn put_idle(rows: &mut Rows, others: u16, count: usize)
    requires low { others ≤ LAST_TYPE + 1 }
    requires shape { HasShape rows.old (row_count others) count }
    requires blank { (r k : ℕ) → on rows.old r k ≡ false }
    ensures shape { KeepsShape rows.old rows.new }
    ensures idle { (k : ℕ) → k < count → IsIdle rows.new (others + 1) k }
    ensures blank { (r k : ℕ) → r < FIRST_MASK → on rows.new r k ≡ false }
    ensures ids { (r k : ℕ) → ids_from others ≤ r → on rows.new r k ≡ false }
{
    let last = stays_row(others);
    turn_on(rows, last, count);
    for x in 0..others {
        rows.copy_into(stays_row(x), last);
    }
}

/// Turns all bits of row `r` on. The other rows stay.
fn turn_on(rows: &mut Rows, r: usize, count: usize)
    requires { (n : ℕ) × (r < n) × HasShape rows.old n count }
    ensures shape { KeepsShape rows.old rows.new }
    ensures here { (k : ℕ) → k < count → on rows.new r k ≡ true }
    ensures others { (s k : ℕ) → s ≢ r → on rows.new s k ≡ on rows.old s k }
{
    for k in 0..count {
        rows.put(r, k, true);
    }
}

/// Writes what each type does to the invariant with number `k`. So far the table says that each type leaves it as it
/// is, and says nothing of its ends.
fn put_column(rows: &mut Rows, others: u16, k: usize, inv: Invariant)
    requires low { others ≤ LAST_TYPE + 1 }
    requires named { (inv.a < others) × (inv.b < others) }
    requires place { HasPlace rows.old others k }
    requires idle { IsIdle rows.old (others + 1) k }
    requires blank { (r : ℕ) → r < FIRST_MASK → on rows.old r k ≡ false }
    ensures column { IsColumn rows.new (others + 1) k inv }
    ensures ids { (r j : ℕ) → ids_from others ≤ r → on rows.new r j ≡ on rows.old r j }
    ensures places { (r j : ℕ) → j ≢ k → on rows.new r j ≡ on rows.old r j }
    ensures shape { KeepsShape rows.old rows.new }
{
    put_ends(rows, others, k, inv);
    put_masks(rows, others, k, inv, inv.a);
    put_masks(rows, others, k, inv, inv.b);
}

/// Writes whether INITIAL brings the invariant with number `k` into its critical state, and whether that is the bad one.
fn put_ends(rows: &mut Rows, others: u16, k: usize, inv: Invariant)
    requires place { HasPlace rows.old others k }
    requires blank { (r : ℕ) → r < FIRST_MASK → on rows.old r k ≡ false }
    ensures starts { on rows.new START k ≡ starts inv }
    ensures bad { on rows.new BAD k ≡ is_bad_itself inv }

    // The masks and the other invariants stay.
    ensures masks { (r j : ℕ) → FIRST_MASK ≤ r → on rows.new r j ≡ on rows.old r j }
    ensures places { (r j : ℕ) → j ≢ k → on rows.new r j ≡ on rows.old r j }
    ensures shape { KeepsShape rows.old rows.new }
{
    put_unless(rows, START, k, starts(inv), false);
    put_unless(rows, BAD, k, is_bad_itself(inv), false);
}

/// Writes what the type `x` does to the invariant with number `k`.
#[inline]
fn put_masks(rows: &mut Rows, others: u16, k: usize, inv: Invariant, x: u16)
    requires low { others ≤ LAST_TYPE + 1 }
    requires typ { x ≤ others }
    requires place { HasPlace rows.old others k }

    // Each bit says so far that the type leaves the invariant as it is, or is right already.
    requires enters { (on rows.old (enters_row x) k ≡ false)
        ⊎ (on rows.old (enters_row x) k ≡ enters inv x) }
    requires stays { (on rows.old (stays_row x) k ≡ true)
        ⊎ (on rows.old (stays_row x) k ≡ stays inv x) }
    requires falls { (on rows.old (falls_row x) k ≡ false)
        ⊎ (on rows.old (falls_row x) k ≡ falls inv x) }

    // The three bits are right, and all others stay.
    ensures masks { IsMasked rows.old rows.new x k inv }
    ensures shape { KeepsShape rows.old rows.new }
{
    put_unless(rows, enters_row(x), k, enters(inv, x), false);
    put_unless(rows, stays_row(x), k, stays(inv, x), true);
    put_unless(rows, falls_row(x), k, falls(inv, x), false);
}

/// Makes bit `k` of row `r` what `bit` says. So far it is `usual`, or right already.
#[inline]
fn put_unless(rows: &mut Rows, r: usize, k: usize, bit: bool, usual: bool)
    requires row { r < length rows.old }
    requires place { k < length (row_at rows.old r) }
    requires so_far { (on rows.old r k ≡ usual) ⊎ (on rows.old r k ≡ bit) }
    ensures rows { rows.new ≡ slice_set rows.old r (slice_set (row_at rows.old r) k bit) }
    ensures shape { KeepsShape rows.old rows.new }
{
    if bit != usual {
        rows.put(r, k, bit);
    }
}
