//! Where each row stands: the masks, and then for each id a row of what is met and a row of what is ahead. The rows of ids
//! that never come into use are last, and `Rows` writes no memory for them.
ghost use Rattle.std.specs.Prelude.{◌≡◌, ◌+◌, ◌≤◌};
ghost use Rattle.clashes.specs.Layout.{ids_from, fore_row, back_row, enters_row, stays_row, falls_row, row_count};
ghost use Rattle.limits.specs.declared.TheConstants.{LAST_TYPE};

use limits::MAX_PARTITIONS;

/// How many ids have rows.
pub(crate) const IDS: usize = MAX_PARTITIONS as usize;

/// The row of the invariants that INITIAL brings into their critical state.
pub(crate) const START: usize = 0;

/// The row of the invariants whose critical state is the bad one.
pub(crate) const BAD: usize = 1;

/// The first mask of the first type.
pub(crate) const FIRST_MASK: usize = 2;

/// How many masks a type has.
pub(crate) const MASKS: usize = 3;

/// The first row of the first id, if the last masks are those of `others`.
pub(crate) fn ids_from(others: u16) -> usize
    requires { others ≤ LAST_TYPE + 1 }
    ensures { result ≡ ids_from others }
{
    FIRST_MASK + (usize::from(others) + 1) * MASKS
}

/// The row that says which invariants' critical states meet the id.
pub(crate) fn fore_row(others: u16, p: u32) -> usize
    requires { others ≤ LAST_TYPE + 1 }
    ensures { result ≡ fore_row others p }
{
    ids_from(others) + p as usize * 2
}

/// The row that says for which invariants the bad end is ahead of the id.
pub(crate) fn back_row(others: u16, p: u32) -> usize
    requires { others ≤ LAST_TYPE + 1 }
    ensures { result ≡ back_row others p }
{
    ids_from(others) + p as usize * 2 + 1
}

/// The row of the invariants that the type brings into their critical state.
pub(crate) fn enters_row(x: u16) -> usize
    requires { x ≤ LAST_TYPE + 1 }
    ensures { result ≡ enters_row x }
{
    FIRST_MASK + usize::from(x) * MASKS
}

/// The row of the invariants that the type leaves in their critical state.
pub(crate) fn stays_row(x: u16) -> usize
    requires { x ≤ LAST_TYPE + 1 }
    ensures { result ≡ stays_row x }
{
    FIRST_MASK + usize::from(x) * MASKS + 1
}

/// The row of the invariants that the type brings from their critical state into their bad one.
pub(crate) fn falls_row(x: u16) -> usize
    requires { x ≤ LAST_TYPE + 1 }
    ensures { result ≡ falls_row x }
{
    FIRST_MASK + usize::from(x) * MASKS + 2
}

/// How many rows there are, if the last masks are those of `others`.
pub(crate) fn row_count(others: u16) -> usize
    requires { others ≤ LAST_TYPE + 1 }
    ensures { result ≡ row_count others }
{
    ids_from(others) + 2 * IDS
}
