//! Which row of the table says what. The rows that are the same for each graph come first. Those of the labels follow in the
//! order of the ids: the rows of ids that never come into use are last, and `Rows` writes no memory for them.
ghost use Rattle.std.specs.Prelude.{◌≡◌, ◌≤◌, ◌<◌, ◌+◌, ◌*◌};
ghost use Rattle.limits.specs.declared.TheConstants.{LAST_TYPE, MAX_PARTITIONS};
ghost use Rattle.labelling.specs.Layout.{labels_from, label_row, bad_row, first_row, moves_row, move_row, row_count};

use limits::MAX_PARTITIONS;

/// How many states a monitor has, and how many phases.
pub(crate) const STATES: usize = 3;

/// How many bits a word has: one for each of as many invariants.
pub(crate) const WORD_BITS: usize = 64;

/// The last phase.
pub(crate) const LAST_PHASE: u8 = 2;

/// How many rows say which phases are found: one for each id and phase. They are the last rows.
pub(crate) const LABEL_ROWS: usize = MAX_PARTITIONS as usize * STATES;

/// The row of the invariants for which a bad phase is found at TERMINAL. The rows of the bad phases are before it, and are
/// the first rows.
pub(crate) const BROKEN_ROW: usize = STATES;

/// The first of the rows that say in which phase monitors are at INITIAL.
pub(crate) const FIRST_ROWS: usize = BROKEN_ROW + 1;

/// The first of the rows that say what a type does to a phase.
pub(crate) const MOVE_ROWS: usize = FIRST_ROWS + STATES;

/// How many of these rows a type has: one for phase 0, which stays or becomes 1, and one for each phase that 1 becomes.
/// Nothing leaves phase 2.
pub(crate) const MOVES: usize = 4;

/// The first of the rows that say which phases are found, if `bound` is the last type that has rows of its own.
pub(crate) fn labels_from(bound: usize) -> usize
    requires { bound ≤ LAST_TYPE + 1 }
    ensures { result ≡ labels_from bound }
{
    MOVE_ROWS + (bound + 1) * MOVES
}

/// How many rows there are.
pub(crate) fn row_count(bound: usize) -> usize
    requires { bound ≤ LAST_TYPE + 1 }
    ensures { result ≡ row_count bound }
{
    labels_from(bound) + LABEL_ROWS
}

/// The row of the invariants for which the phase is found at p.
pub(crate) fn label_row(bound: usize, p: u32, phase: u8) -> usize
    requires bound { bound ≤ LAST_TYPE + 1 }
    requires id { p < MAX_PARTITIONS }
    requires phase { phase < STATES }
    ensures value { result ≡ label_row bound p phase }
    ensures within { (labels_from bound ≤ result) × (result < row_count bound) }
{
    labels_from(bound) + p as usize * STATES + phase as usize
}

/// The row of the invariants whose bad phase this is.
pub(crate) fn bad_row(phase: u8) -> usize
    requires { phase < STATES }
    ensures value { result ≡ bad_row phase }
    ensures within { result < BROKEN_ROW }
{
    phase as usize
}

/// The row of the invariants whose monitors are in this phase at INITIAL.
pub(crate) fn first_row(phase: u8) -> usize
    requires { phase < STATES }
    ensures value { result ≡ first_row phase }
    ensures within { (FIRST_ROWS ≤ result) × (result < MOVE_ROWS) }
{
    FIRST_ROWS + phase as usize
}

/// The first row of the moves at a type.
pub(crate) fn moves_row(typ: usize) -> usize
    requires { typ ≤ LAST_TYPE + 1 }
    ensures value { result ≡ moves_row typ }
    ensures within { (MOVE_ROWS ≤ result) × (result + MOVES ≤ MOVE_ROWS + (typ + 1) * MOVES) }
{
    MOVE_ROWS + typ * MOVES
}

/// The row of the move from `phase` to `next` at a type. If the two differ, it has the invariants for which the move is
/// made. If they are the same, it has those for which it is not made. One row serves both moves from phase 0.
pub(crate) fn move_row(typ: usize, phase: u8, next: u8) -> usize
    requires typ { typ ≤ LAST_TYPE + 1 }
    requires next { next < STATES }
    ensures value { result ≡ move_row typ phase next }
    ensures within { (MOVE_ROWS ≤ result) × (result < MOVE_ROWS + (typ + 1) * MOVES) }
{
    if phase == 0 {
        return moves_row(typ);
    }
    moves_row(typ) + next as usize + 1
}
