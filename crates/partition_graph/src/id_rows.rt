//! Rows of bits for ids, in which words of bits that are all off are passed over.
ghost use Rattle.std.specs.Prelude.{◌≡◌, ℕ, ◌+◌, ◌*◌, ◌/◌, ◌<◌, ◌≤◌, false, length, replicate, IfOk, MatchOption};
ghost use Rattle.limits.specs.declared.TheConstants.{MAX_PARTITIONS};
ghost use Rattle.bit_rows.specs.Tables.{row_at, is_set, IsNextSet};
ghost use Rattle.partition_graph.specs.Marks.{HasIdRows, IsWithBit};
ghost use Rattle.partition_graph.specs.Filled.{IsTurned};
ghost use Rattle.partition_graph.specs.NeighbourWords.{ArePlaces, IsWordOf};
ghost use Rattle.partition_graph.specs.declared.id_rows.TheConstants.{ID_WORDS};

use bit_rows::Rows;
use limits::MAX_PARTITIONS;
use std::alloc::{AllocError, Global};
use std::marker::Model;

/// How many rows there are, and how many bits each of them has.
const IDS: usize = MAX_PARTITIONS as usize;

/// The bits of a word.
pub const WORD_BITS: usize = 64;

/// How many words have a bit for each id.
pub const ID_WORDS: usize = IDS / WORD_BITS;

/// A row of bits for each id, with a bit for each id. Contracts see them as `Rows` are seen: as a list of rows, and a row as
/// the list of its truth values.
#[derive(Drop)]
pub struct IdRows {
    rows: Rows,
    /// Which words of each row may have bits that are on.
    filled: Rows,
}

impl Model for IdRows {
    ghost use Rattle.std.specs.Prelude.{List, Bool};
    ghost use Rattle.partition_graph.specs.Filled.{IsFilled};

    ghost Value = { List (List Bool) };

    ghost view = { λ s. s.rows };

    ghost invariant = { λ s. IsFilled s.rows s.filled };
}

impl IdRows {
    /// Rows with all bits off. Only this call allocates; `AllocError` is returned if there is not enough memory.
    pub fn make(alloc: Global) -> Result<IdRows, AllocError>
        ensures rows { IfOk result
            (λ made. made ≡ replicate MAX_PARTITIONS (replicate MAX_PARTITIONS false)) }
        ensures shape { IfOk result (λ made. HasIdRows made) }
    {
        let rows = Rows::make(alloc, IDS, IDS)?;
        let filled = Rows::make(alloc, IDS, ID_WORDS)?;
        Ok(IdRows { rows, filled })
    }

    /// Turns bit `i` of row `r` on or off. All other bits stay.
    pub fn put(&mut self, r: usize, i: usize, on: bool)
        requires row { r < MAX_PARTITIONS }
        requires place { i < MAX_PARTITIONS }
        ensures { IsWithBit r i on self.old self.new }
    {
        turn(&mut self.rows, r, i, on);
        let place = i / WORD_BITS;
        turn(&mut self.filled, r, place, self.rows.word(r, place) != 0);
    }

    /// The 64 bits of row `r` from bit `64 * place` on, as a word: the first of them is its lowest bit.
    #[inline]
    pub fn word(&self, r: usize, place: usize) -> u64
        requires row { r < MAX_PARTITIONS }
        requires place { place < ID_WORDS }
        ensures { IsWordOf (is_set (row_at self.now r)) place result }
    {
        self.rows.word(r, place)
    }

    /// A word with a bit for each word of row `r`, the first as the lowest. Where it is off, that word has no bit that is on.
    #[inline]
    pub fn places(&self, r: usize) -> u64
        requires { r < MAX_PARTITIONS }
        ensures { ArePlaces (is_set (row_at self.now r)) result }
    {
        self.filled.word(r, 0)
    }

    /// The place of the first bit of row `r` that is on, at place `from` or after it; `None` if these are all off.
    pub fn next_set(&self, r: usize, from: usize) -> Option<usize>
        requires { r < MAX_PARTITIONS }
        ensures { MatchOption result ((i : ℕ) → from ≤ i → is_set (row_at self.now r) i ≡ false)
            (λ i. IsNextSet (row_at self.now r) from i) }
    {
        let rows = &self.rows;
        if from >= IDS {
            return None;
        }
        if let Some(i) = next_in_word(rows, r, from) {
            return Some(i);
        }
        let mut place = from / WORD_BITS + 1;
        while place < ID_WORDS {
            let Some(filled) = next_in_word(&self.filled, r, place) else {
                return None;
            };
            if let Some(i) = next_in_word(rows, r, filled * WORD_BITS) {
                return Some(i);
            }
            place = filled + 1;
        }
        None
    }
}

/// The place of the first bit of a row that is on, at place `from` or after it. `None` if no bit is on from there to the end
/// of the word.
fn next_in_word(rows: &Rows, r: usize, from: usize) -> Option<usize>
    requires row { r < length rows.now }
    requires place { from < length (row_at rows.now r) }
    requires few { length (row_at rows.now r) ≤ MAX_PARTITIONS }
    ensures { MatchOption result
        ((i : ℕ) → from ≤ i → i < from / WORD_BITS * WORD_BITS + WORD_BITS
        → is_set (row_at rows.now r) i ≡ false)
        (λ i. IsNextSet (row_at rows.now r) from i) }
{
    let rest = rows.word(r, from / WORD_BITS) >> (from % WORD_BITS);
    if rest == 0 {
        return None;
    }
    Some(from + rest.trailing_zeros() as usize)
}

/// Turns place `i` of row `r` on or off.
fn turn(rows: &mut Rows, r: usize, i: usize, on: bool)
    requires row { r < length rows.old }
    requires place { i < length (row_at rows.old r) }
    ensures { IsTurned r i on rows.old rows.new }
{
    rows.put(r, i, on);
}
