//! The rows, and what is done with them.
ghost use Rattle.std.specs.Prelude.{◌≡◌, ◌≢◌, ◌==◌, ◌&&◌, ◌||◌, ℕ, ◌+◌, ◌*◌, ◌%◌, ◌^◌, ◌<◌, ◌≤◌, ◌↔◌, false, length, replicate, slice_set, IfOk, IsTrue, MatchOption};
ghost use Rattle.std.specs.Bool.{OnTrue, OnFalse};
ghost use Rattle.std.specs.Int.{bit_at};
ghost use Rattle.bit_rows.specs.Tables.{row_at, is_set, HasShape, KeepsShape, IsBlank, IsFirstSet, IsNextSet, either, both, without};

use crate::kernels::{
    LANES, and_not_words, and_words, apart_blocks, clear_words, copy_words, first_word, from_place,
    has_bit, or_and_not_words, or_and_words, or_words, reach, with_bit, word_at,
};
use std::alloc::{AllocError, Global};
use std::marker::Model;

/// The bits of a word.
const WORD_BITS: usize = 64;

/// The bits of the words that are compared at once.
const BLOCK_BITS: usize = LANES * WORD_BITS;

/// Rows of bits, each with the same number of bits. Contracts see them as a list of rows, and a row as the list of its
/// truth values. Rows and places count from 0.
///
/// The memory of all rows is taken when they are made, and written only as far as the last row that has been written so
/// far: the words of the rows behind it count as 0.
#[derive(Drop)]
pub struct Rows {
    /// The words of the first rows. The capacity is that of all rows.
    words: Vec<u64>,
    width: usize,
    rows: usize,
    bits: usize,
}

impl Model for Rows {
    ghost use Rattle.std.specs.Prelude.{List, Bool, ◌*◌, ◌≤◌, vec_capacity};
    ghost use Rattle.bit_rows.specs.Tables.{table_of, IsLaidOut};

    ghost Value = { List (List Bool) };

    ghost view = { λ s. table_of s.words.items s.width s.rows s.bits };

    ghost invariant = { λ s.
        IsLaidOut s.words.items s.width s.rows s.bits × (s.rows * s.width ≤ vec_capacity s.words) };
}

impl Rows {
    /// This many rows of this many bits, all of them off. Rows times bits are at most 2^33. Each row takes whole words
    /// of 64 bits. Only this call allocates; `AllocError` is returned if there is not enough memory.
    pub fn make(alloc: Global, rows: usize, bits: usize) -> Result<Rows, AllocError>
        requires { rows * bits ≤ 2 ^ 33 }
        ensures rows { IfOk result (λ made. made ≡ replicate rows (replicate bits false)) }
        ensures shape { IfOk result (λ made. HasShape made rows bits) }
    {
        let width = bits.div_ceil(WORD_BITS);
        let words = Vec::with_capacity(alloc, rows * width)?;
        Ok(Rows {
            words,
            width,
            rows,
            bits,
        })
    }

    /// Whether bit `i` of row `r` is on.
    pub fn get(&self, r: usize, i: usize) -> bool
        requires row { r < length self.now }
        requires place { i < length (row_at self.now r) }
        ensures { result ≡ is_set (row_at self.now r) i }
    {
        let place = r * self.width + i / WORD_BITS;
        has_bit(
            word_at(self.words.as_slice(), place),
            (i % WORD_BITS) as u32,
        )
    }

    /// The 64 bits of row `r` from bit `64 * place` on, as a word: the first of them is its lowest bit. Past the end of the
    /// row they are off.
    pub fn word(&self, r: usize, place: usize) -> u64
        requires row { r < length self.now }
        requires place { place * 64 < length (row_at self.now r) }
        ensures { (i : ℕ) → i < 64
            → (bit_at result i == 1) ≡ is_set (row_at self.now r) (place * 64 + i) }
    {
        word_at(self.words.as_slice(), r * self.width + place)
    }

    /// Turns bit `i` of row `r` on or off. All other bits stay.
    pub fn put(&mut self, r: usize, i: usize, on: bool)
        requires row { r < length self.old }
        requires place { i < length (row_at self.old r) }
        ensures rows { self.new ≡ slice_set self.old r (slice_set (row_at self.old r) i on) }
        ensures shape { KeepsShape self.old self.new }
    {
        reach(&mut self.words, self.width, r);
        let place = r * self.width + i / WORD_BITS;
        self.words[place] = with_bit(self.words[place], (i % WORD_BITS) as u32, on);
    }

    /// Turns all bits of row `r` off. The other rows stay.
    pub fn clear(&mut self, r: usize)
        requires { r < length self.old }
        ensures rows { self.new ≡ slice_set self.old r
            (replicate (length (row_at self.old r)) false) }
        ensures shape { KeepsShape self.old self.new }
    {
        let start = r * self.width;
        if start + self.width > self.words.len() {
            return;
        }
        clear_words(self.words.as_mut_slice(), start, self.width);
    }

    /// Whether the bits of row `r` are all off.
    pub fn is_zero(&self, r: usize) -> bool
        requires { r < length self.now }
        ensures { IsTrue result ↔ IsBlank (row_at self.now r) }
    {
        let words = self.words.as_slice();
        let start = r * self.width;
        if start + self.width > words.len() {
            return true;
        }
        first_word(words, start, self.width) == self.width
    }

    /// The place of the first bit of row `r` that is on; `None` if all are off.
    pub fn first_set(&self, r: usize) -> Option<usize>
        requires { r < length self.now }
        ensures { MatchOption result (IsBlank (row_at self.now r))
            (IsFirstSet (row_at self.now r)) }
    {
        let words = self.words.as_slice();
        let start = r * self.width;
        if start + self.width > words.len() {
            return None;
        }
        let k = first_word(words, start, self.width);
        if k == self.width {
            return None;
        }
        Some(k * WORD_BITS + words[start + k].trailing_zeros() as usize)
    }

    /// The place of the first bit of row `r` that is on, at place `from` or after it; `None` if these are all off.
    /// `from` may lie past the end of the row.
    pub fn next_set(&self, r: usize, from: usize) -> Option<usize>
        requires { r < length self.now }
        ensures { MatchOption result ((i : ℕ) → from ≤ i → is_set (row_at self.now r) i ≡ false)
            (λ i. IsNextSet (row_at self.now r) from i) }
    {
        if from >= self.bits {
            return None;
        }
        let words = self.words.as_slice();
        let start = r * self.width;
        if start + self.width > words.len() {
            return None;
        }
        let here = from / WORD_BITS;
        let rest = from_place(words[start + here], (from % WORD_BITS) as u32);
        if rest != 0 {
            return Some(here * WORD_BITS + rest.trailing_zeros() as usize);
        }
        let next = here + 1;
        let k = next + first_word(words, start + next, self.width - next);
        if k == self.width {
            return None;
        }
        Some(k * WORD_BITS + words[start + k].trailing_zeros() as usize)
    }

    /// A number of bits, from the first, among which none is on both in row `a` and in row `b`, or both in row `c` and in row
    /// `d`. It is a multiple of 64. Bits behind these may be like them.
    pub fn bits_apart(&self, a: usize, b: usize, c: usize, d: usize) -> usize
        requires a_row { a < length self.now }
        requires b_row { b < length self.now }
        requires c_row { c < length self.now }
        requires d_row { d < length self.now }
        ensures whole { result % 64 ≡ 0 }
        ensures within { result ≤ length (row_at self.now a) }
        ensures apart { (i : ℕ) → i < result → ((is_set (row_at self.now a) i && is_set (row_at self.now b) i)
            || (is_set (row_at self.now c) i && is_set (row_at self.now d) i)) ≡ false }
    {
        let words = self.words.as_slice();
        let last = a.max(b).max(c.max(d));
        if last * self.width + self.width > words.len() {
            return 0;
        }
        let blocks = apart_blocks(
            words,
            a * self.width,
            b * self.width,
            c * self.width,
            d * self.width,
            self.bits / BLOCK_BITS,
        );
        blocks * BLOCK_BITS
    }

    /// Makes row `to` the same as row `from`. The two rows are different. All rows but `to` stay.
    pub fn copy_into(&mut self, to: usize, from: usize)
        requires to_row { to < length self.old }
        requires from_row { from < length self.old }
        requires apart { to ≢ from }
        ensures rows { self.new ≡ slice_set self.old to (row_at self.old from) }
        ensures shape { KeepsShape self.old self.new }
    {
        reach(&mut self.words, self.width, to.max(from));
        copy_words(
            self.words.as_mut_slice(),
            to * self.width,
            from * self.width,
            self.width,
        );
    }

    /// Turns on the bits of row `to` that are on in row `from`, and returns whether that changed row `to`. The two rows
    /// are different. All rows but `to` stay.
    pub fn or_into(&mut self, to: usize, from: usize) -> bool
        requires to_row { to < length self.old }
        requires from_row { from < length self.old }
        requires apart { to ≢ from }

        // The rows after the call, and what the result says about them.
        ensures rows { self.new ≡ slice_set self.old to
            (either (row_at self.old to) (row_at self.old from)) }
        ensures shape { KeepsShape self.old self.new }
        ensures stays { OnFalse result (self.new ≡ self.old) }
        ensures changes { OnTrue result (self.new ≢ self.old) }
    {
        reach(&mut self.words, self.width, to.max(from));
        or_words(
            self.words.as_mut_slice(),
            to * self.width,
            from * self.width,
            self.width,
        )
    }

    /// Turns off the bits of row `to` that are off in row `from`. The two rows are different. All rows but `to` stay.
    pub fn and_into(&mut self, to: usize, from: usize)
        requires to_row { to < length self.old }
        requires from_row { from < length self.old }
        requires apart { to ≢ from }
        ensures rows { self.new ≡ slice_set self.old to
            (both (row_at self.old to) (row_at self.old from)) }
        ensures shape { KeepsShape self.old self.new }
    {
        reach(&mut self.words, self.width, to.max(from));
        and_words(
            self.words.as_mut_slice(),
            to * self.width,
            from * self.width,
            self.width,
        );
    }

    /// Turns off the bits of row `to` that are on in row `from`. The two rows are different. All rows but `to` stay.
    pub fn and_not_into(&mut self, to: usize, from: usize)
        requires to_row { to < length self.old }
        requires from_row { from < length self.old }
        requires apart { to ≢ from }
        ensures rows { self.new ≡ slice_set self.old to
            (without (row_at self.old to) (row_at self.old from)) }
        ensures shape { KeepsShape self.old self.new }
    {
        reach(&mut self.words, self.width, to.max(from));
        and_not_words(
            self.words.as_mut_slice(),
            to * self.width,
            from * self.width,
            self.width,
        );
    }

    /// Turns on the bits of row `to` that are on both in row `a` and in row `mask`, and returns whether that changed
    /// row `to`. Neither is `to`; they may be the same row. All rows but `to` stay.
    pub fn or_and_into(&mut self, to: usize, a: usize, mask: usize) -> bool
        requires to_row { to < length self.old }
        requires a_row { a < length self.old }
        requires mask_row { mask < length self.old }
        requires a_apart { to ≢ a }
        requires mask_apart { to ≢ mask }

        // The rows after the call, and what the result says about them.
        ensures rows { self.new ≡ slice_set self.old to
            (either (row_at self.old to) (both (row_at self.old a) (row_at self.old mask))) }
        ensures shape { KeepsShape self.old self.new }
        ensures stays { OnFalse result (self.new ≡ self.old) }
        ensures changes { OnTrue result (self.new ≢ self.old) }
    {
        reach(&mut self.words, self.width, to.max(a).max(mask));
        or_and_words(
            self.words.as_mut_slice(),
            to * self.width,
            a * self.width,
            mask * self.width,
            self.width,
        )
    }

    /// Turns on the bits of row `to` that are on in row `a` and off in row `mask`, and returns whether that changed row
    /// `to`. Neither is `to`; they may be the same row. All rows but `to` stay.
    pub fn or_and_not_into(&mut self, to: usize, a: usize, mask: usize) -> bool
        requires to_row { to < length self.old }
        requires a_row { a < length self.old }
        requires mask_row { mask < length self.old }
        requires a_apart { to ≢ a }
        requires mask_apart { to ≢ mask }

        // The rows after the call, and what the result says about them.
        ensures rows { self.new ≡ slice_set self.old to
            (either (row_at self.old to) (without (row_at self.old a) (row_at self.old mask))) }
        ensures shape { KeepsShape self.old self.new }
        ensures stays { OnFalse result (self.new ≡ self.old) }
        ensures changes { OnTrue result (self.new ≢ self.old) }
    {
        reach(&mut self.words, self.width, to.max(a).max(mask));
        or_and_not_words(
            self.words.as_mut_slice(),
            to * self.width,
            a * self.width,
            mask * self.width,
            self.width,
        )
    }
}
